//! Tests that cross the crates: what no run of the program shows.
#![tactic(auto)]

#[cfg(test)]
mod faults;
#[cfg(test)]
mod places;
#[cfg(test)]
mod readings;
#[cfg(test)]
mod schemes;
#[cfg(test)]
mod shown;
#[cfg(test)]
mod sources;
