//! What no clause says of the lower libraries: that each call succeeds with ample memory, on values worked out by hand.
#![tactic(auto)]

#[cfg(test)]
mod constants;
#[cfg(test)]
mod derivations;
#[cfg(test)]
mod fitting;
#[cfg(test)]
mod matching;
#[cfg(test)]
mod outside;
#[cfg(test)]
mod printing;
#[cfg(test)]
mod systems;
#[cfg(test)]
mod terms;
#[cfg(test)]
mod tokens;
#[cfg(test)]
mod unifying;
#[cfg(test)]
mod worked;
