//! What no clause says of readings as trees with shared parts, and of raised forms: that the calls answer with ample memory.
#![tactic(auto)]

#[cfg(test)]
mod raising;
#[cfg(test)]
mod readings;
