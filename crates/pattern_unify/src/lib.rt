//! Substitutions that make schemes equal.
#![tactic(auto)]

mod arguments;
mod equation;
mod fitting;
mod kept;
pub mod laws;
mod left;
mod moves;
mod patterns;
mod pruning;
mod rows;
mod running;
mod state;
mod steps;
mod turns;
mod unification;
mod unified;
pub mod worked;

pub use equation::Equation;
pub use fitting::fit_into;
pub use unification::unify;
pub use unified::Unified;
