//! Steps by a theorem as instances of its statement: what they are, and worked ones. The call that finds them is to come.
#![tactic(auto)]

mod calling;
pub mod worked;

pub use calling::{CallArg, CallFault, CallInst};
