//! Files to read and a sink to write to, as traits that say what the outside may do, and objects that meet them.
#![tactic(auto)]

mod fault;
mod first_fault;
mod host;
mod memory;
mod outside;
mod steady;

pub use binding_terms::{NoMemory, Text};
pub use fault::{Code, Fault, Refusal, Span};
pub use first_fault::{
    Found, Place, earlier, fault_of, is_told_first, ranks_are_different, ranks_are_places,
};
pub use host::{HostFiles, StdSink};
pub use memory::{CutPut, MemFile, MemFiles, MemSink};
pub use outside::{Files, ReadAnswer, Sink, SinkAnswer};
pub use steady::{SteadyFiles, SteadySink};
