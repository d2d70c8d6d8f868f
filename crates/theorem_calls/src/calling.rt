use rule_schemes::JScheme;
use scheme_terms::{MetaId, Scheme, Subst};
use sqlite_items::Items;

/// An argument of a call.
#[derive(Drop)]
pub enum CallArg {
    /// The judgment of a derivation.
    Tree(JScheme),
    /// A term.
    Syntax(Scheme),
}

/// The instance of a call: how many entries the callee is raised to, the values of its names, and the new name of each further metavariable.
#[derive(Drop)]
pub struct CallInst {
    pub entries: u32,
    pub values: Subst,
    pub fresh: Items<MetaId>,
}

/// Why a call is none.
#[derive(Clone, Copy, Debug, PartialEq, Eq)]
pub enum CallFault {
    /// There are not as many arguments as inputs, or results as outputs.
    WrongCount,
    /// The roots or the entries do not go together.
    RootMismatch,
    /// The argument with this number, counted from 1, is the first that is no instance together with those before it.
    ArgMismatch(u32),
    /// The results are no instance.
    ResultMismatch,
    /// There is not enough memory.
    NoMemory,
}
