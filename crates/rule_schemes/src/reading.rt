use crate::rule::JScheme;
use binding_terms::{CatId, Text};
use scheme_terms::{KnownDecl, MetaDecl, SCtx, Scheme, Scope};
use sqlite_items::Items;

/// What a form is read as.
#[derive(Clone, Copy, Debug, PartialEq, Eq)]
pub enum Want {
    Term(CatId),
    Judgment,
    Context(CatId),
}

/// Whether new names may stand in a form.
#[derive(Clone, Copy, Debug, PartialEq, Eq)]
pub enum Fresh {
    /// None.
    No,
    /// Metavariables.
    Names,
    /// Metavariables and, as in the head of a case, a known variable.
    Head,
}

/// The names and variables that a form may use. The variables are locals outside all others, the innermost last.
#[derive(Drop)]
pub struct ReadScope {
    pub scope: Scope,
    pub vars: Items<(Text, CatId)>,
    pub fresh: Fresh,
}

/// The scheme for which a form stands.
#[derive(Drop)]
pub enum Written {
    Term(Scheme),
    Judgment(JScheme),
    Context(SCtx),
}

/// What a form says: its scheme, its new metavariables, and the known variable that it writes with its entry.
#[derive(Drop)]
pub struct Said {
    pub written: Written,
    pub metas: Items<MetaDecl>,
    pub knowns: Items<KnownDecl>,
}

/// How a form reads.
#[derive(Drop)]
pub enum Reading {
    /// In one way alone.
    One(Written, Items<MetaDecl>, Items<KnownDecl>),
    NoReading,
    /// In several ways, of which these are the first two in the reading order.
    Ambiguous(Said, Said),
    /// Not at all, since it has so many tokens.
    TooLong(usize),
}
