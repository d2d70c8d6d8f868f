use binding_terms::ProdId;
use rule_schemes::{JScheme, RuleId};
use scheme_terms::Subst;
use sqlite_items::Items;

/// Where a choice finds its variable.
#[derive(Clone, Copy, Debug, PartialEq, Eq)]
pub enum Place {
    /// It has none: an ordinary rule, or a production.
    Plain,
    /// At a known variable.
    Known,
    /// At an explicit entry, counted from the first.
    Explicit(u32),
}

/// Whether a choice is possible.
#[derive(Drop)]
pub enum Outcome {
    /// Its system has no common instance.
    Impossible,
    /// A most general refinement of the names, and the premises under it.
    Possible {
        refine: Subst,
        premises: Items<JScheme>,
    },
}

/// A choice for a judgment.
#[derive(Drop)]
pub struct Choice {
    pub rule: RuleId,
    pub place: Place,
    pub outcome: Outcome,
}

/// A choice for a term. That of an explicit entry has no production.
#[derive(Drop)]
pub struct TermChoice {
    pub prod: Option<ProdId>,
    pub place: Place,
    pub outcome: Outcome,
}
