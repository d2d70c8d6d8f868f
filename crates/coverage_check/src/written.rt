use binding_terms::ProdId;
use case_split::Place;
use rule_schemes::{JScheme, RuleId};
use scheme_terms::{Scheme, Scope};
use sqlite_items::Items;

/// A written case of a block on a derivation.
#[derive(Drop)]
pub struct WrittenCase {
    pub rule: RuleId,
    pub place: Place,
    pub scope: Scope,
    pub premises: Items<JScheme>,
    pub conclusion: JScheme,
}

/// A written case of a block on a term. That of an explicit entry has no production.
#[derive(Drop)]
pub struct WrittenTermCase {
    pub prod: Option<ProdId>,
    pub place: Place,
    pub scope: Scope,
    pub term: Scheme,
}
