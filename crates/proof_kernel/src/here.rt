// What is in scope at a place of a proof.
use induction_order::Rel;
use rule_schemes::JScheme;
use scheme_terms::{MetaDecl, Scheme, Scope};
use sqlite_items::Items;

/// A goal: its forms, over so many names of the scope and after them names of its own.
#[derive(Drop)]
pub struct Goal {
    pub(crate) outer: usize,
    pub(crate) names: Items<MetaDecl>,
    pub(crate) forms: Items<JScheme>,
}

/// A derivation in scope: its form, and its mark against each target.
#[derive(Drop)]
pub struct Held {
    pub(crate) form: JScheme,
    pub(crate) relations: Items<Rel>,
}

/// What is in scope: the names, the derivations by their numbers, none where a number is out of scope, the present value of each target
/// that is a scheme, and the goal.
#[derive(Drop)]
pub struct Here {
    pub(crate) scope: Scope,
    pub(crate) held: Items<Option<Held>>,
    pub(crate) targets: Items<Option<Scheme>>,
    pub(crate) goal: Goal,
}
