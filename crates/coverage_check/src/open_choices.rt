//! Which choice is missing among the written cases.

ghost use Rattle.std.specs.Prelude.{◌≡◌, ◌↔◌, IsTrue};
ghost use Rattle.coverage_check.specs.Missing.{IsOpen, IsNamed, IsTermNamed, IsMissing, IsTermMissing, IsFirstMissing, IsFirstTermMissing};

use binding_terms::ProdId;
use case_split::{Choice, Outcome, Place, TermChoice};
use rule_schemes::RuleId;

/// Whether a choice with this outcome is possible.
pub fn is_possible(outcome: &Outcome) -> bool
    ensures { IsTrue result ↔ IsOpen outcome.now }
{
    match outcome {
        Outcome::Impossible => false,
        Outcome::Possible {
            refine: _,
            premises: _,
        } => true,
    }
}

/// Whether two places are the same.
pub(crate) fn is_same_place(place: Place, other: Place) -> bool
    ensures { IsTrue result ↔ (place ≡ other) }
{
    match (place, other) {
        (Place::Plain, Place::Plain) => true,
        (Place::Known, Place::Known) => true,
        (Place::Explicit(entry), Place::Explicit(another)) => entry == another,
        _ => false,
    }
}

/// Whether two rules are the same.
pub(crate) fn is_same_rule(rule: RuleId, other: RuleId) -> bool
    ensures { IsTrue result ↔ (rule ≡ other) }
{
    rule.0 == other.0
}

/// Whether two productions, where there are any, are the same.
pub(crate) fn is_same_prod(prod: Option<ProdId>, other: Option<ProdId>) -> bool
    ensures { IsTrue result ↔ (prod ≡ other) }
{
    match (prod, other) {
        (Some(prod), Some(other)) => prod.0 == other.0,
        (None, None) => true,
        _ => false,
    }
}

/// Whether one of the written cases is of the choice.
fn is_named(choice: &Choice, named: &[(RuleId, Place)]) -> bool
    ensures { IsTrue result ↔ IsNamed choice.now named.now }
{
    for (rule, place) in named {
        if is_same_rule(*rule, choice.rule) && is_same_place(*place, choice.place) {
            return true;
        }
    }
    false
}

/// Whether one of the written cases of terms is of the choice.
fn is_term_named(choice: &TermChoice, named: &[(Option<ProdId>, Place)]) -> bool
    ensures { IsTrue result ↔ IsTermNamed choice.now named.now }
{
    for (prod, place) in named {
        if is_same_prod(*prod, choice.prod) && is_same_place(*place, choice.place) {
            return true;
        }
    }
    false
}

fn is_missing(choice: &Choice, named: &[(RuleId, Place)]) -> bool
    ensures { IsTrue result ↔ IsMissing named.now choice.now }
{
    is_possible(&choice.outcome) && !is_named(choice, named)
}

fn is_term_missing(choice: &TermChoice, named: &[(Option<ProdId>, Place)]) -> bool
    ensures { IsTrue result ↔ IsTermMissing named.now choice.now }
{
    is_possible(&choice.outcome) && !is_term_named(choice, named)
}

/// The first possible choice that has no written case, or none where each has one.
pub fn missing(choices: &Vec<Choice>, named: &Vec<(RuleId, Place)>) -> Option<usize>
    ensures { IsFirstMissing choices.now.items named.now.items result }
{
    for place in 0..choices.len() {
        if is_missing(&choices[place], named.as_slice()) {
            return Some(place);
        }
    }
    None
}

/// The first possible choice for a term that has no written case, or none where each has one.
pub fn missing_term(
    choices: &Vec<TermChoice>,
    named: &Vec<(Option<ProdId>, Place)>,
) -> Option<usize>
    ensures { IsFirstTermMissing choices.now.items named.now.items result }
{
    for place in 0..choices.len() {
        if is_term_missing(&choices[place], named.as_slice()) {
            return Some(place);
        }
    }
    None
}
