// Names that portions declare: no two of one kind are the same.
ghost use Rattle.std.specs.Prelude.{◌≡◌, ◌↔◌, IsTrue, map, option_map};
ghost use Rattle.std.specs.List.{AllByRecursion};
ghost use Rattle.outline_reader.specs.Views.{portion_view};
ghost use Rattle.outline_reader.specs.Plain.{plain_portion};
ghost use Rattle.judgments.specs.Theory.{a_judgment, a_rule, a_theorem, declared_name, AreNamedAlike, AreNamedApart};
ghost use Rattle.judgments.specs.Views.{declares};

use outline_reader::{Name, Portion};
use rule_schemes::same_text;

/// What a portion declares.
#[derive(Clone, Copy)]
pub enum Declares {
    Judgment,
    Rule,
    Theorem,
}

fn judgment_name<'a>(portion: &Portion<'a>) -> Option<Name<'a>>
    ensures { option_map (λ name. name.now.text.now) result ≡ declared_name a_judgment (plain_portion (portion_view portion.now)) }
{
    match portion {
        Portion::Judgment { name, .. } => Some(name),
        _ => None,
    }
}

fn rule_name<'a>(portion: &Portion<'a>) -> Option<Name<'a>>
    ensures { option_map (λ name. name.now.text.now) result ≡ declared_name a_rule (plain_portion (portion_view portion.now)) }
{
    match portion {
        Portion::Rule { name, .. } => Some(name),
        _ => None,
    }
}

fn theorem_name<'a>(portion: &Portion<'a>) -> Option<Name<'a>>
    ensures { option_map (λ name. name.now.text.now) result ≡ declared_name a_theorem (plain_portion (portion_view portion.now)) }
{
    match portion {
        Portion::Theorem { name, .. } => Some(name),
        _ => None,
    }
}

/// The name of the portion, where it declares this.
fn name_of<'a>(what: Declares, portion: &Portion<'a>) -> Option<Name<'a>>
    ensures { option_map (λ name. name.now.text.now) result ≡ declared_name (declares what) (plain_portion (portion_view portion.now)) }
{
    match what {
        Declares::Judgment => judgment_name(portion),
        Declares::Rule => rule_name(portion),
        Declares::Theorem => theorem_name(portion),
    }
}

fn same_name(one: Name<'_>, other: Name<'_>) -> bool
    ensures { IsTrue result ↔ (one.now.text.now ≡ other.now.text.now) }
{
    same_text(one.text.as_bytes(), other.text.as_bytes())
}

fn are_alike(what: Declares, one: &Portion<'_>, other: &Portion<'_>) -> bool
    ensures { IsTrue result
        ↔ AreNamedAlike (declares what) (plain_portion (portion_view one.now)) (plain_portion (portion_view other.now)) }
{
    match name_of(what, one) {
        Some(name) => match name_of(what, other) {
            Some(again) => same_name(name, again),
            None => false,
        },
        None => false,
    }
}

fn is_new(what: Declares, one: &Portion<'_>, others: &[Portion<'_>]) -> bool
    ensures { IsTrue result
        ↔ AllByRecursion (λ q. AreNamedAlike (declares what) (plain_portion (portion_view one.now)) q → ⊥)
        (map (λ portion. plain_portion (portion_view portion)) others.now) }
{
    for other in others {
        if are_alike(what, one, other) {
            return false;
        }
    }
    true
}

/// Whether no name of this kind is declared twice.
pub fn named_apart(what: Declares, portions: &[Portion<'_>]) -> bool
    ensures { IsTrue result
        ↔ AreNamedApart (declares what) (map (λ portion. plain_portion (portion_view portion)) portions.now) }
{
    for i in 0..portions.len() {
        if !is_new(what, &portions[i], &portions[i + 1..]) {
            return false;
        }
    }
    true
}
