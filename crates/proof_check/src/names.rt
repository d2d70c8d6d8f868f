// The names of rules and derivations, and their numbers.
ghost use Rattle.std.specs.Prelude.{◌≡◌, ◌≢◌, ◌↔◌, IsTrue, IfOk, map};
ghost use Rattle.std.specs.List.{AllByRecursion};
ghost use Rattle.rule_schemes.specs.View.{theory};
ghost use Rattle.outline_reader.specs.Views.{input_view};
ghost use Rattle.outline_reader.specs.Plain.{plain_input};
ghost use Rattle.proof_check.specs.Cited.{UNNAMED, IsNumberOf, given_names, MayBeGiven};
ghost use Rattle.proof_check.specs.Finding.{Finds};

use crate::spelling::is_spelling_in;
use binding_terms::{NoMemory, Sig, Text};
use outline_reader::InputText;
use rule_schemes::{RuleScheme, System, same_text};
use sqlite_items::Items;
use std::alloc::Global;

/// The number of the first of the names that is this one.
pub fn number_of(name: &[u8], names: &[Text]) -> Option<usize>
    ensures { Finds (IsNumberOf name.now names.now) result }
{
    for i in 0..names.len() {
        if same_text(names[i].bytes(), name) {
            return Some(i);
        }
    }
    None
}

fn first_named(name: &[u8], rules: &[RuleScheme]) -> Option<usize>
    ensures { Finds (IsNumberOf name.now (map (λ r. r.name) rules.now)) result }
{
    for i in 0..rules.len() {
        if same_text(rules[i].name.bytes(), name) {
            return Some(i);
        }
    }
    None
}

/// The number of the first rule of the name.
pub fn rule_named(name: &[u8], sys: &System) -> Option<usize>
    ensures { Finds (IsNumberOf name.now (map (λ rule. rule.name) (theory sys.now).rules)) result }
{
    first_named(name, sys.rules().as_slice())
}

pub fn is_unnamed(name: &[u8]) -> bool
    ensures { IsTrue result ↔ (name.now ≡ UNNAMED) }
{
    name == b"_".as_slice()
}

fn is_new(name: &[u8], names: &[Text]) -> bool
    ensures { IsTrue result ↔ AllByRecursion (λ other. other ≢ name.now) names.now }
{
    for other in names {
        if same_text(other.bytes(), name) {
            return false;
        }
    }
    true
}

/// Whether the name may be given to a derivation, where these are in scope.
pub fn may_be_given(sig: &Sig, named: &[Text], name: &[u8]) -> bool
    ensures { IsTrue result ↔ MayBeGiven sig.now named.now name.now }
{
    if is_spelling_in(sig, name) {
        return false;
    }
    is_unnamed(name) || is_new(name, named)
}

/// The names of the given derivations.
pub fn given(alloc: Global, inputs: &[InputText<'_>]) -> Result<Items<Text>, NoMemory>
    ensures { IfOk result (λ named. named ≡ given_names (map plain_input (map input_view inputs.now))) }
{
    let mut named = Items::new(alloc);
    for input in inputs {
        match input {
            InputText::Given(labelled) => named.push(Text::of(
                alloc,
                labelled.name.text.as_bytes(),
            )?)?,
            InputText::Syntax(_) => {}
        }
    }
    Ok(named)
}
