// The inputs of a theorem that are derivations, and their names.
ghost use Rattle.std.specs.Prelude.{◌≡◌, ◌↔◌, ◌⊎◌, IsTrue, IfOk, MatchOption, map};
ghost use Rattle.std.specs.List.{AllByRecursion};
ghost use Rattle.user_grammar.specs.Bare.{IsBareSignature};
ghost use Rattle.judgments.specs.Spellings.{IsNoSpelling};
ghost use Rattle.judgments.specs.Statements.{IsNameless, IsNamedFreely, IsNamedOtherwise, AreNamedDifferently};
ghost use Rattle.judgments.specs.Views.{input_text, given_text, IsForDerivation};

use binding_terms::{Cat, NoMemory, Sig};
use outline_reader::{InputText, NamedForm};
use rule_schemes::{is_spelling, same_text};
use std::alloc::Global;

/// The form of a derivation that the input is.
fn given_in<'a>(input: &InputText<'a>) -> Option<NamedForm<'a>>
    ensures { MatchOption result (IsForDerivation (input_text input.now) → ⊥) (λ named. input_text input.now ≡ given_text named) }
{
    match input {
        InputText::Given(named) => Some(*named),
        InputText::Syntax(_) => None,
    }
}

/// The forms of the inputs, where all are derivations.
pub fn given_of<'a>(
    alloc: Global,
    inputs: &[InputText<'a>],
) -> Result<Option<Vec<NamedForm<'a>>>, NoMemory>
    ensures { IfOk result (λ found. MatchOption found
        (AllByRecursion IsForDerivation (map input_text inputs.now) → ⊥)
        (λ all. map input_text inputs.now ≡ map given_text all.items)) }
{
    let mut all = Vec::new(alloc);
    for input in inputs {
        match given_in(input) {
            Some(named) => all.push(named)?,
            None => return Ok(None),
        }
    }
    Ok(Some(all))
}

fn is_no_spelling(cats: &[Cat], word: &[u8]) -> bool
    ensures { IsTrue result ↔ IsNoSpelling cats.now word.now }
{
    for cat in cats {
        if is_spelling(cat.name.bytes(), word) {
            return false;
        }
    }
    true
}

fn is_nameless(name: &[u8]) -> bool
    ensures { IsTrue result ↔ IsNameless name.now }
{
    same_text(name, b"_".as_slice())
}

/// Whether the name of the input may be given: it is no spelling of a category, and there are no variables.
fn is_named_freely(sig: &Sig, input: &NamedForm<'_>) -> bool
    requires { IsBareSignature sig.now }
    ensures { IsTrue result ↔ IsNamedFreely sig.now (given_text input.now) }
{
    is_no_spelling(sig.cats().as_slice(), input.name.text.as_bytes())
}

/// Whether the names of all inputs may be given.
pub fn all_named_freely(sig: &Sig, inputs: &[NamedForm<'_>]) -> bool
    requires { IsBareSignature sig.now }
    ensures { IsTrue result ↔ AllByRecursion (IsNamedFreely sig.now) (map given_text inputs.now) }
{
    for input in inputs {
        if !is_named_freely(sig, input) {
            return false;
        }
    }
    true
}

fn is_named_otherwise(name: &[u8], input: &NamedForm<'_>) -> bool
    ensures { IsTrue result ↔ IsNamedOtherwise name.now (given_text input.now) }
{
    !same_text(name, input.name.text.as_bytes())
}

fn all_named_otherwise(name: &[u8], inputs: &[NamedForm<'_>]) -> bool
    ensures { IsTrue result ↔ AllByRecursion (IsNamedOtherwise name.now) (map given_text inputs.now) }
{
    for input in inputs {
        if !is_named_otherwise(name, input) {
            return false;
        }
    }
    true
}

/// Whether the name of the input is none of the others', or names nothing.
fn is_new(input: &NamedForm<'_>, others: &[NamedForm<'_>]) -> bool
    ensures { IsTrue result ↔ (IsNameless input.now.name.now.text.now
        ⊎ AllByRecursion (IsNamedOtherwise input.now.name.now.text.now) (map given_text others.now)) }
{
    let name = input.name.text.as_bytes();
    is_nameless(name) || all_named_otherwise(name, others)
}

/// Whether no name is given to two inputs.
pub fn named_differently(inputs: &[NamedForm<'_>]) -> bool
    ensures { IsTrue result ↔ AreNamedDifferently (map given_text inputs.now) }
{
    for i in 0..inputs.len() {
        if !is_new(&inputs[i], &inputs[i + 1..]) {
            return false;
        }
    }
    true
}
