// The rule on context categories.
ghost use Rattle.std.specs.Prelude.{◌↔◌, ◌⊎◌, List, IsTrue, IfOk, map};
ghost use Rattle.std.specs.List.{AllByRecursion};
ghost use Rattle.proof_lexer.specs.View.{token_view};
ghost use Rattle.outline_reader.specs.Plain.{PlainPortion, plain_form};
ghost use Rattle.user_grammar.specs.Fault.{DeclaresVariable, HasNoBrackets, IsBinderWord, IsEmptyForm, IsEntryForm, IsWordOf, StandsForItself};
ghost use Rattle.user_grammar.specs.Finding.{AreLists, AreNames, portions_of, written_view};
ghost use Rattle.user_grammar.specs.FindingContexts.{One, OpensAt};
ghost use Rattle.user_grammar.specs.FindingPlaces.{walk_view};

use crate::fault_form::is_opening;
use crate::fault_lists::{Lists, Written};
use crate::fault_names::{Names, is_binder_word, is_slot_word, may_stand, variable_of};
use crate::fault_place::{Step, Walk, pass, start};
use crate::tokens::is_word;
use binding_terms::NoMemory;
use outline_reader::Form;
use proof_lexer::Token;
use rule_schemes::is_spelling;
use std::alloc::Global;

/// Whether a token is a terminal, and no word of a category or variable.
fn stands_for_itself(names: &Names<'_>, token: &Token<'_>) -> bool
    requires { AreNames names.now }
    ensures { IsTrue result ↔ StandsForItself (portions_of names.now.lists) (token_view token.now) }
{
    may_stand(&names.lists, token)
        && !is_slot_word(&names.lists, token)
        && !is_binder_word(names, token)
}

/// Whether a form is terminals alone.
fn is_empty_form(names: &Names<'_>, form: &[Token<'_>]) -> bool
    requires { AreNames names.now }
    ensures { IsTrue result ↔ IsEmptyForm (portions_of names.now.lists) (plain_form form.now) }
{
    for token in form {
        if !stands_for_itself(names, token) {
            return false;
        }
    }
    true
}

fn declares(lists: &Lists<'_>, form: Form<'_>) -> bool
    requires { AreLists lists.now }
    ensures { IsTrue result ↔ DeclaresVariable (portions_of lists.now) (plain_form form.now) }
{
    match variable_of(lists, form) {
        Some(_) => true,
        None => false,
    }
}

pub fn none_declares(lists: &Lists<'_>, forms: &[Form<'_>]) -> bool
    requires { AreLists lists.now }
    ensures { IsTrue result ↔ AllByRecursion (λ form. DeclaresVariable (portions_of lists.now) form → ⊥)
        (map plain_form (map (λ form. form.now) forms.now)) }
{
    for form in forms {
        if declares(lists, form) {
            return false;
        }
    }
    true
}

fn none_empty(names: &Names<'_>, forms: &[Form<'_>]) -> bool
    requires { AreNames names.now }
    ensures { IsTrue result ↔ AllByRecursion (λ form. IsEmptyForm (portions_of names.now.lists) form → ⊥)
        (map plain_form (map (λ form. form.now) forms.now)) }
{
    for form in forms {
        if is_empty_form(names, form) {
            return false;
        }
    }
    true
}

/// Whether exactly one form is terminals alone.
pub fn one_empty(names: &Names<'_>, forms: &[Form<'_>]) -> bool
    requires { AreNames names.now }
    ensures { IsTrue result ↔ One (IsEmptyForm (portions_of names.now.lists)) (map plain_form (map (λ form. form.now) forms.now)) }
{
    let mut left = forms;
    while let [first, rest @ ..] = left {
        if is_empty_form(names, first) {
            return none_empty(names, rest);
        }
        left = rest;
    }
    false
}

fn no_binders(names: &Names<'_>, form: &[Token<'_>]) -> bool
    requires { AreNames names.now }
    ensures { IsTrue result ↔ AllByRecursion (λ token. IsBinderWord (portions_of names.now.lists) token → ⊥) (plain_form form.now) }
{
    for token in form {
        if is_binder_word(names, token) {
            return false;
        }
    }
    true
}

/// Whether exactly one token is a binder.
fn one_binder(names: &Names<'_>, form: &[Token<'_>]) -> bool
    requires { AreNames names.now }
    ensures { IsTrue result ↔ One (IsBinderWord (portions_of names.now.lists)) (plain_form form.now) }
{
    let mut left = form;
    while let [first, rest @ ..] = left {
        if is_binder_word(names, first) {
            return no_binders(names, rest);
        }
        left = rest;
    }
    false
}

/// Whether the word of a token is spelled as a category.
pub fn is_word_of(written: &Written<'_>, token: &Token<'_>) -> bool
    ensures { (portions : List PlainPortion) → IsTrue result ↔ IsWordOf portions (written_view written.now) (token_view token.now) }
{
    let name = written.name.text.as_bytes();
    let word = token.text.as_bytes();
    is_word(token) && is_spelling(name, word)
}

/// Whether a token opens the brackets of a slot.
fn opens_at(walk: &Walk<'_>, token: &Token<'_>) -> bool
    ensures { IsTrue result ↔ OpensAt (walk_view walk.now) (token_view token.now) }
{
    match walk.step {
        Step::Outside => false,
        Step::BehindSlot => is_opening(token),
        Step::BeforeWord => false,
        Step::BehindWord => false,
    }
}

/// Whether no token of a form stands in brackets.
fn has_no_brackets(alloc: Global, lists: &Lists<'_>, form: Form<'_>) -> Result<bool, NoMemory>
    requires { AreLists lists.now }
    ensures { IfOk result (λ none. IsTrue none ↔ HasNoBrackets (portions_of lists.now) (plain_form form.now)) }
{
    let mut walk = start(alloc);
    for token in form {
        if opens_at(&walk, token) {
            return Ok(false);
        }
        pass(lists, &mut walk, token)?;
    }
    Ok(true)
}

/// Whether a form is a context with one entry more.
fn is_entry_form(
    alloc: Global,
    names: &Names<'_>,
    written: &Written<'_>,
    form: Form<'_>,
) -> Result<bool, NoMemory>
    requires { AreNames names.now }
    ensures { IfOk result (λ entry. IsTrue entry ↔ IsEntryForm (portions_of names.now.lists) (written_view written.now) (plain_form form.now)) }
{
    let [token, _rest @ ..] = form else {
        return Ok(false);
    };
    if !is_word_of(written, token) {
        return Ok(false);
    }
    if !one_binder(names, form) {
        return Ok(false);
    }
    let none = has_no_brackets(alloc, &names.lists, form)?;
    Ok(none)
}

fn is_context_form(
    alloc: Global,
    names: &Names<'_>,
    written: &Written<'_>,
    form: Form<'_>,
) -> Result<bool, NoMemory>
    requires { AreNames names.now }
    ensures { IfOk result (λ is. IsTrue is ↔ (IsEmptyForm (portions_of names.now.lists) (plain_form form.now)
        ⊎ IsEntryForm (portions_of names.now.lists) (written_view written.now) (plain_form form.now))) }
{
    if is_empty_form(names, form) {
        return Ok(true);
    }
    is_entry_form(alloc, names, written, form)
}

/// Whether each form is terminals alone or a context with one entry more.
pub fn are_entries(
    alloc: Global,
    names: &Names<'_>,
    written: &Written<'_>,
) -> Result<bool, NoMemory>
    requires { AreNames names.now }
    ensures { IfOk result (λ all. IsTrue all ↔ AllByRecursion (λ form. IsEmptyForm (portions_of names.now.lists) form
        ⊎ IsEntryForm (portions_of names.now.lists) (written_view written.now) form) (written_view written.now).forms) }
{
    for form in written.forms {
        let is = is_context_form(alloc, names, written, form)?;
        if !is {
            return Ok(false);
        }
    }
    Ok(true)
}
