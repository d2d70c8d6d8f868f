// Categories of contexts that break the rule on them.
ghost use Rattle.std.specs.Prelude.{◌≡◌, ◌↔◌, List, IsTrue, IfOk, length, map};
ghost use Rattle.std.specs.List.{AllByRecursion};
ghost use Rattle.sy_base.specs.Tokens.{PlainToken};
ghost use Rattle.proof_lexer.specs.View.{token_view};
ghost use Rattle.outline_reader.specs.Plain.{PlainPortion, plain_form};
ghost use Rattle.user_grammar.specs.Fault.{IsContextCategory, IsOnlyInFront};
ghost use Rattle.user_grammar.specs.File.{assumed, categories};
ghost use Rattle.sy_base.specs.FirstFault.{OfSome};
ghost use Rattle.user_grammar.specs.Finding.{AreLists, AreNames, IsLeast, portions_of, written_view};
ghost use Rattle.user_grammar.specs.Indexed.{HaveSame, names_in};
ghost use Rattle.user_grammar.specs.FindingContexts.{AllPoints, IsInFront, KeepsFront};
ghost use Rattle.user_grammar.specs.FindingPlaces.{BadContextOf, walk_view};

use crate::fault_context::{are_entries, is_word_of, none_declares, one_empty};
use crate::fault_found::{Found, named_at};
use crate::fault_lists::{Lists, Written};
use crate::fault_names::Names;
use crate::fault_place::{Walk, is_outside, pass, start};
use crate::name_index::{NameIndex, has_name};
use crate::name_lists::assumed_index;
use binding_terms::NoMemory;
use outline_reader::Form;
use proof_lexer::Token;
use rule_schemes::same_text;
use std::alloc::Global;
use sy_base::{Code, earlier};

/// Whether two categories have one name.
fn is_namesake(written: &Written<'_>, other: &Written<'_>) -> bool
    ensures { IsTrue result ↔ ((written_view other.now).name.text ≡ (written_view written.now).name.text) }
{
    same_text(other.name.text.as_bytes(), written.name.text.as_bytes())
}

/// Whether a token with so many before it may be a slot of the category in a production of the other.
fn may_be_slot(written: &Written<'_>, other: &Written<'_>, number: usize) -> bool
    ensures { IsTrue result
        ↔ (((written_view other.now).name.text ≡ (written_view written.now).name.text) × (number ≡ 0)) }
{
    is_namesake(written, other) && number == 0
}

/// Whether a token is no slot of the category, or one that stands as it may.
fn is_in_front(
    written: &Written<'_>,
    other: &Written<'_>,
    walk: &Walk<'_>,
    number: usize,
    token: &Token<'_>,
) -> bool
    ensures { (portions : List PlainPortion) → (front : List PlainToken) → length front ≡ number
        → IsTrue result ↔ IsInFront portions (written_view written.now) (written_view other.now) front (walk_view walk.now) (token_view token.now) }
{
    if !is_outside(walk, token) {
        return true;
    }
    if !is_word_of(written, token) {
        return true;
    }
    may_be_slot(written, other, number)
}

fn form_keeps_front(
    alloc: Global,
    lists: &Lists<'_>,
    written: &Written<'_>,
    other: &Written<'_>,
    form: Form<'_>,
) -> Result<bool, NoMemory>
    requires { AreLists lists.now }
    ensures { IfOk result (λ keeps. IsTrue keeps
        ↔ AllPoints (portions_of lists.now) (IsInFront (portions_of lists.now) (written_view written.now) (written_view other.now))
        (plain_form form.now) (length (plain_form form.now))) }
{
    let mut walk = start(alloc);
    for (number, token) in form.iter().enumerate() {
        if !is_in_front(written, other, &walk, number, token) {
            return Ok(false);
        }
        pass(lists, &mut walk, token)?;
    }
    Ok(true)
}

/// Whether the productions of the other category have slots of the category only in front, if it has its name, or none.
fn keeps_front(
    alloc: Global,
    lists: &Lists<'_>,
    written: &Written<'_>,
    other: &Written<'_>,
) -> Result<bool, NoMemory>
    requires { AreLists lists.now }
    ensures { IfOk result (λ keeps. IsTrue keeps
        ↔ KeepsFront (portions_of lists.now) (written_view written.now) (written_view other.now)) }
{
    for form in other.forms {
        let keeps = form_keeps_front(alloc, lists, written, other, form)?;
        if !keeps {
            return Ok(false);
        }
    }
    Ok(true)
}

fn all_keep_front(alloc: Global, lists: &Lists<'_>, written: &Written<'_>) -> Result<bool, NoMemory>
    requires { AreLists lists.now }
    ensures { IfOk result (λ all. IsTrue all
        ↔ AllByRecursion (KeepsFront (portions_of lists.now) (written_view written.now)) (map written_view lists.now.categories.now)) }
{
    for other in lists.categories {
        let keeps = keeps_front(alloc, lists, written, other)?;
        if !keeps {
            return Ok(false);
        }
    }
    Ok(true)
}

/// Whether a category is a slot only at the front of its own productions.
fn is_only_in_front(
    alloc: Global,
    lists: &Lists<'_>,
    written: &Written<'_>,
) -> Result<bool, NoMemory>
    requires { AreLists lists.now }
    ensures { IfOk result (λ only. IsTrue only ↔ IsOnlyInFront (portions_of lists.now) (written_view written.now)) }
{
    let all = all_keep_front(alloc, lists, written)?;
    Ok(all)
}

/// Whether a category keeps the rule on categories of contexts.
fn keeps_the_rule(alloc: Global, names: &Names<'_>, written: &Written<'_>) -> Result<bool, NoMemory>
    requires { AreNames names.now }
    ensures { IfOk result (λ keeps. IsTrue keeps ↔ IsContextCategory (portions_of names.now.lists) (written_view written.now)) }
{
    if !none_declares(&names.lists, written.forms) {
        return Ok(false);
    }
    if !one_empty(names, written.forms) {
        return Ok(false);
    }
    let entries = are_entries(alloc, names, written)?;
    if !entries {
        return Ok(false);
    }
    let only = is_only_in_front(alloc, &names.lists, written)?;
    Ok(only)
}

/// The fault of a category that is assumed and breaks the rule.
fn bad_context<'a>(
    alloc: Global,
    names: &Names<'_>,
    contexts: &NameIndex<'_>,
    written: &Written<'a>,
) -> Result<Option<Found<'a>>, NoMemory>
    requires names { AreNames names.now }
    requires contexts { HaveSame (names_in contexts.now) (assumed (portions_of names.now.lists)) }
    ensures { IfOk result (IsLeast (BadContextOf (portions_of names.now.lists) (written_view written.now))) }
{
    if !has_name(contexts, written.name.text.as_bytes()) {
        return Ok(None);
    }
    let keeps = keeps_the_rule(alloc, names, written)?;
    if keeps {
        return Ok(None);
    }
    Ok(Some(named_at(Code::BadContext, written.mark, written.name.text)))
}

/// The first category that is assumed and breaks the rule.
pub fn first_bad_context<'a>(
    alloc: Global,
    names: &Names<'a>,
) -> Result<Option<Found<'a>>, NoMemory>
    requires { AreNames names.now }
    ensures { IfOk result (IsLeast (OfSome (BadContextOf (portions_of names.now.lists)) (categories (portions_of names.now.lists)))) }
{
    let contexts = assumed_index(alloc, names.lists.portions)?;
    let mut found = None;
    for written in names.lists.categories {
        let one = bad_context(alloc, names, &contexts, written)?;
        found = earlier(found, one);
    }
    Ok(found)
}
