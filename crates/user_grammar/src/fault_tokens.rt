// Faults at the tokens of a production, by their places.
ghost use Rattle.std.specs.Prelude.{◌≡◌, ◌≢◌, ◌↔◌, ◌⊎◌, List, IsTrue, IfOk, map, reverse};
ghost use Rattle.std.specs.List.{AllByRecursion};
ghost use Rattle.sy_base.specs.Tokens.{PlainToken};
ghost use Rattle.proof_lexer.specs.View.{token_view};
ghost use Rattle.outline_reader.specs.Plain.{plain_form};
ghost use Rattle.user_grammar.specs.File.{categories};
ghost use Rattle.user_grammar.specs.Names.{IsAmong};
ghost use Rattle.user_grammar.specs.Production.{IsMark};
ghost use Rattle.user_grammar.specs.Fault.{IsBinderWord, IsOutside, Place};
ghost use Rattle.sy_base.specs.FirstFault.{OfSome};
ghost use Rattle.user_grammar.specs.Finding.{AreNames, IsLeast, portions_of, written_view};
ghost use Rattle.user_grammar.specs.Indexed.{names_in};
ghost use Rattle.user_grammar.specs.FindingPlaces.{AreBinders, AtPlace, IsWrongAt, TokensOf, walk_view};

use crate::fault_form::{is_closing, is_comma, is_opening};
use crate::fault_found::{Found, at_token};
use crate::fault_lists::Written;
use crate::fault_names::{Names, is_binder_word, is_slot_word, may_stand};
use crate::fault_place::{Step, Walk, binders, is_outside, note_binder, pass, start};
use crate::name_index::{NameIndex, has_name, no_names};
use crate::tokens::{is_listed, is_word};
use binding_terms::NoMemory;
use outline_reader::Form;
use proof_lexer::Token;
use std::alloc::Global;
use sy_base::{Code, earlier};

fn is_named(named: &[&[u8]], word: &[u8]) -> bool
    ensures { IsTrue result ↔ IsAmong (reverse (map (λ text. text.now) named.now)) word.now }
{
    is_listed(named, word)
}

fn none_closes(rest: &[Token<'_>]) -> bool
    ensures { IsTrue result ↔ AllByRecursion (λ t. IsMark 93 t → ⊥) (plain_form rest.now) }
{
    for token in rest {
        if is_closing(token) {
            return false;
        }
    }
    true
}

/// The fault of a binder, with the binders before it.
fn second_binder<'a>(
    names: &Names<'_>,
    seen: &NameIndex<'_>,
    token: &'a Token<'a>,
) -> Option<Found<'a>>
    requires { IsBinderWord (portions_of names.now.lists) (token_view token.now) }
    ensures { (form front rest : List PlainToken) (place : Place) → IsOutside place (token_view token.now)
        → AreBinders (portions_of names.now.lists) front (names_in seen.now)
        → IsLeast (AtPlace (portions_of names.now.lists) form front rest place (token_view token.now)) result }
{
    if has_name(seen, token.text.as_bytes()) {
        return Some(at_token(Code::BinderTwice, token));
    }
    None
}

/// The fault of a token outside brackets, with the binders before it.
fn outside_fault<'a>(
    names: &Names<'_>,
    seen: &NameIndex<'_>,
    token: &'a Token<'a>,
) -> Option<Found<'a>>
    requires { AreNames names.now }
    ensures { (form front rest : List PlainToken) (place : Place) → IsOutside place (token_view token.now)
        → AreBinders (portions_of names.now.lists) front (names_in seen.now)
        → IsLeast (AtPlace (portions_of names.now.lists) form front rest place (token_view token.now)) result }
{
    if is_binder_word(names, token) {
        return second_binder(names, seen, token);
    }
    if is_slot_word(&names.lists, token) {
        return None;
    }
    if may_stand(&names.lists, token) {
        return None;
    }
    Some(at_token(Code::UnknownWord, token))
}

/// Whether a token is wrong where a word is expected.
fn is_wrong_name(binders: &NameIndex<'_>, named: &[&[u8]], token: &Token<'_>) -> bool
    ensures { IsTrue result ↔ ((token_view token.now).kind ≢ 0)
        ⊎ (IsAmong (names_in binders.now) (token_view token.now).text → ⊥)
        ⊎ (((token_view token.now).kind ≡ 0) × IsAmong (reverse (map (λ text. text.now) named.now)) (token_view token.now).text) }
{
    if !is_word(token) {
        return true;
    }
    if !has_name(binders, token.text.as_bytes()) {
        return true;
    }
    is_named(named, token.text.as_bytes())
}

fn is_wrong_opening(token: &Token<'_>, rest: &[Token<'_>]) -> bool
    ensures { IsTrue result ↔ (IsMark 91 (token_view token.now) × AllByRecursion (λ t. IsMark 93 t → ⊥) (plain_form rest.now)) }
{
    is_opening(token) && none_closes(rest)
}

fn is_wrong_comma(token: &Token<'_>) -> bool
    ensures { IsTrue result ↔ ((IsMark 44 (token_view token.now) → ⊥) × (IsMark 93 (token_view token.now) → ⊥)) }
{
    !is_comma(token) && !is_closing(token)
}

/// Whether a token in the brackets of a slot is wrong there.
fn is_wrong(
    names: &Names<'_>,
    binders: &NameIndex<'_>,
    walk: &Walk<'_>,
    token: &Token<'_>,
    rest: &[Token<'_>],
) -> bool
    ensures { (form : List PlainToken) → AreBinders (portions_of names.now.lists) form (names_in binders.now)
        → IsTrue result ↔ IsWrongAt (portions_of names.now.lists) form (plain_form rest.now) (walk_view walk.now) (token_view token.now) }
{
    match walk.step {
        Step::Outside => false,
        Step::BehindSlot => is_wrong_opening(token, rest),
        Step::BeforeWord => is_wrong_name(binders, walk.named.as_slice(), token),
        Step::BehindWord => is_wrong_comma(token),
    }
}

/// The fault at a token, with the binders of its form and those before it.
fn point_fault<'a>(
    names: &Names<'_>,
    binders: &NameIndex<'_>,
    seen: &NameIndex<'_>,
    walk: &Walk<'_>,
    token: &'a Token<'a>,
    rest: &[Token<'_>],
) -> Option<Found<'a>>
    requires { AreNames names.now }
    ensures { (form front : List PlainToken) → AreBinders (portions_of names.now.lists) form (names_in binders.now)
        → AreBinders (portions_of names.now.lists) front (names_in seen.now)
        → IsLeast (AtPlace (portions_of names.now.lists) form front (plain_form rest.now) (walk_view walk.now) (token_view token.now)) result }
{
    if is_outside(walk, token) {
        return outside_fault(names, seen, token);
    }
    if is_wrong(names, binders, walk, token, rest) {
        return Some(at_token(Code::BadBinder, token));
    }
    None
}

/// The first fault at a token of a form.
fn form_fault<'a>(
    alloc: Global,
    names: &Names<'_>,
    form: Form<'a>,
) -> Result<Option<Found<'a>>, NoMemory>
    requires { AreNames names.now }
    ensures { IfOk result (IsLeast (TokensOf (portions_of names.now.lists) (plain_form form.now))) }
{
    let own = binders(alloc, names, form)?;
    let mut seen = no_names(alloc);
    let mut walk = start(alloc);
    let mut found = None;
    for (number, token) in form.iter().enumerate() {
        let rest = &form[number + 1..];
        let one = point_fault(names, &own, &seen, &walk, token, rest);
        found = earlier(found, one);
        note_binder(names, &walk, token, &mut seen)?;
        pass(&names.lists, &mut walk, token)?;
    }
    Ok(found)
}

fn category_fault<'a>(
    alloc: Global,
    names: &Names<'_>,
    written: &Written<'a>,
) -> Result<Option<Found<'a>>, NoMemory>
    requires { AreNames names.now }
    ensures { IfOk result (IsLeast (OfSome (TokensOf (portions_of names.now.lists)) (written_view written.now).forms)) }
{
    let mut found = None;
    for form in written.forms {
        let one = form_fault(alloc, names, form)?;
        found = earlier(found, one);
    }
    Ok(found)
}

/// The first fault at a token of a production, by its place.
pub fn first_at_token<'a>(alloc: Global, names: &Names<'a>) -> Result<Option<Found<'a>>, NoMemory>
    requires { AreNames names.now }
    ensures { IfOk result (IsLeast (OfSome (λ written. OfSome (TokensOf (portions_of names.now.lists)) written.forms)
        (categories (portions_of names.now.lists)))) }
{
    let mut found = None;
    for written in names.lists.categories {
        let one = category_fault(alloc, names, written)?;
        found = earlier(found, one);
    }
    Ok(found)
}
