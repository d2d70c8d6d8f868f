// Productions without an item, and productions that are one slot alone.
ghost use Rattle.std.specs.Prelude.{◌≡◌, ◌↔◌, ◌∷◌, [], IsTrue, map};
ghost use Rattle.binding_terms.specs.Numbered.{AnyByRecursion};
ghost use Rattle.sy_base.specs.declared.fault.Code.TheVariants.{EmptyProduction};
ghost use Rattle.proof_lexer.specs.View.{token_view};
ghost use Rattle.outline_reader.specs.Plain.{plain_form};
ghost use Rattle.user_grammar.specs.File.{categories};
ghost use Rattle.user_grammar.specs.Production.{IsMark};
ghost use Rattle.user_grammar.specs.Fault.{IsOneSlot};
ghost use Rattle.sy_base.specs.FirstFault.{OfSome};
ghost use Rattle.user_grammar.specs.Finding.{
  AreLists,
  AtToken,
  BracketsLeft,
  GoesOnAs,
  IsEmptyOf,
  IsLeast,
  ShortOf,
  SingleOf,
  portions_of,
  written_view,
};
ghost use Rattle.user_grammar.specs.declared.fault_form.Expected.TheVariants.{Comma, Name, Opening};

use crate::fault_found::{Found, at_token, named_at};
use crate::fault_lists::{Lists, Written};
use crate::fault_names::is_slot_word;
use crate::tokens::is_word;
use outline_reader::Form;
use proof_lexer::{Kind, Token};
use sy_base::{Code, earlier};

fn has_empty(forms: &[Form<'_>]) -> bool
    ensures { IsTrue result ↔ AnyByRecursion (λ form. form ≡ []) (map plain_form (map (λ form. form.now) forms.now)) }
{
    for form in forms {
        if form.len() == 0 {
            return true;
        }
    }
    false
}

/// The fault of a category that has a production without an item.
fn empty_production<'a>(written: &Written<'a>) -> Option<Found<'a>>
    ensures { IsLeast (AtToken EmptyProduction (IsEmptyOf (written_view written.now))) result }
{
    if has_empty(written.forms) {
        return Some(at_token(Code::EmptyProduction, written.name));
    }
    None
}

/// What the brackets behind a slot go on with: a bracket that opens, or the end; a word; a comma, or a bracket that closes.
#[derive(Clone, Copy)]
pub enum Expected {
    Opening,
    Name,
    Comma,
}

pub fn is_opening(token: &Token<'_>) -> bool
    ensures { IsTrue result ↔ IsMark 91 (token_view token.now) }
{
    token.kind == Kind::Punct && token.text.as_bytes() == b"[".as_slice()
}

pub fn is_closing(token: &Token<'_>) -> bool
    ensures { IsTrue result ↔ IsMark 93 (token_view token.now) }
{
    token.kind == Kind::Punct && token.text.as_bytes() == b"]".as_slice()
}

pub fn is_comma(token: &Token<'_>) -> bool
    ensures { IsTrue result ↔ IsMark 44 (token_view token.now) }
{
    token.kind == Kind::Punct && token.text.as_bytes() == b",".as_slice()
}

fn behind_bracket(token: &Token<'_>) -> Option<Expected>
    ensures { GoesOnAs Opening (token_view token.now) result }
{
    if is_opening(token) {
        return Some(Expected::Name);
    }
    None
}

fn behind_opening(token: &Token<'_>) -> Option<Expected>
    ensures { GoesOnAs Name (token_view token.now) result }
{
    if is_word(token) {
        return Some(Expected::Comma);
    }
    None
}

fn behind_name(token: &Token<'_>) -> Option<Expected>
    ensures { GoesOnAs Comma (token_view token.now) result }
{
    if is_comma(token) {
        return Some(Expected::Name);
    }
    if is_closing(token) {
        return Some(Expected::Opening);
    }
    None
}

fn goes_on(expected: Expected, token: &Token<'_>) -> Option<Expected>
    ensures { GoesOnAs expected (token_view token.now) result }
{
    match expected {
        Expected::Opening => behind_bracket(token),
        Expected::Name => behind_opening(token),
        Expected::Comma => behind_name(token),
    }
}

fn may_end(expected: Expected) -> bool
    ensures { IsTrue result ↔ BracketsLeft expected [] }
{
    match expected {
        Expected::Opening => true,
        Expected::Name => false,
        Expected::Comma => false,
    }
}

/// Whether tokens are brackets behind a slot, in any number of pairs.
fn are_brackets(rest: &[Token<'_>]) -> bool
    ensures { IsTrue result ↔ BracketsLeft Opening (plain_form rest.now) }
{
    let mut expected = Expected::Opening;
    for token in rest {
        match goes_on(expected, token) {
            Some(next) => expected = next,
            None => return false,
        }
    }
    may_end(expected)
}

/// Whether a slot word and what follows it are one slot alone.
fn is_one_slot(lists: &Lists<'_>, token: &Token<'_>, rest: &[Token<'_>]) -> bool
    requires { AreLists lists.now }
    ensures { IsTrue result ↔ IsOneSlot (portions_of lists.now) (token_view token.now ∷ plain_form rest.now) }
{
    if is_slot_word(lists, token) {
        return are_brackets(rest);
    }
    false
}

/// The fault of a production that is one slot alone.
fn single<'a>(lists: &Lists<'_>, name: &'a Token<'a>, form: Form<'a>) -> Option<Found<'a>>
    requires { AreLists lists.now }
    ensures { IsLeast (SingleOf (portions_of lists.now) name.now.text.now (plain_form form.now)) result }
{
    let [token, rest @ ..] = form else {
        return None;
    };
    if !is_one_slot(lists, token, rest) {
        return None;
    }
    Some(named_at(Code::SingleCategory, token, name.text))
}

fn first_single<'a>(lists: &Lists<'_>, written: &Written<'a>) -> Option<Found<'a>>
    requires { AreLists lists.now }
    ensures { IsLeast (OfSome (SingleOf (portions_of lists.now) written.now.name.now.text.now) (written_view written.now).forms) result }
{
    let mut found = None;
    for form in written.forms {
        found = earlier(found, single(lists, written.name, form));
    }
    found
}

fn short<'a>(lists: &Lists<'_>, written: &Written<'a>) -> Option<Found<'a>>
    requires { AreLists lists.now }
    ensures { IsLeast (ShortOf (portions_of lists.now) (written_view written.now)) result }
{
    earlier(empty_production(written), first_single(lists, written))
}

/// The first production that has no item or is one slot alone.
pub fn first_short<'a>(lists: &Lists<'a>) -> Option<Found<'a>>
    requires { AreLists lists.now }
    ensures { IsLeast (OfSome (ShortOf (portions_of lists.now)) (categories (portions_of lists.now))) result }
{
    let mut found = None;
    for written in lists.categories {
        found = earlier(found, short(lists, written));
    }
    found
}
