// Where the tokens of a production stand, and which of them are binders.
ghost use Rattle.std.specs.Prelude.{◌≡◌, ◌↔◌, ◌++◌, ◌∷◌, [], List, IsTrue, IfOk, OnOk};
ghost use Rattle.sy_base.specs.Tokens.{PlainToken};
ghost use Rattle.proof_lexer.specs.View.{token_view};
ghost use Rattle.outline_reader.specs.Plain.{plain_form};
ghost use Rattle.user_grammar.specs.Fault.{Follows, IsOutside, IsPlaceBehind, outside};
ghost use Rattle.user_grammar.specs.Finding.{AreLists, AreNames, portions_of};
ghost use Rattle.user_grammar.specs.Indexed.{names_in};
ghost use Rattle.user_grammar.specs.FindingPlaces.{AreBinders, walk_view};
ghost use Rattle.user_grammar.specs.declared.fault_place.Step.TheVariants.{BeforeWord, BehindSlot, BehindWord};

use crate::fault_form::{is_closing, is_opening};
use crate::fault_lists::Lists;
use crate::fault_names::{Names, is_binder_word, is_slot_word};
use crate::name_index::{NameIndex, add_name, no_names};
use binding_terms::NoMemory;
use outline_reader::Form;
use proof_lexer::Token;
use std::alloc::Global;

/// Outside brackets; behind a slot or its brackets; in brackets, before a word or behind one.
#[derive(Clone, Copy)]
pub enum Step {
    Outside,
    BehindSlot,
    BeforeWord,
    BehindWord,
}

/// A place in a production, with the words that the brackets of the slot have so far.
#[derive(Drop)]
pub struct Walk<'a> {
    pub step: Step,
    pub named: Vec<&'a [u8]>,
}

/// The place before the first token.
pub fn start<'a>(alloc: Global) -> Walk<'a>
    ensures { walk_view result ≡ outside }
{
    Walk {
        step: Step::Outside,
        named: Vec::new(alloc),
    }
}

/// Whether a token at the place stands outside brackets.
pub fn is_outside(walk: &Walk<'_>, token: &Token<'_>) -> bool
    ensures { IsTrue result ↔ IsOutside (walk_view walk.now) (token_view token.now) }
{
    match walk.step {
        Step::Outside => true,
        Step::BehindSlot => !is_opening(token),
        Step::BeforeWord => false,
        Step::BehindWord => false,
    }
}

fn pass_outside(lists: &Lists<'_>, walk: &mut Walk<'_>, token: &Token<'_>)
    requires lists { AreLists lists.now }
    requires outside { IsOutside (walk_view walk.old) (token_view token.now) }
    ensures { Follows (portions_of lists.now) (walk_view walk.old) (token_view token.now) (walk_view walk.new) }
{
    walk.named.clear();
    if is_slot_word(lists, token) {
        walk.step = Step::BehindSlot;
        return;
    }
    walk.step = Step::Outside;
}

fn pass_name<'a>(
    lists: &Lists<'_>,
    walk: &mut Walk<'a>,
    token: &'a Token<'a>,
) -> Result<(), NoMemory>
    requires { walk.old.step ≡ BeforeWord }
    ensures { OnOk result (Follows (portions_of lists.now) (walk_view walk.old) (token_view token.now) (walk_view walk.new)) }
{
    if is_closing(token) {
        walk.step = Step::BehindSlot;
        return Ok(());
    }
    walk.named.push(token.text.as_bytes())?;
    walk.step = Step::BehindWord;
    Ok(())
}

fn pass_comma(lists: &Lists<'_>, walk: &mut Walk<'_>, token: &Token<'_>)
    requires { walk.old.step ≡ BehindWord }
    ensures { Follows (portions_of lists.now) (walk_view walk.old) (token_view token.now) (walk_view walk.new) }
{
    if is_closing(token) {
        walk.step = Step::BehindSlot;
        return;
    }
    walk.step = Step::BeforeWord;
}

fn pass_slot(lists: &Lists<'_>, walk: &mut Walk<'_>, token: &Token<'_>)
    requires lists { AreLists lists.now }
    requires step { walk.old.step ≡ BehindSlot }
    ensures { Follows (portions_of lists.now) (walk_view walk.old) (token_view token.now) (walk_view walk.new) }
{
    if is_opening(token) {
        walk.step = Step::BeforeWord;
        return;
    }
    pass_outside(lists, walk, token);
}

/// Goes on behind a token.
pub fn pass<'a>(
    lists: &Lists<'_>,
    walk: &mut Walk<'a>,
    token: &'a Token<'a>,
) -> Result<(), NoMemory>
    requires { AreLists lists.now }
    ensures { OnOk result (Follows (portions_of lists.now) (walk_view walk.old) (token_view token.now) (walk_view walk.new)) }
{
    match walk.step {
        Step::Outside => {
            pass_outside(lists, walk, token);
            Ok(())
        }
        Step::BehindSlot => {
            pass_slot(lists, walk, token);
            Ok(())
        }
        Step::BeforeWord => pass_name(lists, walk, token),
        Step::BehindWord => {
            pass_comma(lists, walk, token);
            Ok(())
        }
    }
}

/// Adds the word of a token where it is a binder.
pub fn note_binder<'a>(
    names: &Names<'_>,
    walk: &Walk<'_>,
    token: &'a Token<'a>,
    all: &mut NameIndex<'a>,
) -> Result<(), NoMemory>
    requires { AreNames names.now }
    ensures { OnOk result ((front : List PlainToken) → IsPlaceBehind (portions_of names.now.lists) front (walk_view walk.now)
        → AreBinders (portions_of names.now.lists) front (names_in all.old)
        → AreBinders (portions_of names.now.lists) (front ++ token_view token.now ∷ []) (names_in all.new)) }
{
    if !is_outside(walk, token) {
        return Ok(());
    }
    if !is_binder_word(names, token) {
        return Ok(());
    }
    add_name(all, token.text.as_bytes())?;
    Ok(())
}

/// The words of the binders of a form.
pub fn binders<'a>(
    alloc: Global,
    names: &Names<'_>,
    form: Form<'a>,
) -> Result<NameIndex<'a>, NoMemory>
    requires { AreNames names.now }
    ensures { IfOk result (λ all. AreBinders (portions_of names.now.lists) (plain_form form.now) (names_in all)) }
{
    let mut all = no_names(alloc);
    let mut walk = start(alloc);
    for token in form {
        note_binder(names, &walk, token, &mut all)?;
        pass(&names.lists, &mut walk, token)?;
    }
    Ok(all)
}
