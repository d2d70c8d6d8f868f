// The readings of the slots of a judgment's form of which one takes a context: shape by shape of the context, and all other slots
// under the variables that come with the shape.
ghost use Rattle.std.specs.Prelude.{◌≡◌, ◌≢◌, ◌<◌, IfOk, MatchOption, map, length};
ghost use Rattle.std.specs.List.{AllByRecursion};
ghost use Rattle.rule_schemes.specs.Said.{IsBefore};
ghost use Rattle.term_reader.specs.Firsts.{listed, AreFirst};
ghost use Rattle.term_reader.specs.Splitting.{IsSheet, AreWithin, slot_range, tokens_of};
ghost use Rattle.notation_parser.specs.Forms.{IsContextPlace, IsReadInShape, IsReadInShapes, IsReadInSlots};
ghost use Rattle.notation_parser.specs.Fronts.{AreFirstAt, placed};
ghost use Rattle.notation_parser.specs.Shapes.{AreShapesInOrder, IsScopeKnown, IsUsable, KnownsApart, context_shape};
ghost use Rattle.notation_parser.specs.View.{outcome, reading_scope};

use crate::around::{all_placed, arounds};
use crate::contexts::{in_shape, shape_scope};
use crate::merging::{Placed, are_full, merged, outcomes};
use crate::outcomes::Outcome;
use crate::shaping::{Shape, shapes};
use binding_terms::{CatId, NoMemory};
use rule_schemes::ReadScope;
use std::alloc::Global;
use term_reader::{Firsts, Piece, Sheet, parts};

/// The number of the first slot of the category.
fn context_place(cat: CatId, slots: &[Piece<'_>]) -> Option<usize>
    ensures { MatchOption result (AllByRecursion (λ p. p.cat.0 ≢ cat.0) (map slot_range slots.now))
        (λ n. (n < length slots.now) × IsContextPlace cat.0 n (map slot_range slots.now)) }
{
    for k in 0..slots.len() {
        if slots[k].cat.0 == cat.0 {
            return Some(k);
        }
    }
    None
}

/// The readings whose context stands at that place and has that shape.
fn in_one_shape<'a>(
    alloc: Global,
    sheet: &Sheet<'a>,
    scope: &'a ReadScope,
    cat: CatId,
    number: u32,
    slots: &[Piece<'a>],
    place: usize,
    shape: &Shape<'a>,
) -> Result<Firsts<Placed>, NoMemory>
    requires sheet { IsSheet sheet.now }
    requires scope { IsScopeKnown sheet.now (reading_scope scope.now) }
    requires within { AreWithin (length sheet.now.tokens.now) (map slot_range slots.now) }
    requires place { place < length slots.now }
    requires usable { IsUsable sheet.now (context_shape shape.now) }
    ensures { IfOk result
        (λ found. AreFirstAt IsBefore
        (IsReadInShape sheet.now.sig.now (reading_scope scope.now) sheet.now.metas.now (tokens_of sheet.now) cat number place (map slot_range slots.now) (context_shape shape.now))
        (listed placed found)) }
{
    let vars = shape_scope(alloc, sheet, scope, cat, shape)?;
    let front = &slots[..place];
    let fronts = parts(alloc, sheet, vars.as_slice(), &[], front)?;
    let contexts = in_shape(alloc, sheet, scope, cat, shape)?;
    let behind = parts(alloc, sheet, vars.as_slice(), &[], &slots[place + 1..])?;
    let found = arounds(alloc, &fronts, &contexts, &behind)?;
    all_placed(alloc, sheet, vars.as_slice(), number, front, found)
}

/// The readings whose context stands at that place and has one of the shapes, which stand in the reading order.
fn in_shapes<'a>(
    alloc: Global,
    sheet: &Sheet<'a>,
    scope: &'a ReadScope,
    cat: CatId,
    number: u32,
    slots: &[Piece<'a>],
    place: usize,
    all: &[Shape<'a>],
) -> Result<Firsts<Placed>, NoMemory>
    requires sheet { IsSheet sheet.now }
    requires scope { IsScopeKnown sheet.now (reading_scope scope.now) }
    requires within { AreWithin (length sheet.now.tokens.now) (map slot_range slots.now) }
    requires place { place < length slots.now }
    requires usable { AllByRecursion (IsUsable sheet.now) (map context_shape all.now) }
    requires in_order { AreShapesInOrder sheet.now.sig.now (reading_scope scope.now) sheet.now.metas.now (tokens_of sheet.now) cat (map context_shape all.now) }
    ensures { IfOk result
        (λ found. AreFirstAt IsBefore
        (IsReadInShapes sheet.now.sig.now (reading_scope scope.now) sheet.now.metas.now (tokens_of sheet.now) cat number place (map slot_range slots.now) (map context_shape all.now))
        (listed placed found)) }
{
    let mut found = Firsts::Nothing;
    for shape in all {
        // Nothing in a later shape stands before these where nothing stands in front of the context.
        if place == 0 && are_full(&found) {
            return Ok(found);
        }
        let more = in_one_shape(alloc, sheet, scope, cat, number, slots, place, shape)?;
        found = merged(found, more);
    }
    Ok(found)
}

/// The readings whose slots take these tokens, the first one of the category as a context.
pub fn in_slots<'a>(
    alloc: Global,
    sheet: &Sheet<'a>,
    scope: &'a ReadScope,
    cat: CatId,
    number: u32,
    slots: &[Piece<'a>],
) -> Result<Firsts<Outcome>, NoMemory>
    requires sheet { IsSheet sheet.now }
    requires scope { IsScopeKnown sheet.now (reading_scope scope.now) }
    requires apart { KnownsApart (reading_scope scope.now).names.knowns }
    requires within { AreWithin (length sheet.now.tokens.now) (map slot_range slots.now) }
    ensures { IfOk result
        (λ found. AreFirst IsBefore
        (IsReadInSlots sheet.now.sig.now (reading_scope scope.now) sheet.now.metas.now (tokens_of sheet.now) cat number (map slot_range slots.now))
        (listed outcome found)) }
{
    match context_place(cat, slots) {
        None => Ok(Firsts::Nothing),
        Some(place) => {
            let all = shapes(alloc, sheet, scope, cat, slots[place].from, slots[place].to)?;
            let found = in_shapes(
                alloc,
                sheet,
                scope,
                cat,
                number,
                slots,
                place,
                all.as_slice(),
            )?;
            Ok(outcomes(found))
        }
    }
}
