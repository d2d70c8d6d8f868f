// The first place at which tokens are read as a given term.
ghost use Rattle.std.specs.Prelude.{◌≡◌, ◌≢◌, ◌+◌, ◌++◌, ◌≤◌, IfOk, [], map, length, slice_range};
ghost use Rattle.binding_terms.specs.Signature.{IsSingle};
ghost use Rattle.scheme_terms.specs.SchemeTree.{meta, con, values};
ghost use Rattle.scheme_terms.specs.View.{scheme, scheme_parts};
ghost use Rattle.rule_schemes.specs.Reading.{slot_variables};
ghost use Rattle.rule_schemes.specs.Said.{IsBefore, AreBefore};
ghost use Rattle.term_reader.specs.Cases.{IsGroup, IsName, IsNameOf, IsProduct, IsMade};
ghost use Rattle.term_reader.specs.Splitting.{IsSheet, AreKnown, AreWithin, AreUsable, AreInOrder, tokens_of, slot_range, split};
ghost use Rattle.term_reader.specs.View.{in_scope, variable};
ghost use Rattle.term_reader.specs.PlaceCases.{IsAlone, IsInSplit, IsInSplits};
ghost use Rattle.term_reader.specs.FirstPlace.{IsFirstPlace, ReadsAs, ReadPiecesAs};
ghost use Rattle.term_reader.specs.PlaceView.{place, places};

use crate::brackets::bracket_splits;
use crate::counting::{bind_as_many, slot_lengths};
use crate::places::{Place, grouped};
use crate::reading::bodies;
use crate::sheet::Sheet;
use crate::splitting::{Piece, Split, splits};
use crate::variable_place::as_variable;
use crate::variables::{Var, slot_scope};
use crate::words::is_word;
use binding_terms::{CatId, Item, NoMemory, ProdId};
use scheme_terms::{MetaDecl, MetaId, SArg, Scheme};
use sqlite_items::Items;
use std::alloc::Global;

/// The first places at which the slots read together as those terms, under the variables that each lists among the split's own.
#[cycle(places)]
pub fn places_of<'a>(
    alloc: Global,
    sheet: &Sheet<'a>,
    vars: &[Var<'a>],
    own: &[Var<'a>],
    slots: &[Piece<'a>],
    terms: &[Scheme],
) -> Result<Option<Items<Place>>, NoMemory>
    requires sheet { IsSheet sheet.now }
    requires vars { AreKnown sheet.now (in_scope vars.now) }
    requires own { AreKnown sheet.now (map variable own.now) }
    requires within { AreWithin (length sheet.now.tokens.now) (map slot_range slots.now) }
    ensures { IfOk result
        (IsFirstPlace AreBefore
        (ReadPiecesAs sheet.now.sig.now sheet.now.metas.now (tokens_of sheet.now) (in_scope vars.now) (map variable own.now) (map slot_range slots.now) (map scheme terms.now))
        places) }
{
    if slots.len() != terms.len() {
        return Ok(None);
    }
    let mut all = Items::new(alloc);
    for i in 0..slots.len() {
        match in_slot(alloc, sheet, vars, own, &slots[i], &terms[i])? {
            Some(found) => all.push(found)?,
            None => return Ok(None),
        }
    }
    Ok(Some(all))
}

/// The first place at which a slot reads as that term, under the variables that it lists among a split's own.
#[cycle(places)]
fn in_slot<'a>(
    alloc: Global,
    sheet: &Sheet<'a>,
    vars: &[Var<'a>],
    own: &[Var<'a>],
    slot: &Piece<'a>,
    term: &Scheme,
) -> Result<Option<Place>, NoMemory>
    requires sheet { IsSheet sheet.now }
    requires vars { AreKnown sheet.now (in_scope vars.now) }
    requires own { AreKnown sheet.now (map variable own.now) }
    requires within { (slot.now.from ≤ slot.now.to) × (slot.now.to ≤ length sheet.now.tokens.now) }
    ensures { IfOk result
        (IsFirstPlace IsBefore
        (ReadsAs sheet.now.sig.now sheet.now.metas.now (slot_variables (map variable own.now) slot.now.binds.now ++ in_scope vars.now) slot.now.cat.0 (slice_range (tokens_of sheet.now) slot.now.from slot.now.to) (scheme term.now))
        place) }
{
    let scope = slot_scope(alloc, vars, own, slot.binds)?;
    place_of(
        alloc,
        sheet,
        scope.as_slice(),
        slot.cat,
        slot.from,
        slot.to,
        term,
    )
}

/// The first place in a split at which its slots read as those terms.
#[cycle(places)]
fn in_split<'a>(
    alloc: Global,
    sheet: &Sheet<'a>,
    vars: &[Var<'a>],
    alternative: usize,
    here: &Split<'a>,
    terms: &[Scheme],
) -> Result<Option<Place>, NoMemory>
    requires sheet { IsSheet sheet.now }
    requires vars { AreKnown sheet.now (in_scope vars.now) }
    requires own { AreKnown sheet.now (split here.now).0 }
    requires within { AreWithin (length sheet.now.tokens.now) (split here.now).1 }
    ensures { IfOk result
        (IsFirstPlace IsBefore (IsInSplit sheet.now (in_scope vars.now) alternative (split here.now) (map scheme terms.now)) place) }
{
    let slots = here.slots.as_slice();
    match places_of(alloc, sheet, vars, here.own.as_slice(), slots, terms)? {
        Some(inner) => {
            let lengths = slot_lengths(alloc, slots)?;
            Ok(Some(Place {
                alternative,
                lengths,
                inner,
            }))
        }
        None => Ok(None),
    }
}

/// The first place in the splits.
#[cycle(places)]
fn in_splits<'a>(
    alloc: Global,
    sheet: &Sheet<'a>,
    vars: &[Var<'a>],
    alternative: usize,
    all: &[Split<'a>],
    terms: &[Scheme],
) -> Result<Option<Place>, NoMemory>
    requires sheet { IsSheet sheet.now }
    requires vars { AreKnown sheet.now (in_scope vars.now) }
    requires usable { AreUsable sheet.now (map split all.now) }
    requires in_order { AreInOrder (map split all.now) }
    ensures { IfOk result
        (IsFirstPlace IsBefore (IsInSplits sheet.now (in_scope vars.now) alternative (map split all.now) (map scheme terms.now)) place) }
{
    for here in all {
        match in_split(alloc, sheet, vars, alternative, here, terms)? {
            Some(found) => return Ok(Some(found)),
            None => (),
        }
    }
    Ok(None)
}

/// The first place as the metavariable with that number applied to those arguments.
#[cycle(places)]
fn as_name_of<'a>(
    alloc: Global,
    sheet: &Sheet<'a>,
    vars: &[Var<'a>],
    number: MetaId,
    decl: &'a MetaDecl,
    cat: CatId,
    from: usize,
    to: usize,
    args: &[Scheme],
) -> Result<Option<Place>, NoMemory>
    requires sheet { IsSheet sheet.now }
    requires vars { AreKnown sheet.now (in_scope vars.now) }
    requires range { (from ≤ to) × (to ≤ length sheet.now.tokens.now) }
    ensures { IfOk result
        (IsFirstPlace IsBefore
        (λ w s. IsNameOf sheet.now.sig.now sheet.now.metas.now (in_scope vars.now) number.0 decl.now cat.0 (slice_range (tokens_of sheet.now) from to) w s
        × (s ≡ meta number.0 (values (map scheme args.now))))
        place) }
{
    if from == to {
        return Ok(None);
    }
    if decl.cat.0 != cat.0 {
        return Ok(None);
    }
    if !is_word(decl.name.bytes(), &sheet.tokens[from]) {
        return Ok(None);
    }
    let all = bracket_splits(alloc, sheet, decl.params.as_slice(), from + 1, to)?;
    in_splits(alloc, sheet, vars, 1, all.as_slice(), args)
}

/// The first place as a metavariable applied to those arguments, where there is one with that number.
#[cycle(places)]
fn as_name<'a>(
    alloc: Global,
    sheet: &Sheet<'a>,
    vars: &[Var<'a>],
    number: MetaId,
    cat: CatId,
    from: usize,
    to: usize,
    args: &[Scheme],
) -> Result<Option<Place>, NoMemory>
    requires sheet { IsSheet sheet.now }
    requires vars { AreKnown sheet.now (in_scope vars.now) }
    requires range { (from ≤ to) × (to ≤ length sheet.now.tokens.now) }
    ensures { IfOk result
        (IsFirstPlace IsBefore
        (λ w s. IsName sheet.now.sig.now sheet.now.metas.now (in_scope vars.now) cat.0 (slice_range (tokens_of sheet.now) from to) w s
        × (s ≡ meta number.0 (values (map scheme args.now))))
        place) }
{
    let metas = sheet.metas;
    let m = number.0 as usize;
    if m >= metas.len() {
        return Ok(None);
    }
    as_name_of(alloc, sheet, vars, number, &metas[m], cat, from, to, args)
}

/// The first place by a production with these items, with those parts.
#[cycle(places)]
fn as_made<'a>(
    alloc: Global,
    sheet: &Sheet<'a>,
    vars: &[Var<'a>],
    prod: ProdId,
    items: &'a [Item],
    from: usize,
    to: usize,
    parts: &[SArg],
) -> Result<Option<Place>, NoMemory>
    requires sheet { IsSheet sheet.now }
    requires vars { AreKnown sheet.now (in_scope vars.now) }
    requires some { items.now ≢ [] }
    requires not_single { IsSingle items.now → ⊥ }
    requires range { (from ≤ to) × (to ≤ length sheet.now.tokens.now) }
    ensures { IfOk result
        (IsFirstPlace IsBefore
        (λ w s. IsMade sheet.now.sig.now sheet.now.metas.now (in_scope vars.now) (3 + prod.0) prod.0 items.now (slice_range (tokens_of sheet.now) from to) w s
        × (s ≡ con prod.0 (scheme_parts parts.now)))
        place) }
{
    if !bind_as_many(items, parts) {
        return Ok(None);
    }
    let all = splits(alloc, sheet, items, 0, from, to)?;
    let terms = bodies(alloc, parts)?;
    let alternative = 3 + prod.0 as usize;
    in_splits(
        alloc,
        sheet,
        vars,
        alternative,
        all.as_slice(),
        terms.as_slice(),
    )
}

/// The first place by the production with that number, with those parts, where it is of the category.
#[cycle(places)]
fn as_product<'a>(
    alloc: Global,
    sheet: &Sheet<'a>,
    vars: &[Var<'a>],
    prod: ProdId,
    cat: CatId,
    from: usize,
    to: usize,
    parts: &[SArg],
) -> Result<Option<Place>, NoMemory>
    requires sheet { IsSheet sheet.now }
    requires vars { AreKnown sheet.now (in_scope vars.now) }
    requires range { (from ≤ to) × (to ≤ length sheet.now.tokens.now) }
    ensures { IfOk result
        (IsFirstPlace IsBefore
        (λ w s. IsProduct sheet.now.sig.now sheet.now.metas.now (in_scope vars.now) prod.0 cat.0 (slice_range (tokens_of sheet.now) from to) w s
        × (s ≡ con prod.0 (scheme_parts parts.now)))
        place) }
{
    let p = prod.0 as usize;
    if p >= sheet.sig.prods().len() {
        return Ok(None);
    }
    let found = &sheet.sig.prods()[p];
    if found.cat.0 != cat.0 {
        return Ok(None);
    }
    as_made(
        alloc,
        sheet,
        vars,
        prod,
        found.items.as_slice(),
        from,
        to,
        parts,
    )
}

/// The first place without parentheses around all the tokens.
#[cycle(places)]
fn alone<'a>(
    alloc: Global,
    sheet: &Sheet<'a>,
    vars: &[Var<'a>],
    cat: CatId,
    from: usize,
    to: usize,
    term: &Scheme,
) -> Result<Option<Place>, NoMemory>
    requires sheet { IsSheet sheet.now }
    requires vars { AreKnown sheet.now (in_scope vars.now) }
    requires range { (from ≤ to) × (to ≤ length sheet.now.tokens.now) }
    ensures { IfOk result
        (IsFirstPlace IsBefore
        (λ w s. IsAlone sheet.now.sig.now sheet.now.metas.now (in_scope vars.now) cat.0 (slice_range (tokens_of sheet.now) from to) w s
        × (s ≡ scheme term.now))
        place) }
{
    match term {
        Scheme::Meta(number, args) => {
            as_name(alloc, sheet, vars, *number, cat, from, to, args.as_slice())
        }
        Scheme::Known(_) => Ok(as_variable(alloc, sheet, vars, cat, from, to, term)),
        Scheme::Local(_) => Ok(as_variable(alloc, sheet, vars, cat, from, to, term)),
        Scheme::Con(prod, parts) => {
            as_product(alloc, sheet, vars, *prod, cat, from, to, parts.as_slice())
        }
    }
}

/// The first place in parentheses around all the tokens.
#[cycle(places)]
fn in_group<'a>(
    alloc: Global,
    sheet: &Sheet<'a>,
    vars: &[Var<'a>],
    cat: CatId,
    from: usize,
    to: usize,
    term: &Scheme,
) -> Result<Option<Place>, NoMemory>
    requires sheet { IsSheet sheet.now }
    requires vars { AreKnown sheet.now (in_scope vars.now) }
    requires range { (from ≤ to) × (to ≤ length sheet.now.tokens.now) }
    ensures { IfOk result
        (IsFirstPlace IsBefore
        (λ w s. IsGroup sheet.now.sig.now sheet.now.metas.now (in_scope vars.now) cat.0 (slice_range (tokens_of sheet.now) from to) w s
        × (s ≡ scheme term.now))
        place) }
{
    if to - from < 2 {
        return Ok(None);
    }
    if !sheet.has(b'(', from) {
        return Ok(None);
    }
    if !sheet.has(b')', to - 1) {
        return Ok(None);
    }
    match place_of(alloc, sheet, vars, cat, from + 1, to - 1, term)? {
        Some(inside) => {
            let found = grouped(alloc, inside)?;
            Ok(Some(found))
        }
        None => Ok(None),
    }
}

/// The first place at which the tokens from the one place up to the other read as that term of the category.
#[cycle(places)]
pub fn place_of<'a>(
    alloc: Global,
    sheet: &Sheet<'a>,
    vars: &[Var<'a>],
    cat: CatId,
    from: usize,
    to: usize,
    term: &Scheme,
) -> Result<Option<Place>, NoMemory>
    requires sheet { IsSheet sheet.now }
    requires vars { AreKnown sheet.now (in_scope vars.now) }
    requires range { (from ≤ to) × (to ≤ length sheet.now.tokens.now) }
    ensures { IfOk result
        (IsFirstPlace IsBefore
        (ReadsAs sheet.now.sig.now sheet.now.metas.now (in_scope vars.now) cat.0 (slice_range (tokens_of sheet.now) from to) (scheme term.now))
        place) }
{
    match in_group(alloc, sheet, vars, cat, from, to, term)? {
        Some(found) => Ok(Some(found)),
        None => alone(alloc, sheet, vars, cat, from, to, term),
    }
}
