// The readings of terms.
ghost use Rattle.std.specs.Prelude.{◌≡◌, ◌+◌, ◌≢◌, ◌↔◌, ◌<◌, ◌≤◌, ℕ, IsTrue, IfOk, [], ◌∷◌, map, length, slice_range};
ghost use Rattle.scheme_terms.specs.View.{scheme, scheme_parts};
ghost use Rattle.rule_schemes.specs.Reading.{bare};
ghost use Rattle.binding_terms.specs.Signature.{IsSingle};
ghost use Rattle.rule_schemes.specs.Said.{IsBefore, AreBefore};
ghost use Rattle.term_reader.specs.Ordered.{ReadsTermAt};
ghost use Rattle.term_reader.specs.Cases.{IsGroup, IsName, IsNameOf, IsVariable, IsMade, IsProduct};
ghost use Rattle.term_reader.specs.Firsts.{listed, AreFirst};
ghost use Rattle.term_reader.specs.Splitting.{IsSheet, tokens_of, AreKnown, AreWithin, AreUsable, AreInOrder, slot_range, split, built, ReadsPieces, IsMadeIn};
ghost use Rattle.term_reader.specs.View.{variable, in_scope};

use crate::brackets::bracket_splits;
use crate::firsts::{Firsts, extended, is_full, joined};
use crate::sheet::Sheet;
use crate::splitting::{Piece, Split, splits};
use crate::variables::{Var, innermost, slot_scope};
use crate::words::{is_any_word, is_word};
use binding_terms::{CatId, Item, NoMemory, ProdId, number};
use scheme_terms::{MetaDecl, MetaId, SArg, Scheme, copy_scheme};
use sqlite_items::Items;
use std::alloc::Global;

/// What is made of the readings of slots.
#[derive(Clone, Copy, Debug, PartialEq, Eq)]
pub enum Head {
    Product(ProdId),
    Meta(MetaId),
}

/// The schemes of the parts alone.
pub fn bodies(alloc: Global, parts: &[SArg]) -> Result<Items<Scheme>, NoMemory>
    ensures { IfOk result (λ all. map scheme all ≡ bare (scheme_parts parts.now)) }
{
    let mut all = Items::new(alloc);
    for part in parts {
        all.push(copy_scheme(alloc, &part.body)?)?;
    }
    Ok(all)
}

fn build(alloc: Global, head: Head, parts: Items<SArg>) -> Result<Scheme, NoMemory>
    ensures { IfOk result (λ new. scheme new ≡ built head (scheme_parts parts)) }
{
    match head {
        Head::Product(prod) => Ok(Scheme::Con(prod, parts)),
        Head::Meta(meta) => Ok(Scheme::Meta(meta, bodies(alloc, parts.as_slice())?)),
    }
}

/// What is made of each of the parts.
fn all_built(
    alloc: Global,
    head: Head,
    found: Firsts<Items<SArg>>,
) -> Result<Firsts<Scheme>, NoMemory>
    ensures { IfOk result (λ new. listed scheme new ≡ map (built head) (listed scheme_parts found)) }
{
    match found {
        Firsts::Nothing => Ok(Firsts::Nothing),
        Firsts::One(x) => Ok(Firsts::One(build(alloc, head, x)?)),
        Firsts::Two(x, y) => Ok(Firsts::Two(build(alloc, head, x)?, build(alloc, head, y)?)),
    }
}

fn is_nothing(found: &Firsts<Items<SArg>>) -> bool
    ensures { IsTrue result ↔ (listed scheme_parts found.now ≡ []) }
{
    match found {
        Firsts::Nothing => true,
        Firsts::One(_) => false,
        Firsts::Two(_, _) => false,
    }
}

/// The first two readings of the slots together, under the variables that each lists among the split's own.
#[cycle(terms)]
pub fn parts<'a>(
    alloc: Global,
    sheet: &Sheet<'a>,
    vars: &[Var<'a>],
    own: &[Var<'a>],
    slots: &[Piece<'a>],
) -> Result<Firsts<Items<SArg>>, NoMemory>
    requires sheet { IsSheet sheet.now }
    requires vars { AreKnown sheet.now (in_scope vars.now) }
    requires own { AreKnown sheet.now (map variable own.now) }
    requires within { AreWithin (length sheet.now.tokens.now) (map slot_range slots.now) }
    ensures { IfOk result
        (λ found. AreFirst AreBefore
        (ReadsPieces sheet.now.sig.now sheet.now.metas.now (tokens_of sheet.now) (in_scope vars.now) (map variable own.now) (map slot_range slots.now))
        (listed scheme_parts found)) }
{
    let mut found = Firsts::One(Items::new(alloc));
    for slot in slots {
        if is_nothing(&found) {
            return Ok(found);
        }
        let scope = slot_scope(alloc, vars, own, slot.binds)?;
        let more = terms(alloc, sheet, scope.as_slice(), slot.cat, slot.from, slot.to)?;
        found = extended(alloc, found, slot.binds.len(), more)?;
    }
    Ok(found)
}

/// The first two readings in the splits, as what is made of them.
#[cycle(terms)]
pub fn in_splits<'a>(
    alloc: Global,
    sheet: &Sheet<'a>,
    vars: &[Var<'a>],
    head: Head,
    all: &[Split<'a>],
) -> Result<Firsts<Scheme>, NoMemory>
    requires sheet { IsSheet sheet.now }
    requires vars { AreKnown sheet.now (in_scope vars.now) }
    requires usable { AreUsable sheet.now (map split all.now) }
    requires in_order { AreInOrder (map split all.now) }
    ensures { IfOk result
        (λ found. (alternative : ℕ)
        → AreFirst IsBefore (IsMadeIn sheet.now (in_scope vars.now) alternative head (map split all.now)) (listed scheme found)) }
{
    let mut found = Firsts::Nothing;
    for split in all {
        if is_full(&found) {
            return Ok(found);
        }
        let slots = parts(
            alloc,
            sheet,
            vars,
            split.own.as_slice(),
            split.slots.as_slice(),
        )?;
        let more = all_built(alloc, head, slots)?;
        found = joined(found, more);
    }
    Ok(found)
}

/// The readings as the metavariable with that number, with its arguments in brackets.
#[cycle(terms)]
fn name<'a>(
    alloc: Global,
    sheet: &Sheet<'a>,
    vars: &[Var<'a>],
    m: usize,
    decl: &'a MetaDecl,
    cat: CatId,
    from: usize,
    to: usize,
) -> Result<Firsts<Scheme>, NoMemory>
    requires sheet { IsSheet sheet.now }
    requires vars { AreKnown sheet.now (in_scope vars.now) }
    requires range { (from ≤ to) × (to ≤ length sheet.now.tokens.now) }
    ensures { IfOk result
        (λ found. AreFirst IsBefore
        (IsNameOf sheet.now.sig.now sheet.now.metas.now (in_scope vars.now) m decl.now cat.0 (slice_range (tokens_of sheet.now) from to))
        (listed scheme found)) }
{
    if from == to {
        return Ok(Firsts::Nothing);
    }
    if decl.cat.0 != cat.0 {
        return Ok(Firsts::Nothing);
    }
    if !is_word(decl.name.bytes(), &sheet.tokens[from]) {
        return Ok(Firsts::Nothing);
    }
    let all = bracket_splits(alloc, sheet, decl.params.as_slice(), from + 1, to)?;
    let head = Head::Meta(MetaId(number(m)?));
    in_splits(alloc, sheet, vars, head, all.as_slice())
}

/// The readings as a metavariable of the category.
#[cycle(terms)]
fn names<'a>(
    alloc: Global,
    sheet: &Sheet<'a>,
    vars: &[Var<'a>],
    cat: CatId,
    from: usize,
    to: usize,
) -> Result<Firsts<Scheme>, NoMemory>
    requires sheet { IsSheet sheet.now }
    requires vars { AreKnown sheet.now (in_scope vars.now) }
    requires range { (from ≤ to) × (to ≤ length sheet.now.tokens.now) }
    ensures { IfOk result
        (λ found. AreFirst IsBefore
        (IsName sheet.now.sig.now sheet.now.metas.now (in_scope vars.now) cat.0 (slice_range (tokens_of sheet.now) from to))
        (listed scheme found)) }
{
    let metas = sheet.metas;
    let mut found = Firsts::Nothing;
    for m in 0..metas.len() {
        let more = name(alloc, sheet, vars, m, &metas[m], cat, from, to)?;
        found = joined(found, more);
    }
    Ok(found)
}

/// The reading as a variable of the category that is in scope.
fn variables(
    sheet: &Sheet<'_>,
    vars: &[Var<'_>],
    cat: CatId,
    from: usize,
    to: usize,
) -> Firsts<Scheme>
    requires range { (from ≤ to) × (to ≤ length sheet.now.tokens.now) }
    ensures { AreFirst IsBefore (IsVariable (in_scope vars.now) cat.0 (slice_range (tokens_of sheet.now) from to)) (listed scheme result) }
{
    if to - from != 1 {
        return Firsts::Nothing;
    }
    if !is_any_word(&sheet.tokens[from]) {
        return Firsts::Nothing;
    }
    match innermost(vars, cat, sheet.tokens[from].text.as_bytes()) {
        Some(found) => Firsts::One(found),
        None => Firsts::Nothing,
    }
}

/// The readings by a production with these items.
#[cycle(terms)]
fn made<'a>(
    alloc: Global,
    sheet: &Sheet<'a>,
    vars: &[Var<'a>],
    prod: ProdId,
    items: &'a [Item],
    from: usize,
    to: usize,
) -> Result<Firsts<Scheme>, NoMemory>
    requires sheet { IsSheet sheet.now }
    requires vars { AreKnown sheet.now (in_scope vars.now) }
    requires some { items.now ≢ [] }
    requires not_single { IsSingle items.now → ⊥ }
    requires range { (from ≤ to) × (to ≤ length sheet.now.tokens.now) }
    ensures { IfOk result
        (λ found. AreFirst IsBefore
        (IsMade sheet.now.sig.now sheet.now.metas.now (in_scope vars.now) (3 + prod.0) prod.0 items.now (slice_range (tokens_of sheet.now) from to))
        (listed scheme found)) }
{
    let all = splits(alloc, sheet, items, 0, from, to)?;
    in_splits(alloc, sheet, vars, Head::Product(prod), all.as_slice())
}

/// The readings by the production with that number, where it is of the category.
#[cycle(terms)]
fn product<'a>(
    alloc: Global,
    sheet: &Sheet<'a>,
    vars: &[Var<'a>],
    p: usize,
    cat: CatId,
    from: usize,
    to: usize,
) -> Result<Firsts<Scheme>, NoMemory>
    requires sheet { IsSheet sheet.now }
    requires vars { AreKnown sheet.now (in_scope vars.now) }
    requires prod { p < length sheet.now.sig.now.prods }
    requires range { (from ≤ to) × (to ≤ length sheet.now.tokens.now) }
    ensures { IfOk result
        (λ found. AreFirst IsBefore
        (IsProduct sheet.now.sig.now sheet.now.metas.now (in_scope vars.now) p cat.0 (slice_range (tokens_of sheet.now) from to))
        (listed scheme found)) }
{
    let prod = &sheet.sig.prods()[p];
    if prod.cat.0 != cat.0 {
        return Ok(Firsts::Nothing);
    }
    let id = ProdId(number(p)?);
    made(alloc, sheet, vars, id, prod.items.as_slice(), from, to)
}

/// The readings as a form of the category in parentheses.
#[cycle(terms)]
fn group<'a>(
    alloc: Global,
    sheet: &Sheet<'a>,
    vars: &[Var<'a>],
    cat: CatId,
    from: usize,
    to: usize,
) -> Result<Firsts<Scheme>, NoMemory>
    requires sheet { IsSheet sheet.now }
    requires vars { AreKnown sheet.now (in_scope vars.now) }
    requires range { (from ≤ to) × (to ≤ length sheet.now.tokens.now) }
    ensures { IfOk result
        (λ found. AreFirst IsBefore
        (IsGroup sheet.now.sig.now sheet.now.metas.now (in_scope vars.now) cat.0 (slice_range (tokens_of sheet.now) from to))
        (listed scheme found)) }
{
    if to - from < 2 {
        return Ok(Firsts::Nothing);
    }
    if !sheet.has(b'(', from) {
        return Ok(Firsts::Nothing);
    }
    if !sheet.has(b')', to - 1) {
        return Ok(Firsts::Nothing);
    }
    terms(alloc, sheet, vars, cat, from + 1, to - 1)
}

/// The first two readings, as a term of the category, of the tokens from the one place up to the other.
#[cycle(terms)]
pub fn terms<'a>(
    alloc: Global,
    sheet: &Sheet<'a>,
    vars: &[Var<'a>],
    cat: CatId,
    from: usize,
    to: usize,
) -> Result<Firsts<Scheme>, NoMemory>
    requires sheet { IsSheet sheet.now }
    requires vars { AreKnown sheet.now (in_scope vars.now) }
    requires range { (from ≤ to) × (to ≤ length sheet.now.tokens.now) }
    ensures { IfOk result
        (λ found. AreFirst IsBefore
        (ReadsTermAt sheet.now.sig.now sheet.now.metas.now (in_scope vars.now) cat.0 (slice_range (tokens_of sheet.now) from to))
        (listed scheme found)) }
{
    let groups = group(alloc, sheet, vars, cat, from, to)?;
    let named = names(alloc, sheet, vars, cat, from, to)?;
    let bound = variables(sheet, vars, cat, from, to);
    let mut found = joined(joined(groups, named), bound);
    for p in 0..sheet.sig.prods().len() {
        if is_full(&found) {
            return Ok(found);
        }
        let more = product(alloc, sheet, vars, p, cat, from, to)?;
        found = joined(found, more);
    }
    Ok(found)
}
