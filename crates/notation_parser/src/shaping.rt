// The shapes of contexts: how a context begins, and how the tokens are split among its entries and their slots.
ghost use Rattle.std.specs.Prelude.{◌≡◌, ◌≢◌, ◌↔◌, ◌<◌, ◌≤◌, ◌+◌, ◌-◌, ◌++◌, IfOk, OnOk, IsTrue, [], ◌∷◌, map, drop, length, slice_get, slice_range};
ghost use Rattle.std.specs.List.{AllByRecursion, list_all};
ghost use Rattle.binding_terms.specs.Signature.{binders, is_word};
ghost use Rattle.term_reader.specs.Splitting.{IsSheet, tokens_of, slot_range, split};
ghost use Rattle.term_reader.specs.View.{variable};
ghost use Rattle.notation_parser.specs.Shapes.{entered, AreShapes, IsUsable, IsScopeKnown, KnownsApart, begun, entry_shape, scope_entry_shape, context_shape};
ghost use Rattle.notation_parser.specs.ContextCases.{BeginsWith, IsEntryOver, IsCategoryName, IsNamed, IsEmptyOf, IsEnteredAt, IsEnteredBelow, IsContextBy, AreListed, first_variable, entry_of_split, with_entries, crossed};
ghost use Rattle.notation_parser.specs.View.{reading_scope};

use crate::known_entries::known_shapes;
use binding_terms::{CatId, Item, NoMemory, ProdId, number};
use rule_schemes::ReadScope;
use sqlite_items::{Items, at};
use std::alloc::Global;
use term_reader::{Piece, Sheet, Split, Var, is_word, splits};

/// An entry as it is split over the tokens: its production, how many tokens the context before it has, its variable, its slots.
#[derive(Drop)]
pub struct Entered<'a> {
    pub prod: ProdId,
    pub before: usize,
    pub variable: Var<'a>,
    pub slots: Items<Piece<'a>>,
}

/// A known variable of the scope, by its number, with its entry as it is split over the tokens.
#[derive(Drop)]
pub struct KnownEntry<'a> {
    pub prod: ProdId,
    pub number: usize,
    pub slots: Items<Piece<'a>>,
}

/// How a context begins.
#[derive(Drop)]
pub enum Start<'a> {
    /// With the name of its category.
    Name,
    /// With an empty form.
    Empty(ProdId),
    /// With a new known variable and its entry.
    New(Entered<'a>),
    /// With a known variable of the scope.
    Known(KnownEntry<'a>),
}

/// How a context begins, and its entries from the first on.
#[derive(Drop)]
pub struct Shape<'a> {
    pub start: Start<'a>,
    pub entries: Items<Entered<'a>>,
}

fn copy_entered<'a>(alloc: Global, entry: &Entered<'a>) -> Result<Entered<'a>, NoMemory>
    ensures { IfOk result (λ new. entry_shape new ≡ entry_shape entry.now) }
{
    Ok(Entered {
        prod: entry.prod,
        before: entry.before,
        variable: entry.variable,
        slots: Items::from_slice(alloc, entry.slots.as_slice())?,
    })
}

fn copy_known<'a>(alloc: Global, known: &KnownEntry<'a>) -> Result<KnownEntry<'a>, NoMemory>
    ensures { IfOk result (λ new. scope_entry_shape new ≡ scope_entry_shape known.now) }
{
    Ok(KnownEntry {
        prod: known.prod,
        number: known.number,
        slots: Items::from_slice(alloc, known.slots.as_slice())?,
    })
}

fn copy_start<'a>(alloc: Global, start: &Start<'a>) -> Result<Start<'a>, NoMemory>
    ensures { IfOk result (λ new. begun new ≡ begun start.now) }
{
    match start {
        Start::Name => Ok(Start::Name),
        Start::Empty(prod) => Ok(Start::Empty(*prod)),
        Start::New(entry) => Ok(Start::New(copy_entered(alloc, entry)?)),
        Start::Known(known) => Ok(Start::Known(copy_known(alloc, known)?)),
    }
}

#[tactic(auto, using(std::proofs::lemmas::List::take_all))]
fn copy_entries<'a>(alloc: Global, entries: &[Entered<'a>]) -> Result<Items<Entered<'a>>, NoMemory>
    ensures { IfOk result (λ new. map entry_shape new ≡ map entry_shape entries.now) }
{
    let mut all = Items::new(alloc);
    for entry in entries {
        all.push(copy_entered(alloc, entry)?)?;
    }
    Ok(all)
}

/// The entry of a split.
pub fn entry_of<'a>(
    alloc: Global,
    prod: ProdId,
    before: usize,
    found: &Split<'a>,
) -> Result<Entered<'a>, NoMemory>
    requires { 0 < length found.now.own }
    ensures { IfOk result (λ new. entry_shape new ≡ entry_of_split prod.0 before (split found.now)) }
{
    Ok(Entered {
        prod,
        before,
        variable: found.own.as_slice()[0],
        slots: Items::from_slice(alloc, found.slots.as_slice())?,
    })
}

/// The shape with one entry more.
fn with_entry<'a>(
    alloc: Global,
    shape: &Shape<'a>,
    entry: &Entered<'a>,
) -> Result<Shape<'a>, NoMemory>
    ensures { IfOk result (λ new. context_shape new ≡ entered (context_shape shape.now) (entry_shape entry.now)) }
{
    let start = copy_start(alloc, &shape.start)?;
    let mut entries = copy_entries(alloc, shape.entries.as_slice())?;
    entries.push(copy_entered(alloc, entry)?)?;
    Ok(Shape { start, entries })
}

/// Adds each of the shapes with the entry after it.
fn add_entered<'a>(
    alloc: Global,
    all: &mut Items<Shape<'a>>,
    inner: &[Shape<'a>],
    entry: &Entered<'a>,
) -> Result<(), NoMemory>
    ensures { OnOk result
        (map context_shape all.new ≡ map context_shape all.old ++ with_entries (entry_shape entry.now) (map context_shape inner.now)) }
{
    for shape in inner {
        all.push(with_entry(alloc, shape, entry)?)?;
    }
    Ok(())
}

/// Each of the shapes with the entry of each split, split by split.
fn cross<'a>(
    alloc: Global,
    prod: ProdId,
    before: usize,
    inner: &[Shape<'a>],
    behind: &[Split<'a>],
) -> Result<Items<Shape<'a>>, NoMemory>
    requires { AllByRecursion (λ d. 0 < length d.0) (map split behind.now) }
    ensures { IfOk result (λ all. map context_shape all ≡ crossed prod.0 before (map context_shape inner.now) (map split behind.now)) }
{
    let mut all = Items::new(alloc);
    for found in behind {
        let entry = entry_of(alloc, prod, before, found)?;
        add_entered(alloc, &mut all, inner, &entry)?;
    }
    Ok(all)
}

/// Whether the tokens are the exact name of the category.
fn is_category_name(sheet: &Sheet<'_>, cat: CatId, from: usize, to: usize) -> bool
    requires { (from ≤ to) × (to ≤ length sheet.now.tokens.now) }
    ensures { IsTrue result ↔ IsCategoryName sheet.now.sig.now cat.0 (slice_range (tokens_of sheet.now) from to) }
{
    if to - from != 1 {
        return false;
    }
    match at(sheet.sig.cats().as_slice(), cat.0 as usize) {
        Some(found) => is_word(found.name.bytes(), &sheet.tokens[from]),
        None => false,
    }
}

/// Whether the items begin with a slot of the category.
fn begins_with(items: &[Item], cat: CatId) -> bool
    ensures { IsTrue result ↔ BeginsWith cat.0 items.now }
{
    match at(items, 0) {
        Some(
            Item::Slot {
                cat: first,
                binds: _,
            },
        ) => first.0 == cat.0,
        Some(Item::Word { text: _, quoted: _ }) => false,
        Some(Item::Binder(_)) => false,
        None => false,
    }
}

fn binder_count(items: &[Item]) -> usize
    ensures { result ≡ length (binders items.now) }
{
    let mut count = 0;
    for item in items {
        if let Item::Binder(_) = item {
            count += 1;
        }
    }
    count
}

/// Whether the items are those of an entry over a context of the category.
pub fn is_entry(items: &[Item], cat: CatId) -> bool
    ensures { IsTrue result ↔ IsEntryOver cat.0 items.now }
{
    begins_with(items, cat) && binder_count(&items[1..]) == 1
}

/// Whether the items are terminals alone.
fn are_words(items: &[Item]) -> bool
    ensures { result ≡ list_all is_word items.now }
{
    for item in items {
        match item {
            Item::Word { text: _, quoted: _ } => (),
            Item::Slot { cat: _, binds: _ } => return false,
            Item::Binder(_) => return false,
        }
    }
    true
}

/// A shape without entries.
pub fn alone<'a>(alloc: Global, start: Start<'a>) -> Result<Items<Shape<'a>>, NoMemory>
    ensures { IfOk result (λ all. map context_shape all ≡ begun start.entry ∷ []) }
{
    let mut all = Items::new(alloc);
    all.push(Shape {
        start,
        entries: Items::new(alloc),
    })?;
    Ok(all)
}

/// The shape of the category's name.
fn named_shapes<'a>(
    alloc: Global,
    sheet: &Sheet<'a>,
    scope: &ReadScope,
    cat: CatId,
    from: usize,
    to: usize,
) -> Result<Items<Shape<'a>>, NoMemory>
    requires range { (from ≤ to) × (to ≤ length sheet.now.tokens.now) }
    ensures { IfOk result
        (λ all. AreListed sheet.now (reading_scope scope.now) cat
        (IsNamed sheet.now.sig.now (reading_scope scope.now) cat (slice_range (tokens_of sheet.now) from to)) (map context_shape all)) }
{
    if !is_category_name(sheet, cat, from, to) {
        return Ok(Items::new(alloc));
    }
    alone(alloc, Start::Name)
}

/// The shape of the empty form with these items.
fn empty_shapes<'a>(
    alloc: Global,
    sheet: &Sheet<'a>,
    scope: &ReadScope,
    cat: CatId,
    prod: ProdId,
    items: &'a [Item],
    from: usize,
    to: usize,
) -> Result<Items<Shape<'a>>, NoMemory>
    requires sheet { IsSheet sheet.now }
    requires words { IsTrue (list_all is_word items.now) }
    requires range { (from ≤ to) × (to ≤ length sheet.now.tokens.now) }
    ensures { IfOk result
        (λ all. AreListed sheet.now (reading_scope scope.now) cat
        (IsEmptyOf sheet.now.sig.now (reading_scope scope.now) sheet.now.metas.now cat (slice_range (tokens_of sheet.now) from to) prod.0 items.now)
        (map context_shape all)) }
{
    let found = splits(alloc, sheet, items, 0, from, to)?;
    if found.len() == 0 {
        return Ok(Items::new(alloc));
    }
    alone(alloc, Start::Empty(prod))
}

/// The shapes with an entry of the production whose items begin at the place. The items are read before the context.
#[cycle(shapes)]
fn entered_at<'a>(
    alloc: Global,
    sheet: &Sheet<'a>,
    scope: &ReadScope,
    cat: CatId,
    prod: ProdId,
    items: &'a [Item],
    from: usize,
    place: usize,
    to: usize,
) -> Result<Items<Shape<'a>>, NoMemory>
    requires sheet { IsSheet sheet.now }
    requires scope { IsScopeKnown sheet.now (reading_scope scope.now) }
    requires apart { KnownsApart (reading_scope scope.now).names.knowns }
    requires entry { IsEntryOver cat.0 items.now }
    requires range { (from ≤ place) × (place < to) × (to ≤ length sheet.now.tokens.now) }
    ensures { IfOk result
        (λ all. AreListed sheet.now (reading_scope scope.now) cat
        (IsEnteredAt sheet.now.sig.now (reading_scope scope.now) sheet.now.metas.now cat (tokens_of sheet.now) from to prod.0 (drop 1 items.now) place)
        (map context_shape all)) }
{
    let behind = splits(alloc, sheet, items, 1, place, to)?;
    if behind.len() == 0 {
        return Ok(Items::new(alloc));
    }
    let inner = shapes(alloc, sheet, scope, cat, from, place)?;
    cross(
        alloc,
        prod,
        place - from,
        inner.as_slice(),
        behind.as_slice(),
    )
}

/// The shapes with an entry of the production, that with the shorter context first.
#[cycle(shapes)]
fn entered_by<'a>(
    alloc: Global,
    sheet: &Sheet<'a>,
    scope: &ReadScope,
    cat: CatId,
    prod: ProdId,
    items: &'a [Item],
    from: usize,
    to: usize,
) -> Result<Items<Shape<'a>>, NoMemory>
    requires sheet { IsSheet sheet.now }
    requires scope { IsScopeKnown sheet.now (reading_scope scope.now) }
    requires apart { KnownsApart (reading_scope scope.now).names.knowns }
    requires entry { IsEntryOver cat.0 items.now }
    requires range { (from ≤ to) × (to ≤ length sheet.now.tokens.now) }
    ensures { IfOk result
        (λ all. AreListed sheet.now (reading_scope scope.now) cat
        (IsEnteredBelow to sheet.now.sig.now (reading_scope scope.now) sheet.now.metas.now cat (tokens_of sheet.now) from to prod.0 (drop 1 items.now))
        (map context_shape all)) }
{
    let mut all = Items::new(alloc);
    for place in from..to {
        all.append(entered_at(alloc, sheet, scope, cat, prod, items, from, place, to)?)?;
    }
    Ok(all)
}

/// The shapes by the production with that number, where it is of the category.
#[cycle(shapes)]
fn shapes_by<'a>(
    alloc: Global,
    sheet: &Sheet<'a>,
    scope: &ReadScope,
    cat: CatId,
    p: usize,
    from: usize,
    to: usize,
) -> Result<Items<Shape<'a>>, NoMemory>
    requires sheet { IsSheet sheet.now }
    requires scope { IsScopeKnown sheet.now (reading_scope scope.now) }
    requires apart { KnownsApart (reading_scope scope.now).names.knowns }
    requires prod { p < length sheet.now.sig.now.prods }
    requires range { (from ≤ to) × (to ≤ length sheet.now.tokens.now) }
    ensures { IfOk result
        (λ all. AreListed sheet.now (reading_scope scope.now) cat
        (IsContextBy sheet.now.sig.now (reading_scope scope.now) sheet.now.metas.now cat (tokens_of sheet.now) from to p)
        (map context_shape all)) }
{
    let prod = &sheet.sig.prods()[p];
    if prod.cat.0 != cat.0 {
        return Ok(Items::new(alloc));
    }
    let id = ProdId(number(p)?);
    let items = prod.items.as_slice();
    if are_words(items) {
        return empty_shapes(alloc, sheet, scope, cat, id, items, from, to);
    }
    if !is_entry(items, cat) {
        return Ok(Items::new(alloc));
    }
    entered_by(alloc, sheet, scope, cat, id, items, from, to)
}

/// The shapes of a context of the category over the tokens from the one place up to the other, in the reading order.
#[cycle(shapes)]
pub fn shapes<'a>(
    alloc: Global,
    sheet: &Sheet<'a>,
    scope: &ReadScope,
    cat: CatId,
    from: usize,
    to: usize,
) -> Result<Items<Shape<'a>>, NoMemory>
    requires sheet { IsSheet sheet.now }
    requires scope { IsScopeKnown sheet.now (reading_scope scope.now) }
    requires apart { KnownsApart (reading_scope scope.now).names.knowns }
    requires range { (from ≤ to) × (to ≤ length sheet.now.tokens.now) }
    ensures shapes { IfOk result
        (λ all. AreShapes sheet.now.sig.now (reading_scope scope.now) sheet.now.metas.now (tokens_of sheet.now) cat from to (map context_shape all)) }
    ensures usable { IfOk result (λ all. AllByRecursion (IsUsable sheet.now) (map context_shape all)) }
{
    let mut all = named_shapes(alloc, sheet, scope, cat, from, to)?;
    for p in 0..sheet.sig.prods().len() {
        all.append(shapes_by(alloc, sheet, scope, cat, p, from, to)?)?;
    }
    all.append(known_shapes(alloc, sheet, scope, cat, from, to)?)?;
    Ok(all)
}
