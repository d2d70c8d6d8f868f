// The readings of contexts: those in one shape, and the variables that are in scope after it.
ghost use Rattle.std.specs.Prelude.{◌≡◌, ◌++◌, IfOk, IsTrue, List, [], ◌∷◌, map, length, if◌then◌else◌};
ghost use Rattle.scheme_terms.specs.View.{scheme_parts, known_variable};
ghost use Rattle.rule_schemes.specs.Reading.{Variable, with_root, bare};
ghost use Rattle.rule_schemes.specs.Said.{IsBefore};
ghost use Rattle.term_reader.specs.Firsts.{listed, AreFirst, paired};
ghost use Rattle.term_reader.specs.Splitting.{IsSheet, AreKnown, tokens_of};
ghost use Rattle.term_reader.specs.View.{in_scope};
ghost use Rattle.notation_parser.specs.Shapes.{named, new_entry, new_context, IsUsable, IsScopeKnown, ReadsInShape, whole_with, begun, entry_shape, scope_entry_shape, context_shape, shape_variables, with_entry, written_context};
ghost use Rattle.notation_parser.specs.View.{reading_scope};

use crate::copies::{known_again, knowns_again};
use crate::knowns::known_variables;
use crate::shaping::{Entered, KnownEntry, Shape, Start};
use binding_terms::{CatId, NoMemory, ProdId, Text};
use rule_schemes::ReadScope;
use scheme_terms::{KnownDecl, Root, SArg, SCtx, SEntry, copy_entry};
use sqlite_items::{Items, at};
use std::alloc::Global;
use term_reader::{Firsts, Sheet, Var, bodies, parts, places_of, scope_variables};

/// A context, and the known variable that it writes.
#[derive(Drop)]
pub struct Context {
    pub ctx: SCtx,
    pub knowns: Items<KnownDecl>,
}

#[tactic(auto, using(std::proofs::lemmas::List::take_all))]
fn copy_context(alloc: Global, context: &Context) -> Result<Context, NoMemory>
    ensures { IfOk result (λ new. written_context new ≡ written_context context.now) }
{
    let mut entries = Items::new(alloc);
    for entry in context.ctx.entries.as_slice() {
        entries.push(copy_entry(alloc, entry)?)?;
    }
    Ok(Context {
        ctx: SCtx {
            root: context.ctx.root,
            entries,
        },
        knowns: knowns_again(alloc, context.knowns.as_slice())?,
    })
}

/// The context with an entry of the production more, with these parts.
fn with_parts(
    alloc: Global,
    mut context: Context,
    prod: ProdId,
    parts: &[SArg],
) -> Result<Context, NoMemory>
    ensures { IfOk result
        (λ new. written_context new ≡ with_entry prod.0 (written_context context) (bare (scheme_parts parts.now))) }
{
    let args = bodies(alloc, parts)?;
    context.ctx.entries.push(SEntry { prod, args })?;
    Ok(context)
}

/// Each of the contexts with an entry more with each of the parts, the first two of these.
fn extended(
    alloc: Global,
    found: Firsts<Context>,
    prod: ProdId,
    slots: Firsts<Items<SArg>>,
) -> Result<Firsts<Context>, NoMemory>
    ensures { IfOk result
        (λ new. listed written_context new ≡ paired (with_entry prod.0) (listed written_context found) (map bare (listed scheme_parts slots))) }
{
    match (found, slots) {
        (Firsts::Nothing, _) => Ok(Firsts::Nothing),
        (_, Firsts::Nothing) => Ok(Firsts::Nothing),
        (Firsts::One(x), Firsts::One(a)) => {
            Ok(Firsts::One(with_parts(alloc, x, prod, a.as_slice())?))
        }
        (Firsts::Two(x, y), Firsts::One(a)) => {
            let first = with_parts(alloc, x, prod, a.as_slice())?;
            Ok(Firsts::Two(first, with_parts(alloc, y, prod, a.as_slice())?))
        }
        (Firsts::One(x), Firsts::Two(a, b)) => {
            let y = copy_context(alloc, &x)?;
            let first = with_parts(alloc, x, prod, a.as_slice())?;
            Ok(Firsts::Two(first, with_parts(alloc, y, prod, b.as_slice())?))
        }
        (Firsts::Two(x, _), Firsts::Two(a, b)) => {
            let y = copy_context(alloc, &x)?;
            let first = with_parts(alloc, x, prod, a.as_slice())?;
            Ok(Firsts::Two(first, with_parts(alloc, y, prod, b.as_slice())?))
        }
    }
}

/// The context with that root and without entries.
fn rooted(alloc: Global, root: Root) -> Context
    ensures { written_context result ≡ (record { root = root; entries = [] }, []) }
{
    Context {
        ctx: SCtx {
            root,
            entries: Items::new(alloc),
        },
        knowns: Items::new(alloc),
    }
}

/// The whole context, with the known variable of that entry, whose slots have these parts.
fn with_known(
    alloc: Global,
    cat: CatId,
    entry: &Entered<'_>,
    parts: &[SArg],
) -> Result<Context, NoMemory>
    ensures { IfOk result
        (λ new. written_context new ≡ new_context cat (entry_shape entry.now) (bare (scheme_parts parts.now))) }
{
    let mut name = Text::new(alloc);
    name.push(entry.variable.word)?;
    let args = bodies(alloc, parts)?;
    let prod = entry.prod;
    let mut context = rooted(alloc, Root::Whole(cat));
    context.knowns.push(KnownDecl {
        name,
        entry: SEntry { prod, args },
    })?;
    Ok(context)
}

fn with_knowns(
    alloc: Global,
    cat: CatId,
    entry: &Entered<'_>,
    slots: Firsts<Items<SArg>>,
) -> Result<Firsts<Context>, NoMemory>
    ensures { IfOk result
        (λ new. listed written_context new ≡ map (λ xs. new_context cat (entry_shape entry.now) (bare xs)) (listed scheme_parts slots)) }
{
    match slots {
        Firsts::Nothing => Ok(Firsts::Nothing),
        Firsts::One(a) => Ok(Firsts::One(with_known(alloc, cat, entry, a.as_slice())?)),
        Firsts::Two(a, b) => {
            let first = with_known(alloc, cat, entry, a.as_slice())?;
            Ok(Firsts::Two(first, with_known(alloc, cat, entry, b.as_slice())?))
        }
    }
}

/// The first two readings with that known variable's entry.
fn new_contexts<'a>(
    alloc: Global,
    sheet: &Sheet<'a>,
    scope: &'a ReadScope,
    cat: CatId,
    entry: &Entered<'a>,
) -> Result<Firsts<Context>, NoMemory>
    requires sheet { IsSheet sheet.now }
    requires scope { IsScopeKnown sheet.now (reading_scope scope.now) }
    requires usable { IsUsable sheet.now (new_entry (entry_shape entry.now)) }
    ensures { IfOk result
        (λ found. AreFirst IsBefore
        (ReadsInShape sheet.now.sig.now (reading_scope scope.now) sheet.now.metas.now (tokens_of sheet.now) cat (new_entry (entry_shape entry.now)))
        (listed written_context found)) }
{
    let vars = known_variables(alloc, sheet.sig, scope.scope.knowns.as_slice())?;
    let slots = parts(alloc, sheet, vars.as_slice(), &[], entry.slots.as_slice())?;
    with_knowns(alloc, cat, entry, slots)
}

/// The whole context, with that known variable.
fn with_scope_known(alloc: Global, cat: CatId, known: &KnownDecl) -> Result<Context, NoMemory>
    ensures { IfOk result (λ new. written_context new ≡ whole_with cat (known_variable known.now)) }
{
    let mut context = rooted(alloc, Root::Whole(cat));
    context.knowns.push(known_again(alloc, known)?)?;
    Ok(context)
}

/// The reading with the known variable of the scope, where the slots read as its own entry.
fn scope_contexts<'a>(
    alloc: Global,
    sheet: &Sheet<'a>,
    scope: &'a ReadScope,
    cat: CatId,
    entry: &KnownEntry<'a>,
) -> Result<Firsts<Context>, NoMemory>
    requires sheet { IsSheet sheet.now }
    requires scope { IsScopeKnown sheet.now (reading_scope scope.now) }
    requires usable { IsUsable sheet.now (scope_entry_shape entry.now) }
    ensures { IfOk result
        (λ found. AreFirst IsBefore
        (ReadsInShape sheet.now.sig.now (reading_scope scope.now) sheet.now.metas.now (tokens_of sheet.now) cat (scope_entry_shape entry.now))
        (listed written_context found)) }
{
    let knowns = scope.scope.knowns.as_slice();
    let Some(known) = at(knowns, entry.number) else {
        return Ok(Firsts::Nothing);
    };
    if known.entry.prod.0 != entry.prod.0 {
        return Ok(Firsts::Nothing);
    }
    let vars = known_variables(alloc, sheet.sig, knowns)?;
    let args = known.entry.args.as_slice();
    let places = places_of(
        alloc,
        sheet,
        vars.as_slice(),
        &[],
        entry.slots.as_slice(),
        args,
    )?;
    if places.is_none() {
        return Ok(Firsts::Nothing);
    }
    Ok(Firsts::One(with_scope_known(alloc, cat, known)?))
}

/// The first two readings of the beginning of a context.
fn begin<'a>(
    alloc: Global,
    sheet: &Sheet<'a>,
    scope: &'a ReadScope,
    cat: CatId,
    start: &Start<'a>,
) -> Result<Firsts<Context>, NoMemory>
    requires sheet { IsSheet sheet.now }
    requires scope { IsScopeKnown sheet.now (reading_scope scope.now) }
    requires usable { IsUsable sheet.now (begun start.now) }
    ensures { IfOk result
        (λ found. AreFirst IsBefore
        (ReadsInShape sheet.now.sig.now (reading_scope scope.now) sheet.now.metas.now (tokens_of sheet.now) cat (begun start.now))
        (listed written_context found)) }
{
    match start {
        Start::Name => Ok(Firsts::One(rooted(alloc, Root::Whole(cat)))),
        Start::Empty(_) => Ok(Firsts::One(rooted(alloc, Root::Empty(cat)))),
        Start::New(entry) => new_contexts(alloc, sheet, scope, cat, entry),
        Start::Known(entry) => scope_contexts(alloc, sheet, scope, cat, entry),
    }
}

/// Whether the variables of the scope come with the name of the category.
fn is_root(root: Root, cat: CatId) -> bool
    ensures { (vars knowns : List Variable) → with_root root cat.0 vars knowns ≡ (if result then (vars ++ knowns) else knowns) }
{
    match root {
        Root::Closed => false,
        Root::Empty(_) => false,
        Root::Whole(whole) => whole.0 == cat.0,
    }
}

/// The variables in scope after the name of the category.
fn root_scope<'a>(
    alloc: Global,
    sheet: &Sheet<'a>,
    scope: &'a ReadScope,
    cat: CatId,
) -> Result<Items<Var<'a>>, NoMemory>
    ensures { IfOk result
        (λ all. in_scope all ≡ shape_variables sheet.now.sig.now (reading_scope scope.now) cat.0 named) }
{
    let mut all = known_variables(alloc, sheet.sig, scope.scope.knowns.as_slice())?;
    if is_root(scope.scope.root, cat) {
        all.append(scope_variables(alloc, scope.vars.as_slice())?)?;
    }
    Ok(all)
}

/// The variables in scope after a known variable's entry.
fn new_scope<'a>(
    alloc: Global,
    sheet: &Sheet<'a>,
    scope: &'a ReadScope,
    cat: CatId,
    entry: &Entered<'a>,
) -> Result<Items<Var<'a>>, NoMemory>
    ensures { IfOk result
        (λ all. in_scope all ≡ shape_variables sheet.now.sig.now (reading_scope scope.now) cat.0 (new_entry (entry_shape entry.now))) }
{
    let mut all = known_variables(alloc, sheet.sig, scope.scope.knowns.as_slice())?;
    all.push(entry.variable)?;
    Ok(all)
}

/// The variables in scope after the beginning of a context.
fn start_scope<'a>(
    alloc: Global,
    sheet: &Sheet<'a>,
    scope: &'a ReadScope,
    cat: CatId,
    start: &Start<'a>,
) -> Result<Items<Var<'a>>, NoMemory>
    ensures { IfOk result
        (λ all. in_scope all ≡ shape_variables sheet.now.sig.now (reading_scope scope.now) cat.0 (begun start.now)) }
{
    match start {
        Start::Name => root_scope(alloc, sheet, scope, cat),
        Start::Empty(_) => known_variables(alloc, sheet.sig, scope.scope.knowns.as_slice()),
        Start::New(entry) => new_scope(alloc, sheet, scope, cat, entry),
        Start::Known(_) => known_variables(alloc, sheet.sig, scope.scope.knowns.as_slice()),
    }
}

/// The variables in scope after a context of that shape, the innermost last.
pub fn shape_scope<'a>(
    alloc: Global,
    sheet: &Sheet<'a>,
    scope: &'a ReadScope,
    cat: CatId,
    shape: &Shape<'a>,
) -> Result<Items<Var<'a>>, NoMemory>
    requires scope { IsScopeKnown sheet.now (reading_scope scope.now) }
    requires usable { IsUsable sheet.now (context_shape shape.now) }
    ensures variables { IfOk result
        (λ all. in_scope all ≡ shape_variables sheet.now.sig.now (reading_scope scope.now) cat.0 (context_shape shape.now)) }
    ensures known { IfOk result (λ all. AreKnown sheet.now (in_scope all)) }
{
    let mut all = start_scope(alloc, sheet, scope, cat, &shape.start)?;
    for entry in shape.entries.as_slice() {
        all.push(entry.variable)?;
    }
    Ok(all)
}

/// The first two readings in that shape.
pub fn in_shape<'a>(
    alloc: Global,
    sheet: &Sheet<'a>,
    scope: &'a ReadScope,
    cat: CatId,
    shape: &Shape<'a>,
) -> Result<Firsts<Context>, NoMemory>
    requires sheet { IsSheet sheet.now }
    requires scope { IsScopeKnown sheet.now (reading_scope scope.now) }
    requires usable { IsUsable sheet.now (context_shape shape.now) }
    ensures { IfOk result
        (λ found. AreFirst IsBefore
        (ReadsInShape sheet.now.sig.now (reading_scope scope.now) sheet.now.metas.now (tokens_of sheet.now) cat (context_shape shape.now))
        (listed written_context found)) }
{
    let mut vars = start_scope(alloc, sheet, scope, cat, &shape.start)?;
    let mut found = begin(alloc, sheet, scope, cat, &shape.start)?;
    for entry in shape.entries.as_slice() {
        let slots = parts(alloc, sheet, vars.as_slice(), &[], entry.slots.as_slice())?;
        found = extended(alloc, found, entry.prod, slots)?;
        vars.push(entry.variable)?;
    }
    Ok(found)
}
