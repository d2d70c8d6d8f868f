// The readings of judgments. A judgment without a context is kept as the product of its form with its parts, and so is its number;
// in one with a context, the slot of its category takes the context.
ghost use Rattle.std.specs.Prelude.{◌≡◌, ◌==◌, ◌↔◌, ◌<◌, ◌≤◌, [], ◌∷◌, IfOk, IsTrue, Some, count_by, map, length};
ghost use Rattle.binding_terms.specs.Signature.{Fits, binders, slots};
ghost use Rattle.scheme_terms.specs.View.{scheme};
ghost use Rattle.scheme_terms.specs.declared.scheme.Root.TheVariants.{Closed};
ghost use Rattle.rule_schemes.specs.Reading.{known_words};
ghost use Rattle.rule_schemes.specs.Said.{IsBefore};
ghost use Rattle.term_reader.specs.Firsts.{listed, AreFirst};
ghost use Rattle.term_reader.specs.Splitting.{IsSheet, AreKnown, tokens_of};
ghost use Rattle.term_reader.specs.View.{in_scope};
ghost use Rattle.notation_parser.specs.Forms.{IsFormOf, closed_form, judged, IsOpenForm, IsReadAs, IsReadAsAny};
ghost use Rattle.notation_parser.specs.Shapes.{IsScopeKnown, KnownsApart};
ghost use Rattle.notation_parser.specs.View.{outcome, reading_scope};

use crate::in_context::in_slots;
use crate::outcomes::{Outcome, are_two, both};
use binding_terms::{CatId, Item, NoMemory, ProdId, number};
use rule_schemes::{JScheme, JudgId, Judgment, ReadScope, Written};
use scheme_terms::{Root, SCtx, Scheme};
use sqlite_items::Items;
use std::alloc::Global;
use term_reader::{Firsts, Head, Sheet, Var, bodies, in_splits, splits};

/// Whether no binder stands among the items.
fn writes_nothing(items: &[Item]) -> bool
    ensures { IsTrue result ↔ (binders items.now ≡ []) }
{
    for item in items {
        if let Item::Binder(_) = item {
            return false;
        }
    }
    true
}

/// The readings by a form with these items, which has no context.
fn closed<'a>(
    alloc: Global,
    sheet: &Sheet<'a>,
    vars: &[Var<'a>],
    id: ProdId,
    items: &'a [Item],
) -> Result<Firsts<Scheme>, NoMemory>
    requires sheet { IsSheet sheet.now }
    requires vars { AreKnown sheet.now (in_scope vars.now) }
    ensures { IfOk result
        (λ found. AreFirst IsBefore (IsFormOf sheet.now.sig.now sheet.now.metas.now (in_scope vars.now) id.0 items.now (tokens_of sheet.now))
        (listed scheme found)) }
{
    if !writes_nothing(items) {
        return Ok(Firsts::Nothing);
    }
    let all = splits(alloc, sheet, items, 0, 0, sheet.tokens.len())?;
    in_splits(alloc, sheet, vars, Head::Product(id), all.as_slice())
}

fn closed_judgment(number: u32, alloc: Global, args: Items<Scheme>) -> Outcome
    ensures { outcome result ≡ judged number (record { root = Closed; entries = [] }, []) (map scheme args) }
{
    let ctx = SCtx {
        root: Root::Closed,
        entries: Items::new(alloc),
    };
    Outcome {
        written: Written::Judgment(JScheme {
            judgment: JudgId(number),
            ctx,
            args,
        }),
        knowns: Items::new(alloc),
    }
}

/// The judgment that is kept as that product.
fn as_judgment(alloc: Global, product: &Scheme) -> Result<Outcome, NoMemory>
    ensures { IfOk result (λ new. outcome new ≡ closed_form (scheme product.now)) }
{
    match product {
        Scheme::Con(id, parts) => {
            let args = bodies(alloc, parts.as_slice())?;
            Ok(closed_judgment(id.0, alloc, args))
        }
        Scheme::Meta(_, _) => Ok(closed_judgment(0, alloc, Items::new(alloc))),
        Scheme::Known(_) => Ok(closed_judgment(0, alloc, Items::new(alloc))),
        Scheme::Local(_) => Ok(closed_judgment(0, alloc, Items::new(alloc))),
    }
}

fn as_judgments(alloc: Global, found: Firsts<Scheme>) -> Result<Firsts<Outcome>, NoMemory>
    ensures { IfOk result (λ new. listed outcome new ≡ map closed_form (listed scheme found)) }
{
    match found {
        Firsts::Nothing => Ok(Firsts::Nothing),
        Firsts::One(a) => Ok(Firsts::One(as_judgment(alloc, &a)?)),
        Firsts::Two(a, b) => Ok(Firsts::Two(as_judgment(alloc, &a)?, as_judgment(alloc, &b)?)),
    }
}

/// The readings over a context of the category by a form with these items.
fn open<'a>(
    alloc: Global,
    sheet: &Sheet<'a>,
    scope: &'a ReadScope,
    cat: CatId,
    number: u32,
    items: &'a [Item],
) -> Result<Firsts<Outcome>, NoMemory>
    requires sheet { IsSheet sheet.now }
    requires asks { sheet.now.contexts ≡ Some cat }
    requires scope { IsScopeKnown sheet.now (reading_scope scope.now) }
    requires apart { KnownsApart (reading_scope scope.now).names.knowns }
    requires one { count_by (λ s. s.cat == cat.0) (slots items.now) ≡ 1 }
    requires fits { Fits sheet.now.sig.now }
    ensures { IfOk result
        (λ found. AreFirst IsBefore
        (IsOpenForm sheet.now.sig.now (reading_scope scope.now) sheet.now.metas.now cat number items.now (tokens_of sheet.now))
        (listed outcome found)) }
{
    let mut found = Firsts::Nothing;
    if !writes_nothing(items) {
        return Ok(found);
    }
    let all = splits(alloc, sheet, items, 0, 0, sheet.tokens.len())?;
    for split in all.as_slice() {
        if are_two(&found) {
            return Ok(found);
        }
        let more = in_slots(alloc, sheet, scope, cat, number, split.slots.as_slice())?;
        found = both(found, more);
    }
    Ok(found)
}

/// How many slots of the category the item is.
fn slots_of(cat: CatId, item: &Item) -> usize
    ensures count { result ≡ count_by (λ s. s.cat == cat.0) (slots (item.now ∷ [])) }
    ensures one { result ≤ 1 }
{
    match item {
        Item::Word { text: _, quoted: _ } => 0,
        Item::Slot { cat: own, binds: _ } => {
            if own.0 == cat.0 {
                return 1;
            }
            0
        }
        Item::Binder(_) => 0,
    }
}

/// Whether exactly one of the items is a slot of the category.
fn is_once(cat: CatId, items: &[Item]) -> bool
    ensures { IsTrue result ↔ (count_by (λ s. s.cat == cat.0) (slots items.now) ≡ 1) }
{
    let mut count = 0;
    for item in items {
        count += slots_of(cat, item);
    }
    count == 1
}

/// The sheet, where slots of that category of contexts may take any tokens.
fn asking<'a>(sheet: &Sheet<'a>, cat: CatId) -> Sheet<'a>
    ensures { result ≡ record { sig = sheet.now.sig; metas = sheet.now.metas; words = sheet.now.words; tokens = sheet.now.tokens; chart = sheet.now.chart; contexts = Some cat } }
{
    Sheet {
        sig: sheet.sig,
        metas: sheet.metas,
        words: sheet.words,
        tokens: sheet.tokens,
        chart: sheet.chart,
        contexts: Some(cat),
    }
}

/// The readings by the judgment with that number: none where it assumes a context and its form has not exactly one slot of it.
fn form<'a>(
    alloc: Global,
    sheet: &Sheet<'a>,
    scope: &'a ReadScope,
    vars: &[Var<'a>],
    judgments: &'a [Judgment],
    k: usize,
) -> Result<Firsts<Outcome>, NoMemory>
    requires sheet { IsSheet sheet.now }
    requires scope { IsScopeKnown sheet.now (reading_scope scope.now) }
    requires vars { in_scope vars.now ≡ known_words sheet.now.sig.now 0 (reading_scope scope.now).names.knowns }
    requires apart { KnownsApart (reading_scope scope.now).names.knowns }
    requires fits { Fits sheet.now.sig.now }
    requires number { k < length judgments.now }
    ensures { IfOk result
        (λ found. AreFirst IsBefore
        (IsReadAs sheet.now.sig.now judgments.now (reading_scope scope.now) sheet.now.metas.now k (tokens_of sheet.now))
        (listed outcome found)) }
{
    let id = number(k)?;
    let judgment = &judgments[k];
    let items = judgment.items.as_slice();
    match judgment.ctx {
        None => {
            let found = closed(alloc, sheet, vars, ProdId(id), items)?;
            as_judgments(alloc, found)
        }
        Some(cat) => {
            if !is_once(cat, items) {
                return Ok(Firsts::Nothing);
            }
            open(alloc, &asking(sheet, cat), scope, cat, id, items)
        }
    }
}

/// The first two readings of the tokens as a judgment.
pub fn forms<'a>(
    alloc: Global,
    sheet: &Sheet<'a>,
    scope: &'a ReadScope,
    vars: &[Var<'a>],
    judgments: &'a [Judgment],
) -> Result<Firsts<Outcome>, NoMemory>
    requires sheet { IsSheet sheet.now }
    requires scope { IsScopeKnown sheet.now (reading_scope scope.now) }
    requires vars { in_scope vars.now ≡ known_words sheet.now.sig.now 0 (reading_scope scope.now).names.knowns }
    requires apart { KnownsApart (reading_scope scope.now).names.knowns }
    requires fits { Fits sheet.now.sig.now }
    ensures { IfOk result
        (λ found. AreFirst IsBefore
        (IsReadAsAny sheet.now.sig.now judgments.now (reading_scope scope.now) sheet.now.metas.now (tokens_of sheet.now))
        (listed outcome found)) }
{
    let mut found = Firsts::Nothing;
    for k in 0..judgments.len() {
        if are_two(&found) {
            return Ok(found);
        }
        let more = form(alloc, sheet, scope, vars, judgments, k)?;
        found = both(found, more);
    }
    Ok(found)
}
