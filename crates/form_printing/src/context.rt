//! Contexts as they are written.
ghost use Rattle.std.specs.Prelude.{◌≡◌, [], map, drop, IfOk, OnOk};
ghost use Rattle.binding_terms.specs.Signature.{is_empty_form};
ghost use Rattle.scheme_terms.specs.View.{scheme_context, scheme_entry};
ghost use Rattle.rule_schemes.specs.Printing.{category_name, context_tokens, empty_form, entries_tokens, entry_tokens, first, laid_out, root_tokens, variable_word, with_entries, with_entry};
ghost use Rattle.form_printing.specs.Page.{written};
ghost use Rattle.form_printing.specs.View.{schemes_tokens, shown, variables};

use crate::labels::Labels;
use crate::page::Page;
use crate::term::{write_binder, write_scheme};
use crate::words::{Variable, items_of, numbered, write_terminal};
use binding_terms::{CatId, Item, NoMemory, Prod, ProdId, Sig};
use scheme_terms::{Root, SCtx, SEntry, Scheme};
use sqlite_items::at;
use std::alloc::Global;

/// Writes the scheme with that number, where there is one.
pub fn write_argument(
    page: &mut Page,
    sig: &Sig,
    labels: &Labels<'_>,
    scope: &[Variable],
    args: &[Scheme],
    number: usize,
) -> Result<(), NoMemory>
    ensures { OnOk result (page.new ≡ written page.old (first (schemes_tokens sig.now (shown sig.now labels.now) (variables scope.now) (drop number args.now)))) }
{
    if number < args.len() {
        return write_scheme(page, sig, labels, scope, &args[number]);
    }
    Ok(())
}

/// Writes items that bind nothing in their slots.
fn write_flat_items(
    page: &mut Page,
    sig: &Sig,
    labels: &Labels<'_>,
    scope: &[Variable],
    binders: &[Variable],
    items: &[Item],
    args: &[Scheme],
) -> Result<(), NoMemory>
    ensures { OnOk result (page.new ≡ written page.old
        (laid_out items.now (map (variable_word sig.now) (variables binders.now)) (schemes_tokens sig.now (shown sig.now labels.now) (variables scope.now) args.now))) }
{
    let mut next_binder = 0;
    let mut next_slot = 0;
    for item in items {
        match item {
            Item::Word { text, quoted } => write_terminal(page, text, *quoted)?,
            Item::Slot { .. } => {
                write_argument(page, sig, labels, scope, args, next_slot)?;
                next_slot += 1;
            }
            Item::Binder(_) => {
                write_binder(page, sig, binders, next_binder)?;
                next_binder += 1;
            }
        }
    }
    Ok(())
}

/// The items after the first.
fn after_first(items: &[Item]) -> &[Item]
    ensures { result.now ≡ drop 1 items.now }
{
    if items.len() == 0 {
        return items;
    }
    &items[1..]
}

/// Writes an entry without the context before it.
fn write_entry(
    page: &mut Page,
    sig: &Sig,
    labels: &Labels<'_>,
    scope: &[Variable],
    entry: &SEntry,
) -> Result<(), NoMemory>
    ensures { OnOk result (page.new ≡ written page.old (entry_tokens sig.now (shown sig.now labels.now) (variables scope.now) (scheme_entry entry.now))) }
{
    let items = items_of(sig, entry.prod);
    let binders = numbered(page.alloc, scope, items)?;
    let args = entry.args.as_slice();
    write_flat_items(
        page,
        sig,
        labels,
        scope,
        binders.as_slice(),
        after_first(items),
        args,
    )
}

/// The scope after an entry.
fn scope_with(
    alloc: Global,
    sig: &Sig,
    scope: &[Variable],
    prod: ProdId,
) -> Result<Vec<Variable>, NoMemory>
    ensures { IfOk result (λ vs. variables vs.items ≡ with_entry sig.now (variables scope.now) prod.0) }
{
    let mut inner = numbered(alloc, scope, items_of(sig, prod))?;
    inner.reverse();
    inner.extend_from_slice(scope)?;
    Ok(inner)
}

/// The scope of a context's entries, the innermost variable first.
pub fn scope_of(alloc: Global, sig: &Sig, entries: &[SEntry]) -> Result<Vec<Variable>, NoMemory>
    ensures { IfOk result (λ vs. variables vs.items ≡ with_entries sig.now [] (map scheme_entry entries.now)) }
{
    let mut scope = Vec::new(alloc);
    for entry in entries {
        scope = scope_with(alloc, sig, scope.as_slice(), entry.prod)?;
    }
    Ok(scope)
}

/// Writes entries one after another, after those whose scope this is.
pub fn write_entries(
    page: &mut Page,
    sig: &Sig,
    labels: &Labels<'_>,
    outer: Vec<Variable>,
    entries: &[SEntry],
) -> Result<(), NoMemory>
    ensures { OnOk result (page.new ≡ written page.old (entries_tokens sig.now (shown sig.now labels.now) (variables outer.items) (map scheme_entry entries.now))) }
{
    let mut scope = outer;
    for entry in entries {
        write_entry(page, sig, labels, scope.as_slice(), entry)?;
        scope = scope_with(page.alloc, sig, scope.as_slice(), entry.prod)?;
    }
    Ok(())
}

/// Whether a production has terminals alone.
fn is_empty_form(prod: &Prod) -> bool
    ensures { result ≡ is_empty_form prod.now }
{
    for item in prod.items.as_slice() {
        match item {
            Item::Word { .. } => {}
            _ => return false,
        }
    }
    true
}

/// Writes the empty form of a category of contexts.
fn write_empty_form(
    page: &mut Page,
    sig: &Sig,
    labels: &Labels<'_>,
    cat: CatId,
) -> Result<(), NoMemory>
    ensures { OnOk result (page.new ≡ written page.old (empty_form sig.now cat.0)) }
{
    for prod in sig.prods() {
        if prod.cat.0 == cat.0 && is_empty_form(prod) {
            return write_flat_items(page, sig, labels, &[], &[], prod.items.as_slice(), &[]);
        }
    }
    Ok(())
}

/// The name of a category, empty where it is out of range.
fn category_name(sig: &Sig, cat: CatId) -> &[u8]
    ensures { result.now ≡ category_name sig.now cat.0 }
{
    match at(sig.cats().as_slice(), cat.0 as usize) {
        Some(cat) => cat.name.bytes(),
        None => b"",
    }
}

/// Writes the root of a form: nothing, the empty form, or the category's name.
#[tactic(auto, using(crate::proofs::Pages::written_nothing))]
fn write_root(page: &mut Page, sig: &Sig, labels: &Labels<'_>, root: Root) -> Result<(), NoMemory>
    ensures { OnOk result (page.new ≡ written page.old (root_tokens sig.now root)) }
{
    match root {
        Root::Closed => Ok(()),
        Root::Empty(cat) => write_empty_form(page, sig, labels, cat),
        Root::Whole(cat) => page.token(category_name(sig, cat)),
    }
}

/// Writes a context, without parentheses.
#[tactic(auto, using(crate::proofs::Pages::written_twice))]
pub fn write_context(
    page: &mut Page,
    sig: &Sig,
    labels: &Labels<'_>,
    context: &SCtx,
) -> Result<(), NoMemory>
    ensures { OnOk result (page.new ≡ written page.old (context_tokens sig.now (shown sig.now labels.now) (scheme_context context.now))) }
{
    write_root(page, sig, labels, context.root)?;
    write_entries(
        page,
        sig,
        labels,
        Vec::new(page.alloc),
        context.entries.as_slice(),
    )
}
