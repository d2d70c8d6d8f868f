ghost use Rattle.std.specs.Prelude.{◌≡◌, [], map, drop, IfOk, OnOk, Some, option_map, unwrap_or};
ghost use Rattle.std.specs.Option.{option_copied};
ghost use Rattle.binding_terms.specs.Signature.{is_empty_form};
ghost use Rattle.scheme_terms.specs.View.{context_value};
ghost use Rattle.rule_schemes.specs.Printing.{category_name, empty_form, entries_tokens, entry_tokens, first, laid_out, no_labels, value_tokens, variable_word, with_entries, with_entry};
ghost use Rattle.derivation_text.specs.Page.{written};
ghost use Rattle.derivation_text.specs.Text.{after_root, context_from};
ghost use Rattle.derivation_text.specs.View.{entry_scheme, plain_entries, root_value, terms_tokens, variables};

use crate::page::Page;
use crate::same::begins_with;
use crate::term::{write_binder, write_term};
use crate::words::{Variable, items_of, numbered, write_terminal};
use binding_terms::{CatId, Item, NoMemory, Prod, ProdId, Sig, Term};
use scheme_terms::{CtxValue, Entry};
use sqlite_items::at;
use std::alloc::Global;

/// Writes the term with that number, where there is one.
pub fn write_argument(
    page: &mut Page,
    sig: &Sig,
    scope: &[Variable],
    args: &[Term],
    number: usize,
) -> Result<(), NoMemory>
    ensures { OnOk result (page.new ≡ written page.old (first (terms_tokens sig.now (variables scope.now) (drop number args.now)))) }
{
    if number < args.len() {
        return write_term(page, sig, scope, &args[number]);
    }
    Ok(())
}

/// Writes items that bind nothing in their slots.
fn write_flat_items(
    page: &mut Page,
    sig: &Sig,
    scope: &[Variable],
    binders: &[Variable],
    items: &[Item],
    args: &[Term],
) -> Result<(), NoMemory>
    ensures { OnOk result (page.new ≡ written page.old
        (laid_out items.now (map (variable_word sig.now) (variables binders.now)) (terms_tokens sig.now (variables scope.now) args.now))) }
{
    let mut next_binder = 0;
    let mut next_slot = 0;
    for item in items {
        match item {
            Item::Word { text, quoted } => write_terminal(page, text, *quoted)?,
            Item::Slot { .. } => {
                write_argument(page, sig, scope, args, next_slot)?;
                next_slot += 1;
            }
            Item::Binder(_) => {
                write_binder(page, sig, binders, next_binder)?;
                next_binder += 1;
            }
        }
    }
    Ok(())
}

/// The items after the first.
fn after_first(items: &[Item]) -> &[Item]
    ensures { result.now ≡ drop 1 items.now }
{
    if items.len() == 0 {
        return items;
    }
    &items[1..]
}

/// Writes an entry without the context before it.
fn write_entry(
    page: &mut Page,
    sig: &Sig,
    scope: &[Variable],
    entry: &Entry,
) -> Result<(), NoMemory>
    ensures { OnOk result (page.new ≡ written page.old (entry_tokens sig.now no_labels (variables scope.now) (entry_scheme entry.now))) }
{
    let items = items_of(sig, entry.prod);
    let binders = numbered(page.alloc, scope, items)?;
    let args = entry.args.as_slice();
    write_flat_items(
        page,
        sig,
        scope,
        binders.as_slice(),
        after_first(items),
        args,
    )
}

/// The scope after an entry.
fn scope_with(
    alloc: Global,
    sig: &Sig,
    scope: &[Variable],
    prod: ProdId,
) -> Result<Vec<Variable>, NoMemory>
    ensures { IfOk result (λ vs. variables vs.items ≡ with_entry sig.now (variables scope.now) prod.0) }
{
    let mut inner = numbered(alloc, scope, items_of(sig, prod))?;
    inner.reverse();
    inner.extend_from_slice(scope)?;
    Ok(inner)
}

/// The scope of a context's entries, the innermost variable first.
pub fn scope_of(alloc: Global, sig: &Sig, entries: &[Entry]) -> Result<Vec<Variable>, NoMemory>
    ensures { IfOk result (λ vs. variables vs.items ≡ with_entries sig.now [] (plain_entries entries.now)) }
{
    let mut scope = Vec::new(alloc);
    for entry in entries {
        scope = scope_with(alloc, sig, scope.as_slice(), entry.prod)?;
    }
    Ok(scope)
}

/// Writes entries one after another, after those whose scope this is.
pub fn write_entries(
    page: &mut Page,
    sig: &Sig,
    outer: Vec<Variable>,
    entries: &[Entry],
) -> Result<(), NoMemory>
    ensures { OnOk result (page.new ≡ written page.old (entries_tokens sig.now no_labels (variables outer.items) (plain_entries entries.now))) }
{
    let mut scope = outer;
    for entry in entries {
        write_entry(page, sig, scope.as_slice(), entry)?;
        scope = scope_with(page.alloc, sig, scope.as_slice(), entry.prod)?;
    }
    Ok(())
}

/// Whether a production has terminals alone.
fn is_empty_form(prod: &Prod) -> bool
    ensures { result ≡ is_empty_form prod.now }
{
    for item in prod.items.as_slice() {
        match item {
            Item::Word { .. } => {}
            _ => return false,
        }
    }
    true
}

/// Writes the empty form of a category of contexts.
fn write_empty_form(page: &mut Page, sig: &Sig, cat: CatId) -> Result<(), NoMemory>
    ensures { OnOk result (page.new ≡ written page.old (empty_form sig.now cat.0)) }
{
    for prod in sig.prods() {
        if prod.cat.0 == cat.0 && is_empty_form(prod) {
            return write_flat_items(page, sig, &[], &[], prod.items.as_slice(), &[]);
        }
    }
    Ok(())
}

/// Writes what a context value in full begins with.
#[tactic(auto, using(crate::proofs::Pages::written_nothing))]
fn write_start(page: &mut Page, sig: &Sig, cat: Option<CatId>) -> Result<(), NoMemory>
    ensures { OnOk result (page.new ≡ written page.old (unwrap_or (option_map (λ c. empty_form sig.now c.0) cat) [])) }
{
    match cat {
        Some(cat) => write_empty_form(page, sig, cat),
        None => Ok(()),
    }
}

/// Writes a context value in full.
#[tactic(auto, using(crate::proofs::Contexts::value_written))]
pub fn write_value(page: &mut Page, sig: &Sig, value: &CtxValue) -> Result<(), NoMemory>
    ensures { OnOk result (page.new ≡ written page.old (value_tokens sig.now (context_value value.now))) }
{
    write_start(page, sig, value.cat)?;
    write_entries(page, sig, Vec::new(page.alloc), value.entries.as_slice())
}

/// The name of a category, empty where it is out of range.
fn category_name(sig: &Sig, cat: CatId) -> &[u8]
    ensures { result.now ≡ category_name sig.now cat.0 }
{
    match at(sig.cats().as_slice(), cat.0 as usize) {
        Some(cat) => cat.name.bytes(),
        None => b"",
    }
}

/// The name of the root's category.
fn root_name<'a>(sig: &'a Sig, root: &CtxValue) -> &'a [u8]
    ensures { result.now ≡ unwrap_or (option_map (category_name sig.now) (context_value root.now).cat) [] }
{
    match root.cat {
        Some(cat) => category_name(sig, cat),
        None => b"",
    }
}

/// The entries after the first ones.
fn entries_after(entries: &[Entry], count: usize) -> &[Entry]
    ensures { result.now ≡ drop count entries.now }
{
    if count >= entries.len() {
        return &[];
    }
    &entries[count..]
}

/// Writes a context that begins with the root, with the name of the root's category in place of the root.
fn write_after_root(
    page: &mut Page,
    sig: &Sig,
    root: &CtxValue,
    value: &CtxValue,
) -> Result<(), NoMemory>
    ensures { OnOk result (page.new ≡ written page.old (after_root sig.now (context_value root.now) (context_value value.now))) }
{
    let scope = scope_of(page.alloc, sig, root.entries.as_slice())?;
    page.token(root_name(sig, root))?;
    let rest = entries_after(value.entries.as_slice(), root.entries.len());
    write_entries(page, sig, scope, rest)?;
    Ok(())
}

/// Writes a context, from the name of the root's category on where it begins with the root.
pub fn write_context(
    page: &mut Page,
    sig: &Sig,
    root: Option<&CtxValue>,
    value: &CtxValue,
) -> Result<(), NoMemory>
    ensures { OnOk result (page.new ≡ written page.old
        (context_from sig.now (root_value (option_copied root.entry)) (context_value value.now))) }
{
    match root {
        Some(root) => write_from(page, sig, root, value),
        None => write_value(page, sig, value),
    }
}

/// Writes a context where a root is given.
fn write_from(page: &mut Page, sig: &Sig, root: &CtxValue, value: &CtxValue) -> Result<(), NoMemory>
    ensures { OnOk result (page.new ≡ written page.old
        (context_from sig.now (Some (context_value root.now)) (context_value value.now))) }
{
    if begins_with(root, value) {
        return write_after_root(page, sig, root, value);
    }
    write_value(page, sig, value)
}
