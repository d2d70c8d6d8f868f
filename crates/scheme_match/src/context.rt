ghost use Rattle.std.specs.Prelude.{◌≡◌, ◌↔◌, IsTrue, IfOk, Some, map, option_map};
ghost use Rattle.binding_terms.specs.View.{tree};
ghost use Rattle.scheme_terms.specs.View.{ground_entry, context_value};
ghost use Rattle.scheme_terms.specs.Instance.{root_cat};
ghost use Rattle.scheme_match.specs.Demands.{entries_over};

use binding_terms::{CatId, NoMemory, Term, copy, same};
use scheme_terms::{CtxValue, Entry, Root};
use sqlite_items::Items;
use std::alloc::Global;

fn same_terms(xs: &[Term], ys: &[Term]) -> bool
    ensures { IsTrue result ↔ (map tree xs.now ≡ map tree ys.now) }
{
    if xs.len() != ys.len() {
        return false;
    }
    for i in 0..xs.len() {
        if !same(&xs[i], &ys[i]) {
            return false;
        }
    }
    true
}

fn same_entry(x: &Entry, y: &Entry) -> bool
    ensures { IsTrue result ↔ (ground_entry x.now ≡ ground_entry y.now) }
{
    x.prod.0 == y.prod.0 && same_terms(x.args.as_slice(), y.args.as_slice())
}

/// Whether the entries are the same, place by place.
pub fn same_entries(xs: &[Entry], ys: &[Entry]) -> bool
    ensures { IsTrue result ↔ (map ground_entry xs.now ≡ map ground_entry ys.now) }
{
    if xs.len() != ys.len() {
        return false;
    }
    for i in 0..xs.len() {
        if !same_entry(&xs[i], &ys[i]) {
            return false;
        }
    }
    true
}

pub fn same_category(a: Option<CatId>, b: Option<CatId>) -> bool
    ensures { IsTrue result ↔ (option_map (λ c. c.0) a ≡ option_map (λ c. c.0) b) }
{
    match (a, b) {
        (Some(one), Some(other)) => one.0 == other.0,
        (None, None) => true,
        _ => false,
    }
}

/// The category of a form's context.
pub fn category_of(form: Root) -> Option<CatId>
    ensures { option_map (λ c. c.0) result ≡ root_cat form }
{
    match form {
        Root::Closed => None,
        Root::Empty(cat) | Root::Whole(cat) => Some(cat),
    }
}

/// The entries of the root over which a form stands.
pub fn entries_over<'a>(root: &'a CtxValue, form: Root) -> &'a [Entry]
    ensures { map ground_entry result.now ≡ entries_over (context_value root.now) form }
{
    match form {
        Root::Whole(_) => root.entries.as_slice(),
        _ => &[],
    }
}

fn copy_entry(alloc: Global, entry: &Entry) -> Result<Entry, NoMemory>
    ensures { IfOk result (λ new. ground_entry new ≡ ground_entry entry.now) }
{
    let mut args = Items::new(alloc);
    for arg in entry.args.as_slice() {
        args.push(copy(alloc, arg)?)?;
    }
    Ok(Entry {
        prod: entry.prod,
        args,
    })
}

/// The same context again.
pub fn copy_context(alloc: Global, value: &CtxValue) -> Result<CtxValue, NoMemory>
    ensures { IfOk result (λ new. context_value new ≡ context_value value.now) }
{
    let mut entries = Items::new(alloc);
    for entry in value.entries.as_slice() {
        entries.push(copy_entry(alloc, entry)?)?;
    }
    Ok(CtxValue {
        cat: value.cat,
        entries,
    })
}
