// Whether the explicit entries of a context are over a scope.
ghost use Rattle.std.specs.Prelude.{◌≡◌, ◌≢◌, ◌↔◌, ◌++◌, [], IsTrue, IfOk, map, reverse};
ghost use Rattle.binding_terms.specs.Signature.{binders};
ghost use Rattle.scheme_terms.specs.Context.{variables};
ghost use Rattle.scheme_terms.specs.SchemeScope.{IsSchemeEntry, AreSchemeEntries, entry_variables};
ghost use Rattle.scheme_terms.specs.View.{names, scheme_entry};

use crate::arguments::{Skip, are_arguments};
use binding_terms::{CatId, Item, NoMemory, ProdId, Sig};
use scheme_terms::{SEntry, Scope};

fn has_binder(items: &[Item]) -> bool
    ensures { IsTrue result ↔ (binders items.now ≢ []) }
{
    for item in items {
        if let Item::Binder(_) = item {
            return true;
        }
    }
    false
}

/// Whether the entry is one of the category of contexts, under locals of these categories, the last innermost.
fn is_entry(sig: &Sig, scope: &Scope, locals: &[CatId], cat: CatId, entry: &SEntry) -> bool
    ensures { IsTrue result ↔ IsSchemeEntry sig.now (names scope.now) (reverse (map (λ c. c.0) locals.now)) cat.0 (scheme_entry entry.now) }
{
    match sig.prod(entry.prod) {
        Some(prod) => {
            let items = prod.items.as_slice();
            prod.cat.0 == cat.0
                && has_binder(items)
                && are_arguments(
                    sig,
                    scope,
                    locals,
                    Skip::First,
                    items,
                    entry.args.as_slice(),
                )
        }
        None => false,
    }
}

/// Puts the categories of binders at the end.
fn add_binders(items: &[Item], locals: &mut Vec<CatId>) -> Result<(), NoMemory>
    ensures { IfOk result (λ _. map (λ c. c.0) locals.new.items ≡ map (λ c. c.0) locals.old.items ++ binders items.now) }
{
    for item in items {
        if let Item::Binder(cat) = item {
            locals.push(*cat)?;
        }
    }
    Ok(())
}

/// Puts the categories of the variables of an entry of the production at the end.
fn add_variables(sig: &Sig, prod: ProdId, locals: &mut Vec<CatId>) -> Result<(), NoMemory>
    ensures { IfOk result (λ _. reverse (map (λ c. c.0) locals.new.items) ≡ variables sig.now prod.0 ++ reverse (map (λ c. c.0) locals.old.items)) }
{
    match sig.prod(prod) {
        Some(prod) => add_binders(prod.items.as_slice(), locals),
        None => Ok(()),
    }
}

/// Whether the entries are ones of the category of contexts, each under the variables of those before it. Puts the categories of their
/// variables at the end, where they are.
pub(crate) fn are_entries(
    sig: &Sig,
    scope: &Scope,
    cat: CatId,
    entries: &[SEntry],
    locals: &mut Vec<CatId>,
) -> Result<bool, NoMemory>
    ensures are { IfOk result (λ are. IsTrue are
        ↔ AreSchemeEntries sig.now (names scope.now) (reverse (map (λ c. c.0) locals.old.items)) cat.0 (map scheme_entry entries.now)) }
    ensures locals { IfOk result (λ are. IsTrue are → reverse (map (λ c. c.0) locals.new.items)
        ≡ entry_variables sig.now (reverse (map (λ c. c.0) locals.old.items)) (map scheme_entry entries.now)) }
{
    for entry in entries {
        if !is_entry(sig, scope, locals.as_slice(), cat, entry) {
            return Ok(false);
        }
        add_variables(sig, entry.prod, locals)?;
    }
    Ok(true)
}
