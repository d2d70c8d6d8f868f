// The variables of explicit entries.
ghost use Rattle.std.specs.Prelude.{◌≡◌, ◌++◌, IfOk, map, reverse};
ghost use Rattle.binding_terms.specs.Signature.{binders};
ghost use Rattle.scheme_terms.specs.Context.{variables};
ghost use Rattle.scheme_terms.specs.View.{scheme_entry};
ghost use Rattle.rule_schemes.specs.Placed.{entry_cats, locals_of};

use binding_terms::{CatId, Item, NoMemory, ProdId, Sig};
use scheme_terms::SEntry;
use std::alloc::Global;

/// Puts the categories of binders at the end.
fn add_binders(items: &[Item], cats: &mut Vec<CatId>) -> Result<(), NoMemory>
    ensures { IfOk result (λ _. map (λ c. c.0) cats.new.items ≡ map (λ c. c.0) cats.old.items ++ binders items.now) }
{
    for item in items {
        if let Item::Binder(cat) = item {
            cats.push(*cat)?;
        }
    }
    Ok(())
}

/// Puts the categories of the variables of an entry of the production at the end.
fn add_variables(sig: &Sig, prod: ProdId, cats: &mut Vec<CatId>) -> Result<(), NoMemory>
    ensures { IfOk result (λ _. reverse (map (λ c. c.0) cats.new.items) ≡ variables sig.now prod.0 ++ reverse (map (λ c. c.0) cats.old.items)) }
{
    match sig.prod(prod) {
        Some(prod) => add_binders(prod.items.as_slice(), cats),
        None => Ok(()),
    }
}

/// The categories of the variables of explicit entries, those of the first entry first. As the categories of locals, the last innermost.
pub fn entry_cats(alloc: Global, sig: &Sig, entries: &[SEntry]) -> Result<Vec<CatId>, NoMemory>
    ensures cats { IfOk result (λ cats. map (λ c. c.0) cats.items ≡ entry_cats sig.now (map scheme_entry entries.now)) }
    ensures locals { IfOk result (λ cats. reverse (map (λ c. c.0) cats.items) ≡ locals_of sig.now (map scheme_entry entries.now)) }
{
    let mut cats = Vec::new(alloc);
    for entry in entries {
        add_variables(sig, entry.prod, &mut cats)?;
    }
    Ok(cats)
}
