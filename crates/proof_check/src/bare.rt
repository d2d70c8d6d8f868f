// Whether a signature is one over which theories are made so far.
ghost use Rattle.std.specs.Prelude.{◌↔◌, IsTrue};
ghost use Rattle.std.specs.List.{AllByRecursion};
ghost use Rattle.user_grammar.specs.Bare.{IsBareSignature};
ghost use Rattle.proof_check.specs.Bare.{IsBareCategory, IsBareItem, IsBareProduction};

use binding_terms::{Cat, Item, Prod, Sig};

fn is_bare_category(cat: &Cat) -> bool
    ensures { IsTrue result ↔ IsBareCategory cat.now }
{
    !cat.context && cat.var.is_none()
}

fn are_bare_categories(cats: &[Cat]) -> bool
    ensures { IsTrue result ↔ AllByRecursion IsBareCategory cats.now }
{
    for cat in cats {
        if !is_bare_category(cat) {
            return false;
        }
    }
    true
}

/// Whether the item binds nothing.
fn is_bare_item(item: &Item) -> bool
    ensures { IsTrue result ↔ IsBareItem item.now }
{
    match item {
        Item::Word { .. } => true,
        Item::Slot { binds, .. } => binds.len() == 0,
        Item::Binder(_) => true,
    }
}

fn are_bare_items(items: &[Item]) -> bool
    ensures { IsTrue result ↔ AllByRecursion IsBareItem items.now }
{
    for item in items {
        if !is_bare_item(item) {
            return false;
        }
    }
    true
}

fn are_bare_productions(prods: &[Prod]) -> bool
    ensures { IsTrue result ↔ AllByRecursion IsBareProduction prods.now }
{
    for prod in prods {
        if !are_bare_items(prod.items.as_slice()) {
            return false;
        }
    }
    true
}

fn have_bare_parts(cats: &Vec<Cat>, prods: &Vec<Prod>) -> bool
    ensures { IsTrue result ↔ (AllByRecursion IsBareCategory cats.now.items
        × AllByRecursion IsBareProduction prods.now.items) }
{
    are_bare_categories(cats.as_slice()) && are_bare_productions(prods.as_slice())
}

/// Whether no category of the signature has a variable or is one of contexts, and no slot binds.
pub fn is_bare(sig: &Sig) -> bool
    ensures { IsTrue result ↔ IsBareSignature sig.now }
{
    have_bare_parts(sig.cats(), sig.prods())
}
