// The variables that are in scope outside the entries of a context.
ghost use Rattle.std.specs.Prelude.{◌≡◌, ◌++◌, ◌∷◌, [], IfOk, slice_index, reverse, map};
ghost use Rattle.binding_terms.specs.Signature.{binders};
ghost use Rattle.scheme_terms.specs.Context.{variables};
ghost use Rattle.scheme_terms.specs.View.{known_variable};
ghost use Rattle.rule_schemes.specs.Reading.{known_words, with_root};
ghost use Rattle.form_cells.specs.View.{in_scope};
ghost use Rattle.cell_reader.specs.View.{reading_scope};

use binding_terms::{CatId, Item, NoMemory, ProdId, Sig, number};
use form_cells::{Meaning, Var, scope_variables};
use rule_schemes::ReadScope;
use scheme_terms::{KnownDecl, Root};
use sqlite_items::{Items, at};
use std::alloc::Global;

/// The category of the item where it is a binder, and else the one before.
fn later(cat: CatId, item: &Item) -> CatId
    ensures { result.0 ≡ slice_index (reverse (binders (item.now ∷ [])) ++ cat.0 ∷ []) 0 }
{
    match item {
        Item::Word { text: _, quoted: _ } => cat,
        Item::Slot { cat: _, binds: _ } => cat,
        Item::Binder(own) => *own,
    }
}

/// The category of the last binder, or the first category where there is none.
fn last_binder(items: &[Item]) -> CatId
    ensures { result.0 ≡ slice_index (reverse (binders items.now)) 0 }
{
    let mut cat = CatId(0);
    for item in items {
        cat = later(cat, item);
    }
    cat
}

/// The category of the variable of an entry by the production.
fn variable_of(sig: &Sig, prod: ProdId) -> CatId
    ensures { result.0 ≡ slice_index (variables sig.now prod.0) 0 }
{
    match at(sig.prods().as_slice(), prod.0 as usize) {
        Some(found) => last_binder(found.items.as_slice()),
        None => CatId(0),
    }
}

/// The variables of known variables, the innermost last.
pub fn known_variables<'a>(
    alloc: Global,
    sig: &Sig,
    knowns: &'a [KnownDecl],
) -> Result<Items<Var<'a>>, NoMemory>
    ensures { IfOk result (λ all. in_scope all ≡ known_words sig.now 0 (map known_variable knowns.now)) }
{
    let mut all = Items::new(alloc);
    let mut left = knowns.len();
    while left > 0 {
        left -= 1;
        let known = &knowns[left];
        all.push(Var {
            word: known.name.bytes(),
            cat: variable_of(sig, known.entry.prod),
            means: Meaning::Entry(number(left)?),
        })?;
    }
    Ok(all)
}

/// The variables that are in scope in a term: a scope's own stand before its known variables.
pub fn with_knowns<'a>(
    alloc: Global,
    own: &[Var<'a>],
    knowns: &[Var<'a>],
) -> Result<Items<Var<'a>>, NoMemory>
    ensures { IfOk result (λ all. in_scope all ≡ in_scope own.now ++ in_scope knowns.now) }
{
    let mut all = Items::from_slice(alloc, knowns)?;
    all.append(Items::from_slice(alloc, own)?)?;
    Ok(all)
}

/// The same variables again.
fn again<'a>(alloc: Global, vars: &[Var<'a>]) -> Result<Items<Var<'a>>, NoMemory>
    ensures { IfOk result (λ all. all ≡ vars.now) }
{
    Ok(Items::from_slice(alloc, vars)?)
}

/// The variables that come with the name of the category: the scope's own where the scope has this root, and the known ones.
pub fn rooted_variables<'a>(
    alloc: Global,
    scope: &'a ReadScope,
    cat: CatId,
    knowns: &[Var<'a>],
) -> Result<Items<Var<'a>>, NoMemory>
    ensures { IfOk result (λ all. in_scope all
        ≡ with_root (reading_scope scope.now).names.root cat.0 (reading_scope scope.now).vars (in_scope knowns.now)) }
{
    match scope.scope.root {
        Root::Whole(root) => {
            if root.0 != cat.0 {
                return again(alloc, knowns);
            }
            let own = scope_variables(alloc, scope.vars.as_slice())?;
            with_knowns(alloc, own.as_slice(), knowns)
        }
        Root::Closed => again(alloc, knowns),
        Root::Empty(_) => again(alloc, knowns),
    }
}
