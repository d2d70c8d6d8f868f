//! The names of a scope as they are printed.
ghost use Rattle.std.specs.Prelude.{◌≡◌, IfOk, OnOk, [], ◌∷◌, ◌<◌, ◌^◌, MatchOption, codes, ◌++◌, decimal, ◌+◌, unwrap_or, option_map, slice_get, nat_lt, length, ◌-◌, if◌then◌else◌};
ghost use Rattle.rule_schemes.specs.Printing.{declared_name, items_of, meta_name};
ghost use Rattle.binding_terms.specs.Signature.{binders};
ghost use Rattle.form_printing.specs.Page.{written};
ghost use Rattle.form_printing.specs.View.{shown, later_name, first_declared, known_name};

use crate::page::Page;
use crate::words::{declared_name, items_of};
use binding_terms::{CatId, Item, NoMemory, ProdId, Sig, Text};
use itoa::Buffer;
use scheme_terms::{KnownDecl, MetaDecl, Scope};
use sqlite_items::at;

/// The names that are printed.
#[derive(Clone, Copy, Drop)]
pub enum Labels<'a> {
    /// Those of a scope.
    Scope(&'a Scope),
    /// Those of a scope and, after them, those of a choice: the metavariables of its rule, and its known variable.
    Choice {
        scope: &'a Scope,
        metas: &'a [MetaDecl],
        known: Option<ProdId>,
    },
}

/// The name of the metavariable with that number, empty where it is out of range.
fn meta_name(metas: &[MetaDecl], number: usize) -> &[u8]
    ensures { result.now ≡ meta_name metas.now number }
{
    match at(metas, number) {
        Some(decl) => decl.name.bytes(),
        None => b"",
    }
}

/// The name of the known variable with that number, empty where it is out of range.
fn known_name(knowns: &[KnownDecl], number: usize) -> &[u8]
    ensures { result.now ≡ known_name knowns.now number }
{
    match at(knowns, number) {
        Some(decl) => decl.name.bytes(),
        None => b"",
    }
}

/// Writes the name of a metavariable of a choice's rule, or of one that comes after these.
#[tactic(auto, unfolding(crate::specs::Page::written))]
fn write_later(page: &mut Page, metas: &[MetaDecl], number: u32) -> Result<(), NoMemory>
    ensures { OnOk result (page.new ≡ written page.old (later_name metas.now number ∷ [])) }
{
    let mut word = Text::new(page.alloc);
    word.push(b"?")?;
    if (number as usize) < metas.len() {
        word.push(meta_name(metas, number as usize))?;
    } else {
        let mut digits = Buffer::new();
        let place = number as usize - metas.len();
        word.push(digits.format(place as u64 + 1).as_bytes())?;
    }
    page.token(word.bytes())
}

/// Writes the name of a metavariable.
pub fn write_meta(
    page: &mut Page,
    sig: &Sig,
    labels: &Labels<'_>,
    number: u32,
) -> Result<(), NoMemory>
    ensures { OnOk result (page.new ≡ written page.old ((shown sig.now labels.now).metas number ∷ [])) }
{
    match labels {
        Labels::Scope(scope) => page.token(meta_name(scope.metas.as_slice(), number as usize)),
        Labels::Choice { scope, metas, .. } => {
            if (number as usize) < scope.metas.len() {
                return page.token(meta_name(scope.metas.as_slice(), number as usize));
            }
            write_later(page, metas, number - scope.metas.len() as u32)
        }
    }
}

/// The category of the first binder, that with the number 0 where there is none.
fn first_bound(items: &[Item]) -> CatId
    ensures { result.0 ≡ unwrap_or (slice_get (binders items.now) 0) 0 }
{
    for item in items {
        if let Item::Binder(cat) = item {
            return *cat;
        }
    }
    CatId(0)
}

/// The declared name of the first variable that an entry of the production adds.
fn first_declared(sig: &Sig, prod: Option<ProdId>) -> &[u8]
    ensures { result.now ≡ first_declared sig.now (option_map (λ p. p.0) prod) }
{
    match prod {
        Some(prod) => declared_name(sig, first_bound(items_of(sig, prod))),
        None => declared_name(sig, first_bound(items_of(sig, ProdId(0)))),
    }
}

/// Writes the name of the variable that is known by a choice.
fn write_chosen(page: &mut Page, sig: &Sig, known: Option<ProdId>) -> Result<(), NoMemory>
    ensures { OnOk result (page.new ≡ written page.old
        ((codes "?" ++ first_declared sig.now (option_map (λ p. p.0) known)) ∷ [])) }
{
    let mut word = Text::new(page.alloc);
    word.push(b"?")?;
    word.push(first_declared(sig, known))?;
    page.token(word.bytes())
}

/// Writes the name of a known variable.
pub fn write_known(
    page: &mut Page,
    sig: &Sig,
    labels: &Labels<'_>,
    number: u32,
) -> Result<(), NoMemory>
    ensures { OnOk result (page.new ≡ written page.old ((shown sig.now labels.now).knowns number ∷ [])) }
{
    match labels {
        Labels::Scope(scope) => page.token(known_name(scope.knowns.as_slice(), number as usize)),
        Labels::Choice { scope, known, .. } => {
            if (number as usize) < scope.knowns.len() {
                return page.token(known_name(scope.knowns.as_slice(), number as usize));
            }
            write_chosen(page, sig, *known)
        }
    }
}
