//! Whether the known variables of one scope keep their numbers in another.
ghost use Rattle.std.specs.Prelude.{◌≡◌, ◌↔◌, IsTrue, IfOk, map};
ghost use Rattle.binding_terms.specs.Numbered.{AllNumbered};
ghost use Rattle.scheme_terms.specs.Substituting.{applied, applied_entry, IsKnownValue};
ghost use Rattle.scheme_terms.specs.View.{scheme, scheme_entry, known_variable, substitution};

use binding_terms::NoMemory;
use scheme_terms::{KnownDecl, SEntry, Scheme, Subst, apply_under, same_scheme};
use std::alloc::Global;

/// Whether each argument becomes the one at its place among the others.
fn args_become(
    alloc: Global,
    by: &Subst,
    args: &[Scheme],
    others: &[Scheme],
) -> Result<bool, NoMemory>
    ensures { IfOk result (λ are. IsTrue are ↔ (map scheme others.now ≡ map (applied (substitution by.now).metas (substitution by.now).knowns 0) (map scheme args.now))) }
{
    if args.len() != others.len() {
        return Ok(false);
    }
    for i in 0..args.len() {
        let made = apply_under(alloc, &args[i], by, 0)?;
        if !same_scheme(&others[i], &made) {
            return Ok(false);
        }
    }
    Ok(true)
}

/// Whether the one entry becomes the other.
fn entry_becomes(
    alloc: Global,
    by: &Subst,
    entry: &SEntry,
    other: &SEntry,
) -> Result<bool, NoMemory>
    ensures { IfOk result (λ is. IsTrue is ↔ (scheme_entry other.now ≡ applied_entry (substitution by.now) 0 (scheme_entry entry.now))) }
{
    if entry.prod.0 != other.prod.0 {
        return Ok(false);
    }
    args_become(alloc, by, entry.args.as_slice(), other.args.as_slice())
}

/// Whether the other scope has a known variable with this number whose entry is what becomes of this one's.
fn keeps_number(alloc: Global, by: &Subst, place: usize, decl: &KnownDecl) -> Result<bool, NoMemory>
    ensures { IfOk result (λ is. IsTrue is ↔ IsKnownValue (substitution by.now) (known_variable decl.now) place) }
{
    match by.into.knowns.as_slice().get(place) {
        Some(other) => entry_becomes(alloc, by, &decl.entry, &other.entry),
        None => Ok(false),
    }
}

/// Whether each known variable keeps its number.
pub(crate) fn keep_numbers(alloc: Global, by: &Subst, decls: &[KnownDecl]) -> Result<bool, NoMemory>
    ensures { IfOk result (λ are. IsTrue are ↔ AllNumbered (λ k decl. IsKnownValue (substitution by.now) decl k) 0 (map known_variable decls.now)) }
{
    for place in 0..decls.len() {
        if !keeps_number(alloc, by, place, &decls[place])? {
            return Ok(false);
        }
    }
    Ok(true)
}
