ghost use Rattle.std.specs.Prelude.{◌≡◌, IfOk, map};
ghost use Rattle.scheme_terms.specs.SchemeTree.{values, shifted, shifted_values, shifted_parts};
ghost use Rattle.scheme_terms.specs.View.{scheme, scheme_parts};

use crate::scheme::{SArg, Scheme};
use binding_terms::NoMemory;
use sqlite_items::Items;
use std::alloc::Global;

/// Raises by `by` each local at or above `cut`. `NoMemory` also where an index would pass `usize::MAX`.
#[cycle(shift)]
pub fn shift_scheme(alloc: Global, s: &Scheme, cut: usize, by: usize) -> Result<Scheme, NoMemory>
    ensures { IfOk result (λ new. scheme new ≡ shifted cut by (scheme s.now)) }
{
    match s {
        Scheme::Meta(m, args) => Ok(Scheme::Meta(
            *m,
            shift_values(alloc, args.as_slice(), cut, by)?,
        )),
        Scheme::Known(k) => Ok(Scheme::Known(*k)),
        Scheme::Local(i) => {
            if *i < cut {
                Ok(Scheme::Local(*i))
            } else {
                Ok(Scheme::Local(i.checked_add(by).ok_or(NoMemory)?))
            }
        }
        Scheme::Con(p, parts) => Ok(Scheme::Con(
            *p,
            shift_parts(alloc, parts.as_slice(), cut, by)?,
        )),
    }
}

#[cycle(shift)]
#[tactic(auto, using(crate::proofs::Parts::done_shifted_values))]
fn shift_values(
    alloc: Global,
    args: &[Scheme],
    cut: usize,
    by: usize,
) -> Result<Items<Scheme>, NoMemory>
    ensures { IfOk result (λ all. values (map scheme all) ≡ shifted_values cut by (values (map scheme args.now))) }
{
    let mut all = Items::new(alloc);
    for arg in args {
        all.push(shift_scheme(alloc, arg, cut, by)?)?;
    }
    Ok(all)
}

#[cycle(shift)]
#[tactic(auto, using(crate::proofs::Parts::done_shifted_parts))]
fn shift_parts(
    alloc: Global,
    parts: &[SArg],
    cut: usize,
    by: usize,
) -> Result<Items<SArg>, NoMemory>
    ensures { IfOk result (λ all. scheme_parts all ≡ shifted_parts cut by (scheme_parts parts.now)) }
{
    let mut all = Items::new(alloc);
    for part in parts {
        let inner = cut.checked_add(part.binds).ok_or(NoMemory)?;
        let body = shift_scheme(alloc, &part.body, inner, by)?;
        all.push(SArg {
            binds: part.binds,
            body,
        })?;
    }
    Ok(all)
}
