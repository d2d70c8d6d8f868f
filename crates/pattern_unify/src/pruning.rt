//! Which occurrence a prune takes.
ghost use Rattle.std.specs.Prelude.{◌↔◌, IsTrue, IfOk, map, option_map};
ghost use Rattle.scheme_terms.specs.SchemeTree.{values};
ghost use Rattle.scheme_terms.specs.View.{scheme, scheme_parts};
ghost use Rattle.pattern_unify.specs.Pruning.{HasOther, HasPrunable};
ghost use Rattle.pattern_unify.specs.Pruned.{pruned, IsFirstPrunable, IsFirstPrunableInParts, IsPrunableIn};

use crate::patterns::{is_other, kept_arguments};
use binding_terms::NoMemory;
use scheme_terms::{MetaId, SArg, Scheme, are_distinct_locals};
use std::alloc::Global;

/// A metavariable that a prune makes anew, and which of its parameters are kept.
#[derive(Drop)]
pub(crate) struct Pruned {
    pub name: MetaId,
    pub keeps: Vec<bool>,
}

/// Whether one of the arguments below so many binders is a local that is neither bound there nor among the others.
fn has_other(args: &[Scheme], binders: usize, others: &[Scheme]) -> bool
    ensures { IsTrue result ↔ HasOther (values (map scheme args.now)) binders (values (map scheme others.now)) }
{
    for other in others {
        if let Scheme::Local(i) = other {
            if is_other(args, binders, *i) {
                return true;
            }
        }
    }
    false
}

/// The first pattern from the left, at a rigid place, of another metavariable that has a local which is neither bound there nor among
/// the arguments.
#[cycle(first_prunable)]
pub(crate) fn first_prunable(
    alloc: Global,
    s: &Scheme,
    of: MetaId,
    args: &[Scheme],
    binders: usize,
) -> Result<Option<Pruned>, NoMemory>
    ensures { IfOk result (λ o. IsFirstPrunable of.0 (values (map scheme args.now)) binders (scheme s.now) (option_map pruned o)) }
{
    match s {
        Scheme::Meta(n, others) => {
            if n.0 == of.0 || !are_distinct_locals(others.as_slice()) {
                return Ok(None);
            }
            if !has_other(args, binders, others.as_slice()) {
                return Ok(None);
            }
            Ok(Some(Pruned {
                name: *n,
                keeps: kept_arguments(alloc, args, binders, others.as_slice())?,
            }))
        }
        Scheme::Known(_) | Scheme::Local(_) => Ok(None),
        Scheme::Con(_, parts) => first_prunable_in_parts(
            alloc,
            parts.as_slice(),
            of,
            args,
            binders,
        ),
    }
}

#[cycle(first_prunable)]
fn first_prunable_in_parts(
    alloc: Global,
    parts: &[SArg],
    of: MetaId,
    args: &[Scheme],
    binders: usize,
) -> Result<Option<Pruned>, NoMemory>
    ensures { IfOk result (λ o. IsFirstPrunableInParts of.0 (values (map scheme args.now)) binders (scheme_parts parts.now) (option_map pruned o)) }
{
    for part in parts {
        let inner = binders.checked_add(part.binds).ok_or(NoMemory)?;
        if let Some(found) = first_prunable(alloc, &part.body, of, args, inner)? {
            return Ok(Some(found));
        }
    }
    Ok(None)
}

/// Whether there is such a pattern.
pub(crate) fn has_prunable(
    alloc: Global,
    s: &Scheme,
    of: MetaId,
    args: &[Scheme],
) -> Result<bool, NoMemory>
    ensures { IfOk result (λ has. IsTrue has ↔ HasPrunable of.0 (values (map scheme args.now)) 0 (scheme s.now)) }
{
    let found = first_prunable(alloc, s, of, args, 0)?;
    Ok(found.is_some())
}
