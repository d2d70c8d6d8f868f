// Whether a local is free of a scheme.
ghost use Rattle.std.specs.Prelude.{◌≡◌, ◌↔◌, ◌+◌, ◌≤◌, ◌<◌, ◌^◌, ℕ, IsTrue, map};
ghost use Rattle.std.specs.List.{AllByRecursion};
ghost use Rattle.scheme_terms.specs.SchemeTree.{values, local, IsFreeOf, AreFreeOf, PartsFreeOf};
ghost use Rattle.scheme_terms.specs.View.{scheme, scheme_part, scheme_parts};
ghost use Rattle.rule_schemes.specs.Rules.{HasVariableOnce};

use scheme_terms::{SArg, Scheme};

/// Whether the local does not stand in the scheme.
#[cycle(free)]
pub fn is_free_of(index: usize, s: &Scheme) -> bool
    ensures { IsTrue result ↔ IsFreeOf index (scheme s.now) }
{
    match s {
        Scheme::Meta(_, args) => are_free_of(index, args.as_slice()),
        Scheme::Known(_) => true,
        Scheme::Local(k) => *k != index,
        Scheme::Con(_, parts) => parts_free_of(index, parts.as_slice()),
    }
}

#[cycle(free)]
fn are_free_of(index: usize, args: &[Scheme]) -> bool
    ensures { IsTrue result ↔ AreFreeOf index (values (map scheme args.now)) }
{
    for arg in args {
        if !is_free_of(index, arg) {
            return false;
        }
    }
    true
}

#[cycle(free)]
fn parts_free_of(index: usize, parts: &[SArg]) -> bool
    ensures { IsTrue result ↔ PartsFreeOf index (scheme_parts parts.now) }
{
    for part in parts {
        if !is_part_free_of(index, part) {
            return false;
        }
    }
    true
}

#[cycle(free)]
fn is_part_free_of(index: usize, part: &SArg) -> bool
    ensures { IsTrue result ↔ IsFreeOf (index + (scheme_part part.now).0) (scheme_part part.now).1 }
{
    match index.checked_add(part.binds) {
        Some(inner) => is_free_of(inner, &part.body),
        None => {
            no_local_past(&part.body);
            true
        }
    }
}

fn is_a_number(k: usize)
    ensures { k < 2 ^ 64 }
{}

/// No scheme has a local past the last number.
#[cycle(past)]
fn no_local_past(s: &Scheme)
    ensures { (i : ℕ) → 2 ^ 64 ≤ i → IsFreeOf i (scheme s.now) }
{
    match s {
        Scheme::Meta(_, args) => none_past(args.as_slice()),
        Scheme::Known(_) => {}
        Scheme::Local(k) => is_a_number(*k),
        Scheme::Con(_, parts) => no_part_past(parts.as_slice()),
    }
}

#[cycle(past)]
fn none_past(args: &[Scheme])
    ensures { (i : ℕ) → 2 ^ 64 ≤ i → AreFreeOf i (values (map scheme args.now)) }
{
    for arg in args {
        no_local_past(arg);
    }
}

#[cycle(past)]
fn no_part_past(parts: &[SArg])
    ensures { (i : ℕ) → 2 ^ 64 ≤ i → PartsFreeOf i (scheme_parts parts.now) }
{
    for part in parts {
        no_local_past(&part.body);
    }
}

fn are_all_free_of(index: usize, args: &[Scheme]) -> bool
    ensures { IsTrue result ↔ AllByRecursion (IsFreeOf index) (map scheme args.now) }
{
    for arg in args {
        if !is_free_of(index, arg) {
            return false;
        }
    }
    true
}

fn is_first_local(s: &Scheme) -> bool
    ensures { IsTrue result ↔ (scheme s.now ≡ local 0) }
{
    match s {
        Scheme::Local(k) => *k == 0,
        _ => false,
    }
}

/// Whether exactly one argument is the entry's variable alone, and the variable stands in no other.
pub(crate) fn has_variable_once(args: &[Scheme]) -> bool
    ensures { IsTrue result ↔ HasVariableOnce (map scheme args.now) }
{
    for i in 0..args.len() {
        if is_first_local(&args[i]) {
            return are_all_free_of(0, &args[i + 1..]);
        }
        if !is_free_of(0, &args[i]) {
            return false;
        }
    }
    false
}
