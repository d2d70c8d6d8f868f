ghost use Rattle.std.specs.Prelude.{◌≡◌, ◌↔◌, ◌<◌, IsTrue, drop, length, map};
ghost use Rattle.scheme_terms.specs.SchemeTree.{local, values, IsApart, BeginsApart, AreDistinctLocals, StrictIn, StrictInParts};
ghost use Rattle.scheme_terms.specs.View.{scheme, scheme_parts};

use crate::scheme::{MetaId, SArg, Scheme};

fn is_local(index: usize, s: &Scheme) -> bool
    ensures { IsTrue result ↔ (scheme s.now ≡ local index) }
{
    match s {
        Scheme::Local(i) => *i == index,
        _ => false,
    }
}

fn is_apart(index: usize, args: &[Scheme]) -> bool
    ensures { IsTrue result ↔ IsApart index (values (map scheme args.now)) }
{
    for arg in args {
        if is_local(index, arg) {
            return false;
        }
    }
    true
}

/// Whether the first of the arguments is a local, and none after it is the same.
fn begins_apart(args: &[Scheme], at: usize) -> bool
    requires { at < length args.now }
    ensures { IsTrue result ↔ BeginsApart (values (map scheme (drop at args.now))) }
{
    match &args[at] {
        Scheme::Local(i) => is_apart(*i, &args[at + 1..]),
        _ => false,
    }
}

/// Whether the schemes are distinct locals.
pub fn are_distinct_locals(args: &[Scheme]) -> bool
    ensures { IsTrue result ↔ AreDistinctLocals (values (map scheme args.now)) }
{
    for at in 0..args.len() {
        if !begins_apart(args, at) {
            return false;
        }
    }
    true
}

/// Whether the metavariable has a strict occurrence in the scheme: applied to distinct locals, and not inside the arguments of
/// a metavariable. Each local counts as bound there.
#[cycle(strict)]
pub fn strict_in(m: MetaId, s: &Scheme) -> bool
    ensures { IsTrue result ↔ StrictIn m.0 (scheme s.now) }
{
    match s {
        Scheme::Meta(n, args) => n.0 == m.0 && are_distinct_locals(args.as_slice()),
        Scheme::Known(_) | Scheme::Local(_) => false,
        Scheme::Con(_, parts) => strict_in_parts(m, parts.as_slice()),
    }
}

#[cycle(strict)]
fn strict_in_parts(m: MetaId, parts: &[SArg]) -> bool
    ensures { IsTrue result ↔ StrictInParts m.0 (scheme_parts parts.now) }
{
    for part in parts {
        if strict_in(m, &part.body) {
            return true;
        }
    }
    false
}
