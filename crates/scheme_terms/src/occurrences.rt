ghost use Rattle.std.specs.Prelude.{◌↔◌, ◌+◌, IsTrue, map};
ghost use Rattle.scheme_terms.specs.SchemeTree.{values, OccursIn, OccursInValues, OccursInParts, KnownIn, KnownInValues, KnownInParts};
ghost use Rattle.scheme_terms.specs.View.{scheme, scheme_parts};

use crate::scheme::{MetaId, SArg, Scheme};

/// Whether the metavariable stands somewhere in the scheme, also inside the arguments of a metavariable.
#[cycle(occurs)]
pub fn occurs_in(m: MetaId, s: &Scheme) -> bool
    ensures { IsTrue result ↔ OccursIn m.0 (scheme s.now) }
{
    match s {
        Scheme::Meta(n, args) => n.0 == m.0 || occurs_in_values(m, args.as_slice()),
        Scheme::Known(_) | Scheme::Local(_) => false,
        Scheme::Con(_, parts) => occurs_in_parts(m, parts.as_slice()),
    }
}

#[cycle(occurs)]
fn occurs_in_values(m: MetaId, args: &[Scheme]) -> bool
    ensures { IsTrue result ↔ OccursInValues m.0 (values (map scheme args.now)) }
{
    for arg in args {
        if occurs_in(m, arg) {
            return true;
        }
    }
    false
}

#[cycle(occurs)]
fn occurs_in_parts(m: MetaId, parts: &[SArg]) -> bool
    ensures { IsTrue result ↔ OccursInParts m.0 (scheme_parts parts.now) }
{
    for part in parts {
        if occurs_in(m, &part.body) {
            return true;
        }
    }
    false
}

/// Whether the known variable stands somewhere in the scheme.
#[cycle(known)]
pub fn known_in(known: u32, s: &Scheme) -> bool
    ensures { IsTrue result ↔ KnownIn known (scheme s.now) }
{
    match s {
        Scheme::Meta(_, args) => known_in_values(known, args.as_slice()),
        Scheme::Known(k) => *k == known,
        Scheme::Local(_) => false,
        Scheme::Con(_, parts) => known_in_parts(known, parts.as_slice()),
    }
}

#[cycle(known)]
fn known_in_values(known: u32, args: &[Scheme]) -> bool
    ensures { IsTrue result ↔ KnownInValues known (values (map scheme args.now)) }
{
    for arg in args {
        if known_in(known, arg) {
            return true;
        }
    }
    false
}

#[cycle(known)]
fn known_in_parts(known: u32, parts: &[SArg]) -> bool
    ensures { IsTrue result ↔ KnownInParts known (scheme_parts parts.now) }
{
    for part in parts {
        if known_in(known, &part.body) {
            return true;
        }
    }
    false
}
