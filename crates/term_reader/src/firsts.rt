ghost use Rattle.std.specs.Prelude.{◌≡◌, ◌↔◌, IsTrue, IfOk, [], ◌∷◌, ◌++◌, map};
ghost use Rattle.scheme_terms.specs.View.{scheme, scheme_part, scheme_parts};
ghost use Rattle.term_reader.specs.Firsts.{listed, AreJoined, paired, IsFull, with_last};

use binding_terms::NoMemory;
use scheme_terms::{SArg, Scheme, copy_scheme, same_scheme};
use sqlite_items::Items;
use std::alloc::Global;

/// The first two of several things, or fewer where there are fewer.
#[derive(Drop)]
pub enum Firsts<T> {
    Nothing,
    One(T),
    Two(T, T),
}

/// Whether there are two.
pub fn is_full(found: &Firsts<Scheme>) -> bool
    ensures { IsTrue result ↔ IsFull found.now }
{
    match found {
        Firsts::Nothing => false,
        Firsts::One(_) => false,
        Firsts::Two(_, _) => true,
    }
}

/// The first two of what stands in the first or in the second.
pub fn joined(first: Firsts<Scheme>, second: Firsts<Scheme>) -> Firsts<Scheme>
    ensures { AreJoined (listed scheme first) (listed scheme second) (listed scheme result) }
{
    match first {
        Firsts::Nothing => second,
        Firsts::One(a) => one_joined(a, second),
        Firsts::Two(a, b) => Firsts::Two(a, b),
    }
}

fn one_joined(a: Scheme, second: Firsts<Scheme>) -> Firsts<Scheme>
    ensures { AreJoined (scheme a ∷ []) (listed scheme second) (listed scheme result) }
{
    match second {
        Firsts::Nothing => Firsts::One(a),
        Firsts::One(b) => {
            if same_scheme(&a, &b) {
                return Firsts::One(a);
            }
            Firsts::Two(a, b)
        }
        Firsts::Two(b, c) => {
            if same_scheme(&a, &b) {
                return Firsts::Two(a, c);
            }
            Firsts::Two(a, b)
        }
    }
}

fn with_part(mut parts: Items<SArg>, binds: usize, body: Scheme) -> Result<Items<SArg>, NoMemory>
    ensures { IfOk result (λ new. scheme_parts new ≡ with_last binds (scheme_parts parts) (scheme body)) }
{
    parts.push(SArg { binds, body })?;
    Ok(parts)
}

fn again(alloc: Global, parts: &[SArg]) -> Result<Items<SArg>, NoMemory>
    ensures { IfOk result (λ new. map scheme_part new ≡ map scheme_part parts.now) }
{
    let mut all = Items::new(alloc);
    for part in parts {
        let body = copy_scheme(alloc, &part.body)?;
        all.push(SArg {
            binds: part.binds,
            body,
        })?;
    }
    Ok(all)
}

/// Each of the parts with each of the bodies after it, the first two of these.
pub fn extended(
    alloc: Global,
    found: Firsts<Items<SArg>>,
    binds: usize,
    bodies: Firsts<Scheme>,
) -> Result<Firsts<Items<SArg>>, NoMemory>
    ensures { IfOk result
        (λ new. listed scheme_parts new ≡ paired (with_last binds) (listed scheme_parts found) (listed scheme bodies)) }
{
    match (found, bodies) {
        (Firsts::Nothing, _) => Ok(Firsts::Nothing),
        (_, Firsts::Nothing) => Ok(Firsts::Nothing),
        (Firsts::One(x), Firsts::One(a)) => Ok(Firsts::One(with_part(x, binds, a)?)),
        (Firsts::Two(x, y), Firsts::One(a)) => {
            let b = copy_scheme(alloc, &a)?;
            Ok(Firsts::Two(with_part(x, binds, a)?, with_part(y, binds, b)?))
        }
        (Firsts::One(x), Firsts::Two(a, b)) => {
            let y = again(alloc, x.as_slice())?;
            Ok(Firsts::Two(with_part(x, binds, a)?, with_part(y, binds, b)?))
        }
        (Firsts::Two(x, _), Firsts::Two(a, b)) => {
            let y = again(alloc, x.as_slice())?;
            Ok(Firsts::Two(with_part(x, binds, a)?, with_part(y, binds, b)?))
        }
    }
}
