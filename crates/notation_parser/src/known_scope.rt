// Whether the known variables of a scope are told apart, and whether their entries are written over its metavariables.
ghost use Rattle.std.specs.Prelude.{◌≡◌, ◌≢◌, ◌↔◌, IsTrue, map};
ghost use Rattle.std.specs.List.{AllByRecursion};
ghost use Rattle.scheme_terms.specs.SchemeTree.{values};
ghost use Rattle.scheme_terms.specs.View.{scheme, scheme_parts, scheme_entry, known_variable};
ghost use Rattle.rule_schemes.specs.Reading.{fresh_names};
ghost use Rattle.notation_parser.specs.Below.{IsBelow, ValuesBelow, PartsBelow};
ghost use Rattle.notation_parser.specs.Shapes.{KnownsApart};
ghost use Rattle.notation_parser.specs.Used.{KnownsStand};
ghost use Rattle.notation_parser.specs.View.{freshness_of, reading_scope};

use rule_schemes::{Fresh, ReadScope};
use scheme_terms::{KnownDecl, SArg, SEntry, Scheme};

fn is_named_as(one: &KnownDecl, other: &KnownDecl) -> bool
    ensures { IsTrue result ↔ (one.now.name ≡ other.now.name) }
{
    one.name.bytes() == other.name.bytes()
}

fn is_new(one: &KnownDecl, knowns: &[KnownDecl]) -> bool
    ensures { IsTrue result ↔ AllByRecursion (λ l. one.now.name ≢ l.name) (map known_variable knowns.now) }
{
    for known in knowns {
        if is_named_as(one, known) {
            return false;
        }
    }
    true
}

/// Whether no two of the known variables have one name.
pub fn knowns_apart(knowns: &[KnownDecl]) -> bool
    ensures { IsTrue result ↔ KnownsApart (map known_variable knowns.now) }
{
    for i in 0..knowns.len() {
        if !is_new(&knowns[i], &knowns[i + 1..]) {
            return false;
        }
    }
    true
}

/// Whether each metavariable of the scheme has a number below that one.
#[cycle(below)]
fn is_below(count: usize, s: &Scheme) -> bool
    ensures { IsTrue result ↔ IsBelow count (scheme s.now) }
{
    match s {
        Scheme::Meta(m, args) => (m.0 as usize) < count && values_below(count, args.as_slice()),
        Scheme::Known(_) | Scheme::Local(_) => true,
        Scheme::Con(_, parts) => parts_below(count, parts.as_slice()),
    }
}

#[cycle(below)]
fn values_below(count: usize, args: &[Scheme]) -> bool
    ensures { IsTrue result ↔ ValuesBelow count (values (map scheme args.now)) }
{
    for arg in args {
        if !is_below(count, arg) {
            return false;
        }
    }
    true
}

#[cycle(below)]
fn parts_below(count: usize, parts: &[SArg]) -> bool
    ensures { IsTrue result ↔ PartsBelow count (scheme_parts parts.now) }
{
    for part in parts {
        if !is_below(count, &part.body) {
            return false;
        }
    }
    true
}

fn entry_below(count: usize, entry: &SEntry) -> bool
    ensures { IsTrue result ↔ AllByRecursion (IsBelow count) (scheme_entry entry.now).args }
{
    for arg in entry.args.as_slice() {
        if !is_below(count, arg) {
            return false;
        }
    }
    true
}

fn knowns_below(count: usize, knowns: &[KnownDecl]) -> bool
    ensures { IsTrue result ↔ AllByRecursion (λ k. AllByRecursion (IsBelow count) k.entry.args) (map known_variable knowns.now) }
{
    for known in knowns {
        if !entry_below(count, &known.entry) {
            return false;
        }
    }
    true
}

fn is_names(fresh: Fresh) -> bool
    ensures { IsTrue result ↔ (freshness_of fresh ≡ fresh_names) }
{
    match fresh {
        Fresh::No => false,
        Fresh::Names => true,
        Fresh::Head => false,
    }
}

/// Whether the entries of known variables are written over the scope's metavariables, where new ones may stand beside them.
pub fn knowns_stand(scope: &ReadScope) -> bool
    ensures { IsTrue result ↔ ((reading_scope scope.now).fresh ≡ fresh_names → KnownsStand (reading_scope scope.now)) }
{
    if !is_names(scope.fresh) {
        return true;
    }
    knowns_below(scope.scope.metas.len(), scope.scope.knowns.as_slice())
}
