// Whether two forms are the same.
ghost use Rattle.std.specs.Prelude.{◌≡◌, ◌↔◌, IsTrue, map};
ghost use Rattle.scheme_terms.specs.View.{scheme, scheme_entry, scheme_context};
ghost use Rattle.rule_schemes.specs.View.{judgment_scheme};

use rule_schemes::JScheme;
use scheme_terms::{Root, SCtx, SEntry, Scheme, same_scheme};

pub(crate) fn same_root(a: Root, b: Root) -> bool
    ensures { IsTrue result ↔ (a ≡ b) }
{
    match (a, b) {
        (Root::Closed, Root::Closed) => true,
        (Root::Empty(c), Root::Empty(d)) => c.0 == d.0,
        (Root::Whole(c), Root::Whole(d)) => c.0 == d.0,
        _ => false,
    }
}

pub(crate) fn same_schemes(xs: &[Scheme], ys: &[Scheme]) -> bool
    ensures { IsTrue result ↔ (map scheme xs.now ≡ map scheme ys.now) }
{
    if xs.len() != ys.len() {
        return false;
    }
    for i in 0..xs.len() {
        if !same_scheme(&xs[i], &ys[i]) {
            return false;
        }
    }
    true
}

fn same_entry(a: &SEntry, b: &SEntry) -> bool
    ensures { IsTrue result ↔ (scheme_entry a.now ≡ scheme_entry b.now) }
{
    a.prod.0 == b.prod.0 && same_schemes(a.args.as_slice(), b.args.as_slice())
}

pub(crate) fn same_entries(xs: &[SEntry], ys: &[SEntry]) -> bool
    ensures { IsTrue result ↔ (map scheme_entry xs.now ≡ map scheme_entry ys.now) }
{
    if xs.len() != ys.len() {
        return false;
    }
    for i in 0..xs.len() {
        if !same_entry(&xs[i], &ys[i]) {
            return false;
        }
    }
    true
}

fn same_context(a: &SCtx, b: &SCtx) -> bool
    ensures { IsTrue result ↔ (scheme_context a.now ≡ scheme_context b.now) }
{
    same_root(a.root, b.root) && same_entries(a.entries.as_slice(), b.entries.as_slice())
}

/// Whether two forms are the same.
pub fn same_judgment(a: &JScheme, b: &JScheme) -> bool
    ensures { IsTrue result ↔ (judgment_scheme a.now ≡ judgment_scheme b.now) }
{
    a.judgment.0 == b.judgment.0
        && same_context(&a.ctx, &b.ctx)
        && same_schemes(a.args.as_slice(), b.args.as_slice())
}
