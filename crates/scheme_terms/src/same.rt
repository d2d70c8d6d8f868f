ghost use Rattle.std.specs.Prelude.{◌≡◌, ◌↔◌, IsTrue, map};
ghost use Rattle.scheme_terms.specs.SchemeTree.{values};
ghost use Rattle.scheme_terms.specs.View.{scheme, scheme_part, scheme_parts};

use crate::scheme::{SArg, Scheme};

/// Whether two schemes are the same.
#[cycle(same)]
pub fn same_scheme(a: &Scheme, b: &Scheme) -> bool
    ensures { IsTrue result ↔ (scheme a.now ≡ scheme b.now) }
{
    match (a, b) {
        (Scheme::Meta(m, xs), Scheme::Meta(n, ys)) => m.0 == n.0
            && same_values(xs.as_slice(), ys.as_slice()),
        (Scheme::Known(k), Scheme::Known(l)) => *k == *l,
        (Scheme::Local(i), Scheme::Local(j)) => *i == *j,
        (Scheme::Con(p, xs), Scheme::Con(q, ys)) => p.0 == q.0
            && same_parts(xs.as_slice(), ys.as_slice()),
        _ => false,
    }
}

#[cycle(same)]
fn same_values(xs: &[Scheme], ys: &[Scheme]) -> bool
    ensures { IsTrue result ↔ (values (map scheme xs.now) ≡ values (map scheme ys.now)) }
{
    if xs.len() != ys.len() {
        return false;
    }
    for i in 0..xs.len() {
        if !same_scheme(&xs[i], &ys[i]) {
            return false;
        }
    }
    true
}

#[cycle(same)]
fn same_part(x: &SArg, y: &SArg) -> bool
    ensures { IsTrue result ↔ (scheme_part x.now ≡ scheme_part y.now) }
{
    x.binds == y.binds && same_scheme(&x.body, &y.body)
}

#[cycle(same)]
fn same_parts(xs: &[SArg], ys: &[SArg]) -> bool
    ensures { IsTrue result ↔ (scheme_parts xs.now ≡ scheme_parts ys.now) }
{
    if xs.len() != ys.len() {
        return false;
    }
    for i in 0..xs.len() {
        if !same_part(&xs[i], &ys[i]) {
            return false;
        }
    }
    true
}
