// Whether two forms of what is wanted say the same.
ghost use Rattle.std.specs.Prelude.{◌≡◌, ◌↔◌, IsTrue, map};
ghost use Rattle.scheme_terms.specs.View.{scheme, scheme_entry, scheme_context, known_variable};
ghost use Rattle.rule_schemes.specs.View.{judgment_scheme};
ghost use Rattle.notation_parser.specs.View.{written};

use rule_schemes::{JScheme, Written};
use scheme_terms::{KnownDecl, SCtx, SEntry, Scheme, same_scheme};

fn same_schemes(xs: &[Scheme], ys: &[Scheme]) -> bool
    ensures { IsTrue result ↔ (map scheme xs.now ≡ map scheme ys.now) }
{
    if xs.len() != ys.len() {
        return false;
    }
    for i in 0..xs.len() {
        if !same_scheme(&xs[i], &ys[i]) {
            return false;
        }
    }
    true
}

fn same_entry(a: &SEntry, b: &SEntry) -> bool
    ensures { IsTrue result ↔ (scheme_entry a.now ≡ scheme_entry b.now) }
{
    a.prod.0 == b.prod.0 && same_schemes(a.args.as_slice(), b.args.as_slice())
}

fn same_entries(xs: &[SEntry], ys: &[SEntry]) -> bool
    ensures { IsTrue result ↔ (map scheme_entry xs.now ≡ map scheme_entry ys.now) }
{
    if xs.len() != ys.len() {
        return false;
    }
    for i in 0..xs.len() {
        if !same_entry(&xs[i], &ys[i]) {
            return false;
        }
    }
    true
}

fn same_context(a: &SCtx, b: &SCtx) -> bool
    ensures { IsTrue result ↔ (scheme_context a.now ≡ scheme_context b.now) }
{
    a.root == b.root && same_entries(a.entries.as_slice(), b.entries.as_slice())
}

fn same_known(a: &KnownDecl, b: &KnownDecl) -> bool
    ensures { IsTrue result ↔ (known_variable a.now ≡ known_variable b.now) }
{
    a.name.bytes() == b.name.bytes() && same_entry(&a.entry, &b.entry)
}

pub fn same_knowns(xs: &[KnownDecl], ys: &[KnownDecl]) -> bool
    ensures { IsTrue result ↔ (map known_variable xs.now ≡ map known_variable ys.now) }
{
    if xs.len() != ys.len() {
        return false;
    }
    for i in 0..xs.len() {
        if !same_known(&xs[i], &ys[i]) {
            return false;
        }
    }
    true
}

fn same_judgment(a: &JScheme, b: &JScheme) -> bool
    ensures { IsTrue result ↔ (judgment_scheme a.now ≡ judgment_scheme b.now) }
{
    a.judgment.0 == b.judgment.0
        && same_context(&a.ctx, &b.ctx)
        && same_schemes(a.args.as_slice(), b.args.as_slice())
}

pub fn same_written(a: &Written, b: &Written) -> bool
    ensures { IsTrue result ↔ (written a.now ≡ written b.now) }
{
    match (a, b) {
        (Written::Term(x), Written::Term(y)) => same_scheme(x, y),
        (Written::Judgment(x), Written::Judgment(y)) => same_judgment(x, y),
        (Written::Context(x), Written::Context(y)) => same_context(x, y),
        _ => false,
    }
}
