// What is asked of the scope of a form, and whether nothing binds in forms.
ghost use Rattle.std.specs.Prelude.{◌≡◌, ◌≢◌, ◌↔◌, IsTrue, None, [], map};
ghost use Rattle.scheme_terms.specs.View.{known_variable};
ghost use Rattle.std.specs.List.{AllByRecursion};
ghost use Rattle.term_reader.specs.Names.{NamesApart};
ghost use Rattle.notation_parser.specs.Plain.{IsPlain, IsReadable, IsNoContext};
ghost use Rattle.rule_schemes.specs.Reading.{not_fresh};
ghost use Rattle.term_reader.specs.View.{scope_words};
ghost use Rattle.notation_parser.specs.View.{wanted, reading_scope, freshness_of};

use crate::known_scope::{knowns_apart, knowns_stand};
use binding_terms::{Cat, CatId, Sig, Text};
use rule_schemes::{Fresh, Judgment, ReadScope, Want};
use scheme_terms::{KnownDecl, MetaDecl};

fn no_variables(cats: &[Cat]) -> bool
    ensures { IsTrue result ↔ AllByRecursion (λ c. c.var ≡ None) cats.now }
{
    for cat in cats {
        if cat.var.is_some() {
            return false;
        }
    }
    true
}

fn no_parameters(metas: &[MetaDecl]) -> bool
    ensures { IsTrue result ↔ AllByRecursion (λ m. m.params ≡ []) metas.now }
{
    for meta in metas {
        if !meta.params.is_empty() {
            return false;
        }
    }
    true
}

fn is_named_as(one: &MetaDecl, other: &MetaDecl) -> bool
    ensures { IsTrue result ↔ (one.now.name ≡ other.now.name) }
{
    one.name.bytes() == other.name.bytes()
}

fn is_new(one: &MetaDecl, metas: &[MetaDecl]) -> bool
    ensures { IsTrue result ↔ AllByRecursion (λ m. one.now.name ≢ m.name) metas.now }
{
    for meta in metas {
        if is_named_as(one, meta) {
            return false;
        }
    }
    true
}

fn names_apart(metas: &[MetaDecl]) -> bool
    ensures { IsTrue result ↔ NamesApart metas.now }
{
    for i in 0..metas.len() {
        if !is_new(&metas[i], &metas[i + 1..]) {
            return false;
        }
    }
    true
}

fn no_contexts(judgments: &[Judgment]) -> bool
    ensures { IsTrue result ↔ AllByRecursion (λ j. j.ctx ≡ None) judgments.now }
{
    for judgment in judgments {
        if judgment.ctx.is_some() {
            return false;
        }
    }
    true
}

fn is_no_context(want: Want) -> bool
    ensures { IsTrue result ↔ IsNoContext (wanted want) }
{
    match want {
        Want::Term(_) => true,
        Want::Judgment => true,
        Want::Context(_) => false,
    }
}

fn is_not_fresh(fresh: Fresh) -> bool
    ensures { IsTrue result ↔ (freshness_of fresh ≡ not_fresh) }
{
    match fresh {
        Fresh::No => true,
        Fresh::Names => false,
        Fresh::Head => false,
    }
}

fn no_knowns(knowns: &[KnownDecl]) -> bool
    ensures { IsTrue result ↔ (map known_variable knowns.now ≡ []) }
{
    knowns.len() == 0
}

fn no_words(vars: &[(Text, CatId)]) -> bool
    ensures { IsTrue result ↔ (scope_words vars.now ≡ []) }
{
    vars.len() == 0
}

/// Whether forms can be read in this scope: its names are told apart, and where new ones may stand beside them, its known variables
/// are written over its metavariables.
pub fn is_readable(scope: &ReadScope) -> bool
    ensures { IsTrue result ↔ IsReadable (reading_scope scope.now) }
{
    names_apart(scope.scope.metas.as_slice())
        && knowns_apart(scope.scope.knowns.as_slice())
        && knowns_stand(scope)
}

/// Whether nothing binds in forms, and neither contexts, variables nor new names stand in them.
pub fn is_plain(sig: &Sig, judgments: &Vec<Judgment>, scope: &ReadScope, want: Want) -> bool
    ensures { IsTrue result ↔ IsPlain sig.now judgments.now.items (reading_scope scope.now) (wanted want) }
{
    no_variables(sig.cats().as_slice())
        && names_apart(scope.scope.metas.as_slice())
        && no_parameters(scope.scope.metas.as_slice())
        && no_contexts(judgments.as_slice())
        && no_knowns(scope.scope.knowns.as_slice())
        && no_words(scope.vars.as_slice())
        && is_not_fresh(scope.fresh)
        && is_no_context(want)
}
