// The readings of what is wanted over some metavariables.
ghost use Rattle.std.specs.Prelude.{◌≡◌, ◌≤◌, IfOk, [], map, length};
ghost use Rattle.scheme_terms.specs.View.{scheme};
ghost use Rattle.rule_schemes.specs.Reading.{known_words};
ghost use Rattle.rule_schemes.specs.Said.{IsBefore};
ghost use Rattle.term_reader.specs.Firsts.{listed, AreFirst};
ghost use Rattle.term_reader.specs.Splitting.{IsSheet, tokens_of};
ghost use Rattle.term_reader.specs.View.{in_scope, token};
ghost use Rattle.notation_parser.specs.Forms.{IsTermRead, written_term, IsContextRead, as_context};
ghost use Rattle.notation_parser.specs.Ordered.{ReadsWantedAt};
ghost use Rattle.notation_parser.specs.Plain.{IsReadableOver};
ghost use Rattle.notation_parser.specs.Shapes.{IsScopeKnown, KnownsApart, written_context};
ghost use Rattle.notation_parser.specs.View.{outcome, reading_scope, wanted};

use crate::contexts::{Context, in_shape};
use crate::judgments::forms;
use crate::knowns::{all_words, known_variables, with_knowns};
use crate::outcomes::{Outcome, are_two, both};
use crate::shaping::shapes;
use binding_terms::{CatId, NoMemory, Sig};
use proof_lexer::Token;
use rule_schemes::{Judgment, ReadScope, Want, Written};
use scheme_terms::{MetaDecl, Scheme};
use sqlite_items::Items;
use std::alloc::Global;
use term_reader::{Chart, Firsts, Sheet, Var, scope_variables, terms};

fn as_term(alloc: Global, term: Scheme) -> Outcome
    ensures { outcome result ≡ written_term (scheme term) }
{
    Outcome {
        written: Written::Term(term),
        knowns: Items::new(alloc),
    }
}

fn as_terms(alloc: Global, found: Firsts<Scheme>) -> Firsts<Outcome>
    ensures { listed outcome result ≡ map written_term (listed scheme found) }
{
    match found {
        Firsts::Nothing => Firsts::Nothing,
        Firsts::One(a) => Firsts::One(as_term(alloc, a)),
        Firsts::Two(a, b) => Firsts::Two(as_term(alloc, a), as_term(alloc, b)),
    }
}

fn as_context(context: Context) -> Outcome
    ensures { outcome result ≡ as_context (written_context context) }
{
    Outcome {
        written: Written::Context(context.ctx),
        knowns: context.knowns,
    }
}

fn as_contexts(found: Firsts<Context>) -> Firsts<Outcome>
    ensures { listed outcome result ≡ map as_context (listed written_context found) }
{
    match found {
        Firsts::Nothing => Firsts::Nothing,
        Firsts::One(a) => Firsts::One(as_context(a)),
        Firsts::Two(a, b) => Firsts::Two(as_context(a), as_context(b)),
    }
}

/// The first two readings of all the tokens as a context of the category.
fn contexts<'a>(
    alloc: Global,
    sheet: &Sheet<'a>,
    scope: &'a ReadScope,
    cat: CatId,
) -> Result<Firsts<Outcome>, NoMemory>
    requires sheet { IsSheet sheet.now }
    requires scope { IsScopeKnown sheet.now (reading_scope scope.now) }
    requires apart { KnownsApart (reading_scope scope.now).names.knowns }
    ensures { IfOk result
        (λ found. AreFirst IsBefore
        (IsContextRead sheet.now.sig.now (reading_scope scope.now) sheet.now.metas.now cat (tokens_of sheet.now))
        (listed outcome found)) }
{
    let mut found = Firsts::Nothing;
    let all = shapes(alloc, sheet, scope, cat, 0, sheet.tokens.len())?;
    for shape in all.as_slice() {
        if are_two(&found) {
            return Ok(found);
        }
        let more = as_contexts(in_shape(alloc, sheet, scope, cat, shape)?);
        found = both(found, more);
    }
    Ok(found)
}

/// The first two readings of all the tokens as a term of the category.
fn alone<'a>(
    alloc: Global,
    sheet: &Sheet<'a>,
    scope: &'a ReadScope,
    knowns: &[Var<'a>],
    cat: CatId,
) -> Result<Firsts<Outcome>, NoMemory>
    requires sheet { IsSheet sheet.now }
    requires scope { IsScopeKnown sheet.now (reading_scope scope.now) }
    requires knowns { in_scope knowns.now ≡ known_words sheet.now.sig.now 0 (reading_scope scope.now).names.knowns }
    ensures { IfOk result
        (λ found. AreFirst IsBefore
        (IsTermRead sheet.now.sig.now (reading_scope scope.now) sheet.now.metas.now cat.0 (tokens_of sheet.now))
        (listed outcome found)) }
{
    let own = scope_variables(alloc, scope.vars.as_slice())?;
    let vars = with_knowns(alloc, own.as_slice(), knowns)?;
    let found = terms(alloc, sheet, vars.as_slice(), cat, 0, sheet.tokens.len())?;
    Ok(as_terms(alloc, found))
}

/// The first two readings of the tokens as what is wanted, over the names of the scope and these metavariables in place of its own;
/// no other new name may stand in them.
pub(crate) fn read_over<'a>(
    alloc: Global,
    sig: &'a Sig,
    judgments: &'a Vec<Judgment>,
    scope: &'a ReadScope,
    metas: &'a [MetaDecl],
    want: Want,
    tokens: &'a [Token<'a>],
) -> Result<Firsts<Outcome>, NoMemory>
    requires { IsReadableOver (reading_scope scope.now) metas.now }
    ensures { IfOk result
        (λ found. AreFirst IsBefore
        (ReadsWantedAt sig.now judgments.now.items (reading_scope scope.now) metas.now (wanted want) (map token tokens.now))
        (listed outcome found)) }
{
    let owned = all_words(
        alloc,
        sig,
        scope.vars.as_slice(),
        scope.scope.knowns.as_slice(),
    )?;
    let words = owned.as_slice();
    let chart = Chart::new(alloc, sig, metas, words, tokens)?;
    let sheet = Sheet {
        sig,
        metas,
        words,
        tokens,
        chart: &chart,
        contexts: None,
    };
    let knowns = known_variables(alloc, sig, scope.scope.knowns.as_slice())?;
    // The productions fit, so that every context has tokens.
    sig.prods();
    match want {
        Want::Term(cat) => alone(alloc, &sheet, scope, knowns.as_slice(), cat),
        Want::Judgment => forms(
            alloc,
            &sheet,
            scope,
            knowns.as_slice(),
            judgments.as_slice(),
        ),
        Want::Context(cat) => contexts(alloc, &sheet, scope, cat),
    }
}
