// The one reading of a form over metavariables, where nothing binds.
ghost use Rattle.std.specs.Prelude.{◌≡◌, IfOk, MatchOption, List, [], map};
ghost use Rattle.std.specs.List.{AllZip};
ghost use Rattle.scheme_terms.specs.View.{names};
ghost use Rattle.scheme_terms.specs.declared.scheme.Root.TheVariants.{Closed};
ghost use Rattle.proof_lexer.specs.View.{kind_and_text};
ghost use Rattle.rule_schemes.specs.Rules.{JudgmentScheme};
ghost use Rattle.rule_schemes.specs.Said.{want_judgment, a_judgment};
ghost use Rattle.rule_schemes.specs.View.{judgment_scheme};
ghost use Rattle.notation_parser.specs.Plain.{IsPlain};
ghost use Rattle.notation_parser.specs.View.{reading_scope, written as what_is_written};
ghost use Rattle.judgments.specs.Written.{settled, ReadsOnlyAs};

use binding_terms::{NoMemory, Sig};
use notation_parser::read;
use outline_reader::Form;
use proof_lexer::Token;
use rule_schemes::{Fresh, JScheme, Judgment, ReadScope, Reading, Want, Written};
use scheme_terms::{MetaDecl, Root, Scope};
use sqlite_items::Items;
use std::alloc::Global;

/// The closed scope of these metavariables, in which no new name may stand.
pub fn scope_of(alloc: Global, metas: Items<MetaDecl>) -> ReadScope
    ensures scope { names result.scope ≡ record { root = Closed; metas = metas; knowns = [] } }
    ensures settled { reading_scope result ≡ settled (record { root = Closed; metas = metas; knowns = [] }) }
{
    ReadScope {
        scope: Scope {
            root: Root::Closed,
            metas,
            knowns: Items::new(alloc),
        },
        vars: Items::new(alloc),
        fresh: Fresh::No,
    }
}

/// The metavariables of a scope that is done with.
pub fn metas_of(scope: ReadScope) -> Items<MetaDecl>
    ensures { result ≡ scope.scope.metas }
{
    let ReadScope {
        scope,
        vars: _,
        fresh: _,
    } = scope;
    let Scope {
        root: _,
        metas,
        knowns: _,
    } = scope;
    metas
}

fn as_judgment(form: Written) -> Option<JScheme>
    ensures { MatchOption result ((j : JudgmentScheme) → what_is_written form ≡ a_judgment j → ⊥)
        (λ j. what_is_written form ≡ a_judgment (judgment_scheme j)) }
{
    match form {
        Written::Judgment(j) => Some(j),
        Written::Term(_) => None,
        Written::Context(_) => None,
    }
}

/// The judgment that is the one reading of the form. `None` where there is none or several, or where the form is too long.
pub fn read_form(
    alloc: Global,
    sig: &Sig,
    judgments: &Vec<Judgment>,
    scope: &ReadScope,
    form: &[Token<'_>],
) -> Result<Option<JScheme>, NoMemory>
    requires { IsPlain sig.now judgments.now.items (reading_scope scope.now) want_judgment }
    ensures { IfOk result (λ found. MatchOption found
        ((j : JudgmentScheme) → ReadsOnlyAs sig.now judgments.now.items (names scope.now.scope) (map kind_and_text form.now) j → ⊥)
        (λ j. ReadsOnlyAs sig.now judgments.now.items (names scope.now.scope) (map kind_and_text form.now) (judgment_scheme j))) }
{
    match read(alloc, sig, judgments, scope, Want::Judgment, form)? {
        Reading::One(written, _, _) => Ok(as_judgment(written)),
        Reading::NoReading => Ok(None),
        Reading::Ambiguous(_, _) => Ok(None),
        Reading::TooLong(_) => Ok(None),
    }
}

/// The judgments that are the one readings of the forms.
pub fn read_forms(
    alloc: Global,
    sig: &Sig,
    judgments: &Vec<Judgment>,
    scope: &ReadScope,
    forms: &[Form<'_>],
) -> Result<Option<Items<JScheme>>, NoMemory>
    requires { IsPlain sig.now judgments.now.items (reading_scope scope.now) want_judgment }
    ensures { IfOk result (λ found. MatchOption found
        ((js : List JudgmentScheme) → AllZip (ReadsOnlyAs sig.now judgments.now.items (names scope.now.scope))
        (map (λ form. map kind_and_text form.now) forms.now) js → ⊥)
        (λ js. AllZip (ReadsOnlyAs sig.now judgments.now.items (names scope.now.scope))
        (map (λ form. map kind_and_text form.now) forms.now) (map judgment_scheme js))) }
{
    let mut all = Items::new(alloc);
    for form in forms {
        match read_form(alloc, sig, judgments, scope, form)? {
            Some(j) => all.push(j)?,
            None => return Ok(None),
        }
    }
    Ok(Some(all))
}
