//! The judgment that the form of a line reads as.
ghost use Rattle.std.specs.Prelude.{◌≡◌, IfOk, MatchOption, map};
ghost use Rattle.binding_terms.specs.View.{tree};
ghost use Rattle.scheme_terms.specs.Instance.{instance_of};
ghost use Rattle.scheme_terms.specs.View.{scheme, instance};
ghost use Rattle.rule_schemes.specs.View.{theory, judgment_scheme, judgment_value};
ghost use Rattle.rule_schemes.specs.AtValue.{judgment_at, no_names};
ghost use Rattle.term_reader.specs.View.{token};
ghost use Rattle.notation_parser.specs.View.{reading_scope};
ghost use Rattle.derivation_text.specs.Bare.{HasNoContexts};
ghost use Rattle.derivation_text.specs.Valid.{nothing_around, scope_at};
ghost use Rattle.derivation_text.specs.Found.{ReadsJudgment, HasNoJudgment, IsClosedForm, HasValue};

use binding_terms::{NoMemory, Term};
use notation_parser::read;
use proof_lexer::Token;
use rule_schemes::{Fresh, JScheme, JudgInst, ReadScope, Reading, System, Want, Written};
use scheme_terms::{CtxValue, Inst, Root, Scheme, Scope, instance};
use sqlite_items::Items;
use std::alloc::Global;

/// A scope without names.
fn no_scope(alloc: Global) -> ReadScope
    ensures { reading_scope result ≡ scope_at nothing_around }
{
    ReadScope {
        scope: Scope {
            root: Root::Closed,
            metas: Items::new(alloc),
            knowns: Items::new(alloc),
        },
        vars: Items::new(alloc),
        fresh: Fresh::No,
    }
}

/// What the form reads as, if it has one reading alone.
fn scheme_of(alloc: Global, sys: &System, tokens: &[Token<'_>]) -> Result<Option<JScheme>, NoMemory>
    requires { HasNoContexts (theory sys.now) }
    ensures { IfOk result (λ found. MatchOption found (HasNoJudgment (theory sys.now) (map token tokens.now))
        (λ j. ReadsJudgment (theory sys.now) (map token tokens.now) (judgment_scheme j))) }
{
    let scope = no_scope(alloc);
    match read(
        alloc,
        sys.sig(),
        sys.judgments(),
        &scope,
        Want::Judgment,
        tokens,
    )? {
        Reading::One(written, _, _) => match written {
            Written::Judgment(scheme) => Ok(Some(scheme)),
            Written::Term(_) => Ok(None),
            Written::Context(_) => Ok(None),
        },
        Reading::NoReading => Ok(None),
        Reading::Ambiguous(_, _) => Ok(None),
        Reading::TooLong(_) => Ok(None),
    }
}

fn terms_of(alloc: Global, schemes: &[Scheme], inst: &Inst) -> Result<Items<Term>, NoMemory>
    ensures { IfOk result (λ all. map tree all ≡ map (instance_of (instance inst.now) 0) (map scheme schemes.now)) }
{
    let mut all = Items::new(alloc);
    for one in schemes {
        all.push(instance(alloc, one, 0, inst)?)?;
    }
    Ok(all)
}

fn no_instance(alloc: Global) -> Inst
    ensures { instance result ≡ no_names nothing_around.value }
{
    Inst {
        metas: Items::new(alloc),
        knowns: Items::new(alloc),
        root: CtxValue {
            cat: None,
            entries: Items::new(alloc),
        },
    }
}

/// The judgment that a form without names and context is.
fn value_of(alloc: Global, form: &JScheme) -> Result<JudgInst, NoMemory>
    requires { IsClosedForm (judgment_scheme form.now) }
    ensures { IfOk result (λ v. judgment_value v ≡ judgment_at nothing_around.value (judgment_scheme form.now)) }
{
    let inst = no_instance(alloc);
    let args = terms_of(alloc, form.args.as_slice(), &inst)?;
    Ok(JudgInst {
        judgment: form.judgment,
        ctx: CtxValue {
            cat: None,
            entries: Items::new(alloc),
        },
        args,
    })
}

/// The judgment that the form reads as, if it has one reading alone.
pub fn judgment_of(
    alloc: Global,
    sys: &System,
    tokens: &[Token<'_>],
) -> Result<Option<JudgInst>, NoMemory>
    requires { HasNoContexts (theory sys.now) }
    ensures { IfOk result (λ found. MatchOption found (HasNoJudgment (theory sys.now) (map token tokens.now))
        (λ v. HasValue (theory sys.now) (map token tokens.now) (judgment_value v))) }
{
    match scheme_of(alloc, sys, tokens)? {
        Some(form) => Ok(Some(value_of(alloc, &form)?)),
        None => Ok(None),
    }
}
