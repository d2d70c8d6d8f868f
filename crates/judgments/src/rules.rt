// The rules that a file writes.
ghost use Rattle.std.specs.Prelude.{◌≡◌, ◌++◌, ◌∷◌, [], suc, IsTrue, ◌↔◌, IfOk, OnOk, MatchOption, List, map, flat_map};
ghost use Rattle.std.specs.List.{AllZip};
ghost use Rattle.scheme_terms.specs.View.{names};
ghost use Rattle.scheme_terms.specs.declared.scheme.Root.TheVariants.{Closed};
ghost use Rattle.proof_lexer.specs.View.{kind_and_text};
ghost use Rattle.rule_schemes.specs.Rules.{JudgmentScheme, Rule};
ghost use Rattle.rule_schemes.specs.Said.{want_judgment};
ghost use Rattle.rule_schemes.specs.declared.fault.RuleFault.{RuleFault};
ghost use Rattle.rule_schemes.specs.View.{theory, rule as plain_rule, judgment_scheme};
ghost use Rattle.notation_parser.specs.Plain.{IsPlain};
ghost use Rattle.notation_parser.specs.View.{reading_scope};
ghost use Rattle.judgments.specs.Bare.{IsBareTheory};
ghost use Rattle.judgments.specs.Built.{IsGoodRule};
ghost use Rattle.judgments.specs.Collected.{AreCollected};
ghost use Rattle.judgments.specs.Standing.{AreReadOf, AreUnreadOf};
ghost use Rattle.judgments.specs.Theory.{IsBlockRule};
ghost use Rattle.judgments.specs.Written.{settled, ReadsOnlyAs};

use crate::names::{take_all_names, take_names};
use crate::readings::{metas_of, read_form, read_forms, scope_of};
use crate::standing::{read_of, unread_of, with_more};
use binding_terms::{NoMemory, Sig, Text};
use outline_reader::{Form, Name};
use rule_schemes::{JScheme, ReadScope, RuleFault, RuleScheme, System};
use scheme_terms::MetaDecl;
use sqlite_items::Items;
use std::alloc::Global;

/// The metavariables of the forms of a rule.
fn names_of(
    alloc: Global,
    sig: &Sig,
    premises: &[Form<'_>],
    conclusion: Form<'_>,
) -> Result<Items<MetaDecl>, NoMemory>
    ensures { IfOk result (λ metas. AreCollected sig.now.cats
        (flat_map (λ form. map kind_and_text form.now) premises.now ++ map kind_and_text conclusion.now) metas) }
{
    let mut metas = Items::new(alloc);
    take_all_names(alloc, sig, &mut metas, premises)?;
    take_names(alloc, sig, &mut metas, conclusion)?;
    Ok(metas)
}

/// The forms of a rule as they read.
#[derive(Drop)]
struct Forms {
    premises: Items<JScheme>,
    conclusion: JScheme,
}

/// The forms of a rule, where each has one reading.
fn forms_of(
    alloc: Global,
    sys: &System,
    scope: &ReadScope,
    premises: &[Form<'_>],
    conclusion: Form<'_>,
) -> Result<Option<Forms>, NoMemory>
    requires { IsPlain sys.now.sig sys.now.judgments (reading_scope scope.now) want_judgment }
    ensures { IfOk result (λ found. MatchOption found
        ((js : List JudgmentScheme) (j : JudgmentScheme)
        → AllZip (ReadsOnlyAs sys.now.sig sys.now.judgments (names scope.now.scope)) (map (λ form. map kind_and_text form.now) premises.now) js
        → ReadsOnlyAs sys.now.sig sys.now.judgments (names scope.now.scope) (map kind_and_text conclusion.now) j → ⊥)
        (λ forms. AllZip (ReadsOnlyAs sys.now.sig sys.now.judgments (names scope.now.scope)) (map (λ form. map kind_and_text form.now) premises.now) (map judgment_scheme forms.premises)
        × ReadsOnlyAs sys.now.sig sys.now.judgments (names scope.now.scope) (map kind_and_text conclusion.now) (judgment_scheme forms.conclusion))) }
{
    match read_forms(alloc, sys.sig(), sys.judgments(), scope, premises)? {
        Some(premises) => match read_form(alloc, sys.sig(), sys.judgments(), scope, conclusion)? {
            Some(conclusion) => Ok(Some(Forms {
                premises,
                conclusion,
            })),
            None => Ok(None),
        },
        None => Ok(None),
    }
}

/// The rule of this name with these metavariables and forms.
fn made(
    alloc: Global,
    name: Name<'_>,
    metas: Items<MetaDecl>,
    forms: Forms,
) -> Result<RuleScheme, NoMemory>
    ensures { IfOk result (λ r. r ≡ record {
      name = name.now.text.now;
      metas = metas;
      premises = forms.premises;
      conclusion = forms.conclusion;
    }) }
{
    let name = Text::of(alloc, name.text.as_bytes())?;
    let Forms {
        premises,
        conclusion,
    } = forms;
    Ok(RuleScheme {
        name,
        metas,
        premises,
        conclusion,
    })
}

/// The metavariables of a rule that stand in its readings, and those that stand in none.
#[derive(Drop)]
struct Sorted {
    used: Items<MetaDecl>,
    unread: Items<MetaDecl>,
}

/// The judgments of a rule, the premises first.
fn listed(forms: Forms) -> Result<Items<JScheme>, NoMemory>
    ensures { IfOk result (λ all. all ≡ forms.premises ++ forms.conclusion ∷ []) }
{
    let Forms {
        mut premises,
        conclusion,
    } = forms;
    premises.push(conclusion)?;
    Ok(premises)
}

/// The metavariables over which the forms were read, sorted by whether they stand in them.
fn sort_names(alloc: Global, metas: &[MetaDecl], forms: Forms) -> Result<Sorted, NoMemory>
    ensures used { IfOk result (λ s. AreReadOf metas.now (map judgment_scheme forms.premises ++ judgment_scheme forms.conclusion ∷ []) metas.now s.used) }
    ensures unread { IfOk result (λ s. AreUnreadOf metas.now (map judgment_scheme forms.premises ++ judgment_scheme forms.conclusion ∷ []) metas.now s.unread) }
{
    let forms = listed(forms)?;
    Ok(Sorted {
        used: read_of(alloc, metas, forms.as_slice(), metas)?,
        unread: unread_of(alloc, metas, forms.as_slice(), metas)?,
    })
}

/// The rule of the metavariables that are used, whose forms are read again: those that are not used have the last numbers.
fn rule_over(
    alloc: Global,
    sys: &System,
    premises: &[Form<'_>],
    name: Name<'_>,
    conclusion: Form<'_>,
    sorted: Sorted,
) -> Result<Option<RuleScheme>, NoMemory>
    requires { IsPlain sys.now.sig sys.now.judgments (settled (record { root = Closed; metas = sorted.used ++ sorted.unread; knowns = [] })) want_judgment }
    ensures { IfOk result (λ found. MatchOption found
        ((js : List JudgmentScheme) (j : JudgmentScheme)
        → AllZip (ReadsOnlyAs sys.now.sig sys.now.judgments (record { root = Closed; metas = sorted.used ++ sorted.unread; knowns = [] })) (map (λ form. map kind_and_text form.now) premises.now) js
        → ReadsOnlyAs sys.now.sig sys.now.judgments (record { root = Closed; metas = sorted.used ++ sorted.unread; knowns = [] }) (map kind_and_text conclusion.now) j → ⊥)
        (λ r. (r.name ≡ name.now.text.now) × (r.metas ≡ sorted.used)
        × AllZip (ReadsOnlyAs sys.now.sig sys.now.judgments (record { root = Closed; metas = sorted.used ++ sorted.unread; knowns = [] })) (map (λ form. map kind_and_text form.now) premises.now) (map judgment_scheme r.premises)
        × ReadsOnlyAs sys.now.sig sys.now.judgments (record { root = Closed; metas = sorted.used ++ sorted.unread; knowns = [] }) (map kind_and_text conclusion.now) (judgment_scheme r.conclusion))) }
{
    let Sorted { used, unread } = sorted;
    let scope = scope_of(alloc, with_more(alloc, used.as_slice(), unread)?);
    match forms_of(alloc, sys, &scope, premises, conclusion)? {
        Some(forms) => Ok(Some(made(alloc, name, used, forms)?)),
        None => Ok(None),
    }
}

/// Whether the conclusion is of the last of so many judgments.
fn is_of_block(block: usize, forms: &Forms) -> bool
    ensures { IsTrue result ↔ (suc forms.now.conclusion.judgment.0 ≡ block) }
{
    forms.conclusion.judgment.0 as usize + 1 == block
}

/// The rule for which a written one stands, where so many judgments are declared before it.
pub fn rule_of(
    alloc: Global,
    sys: &System,
    block: usize,
    premises: &[Form<'_>],
    name: Name<'_>,
    conclusion: Form<'_>,
) -> Result<Option<RuleScheme>, NoMemory>
    requires { IsBareTheory (theory sys.now) }
    ensures { IfOk result (λ found. MatchOption found
        ((r : Rule) → IsBlockRule sys.now.sig sys.now.judgments (record {
          block = block;
          name = name.now.text.now;
          premises = map (λ form. map kind_and_text form.now) premises.now;
          conclusion = map kind_and_text conclusion.now;
        }) r → ⊥)
        (λ r. IsBlockRule sys.now.sig sys.now.judgments (record {
          block = block;
          name = name.now.text.now;
          premises = map (λ form. map kind_and_text form.now) premises.now;
          conclusion = map kind_and_text conclusion.now;
        }) (plain_rule r))) }
{
    let metas = names_of(alloc, sys.sig(), premises, conclusion)?;
    let scope = scope_of(alloc, metas);
    match forms_of(alloc, sys, &scope, premises, conclusion)? {
        Some(forms) => {
            if !is_of_block(block, &forms) {
                return Ok(None);
            }
            let metas = metas_of(scope);
            let sorted = sort_names(alloc, metas.as_slice(), forms)?;
            rule_over(alloc, sys, premises, name, conclusion, sorted)
        }
        None => Ok(None),
    }
}

fn want_of_memory(_fault: RuleFault) -> NoMemory
    requires { _fault ≡ RuleFault.NoMemory }
{
    NoMemory
}

/// Puts a rule at the end against which nothing speaks.
pub fn add(sys: &mut System, rule: RuleScheme) -> Result<(), NoMemory>
    requires { IsGoodRule (theory sys.old) (plain_rule rule) }
    ensures { OnOk result (sys.new ≡ record sys.old { rules = sys.old.rules ++ rule ∷ [] }) }
{
    if rule.metas.len() > u32::MAX as usize || sys.rules().len() > u32::MAX as usize {
        return Err(NoMemory);
    }
    match sys.add_rule(rule) {
        Ok(_) => Ok(()),
        Err(fault) => Err(want_of_memory(fault)),
    }
}
