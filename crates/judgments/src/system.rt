// The system for which the portions of a file stand.
ghost use Rattle.std.specs.Prelude.{◌≡◌, ◌↔◌, [], IsTrue, IfOk, MatchOption, MatchBool, List};
ghost use Rattle.std.specs.List.{AllZip, AllByRecursion};
ghost use Rattle.outline_reader.specs.Views.{portion_view};
ghost use Rattle.outline_reader.specs.Plain.{plain_portion, outlined};
ghost use Rattle.rule_schemes.specs.Plain.{IsPlainSignature, IsPlainTheory};
ghost use Rattle.rule_schemes.specs.Rules.{Rule, Theory, JudgmentFits, IsSystem};
ghost use Rattle.rule_schemes.specs.View.{theory};
ghost use Rattle.user_grammar.specs.Bare.{IsBareSignature};
ghost use Rattle.judgments.specs.Bare.{IsBareTheory};
ghost use Rattle.judgments.specs.Built.{HasRulesOf};
ghost use Rattle.rule_schemes.specs.Reading.{AreSpelledApart};
ghost use Rattle.judgments.specs.Texts.{rule_in, rules_in, block_after};
ghost use Rattle.judgments.specs.Theory.{IsBlockRule, IsTheoryOf, AreNamedApart, a_judgment, a_rule};

use crate::judgment::judgments_of;
use crate::naming::{Declares, named_apart};
use crate::rules::{add, rule_of};
use crate::words::spelled_apart;
use binding_terms::{NoMemory, Sig};
use outline_reader::{Outline, Portion};
use rule_schemes::{Judgment, System};
use std::alloc::Global;

/// The number of judgments up to a portion.
fn block_after(block: usize, portion: &Portion<'_>) -> Result<usize, NoMemory>
    ensures { IfOk result (λ n. n ≡ block_after block (plain_portion (portion_view portion.now))) }
{
    match portion {
        Portion::Judgment { .. } => match block.checked_add(1) {
            Some(next) => Ok(next),
            None => Err(NoMemory),
        },
        _ => Ok(block),
    }
}

/// Adds the rule of the portion, if any. `false` where it stands for no rule.
fn add_portion(
    alloc: Global,
    sys: &mut System,
    block: usize,
    portion: &Portion<'_>,
) -> Result<bool, NoMemory>
    requires { IsBareTheory (theory sys.old) }
    ensures { IfOk result (λ found. MatchBool found
        (HasRulesOf (theory sys.old) (rule_in block (plain_portion (portion_view portion.now))) (theory sys.new))
        ((rs : List Rule) → AllZip (IsBlockRule sys.old.sig sys.old.judgments) (rule_in block (plain_portion (portion_view portion.now))) rs → ⊥)) }
{
    match portion {
        Portion::Rule {
            premises,
            name,
            conclusion,
        } => match rule_of(alloc, sys, block, premises.as_slice(), name, conclusion)? {
            Some(rule) => {
                add(sys, rule)?;
                Ok(true)
            }
            None => Ok(false),
        },
        _ => Ok(true),
    }
}

/// Adds the rules of the outline. `false` where some rule of it stands for none.
fn add_rules(alloc: Global, sys: &mut System, outline: &Outline<'_>) -> Result<bool, NoMemory>
    requires { IsBareTheory (theory sys.old) }
    ensures { IfOk result (λ found. MatchBool found
        (HasRulesOf (theory sys.old) (rules_in 0 (outlined outline.now)) (theory sys.new))
        ((rs : List Rule) → AllZip (IsBlockRule sys.old.sig sys.old.judgments) (rules_in 0 (outlined outline.now)) rs → ⊥)) }
{
    let mut block = 0;
    for portion in outline.parts.as_slice() {
        if !add_portion(alloc, sys, block, portion)? {
            return Ok(false);
        }
        block = block_after(block, portion)?;
    }
    Ok(true)
}

/// The system with the rules of the outline, where all of them stand for rules.
fn with_rules(
    alloc: Global,
    mut sys: System,
    outline: &Outline<'_>,
) -> Result<Option<System>, NoMemory>
    requires bare { IsBareTheory (theory sys) }
    requires plain { IsPlainTheory (theory sys) }
    ensures { IfOk result (λ found. MatchOption found
        ((rs : List Rule) → AllZip (IsBlockRule sys.sig sys.judgments) (rules_in 0 (outlined outline.now)) rs → ⊥)
        (λ new. HasRulesOf (theory sys) (rules_in 0 (outlined outline.now)) (theory new) × IsSystem (theory new))) }
{
    if !add_rules(alloc, &mut sys, outline)? {
        return Ok(None);
    }
    sys.always_system();
    Ok(Some(sys))
}

/// The system of the judgments, without rules.
fn without_rules(alloc: Global, sig: Sig, judgments: Vec<Judgment>) -> Result<System, NoMemory>
    requires fit { AllByRecursion (JudgmentFits sig) judgments.items }
    requires plain { IsPlainSignature sig }
    ensures { IfOk result (λ sys. theory sys ≡ record { sig = sig; judgments = judgments.items; rules = [] }) }
{
    if judgments.len() > u32::MAX as usize {
        return Err(NoMemory);
    }
    System::new(alloc, sig, judgments)
}

/// Whether no judgment and no rule is declared twice, and no word is a spelling of two categories.
fn names_differ(outline: &Outline<'_>, sig: &Sig) -> bool
    ensures { IsTrue result ↔ (AreNamedApart a_judgment (outlined outline.now) × AreNamedApart a_rule (outlined outline.now) × AreSpelledApart sig.now) }
{
    let portions = outline.parts.as_slice();
    named_apart(Declares::Judgment, portions)
        && named_apart(Declares::Rule, portions)
        && spelled_apart(sig)
}

/// The system of judgments and rules for which the outline stands over a signature, the one that is built so far. `None` where there
/// is none: a judgment or rule of the outline is faulty, or not built yet.
pub fn system_of(alloc: Global, outline: &Outline<'_>, sig: Sig) -> Result<Option<System>, NoMemory>
    requires { IsBareSignature sig }
    ensures { IfOk result (λ found. MatchOption found
        ((th : Theory) → th.sig ≡ sig → IsTheoryOf (outlined outline.now) th → IsBareTheory th → ⊥)
        (λ sys. ((theory sys).sig ≡ sig) × IsTheoryOf (outlined outline.now) (theory sys) × IsBareTheory (theory sys)
        × ((th : Theory) → th.sig ≡ sig → IsTheoryOf (outlined outline.now) th → IsBareTheory th → th ≡ theory sys))) }
{
    if !names_differ(outline, &sig) {
        return Ok(None);
    }
    match judgments_of(alloc, &sig, outline)? {
        Some(judgments) => with_rules(alloc, without_rules(alloc, sig, judgments)?, outline),
        None => Ok(None),
    }
}
