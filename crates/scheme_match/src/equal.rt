ghost use Rattle.std.specs.Prelude.{◌≡◌, ◌↔◌, IsTrue, IfOk, map};
ghost use Rattle.std.specs.List.{AllByRecursion};
ghost use Rattle.binding_terms.specs.View.{tree};
ghost use Rattle.scheme_terms.specs.Instance.{instance_of, entries_instance, context_instance};
ghost use Rattle.scheme_terms.specs.View.{scheme, scheme_entry, scheme_context, ground_entry, context_value, instance as view};
ghost use Rattle.rule_schemes.specs.Rules.{judgment_instance};
ghost use Rattle.rule_schemes.specs.View.{judgment_scheme, judgment_value};
ghost use Rattle.scheme_match.specs.Pairs.{matched};
ghost use Rattle.scheme_match.specs.Demands.{Becomes};

use crate::context::{category_of, entries_over, same_category, same_entries};
use crate::pair::Pair;
use binding_terms::{NoMemory, Term, same};
use rule_schemes::{JScheme, JudgInst};
use scheme_terms::{CtxValue, Entry, Inst, SCtx, SEntry, Scheme, instance};
use std::alloc::Global;

/// Whether the instance of the pattern, under so many locals, is the term.
fn becomes_term(
    alloc: Global,
    inst: &Inst,
    locals: usize,
    pattern: &Scheme,
    target: &Term,
) -> Result<bool, NoMemory>
    ensures { IfOk result (λ is. IsTrue is ↔ (instance_of (view inst.now) locals (scheme pattern.now) ≡ tree target.now)) }
{
    let made = instance(alloc, pattern, locals, inst)?;
    Ok(same(&made, target))
}

fn become_terms(
    alloc: Global,
    inst: &Inst,
    locals: usize,
    patterns: &[Scheme],
    targets: &[Term],
) -> Result<bool, NoMemory>
    ensures { IfOk result (λ is. IsTrue is ↔ (map (instance_of (view inst.now) locals) (map scheme patterns.now) ≡ map tree targets.now)) }
{
    if patterns.len() != targets.len() {
        return Ok(false);
    }
    for i in 0..patterns.len() {
        if !becomes_term(alloc, inst, locals, &patterns[i], &targets[i])? {
            return Ok(false);
        }
    }
    Ok(true)
}

/// Whether the instance of the entry, with so many explicit ones before it, is this one.
fn becomes_entry(
    alloc: Global,
    inst: &Inst,
    before: usize,
    pattern: &SEntry,
    target: &Entry,
) -> Result<bool, NoMemory>
    ensures { IfOk result (λ is. IsTrue is
        ↔ (record { prod = pattern.now.prod.0; args = map (instance_of (view inst.now) before) (scheme_entry pattern.now).args } ≡ ground_entry target.now)) }
{
    if pattern.prod.0 != target.prod.0 {
        return Ok(false);
    }
    let args = pattern.args.as_slice();
    become_terms(alloc, inst, before, args, target.args.as_slice())
}

fn become_entries(
    alloc: Global,
    inst: &Inst,
    patterns: &[SEntry],
    targets: &[Entry],
) -> Result<bool, NoMemory>
    ensures { IfOk result (λ is. IsTrue is ↔ (entries_instance (view inst.now) 0 (map scheme_entry patterns.now) ≡ map ground_entry targets.now)) }
{
    if patterns.len() != targets.len() {
        return Ok(false);
    }
    for i in 0..patterns.len() {
        if !becomes_entry(alloc, inst, i, &patterns[i], &targets[i])? {
            return Ok(false);
        }
    }
    Ok(true)
}

fn becomes_context(
    alloc: Global,
    inst: &Inst,
    pattern: &SCtx,
    target: &CtxValue,
) -> Result<bool, NoMemory>
    ensures { IfOk result (λ is. IsTrue is ↔ (context_instance (view inst.now) (scheme_context pattern.now) ≡ context_value target.now)) }
{
    if !same_category(category_of(pattern.root), target.cat) {
        return Ok(false);
    }
    let root = entries_over(&inst.root, pattern.root);
    let entries = target.entries.as_slice();
    if entries.len() < root.len() {
        return Ok(false);
    }
    if !same_entries(root, &entries[..root.len()]) {
        return Ok(false);
    }
    let own = pattern.entries.as_slice();
    let goes_on = become_entries(alloc, inst, own, &entries[root.len()..])?;
    Ok(goes_on)
}

fn becomes_judgment(
    alloc: Global,
    inst: &Inst,
    pattern: &JScheme,
    target: &JudgInst,
) -> Result<bool, NoMemory>
    ensures { IfOk result (λ is. IsTrue is ↔ (judgment_instance (view inst.now) (judgment_scheme pattern.now) ≡ judgment_value target.now)) }
{
    if pattern.judgment.0 != target.judgment.0 {
        return Ok(false);
    }
    if !becomes_context(alloc, inst, &pattern.ctx, &target.ctx)? {
        return Ok(false);
    }
    let locals = pattern.ctx.entries.len();
    let args = pattern.args.as_slice();
    become_terms(alloc, inst, locals, args, target.args.as_slice())
}

fn becomes(alloc: Global, inst: &Inst, pair: &Pair<'_>) -> Result<bool, NoMemory>
    ensures { IfOk result (λ is. IsTrue is ↔ Becomes (view inst.now) (matched pair.now)) }
{
    match pair {
        Pair::Judgments(pattern, target) => becomes_judgment(alloc, inst, pattern, target),
        Pair::Terms(locals, pattern, target) => {
            becomes_term(alloc, inst, *locals, pattern, target)
        }
    }
}

/// Whether the instance of each pattern is what it is to become.
pub fn all_become(alloc: Global, inst: &Inst, pairs: &[Pair<'_>]) -> Result<bool, NoMemory>
    ensures { IfOk result (λ are. IsTrue are ↔ AllByRecursion (Becomes (view inst.now)) (map matched pairs.now)) }
{
    for pair in pairs {
        if !becomes(alloc, inst, pair)? {
            return Ok(false);
        }
    }
    Ok(true)
}
