// Whether a scheme matches a term where not all metavariables are settled.
ghost use Rattle.std.specs.Prelude.{◌≡◌, ◌↔◌, ◌+◌, IsTrue, IfOk, map};
ghost use Rattle.binding_terms.specs.View.{tree, arg_tree, args_tree};
ghost use Rattle.scheme_terms.specs.Instance.{instance_of};
ghost use Rattle.scheme_terms.specs.View.{scheme, scheme_part, scheme_parts, instance as view};
ghost use Rattle.rule_schemes.specs.View.{statement_input};
ghost use Rattle.derivation_check.specs.Fitting.{Matches, PartsMatch};

use crate::settled::are_settled;
use binding_terms::{Arg, NoMemory, Term, same};
use rule_schemes::Input;
use scheme_terms::{Inst, SArg, Scheme, instance};
use std::alloc::Global;

/// Whether the instance of the scheme is the term.
fn becomes(
    alloc: Global,
    inst: &Inst,
    locals: usize,
    pattern: &Scheme,
    target: &Term,
) -> Result<bool, NoMemory>
    ensures { IfOk result (λ is. IsTrue is ↔ (instance_of (view inst.now) locals (scheme pattern.now) ≡ tree target.now)) }
{
    let made = instance(alloc, pattern, locals, inst)?;
    Ok(same(&made, target))
}

#[cycle(matching)]
pub fn matches(
    alloc: Global,
    inputs: &[Input],
    inst: &Inst,
    locals: usize,
    pattern: &Scheme,
    target: &Term,
) -> Result<bool, NoMemory>
    ensures { IfOk result (λ is. IsTrue is ↔ Matches (map statement_input inputs.now) (view inst.now) locals (scheme pattern.now) (tree target.now)) }
{
    match (pattern, target) {
        (Scheme::Meta(_, _), _) => {
            if !are_settled(inputs, pattern) {
                return Ok(true);
            }
            let is = becomes(alloc, inst, locals, pattern, target)?;
            Ok(is)
        }
        (Scheme::Con(p, xs), Term::Con(q, ys)) => {
            if p.0 != q.0 {
                return Ok(false);
            }
            let are = parts_match(alloc, inputs, inst, locals, xs.as_slice(), ys.items())?;
            Ok(are)
        }
        (Scheme::Con(_, _), Term::Var(_)) => Ok(false),
        (_, _) => {
            let is = becomes(alloc, inst, locals, pattern, target)?;
            Ok(is)
        }
    }
}

#[cycle(matching)]
fn part_matches(
    alloc: Global,
    inputs: &[Input],
    inst: &Inst,
    locals: usize,
    pattern: &SArg,
    target: &Arg,
) -> Result<bool, NoMemory>
    ensures { IfOk result (λ is. IsTrue is ↔ (((scheme_part pattern.now).0 ≡ (arg_tree target.now).0)
        × Matches (map statement_input inputs.now) (view inst.now) (locals + (scheme_part pattern.now).0) (scheme_part pattern.now).1 (arg_tree target.now).1)) }
{
    if pattern.binds != target.binds {
        return Ok(false);
    }
    let inner = locals.checked_add(pattern.binds).ok_or(NoMemory)?;
    let is = matches(alloc, inputs, inst, inner, &pattern.body, &target.body)?;
    Ok(is)
}

#[cycle(matching)]
fn parts_match(
    alloc: Global,
    inputs: &[Input],
    inst: &Inst,
    locals: usize,
    patterns: &[SArg],
    targets: &[Arg],
) -> Result<bool, NoMemory>
    ensures { IfOk result (λ are. IsTrue are ↔ PartsMatch (map statement_input inputs.now) (view inst.now) locals (scheme_parts patterns.now) (args_tree targets.now)) }
{
    if patterns.len() != targets.len() {
        return Ok(false);
    }
    for i in 0..patterns.len() {
        if !part_matches(alloc, inputs, inst, locals, &patterns[i], &targets[i])? {
            return Ok(false);
        }
    }
    Ok(true)
}
