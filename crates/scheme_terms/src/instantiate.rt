ghost use Rattle.std.specs.Prelude.{◌≡◌, IfOk, map, reverse, slice_get, unwrap_or, option_map};
ghost use Rattle.binding_terms.specs.Tree.{Tree, var, shifted};
ghost use Rattle.binding_terms.specs.Substitution.{filled, filled_args, under};
ghost use Rattle.binding_terms.specs.View.{tree, args_tree};
ghost use Rattle.scheme_terms.specs.Instance.{argument_or_root, value_of, place_of, root_variable, instance_of, instances_of, parts_instance};
ghost use Rattle.scheme_terms.specs.SchemeTree.{values};
ghost use Rattle.scheme_terms.specs.View.{scheme, scheme_parts, instance as view};

use crate::scheme::{Inst, MetaId, SArg, Scheme};
use binding_terms::{Arg, ArgList, NoMemory, Term, copy, shift};
use sqlite_items::at;
use std::alloc::Global;

/// Raises each free variable; where there is nothing to raise, the term is shared.
#[tactic(auto, using(binding_terms::proofs::Filling::shifted_none))]
fn raise(alloc: Global, term: &Term, by: usize) -> Result<Term, NoMemory>
    ensures { IfOk result (λ new. tree new ≡ shifted 0 by (tree term.now)) }
{
    if by == 0 {
        return copy(alloc, term);
    }
    shift(alloc, term, 0, by)
}

/// What stands for a variable of a metavariable's value below `depth` binders: its argument, or the root's variable.
fn argument(
    alloc: Global,
    index: usize,
    depth: usize,
    args: &[Term],
    locals: usize,
) -> Result<Term, NoMemory>
    ensures { IfOk result (λ t. tree t ≡ under depth (argument_or_root locals (map tree args.now)) index) }
{
    if index < depth {
        return Ok(Term::Var(index));
    }
    let number = index - depth;
    if number < args.len() {
        return raise(alloc, &args[args.len() - 1 - number], depth);
    }
    let root = (number - args.len()).checked_add(locals).ok_or(NoMemory)?;
    Ok(Term::Var(root.checked_add(depth).ok_or(NoMemory)?))
}

/// The value with its arguments put in, below `depth` binders.
#[cycle(fill)]
fn fill(
    alloc: Global,
    value: &Term,
    depth: usize,
    args: &[Term],
    locals: usize,
) -> Result<Term, NoMemory>
    ensures { IfOk result (λ t. tree t ≡ filled (under depth (argument_or_root locals (map tree args.now))) (tree value.now)) }
{
    match value {
        Term::Var(i) => argument(alloc, *i, depth, args, locals),
        Term::Con(p, parts) => Ok(Term::Con(
            *p,
            fill_all(alloc, parts.items(), depth, args, locals)?,
        )),
    }
}

#[cycle(fill)]
#[tactic(auto, using(crate::proofs::Lists::done_filled, crate::proofs::Lists::smaller))]
fn fill_all(
    alloc: Global,
    parts: &[Arg],
    depth: usize,
    args: &[Term],
    locals: usize,
) -> Result<ArgList, NoMemory>
    ensures { IfOk result (λ all. all ≡ filled_args (under depth (argument_or_root locals (map tree args.now))) (args_tree parts.now)) }
{
    let mut all = Vec::new(alloc);
    for part in parts {
        let inner = depth.checked_add(part.binds).ok_or(NoMemory)?;
        let body = fill(alloc, &part.body, inner, args, locals)?;
        all.push(Arg {
            binds: part.binds,
            body,
        })?;
    }
    ArgList::make(alloc, all)
}

/// The value of a metavariable, where it has one.
#[tactic(auto, using(crate::proofs::Lists::value_seen))]
fn stored(inst: &Inst, m: MetaId) -> Option<&Term>
    ensures { unwrap_or (option_map (λ t. tree t.now) result) (var 0) ≡ value_of (view inst.now) m.0 }
{
    match at(inst.metas.as_slice(), m.0 as usize) {
        Some(slot) => match slot {
            Some(value) => Some(value),
            None => None,
        },
        None => None,
    }
}

/// A value with its arguments put in. Without arguments it is shared, where no local has to be skipped.
pub(crate) fn put_in(
    alloc: Global,
    value: &Term,
    args: &[Term],
    locals: usize,
) -> Result<Term, NoMemory>
    ensures { IfOk result (λ t. tree t ≡ filled (argument_or_root locals (map tree args.now)) (tree value.now)) }
{
    if args.len() == 0 {
        return raise(alloc, value, locals);
    }
    fill(alloc, value, 0, args, locals)
}

/// The value of a metavariable, with its arguments put in.
fn value_with(
    alloc: Global,
    inst: &Inst,
    m: MetaId,
    args: &[Term],
    locals: usize,
) -> Result<Term, NoMemory>
    ensures { IfOk result (λ t. tree t ≡ filled (argument_or_root locals (map tree args.now)) (value_of (view inst.now) m.0)) }
{
    match stored(inst, m) {
        Some(value) => put_in(alloc, value, args, locals),
        None => put_in(alloc, &Term::Var(0), args, locals),
    }
}

/// The root's variable for a known variable.
fn known_variable(inst: &Inst, number: u32, locals: usize) -> Result<Term, NoMemory>
    ensures { IfOk result (λ t. tree t ≡ root_variable (view inst.now) locals (place_of (view inst.now) number)) }
{
    let place = match at(inst.knowns.as_slice(), number as usize) {
        Some(Some(place)) => *place,
        _ => 0,
    };
    let outside = inst
        .root
        .entries
        .len()
        .saturating_sub(place)
        .saturating_sub(1);
    Ok(Term::Var(outside.checked_add(locals).ok_or(NoMemory)?))
}

/// The instance of a scheme that stands under so many locals: its metavariables replaced by their values, which take the
/// instances of their arguments, and its known variables by the root's variables at their places. A name without a value
/// counts as the variable 0, or as the root's first entry. `NoMemory` also where an index would pass `usize::MAX`.
#[cycle(instance)]
pub fn instance(alloc: Global, s: &Scheme, locals: usize, inst: &Inst) -> Result<Term, NoMemory>
    ensures { IfOk result (λ t. tree t ≡ instance_of (view inst.now) locals (scheme s.now)) }
{
    match s {
        Scheme::Meta(m, args) => {
            let given = instances(alloc, args.as_slice(), locals, inst)?;
            value_with(alloc, inst, *m, given.as_slice(), locals)
        }
        Scheme::Known(k) => known_variable(inst, *k, locals),
        Scheme::Local(i) => Ok(Term::Var(*i)),
        Scheme::Con(p, parts) => Ok(Term::Con(
            *p,
            part_instances(alloc, parts.as_slice(), locals, inst)?,
        )),
    }
}

#[cycle(instance)]
#[tactic(auto, using(crate::proofs::Lists::done_instances))]
fn instances(
    alloc: Global,
    args: &[Scheme],
    locals: usize,
    inst: &Inst,
) -> Result<Vec<Term>, NoMemory>
    ensures { IfOk result (λ all. map tree all.items ≡ instances_of (view inst.now) locals (values (map scheme args.now))) }
{
    let mut all = Vec::new(alloc);
    for arg in args {
        all.push(instance(alloc, arg, locals, inst)?)?;
    }
    Ok(all)
}

#[cycle(instance)]
#[tactic(auto, using(crate::proofs::Lists::done_parts))]
fn part_instances(
    alloc: Global,
    parts: &[SArg],
    locals: usize,
    inst: &Inst,
) -> Result<ArgList, NoMemory>
    ensures { IfOk result (λ all. all ≡ parts_instance (view inst.now) locals (scheme_parts parts.now)) }
{
    let mut all = Vec::new(alloc);
    for part in parts {
        let inner = locals.checked_add(part.binds).ok_or(NoMemory)?;
        let body = instance(alloc, &part.body, inner, inst)?;
        all.push(Arg {
            binds: part.binds,
            body,
        })?;
    }
    ArgList::make(alloc, all)
}
