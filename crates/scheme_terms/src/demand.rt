ghost use Rattle.std.specs.Prelude.{◌≡◌, ◌∷◌, [], IfOk, map, option_map};
ghost use Rattle.binding_terms.specs.Tree.{var};
ghost use Rattle.binding_terms.specs.View.{tree, arg_tree, args_tree};
ghost use Rattle.scheme_terms.specs.SchemeTree.{local, value, no_values, values};
ghost use Rattle.scheme_terms.specs.Embedding.{embedded, embedded_args};
ghost use Rattle.scheme_terms.specs.Demands.{numbers, parameter_of, parameters_of, lowered, Demands, PartDemands, PartsDemand, IsDemanded};
ghost use Rattle.scheme_terms.specs.View.{scheme, scheme_part, scheme_parts};

use crate::scheme::{MetaId, SArg, Scheme};
use crate::strict::are_distinct_locals;
use crate::{instantiate, substitute};
use binding_terms::{Arg, NoMemory, Term};
use std::alloc::Global;

/// The number of a local that is an argument.
fn number_of(arg: &Scheme) -> usize
    ensures { numbers (value (scheme arg.now) no_values) ≡ result ∷ [] }
{
    match arg {
        Scheme::Local(i) => *i,
        _ => 0,
    }
}

/// The parameter whose argument is the local, as a variable of a value.
fn parameter_of(args: &[Scheme], index: usize) -> usize
    ensures { result ≡ parameter_of (numbers (values (map scheme args.now))) index }
{
    for at in 0..args.len() {
        if number_of(&args[at]) == index {
            return args.len() - 1 - at;
        }
    }
    0
}

/// The parameters whose arguments so many locals are, the outermost local first.
fn parameter_terms(alloc: Global, args: &[Scheme], locals: usize) -> Result<Vec<Term>, NoMemory>
    ensures { IfOk result (λ all. map tree all.items ≡ map var (parameters_of (numbers (values (map scheme args.now))) locals)) }
{
    let mut all = Vec::new(alloc);
    let mut left = locals;
    while left > 0 {
        left -= 1;
        all.push(Term::Var(parameter_of(args, left)))?;
    }
    Ok(all)
}

fn local_at(index: usize) -> Scheme
    ensures { scheme result ≡ local index }
{
    Scheme::Local(index)
}

/// The same as schemes.
fn parameter_schemes(alloc: Global, args: &[Scheme], locals: usize) -> Result<Vec<Scheme>, NoMemory>
    ensures { IfOk result (λ all. map scheme all.items ≡ map local (parameters_of (numbers (values (map scheme args.now))) locals)) }
{
    let mut all = Vec::new(alloc);
    let mut left = locals;
    while left > 0 {
        left -= 1;
        all.push(local_at(parameter_of(args, left)))?;
    }
    Ok(all)
}

/// The value that a metavariable has to have in order to become the term where it is applied to these different ones of so many
/// locals: they are renamed back to its parameters. A local that is no argument counts as the variable 0.
pub fn lower_term(
    alloc: Global,
    args: &[Scheme],
    locals: usize,
    target: &Term,
) -> Result<Term, NoMemory>
    ensures { IfOk result (λ v. embedded (tree v) ≡ lowered (numbers (values (map scheme args.now))) locals (embedded (tree target.now))) }
{
    let parameters = parameter_terms(alloc, args, locals)?;
    let value = instantiate::put_in(alloc, target, parameters.as_slice(), args.len())?;
    Ok(value)
}

/// The same in order to become a scheme.
pub fn lower_scheme(
    alloc: Global,
    args: &[Scheme],
    locals: usize,
    target: &Scheme,
) -> Result<Scheme, NoMemory>
    ensures { IfOk result (λ v. scheme v ≡ lowered (numbers (values (map scheme args.now))) locals (scheme target.now)) }
{
    let parameters = parameter_schemes(alloc, args, locals)?;
    let value = substitute::put_in(alloc, target, parameters.as_slice(), args.len())?;
    Ok(value)
}

/// What the first strict occurrence of the metavariable in the pattern that has its place in the target asks it to be, where there
/// is one. The pattern stands under so many locals.
#[cycle(demanded_term)]
pub fn demanded_term(
    alloc: Global,
    m: MetaId,
    locals: usize,
    pattern: &Scheme,
    target: &Term,
) -> Result<Option<Term>, NoMemory>
    ensures { IfOk result (λ o. IsDemanded (Demands m.0 locals (scheme pattern.now) (embedded (tree target.now))) (option_map (λ v. embedded (tree v)) o)) }
{
    match (pattern, target) {
        (Scheme::Meta(n, args), _) => {
            if n.0 == m.0 && are_distinct_locals(args.as_slice()) {
                return Ok(Some(lower_term(alloc, args.as_slice(), locals, target)?));
            }
            Ok(None)
        }
        (Scheme::Con(p, xs), Term::Con(q, ys)) => {
            if p.0 != q.0 {
                return Ok(None);
            }
            demanded_in_terms(alloc, m, locals, xs.as_slice(), ys.items())
        }
        _ => Ok(None),
    }
}

#[cycle(demanded_term)]
fn demanded_at_term(
    alloc: Global,
    m: MetaId,
    locals: usize,
    pattern: &SArg,
    target: &Arg,
) -> Result<Option<Term>, NoMemory>
    ensures { IfOk result (λ o. IsDemanded (PartDemands m.0 locals (scheme_part pattern.now) ((arg_tree target.now).0, embedded (arg_tree target.now).1)) (option_map (λ v. embedded (tree v)) o)) }
{
    if pattern.binds != target.binds {
        return Ok(None);
    }
    let inner = locals.checked_add(pattern.binds).ok_or(NoMemory)?;
    demanded_term(alloc, m, inner, &pattern.body, &target.body)
}

#[cycle(demanded_term)]
fn demanded_in_terms(
    alloc: Global,
    m: MetaId,
    locals: usize,
    patterns: &[SArg],
    targets: &[Arg],
) -> Result<Option<Term>, NoMemory>
    ensures { IfOk result (λ o. IsDemanded (PartsDemand m.0 locals (scheme_parts patterns.now) (embedded_args (args_tree targets.now))) (option_map (λ v. embedded (tree v)) o)) }
{
    let count = patterns.len().min(targets.len());
    for i in 0..count {
        let asked = demanded_at_term(alloc, m, locals, &patterns[i], &targets[i])?;
        if let Some(value) = asked {
            return Ok(Some(value));
        }
    }
    Ok(None)
}

/// The same where the target is a scheme.
#[cycle(demanded_scheme)]
pub fn demanded_scheme(
    alloc: Global,
    m: MetaId,
    locals: usize,
    pattern: &Scheme,
    target: &Scheme,
) -> Result<Option<Scheme>, NoMemory>
    ensures { IfOk result (λ o. IsDemanded (Demands m.0 locals (scheme pattern.now) (scheme target.now)) (option_map scheme o)) }
{
    match (pattern, target) {
        (Scheme::Meta(n, args), _) => {
            if n.0 == m.0 && are_distinct_locals(args.as_slice()) {
                return Ok(Some(lower_scheme(alloc, args.as_slice(), locals, target)?));
            }
            Ok(None)
        }
        (Scheme::Con(p, xs), Scheme::Con(q, ys)) => {
            if p.0 != q.0 {
                return Ok(None);
            }
            demanded_in_schemes(alloc, m, locals, xs.as_slice(), ys.as_slice())
        }
        _ => Ok(None),
    }
}

#[cycle(demanded_scheme)]
fn demanded_at_scheme(
    alloc: Global,
    m: MetaId,
    locals: usize,
    pattern: &SArg,
    target: &SArg,
) -> Result<Option<Scheme>, NoMemory>
    ensures { IfOk result (λ o. IsDemanded (PartDemands m.0 locals (scheme_part pattern.now) (scheme_part target.now)) (option_map scheme o)) }
{
    if pattern.binds != target.binds {
        return Ok(None);
    }
    let inner = locals.checked_add(pattern.binds).ok_or(NoMemory)?;
    demanded_scheme(alloc, m, inner, &pattern.body, &target.body)
}

#[cycle(demanded_scheme)]
fn demanded_in_schemes(
    alloc: Global,
    m: MetaId,
    locals: usize,
    patterns: &[SArg],
    targets: &[SArg],
) -> Result<Option<Scheme>, NoMemory>
    ensures { IfOk result (λ o. IsDemanded (PartsDemand m.0 locals (scheme_parts patterns.now) (scheme_parts targets.now)) (option_map scheme o)) }
{
    let count = patterns.len().min(targets.len());
    for i in 0..count {
        let asked = demanded_at_scheme(alloc, m, locals, &patterns[i], &targets[i])?;
        if let Some(value) = asked {
            return Ok(Some(value));
        }
    }
    Ok(None)
}
