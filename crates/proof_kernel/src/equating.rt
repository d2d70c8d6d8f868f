// The equations by which forms become others.
ghost use Rattle.std.specs.Prelude.{◌≡◌, ◌↔◌, ◌≤◌, ◌++◌, IfOk, IsTrue, drop, length, map, reverse, take};
ghost use Rattle.std.specs.List.{AllZip};
ghost use Rattle.binding_terms.specs.Signature.{binders};
ghost use Rattle.scheme_terms.specs.Context.{variables};
ghost use Rattle.scheme_terms.specs.SchemeScope.{entry_variables};
ghost use Rattle.scheme_terms.specs.View.{scheme, scheme_context, scheme_entry};
ghost use Rattle.pattern_unify.specs.Equations.{equation};
ghost use Rattle.rule_schemes.specs.View.{judgment_scheme};
ghost use Rattle.rule_schemes.specs.Placed.{entries_in, root_in};
ghost use Rattle.proof_kernel.specs.Equating.{equated, entry_equations, form_equations, all_equations, AreLike, IsLike, IsLikeIn};

use crate::same::{same_entries, same_root};
use binding_terms::{CatId, Item, NoMemory, ProdId, Sig};
use pattern_unify::Equation;
use rule_schemes::JScheme;
use scheme_terms::{Root, SCtx, SEntry, Scheme, copy_scheme};
use sqlite_items::Items;
use std::alloc::Global;

/// The equation of a scheme and the scheme that it is to become, under locals of these categories, the last innermost.
fn equate(
    alloc: Global,
    locals: &[CatId],
    left: &Scheme,
    right: &Scheme,
) -> Result<Equation, NoMemory>
    ensures { IfOk result (λ e. equation e ≡ record { locals = reverse (map (λ c. c.0) locals.now); left = scheme left.now; right = scheme right.now }) }
{
    Ok(Equation {
        scope: Items::from_slice(alloc, locals)?,
        left: copy_scheme(alloc, left)?,
        right: copy_scheme(alloc, right)?,
    })
}

/// Puts the equations of schemes at the end, one by one.
pub(crate) fn equate_schemes(
    alloc: Global,
    locals: &[CatId],
    patterns: &[Scheme],
    targets: &[Scheme],
    equations: &mut Vec<Equation>,
) -> Result<(), NoMemory>
    requires { length patterns.now ≡ length targets.now }
    ensures { IfOk result (λ _. map equation equations.new.items
        ≡ map equation equations.old.items ++ equated (reverse (map (λ c. c.0) locals.now)) (map scheme patterns.now) (map scheme targets.now)) }
{
    for i in 0..patterns.len() {
        let made = equate(alloc, locals, &patterns[i], &targets[i])?;
        equations.push(made)?;
    }
    Ok(())
}

/// Puts the categories of binders at the end.
fn add_binders(items: &[Item], locals: &mut Vec<CatId>) -> Result<(), NoMemory>
    ensures { IfOk result (λ _. map (λ c. c.0) locals.new.items ≡ map (λ c. c.0) locals.old.items ++ binders items.now) }
{
    for item in items {
        if let Item::Binder(cat) = item {
            locals.push(*cat)?;
        }
    }
    Ok(())
}

/// Puts the categories of the variables of an entry of the production at the end.
pub(crate) fn add_variables(
    sig: &Sig,
    prod: ProdId,
    locals: &mut Vec<CatId>,
) -> Result<(), NoMemory>
    ensures { IfOk result (λ _. reverse (map (λ c. c.0) locals.new.items) ≡ variables sig.now prod.0 ++ reverse (map (λ c. c.0) locals.old.items)) }
{
    match sig.prod(prod) {
        Some(prod) => add_binders(prod.items.as_slice(), locals),
        None => Ok(()),
    }
}

fn are_like(a: &SEntry, b: &SEntry) -> bool
    ensures { IsTrue result ↔ AreLike (scheme_entry a.now) (scheme_entry b.now) }
{
    a.prod.0 == b.prod.0 && a.args.as_slice().len() == b.args.as_slice().len()
}

/// Puts the equations of entries at the end, each under the variables of those before it, and the categories of these variables after the
/// locals. False where the entries are not of one shape.
fn add_entries(
    alloc: Global,
    sig: &Sig,
    patterns: &[SEntry],
    targets: &[SEntry],
    locals: &mut Vec<CatId>,
    equations: &mut Vec<Equation>,
) -> Result<bool, NoMemory>
    ensures like { IfOk result (λ like. IsTrue like ↔ AllZip AreLike (map scheme_entry patterns.now) (map scheme_entry targets.now)) }
    ensures put { IfOk result (λ like. IsTrue like → map equation equations.new.items ≡ map equation equations.old.items
        ++ entry_equations sig.now (reverse (map (λ c. c.0) locals.old.items)) (map scheme_entry patterns.now) (map scheme_entry targets.now)) }
    ensures locals { IfOk result (λ like. IsTrue like → reverse (map (λ c. c.0) locals.new.items)
        ≡ entry_variables sig.now (reverse (map (λ c. c.0) locals.old.items)) (map scheme_entry patterns.now)) }
{
    if patterns.len() != targets.len() {
        return Ok(false);
    }
    for i in 0..patterns.len() {
        let (pattern, target) = (&patterns[i], &targets[i]);
        if !are_like(pattern, target) {
            return Ok(false);
        }
        equate_schemes(
            alloc,
            locals.as_slice(),
            pattern.args.as_slice(),
            target.args.as_slice(),
            equations,
        )?;
        add_variables(sig, pattern.prod, locals)?;
    }
    Ok(true)
}

/// Whether entries begin with the ones in front.
fn begin_with(front: &[SEntry], entries: &[SEntry]) -> bool
    ensures { IsTrue result ↔ (take (length front.now) (map scheme_entry entries.now) ≡ map scheme_entry front.now) }
{
    front.len() <= entries.len() && same_entries(&entries[..front.len()], front)
}

/// Whether the form, behind these entries and with this root, is of the other one's judgment and root, behind the same entries, and has as
/// many arguments.
fn begins_like(front: &[SEntry], root: Root, pattern: &JScheme, target: &JScheme) -> bool
    ensures { IsTrue result ↔ ((pattern.now.judgment.0 ≡ target.now.judgment.0) × (root ≡ target.now.ctx.root)
        × (length pattern.now.args ≡ length target.now.args)
        × (take (length front.now) (map scheme_entry target.now.ctx.entries) ≡ map scheme_entry front.now)) }
{
    pattern.judgment.0 == target.judgment.0
        && same_root(root, target.ctx.root)
        && pattern.args.as_slice().len() == target.args.as_slice().len()
        && begin_with(front, target.ctx.entries.as_slice())
}

/// The entries after so many.
fn entries_after(entries: &[SEntry], count: usize) -> &[SEntry]
    requires { count ≤ length entries.now }
    ensures { map scheme_entry result.now ≡ drop count (map scheme_entry entries.now) }
{
    &entries[count..]
}

/// Puts the equations of a form that stands under the locals around it, behind these entries and with this root, at the end. False where
/// the forms are not of one shape.
fn add_form_behind(
    alloc: Global,
    sig: &Sig,
    around: &[CatId],
    front: &[SEntry],
    root: Root,
    pattern: &JScheme,
    target: &JScheme,
    equations: &mut Vec<Equation>,
) -> Result<bool, NoMemory>
    ensures like { IfOk result (λ like. IsTrue like ↔ IsLike (map scheme_entry front.now) root (judgment_scheme pattern.now) (judgment_scheme target.now)) }
    ensures put { IfOk result (λ like. IsTrue like → map equation equations.new.items ≡ map equation equations.old.items
        ++ form_equations sig.now (reverse (map (λ c. c.0) around.now)) (length front.now) (judgment_scheme pattern.now) (judgment_scheme target.now)) }
{
    if !begins_like(front, root, pattern, target) {
        return Ok(false);
    }
    let mut locals = Vec::new(alloc);
    locals.extend_from_slice(around)?;
    let own = pattern.ctx.entries.as_slice();
    let rest = entries_after(target.ctx.entries.as_slice(), front.len());
    if !add_entries(alloc, sig, own, rest, &mut locals, equations)? {
        return Ok(false);
    }
    equate_schemes(
        alloc,
        locals.as_slice(),
        pattern.args.as_slice(),
        target.args.as_slice(),
        equations,
    )?;
    Ok(true)
}

fn entries_of(ctx: &SCtx, root: Root) -> &[SEntry]
    ensures { map scheme_entry result.now ≡ entries_in (scheme_context ctx.now) root }
{
    match root {
        Root::Whole(_) => ctx.entries.as_slice(),
        _ => &[],
    }
}

fn root_of(ctx: &SCtx, root: Root) -> Root
    ensures { result ≡ root_in (scheme_context ctx.now) root }
{
    match root {
        Root::Whole(_) => ctx.root,
        _ => root,
    }
}

/// Puts the equations of a form in the context at the end. False where it is not of one shape with the other.
fn add_form(
    alloc: Global,
    sig: &Sig,
    around: &[CatId],
    ctx: &SCtx,
    pattern: &JScheme,
    target: &JScheme,
    equations: &mut Vec<Equation>,
) -> Result<bool, NoMemory>
    ensures like { IfOk result (λ like. IsTrue like ↔ IsLikeIn (scheme_context ctx.now) (judgment_scheme pattern.now) (judgment_scheme target.now)) }
    ensures put { IfOk result (λ like. IsTrue like → map equation equations.new.items ≡ map equation equations.old.items
        ++ form_equations sig.now (reverse (map (λ c. c.0) around.now)) (length (entries_in (scheme_context ctx.now) pattern.now.ctx.root))
        (judgment_scheme pattern.now) (judgment_scheme target.now)) }
{
    let root = root_of(ctx, pattern.ctx.root);
    let front = entries_of(ctx, pattern.ctx.root);
    add_form_behind(alloc, sig, around, front, root, pattern, target, equations)
}

/// Puts the equations of forms in the context at the end, one after another. False where the forms are not of one shape, in order.
pub(crate) fn add_forms(
    alloc: Global,
    sig: &Sig,
    around: &[CatId],
    ctx: &SCtx,
    patterns: &[JScheme],
    targets: &[&JScheme],
    equations: &mut Vec<Equation>,
) -> Result<bool, NoMemory>
    ensures like { IfOk result (λ like. IsTrue like
        ↔ AllZip (IsLikeIn (scheme_context ctx.now)) (map judgment_scheme patterns.now) (map (λ t. judgment_scheme t.now) targets.now)) }
    ensures put { IfOk result (λ like. IsTrue like → map equation equations.new.items ≡ map equation equations.old.items
        ++ all_equations sig.now (reverse (map (λ c. c.0) around.now)) (scheme_context ctx.now)
        (map judgment_scheme patterns.now) (map (λ t. judgment_scheme t.now) targets.now)) }
{
    if patterns.len() != targets.len() {
        return Ok(false);
    }
    for i in 0..patterns.len() {
        if !add_form(alloc, sig, around, ctx, &patterns[i], targets[i], equations)? {
            return Ok(false);
        }
    }
    Ok(true)
}
