// Whether a judgment is one of a system: a value of the context that it assumes, and a term for each further slot of its form.
ghost use Rattle.std.specs.Prelude.{◌≡◌, ◌≢◌, ◌↔◌, ◌++◌, IsTrue, IfOk, Some, [], map, reverse, drop, option_map};
ghost use Rattle.binding_terms.specs.View.{tree};
ghost use Rattle.binding_terms.specs.Signature.{slots, binders};
ghost use Rattle.scheme_terms.specs.View.{ground_entry, context_value};
ghost use Rattle.scheme_terms.specs.Context.{AreArguments, AreEntries, IsEntry, IsValue, scope_of, variables};
ghost use Rattle.rule_schemes.specs.Rules.{IsJudgment, argument_slots, root_of};
ghost use Rattle.rule_schemes.specs.View.{theory, judgment_value};
ghost use Rattle.derivation_check.specs.Judged.{AreTerms};

use binding_terms::{CatId, Item, NoMemory, Prod, ProdId, Sig, Term, in_scope};
use rule_schemes::{JudgInst, Judgment, System};
use scheme_terms::{CtxValue, Entry, Root};
use std::alloc::Global;

fn is_same(one: Option<CatId>, other: CatId) -> bool
    ensures { IsTrue result ↔ (option_map (λ c. c.0) one ≡ Some other.0) }
{
    match one {
        Some(cat) => cat.0 == other.0,
        None => false,
    }
}

/// The categories of the slots of a form, without the first that has the context's category.
fn argument_cats(alloc: Global, ctx: Option<CatId>, items: &[Item]) -> Result<Vec<CatId>, NoMemory>
    ensures { IfOk result (λ all. map (λ c. c.0) all.items ≡ map (λ s. s.cat) (argument_slots ctx (slots items.now))) }
{
    let mut all = Vec::new(alloc);
    let mut left = ctx;
    for item in items {
        if let Item::Slot { cat, binds: _ } = item {
            if is_same(left, *cat) {
                left = None;
            } else {
                all.push(*cat)?;
            }
        }
    }
    Ok(all)
}

/// Adds the categories of the binders, which are bound innermost.
fn add_binders(scope: &mut Vec<CatId>, items: &[Item]) -> Result<(), NoMemory>
    ensures { IfOk result (λ _. map (λ c. c.0) scope.new.items ≡ map (λ c. c.0) scope.old.items ++ binders items.now) }
{
    for item in items {
        if let Item::Binder(cat) = item {
            scope.push(*cat)?;
        }
    }
    Ok(())
}

/// Whether these are terms of these categories, place by place. The innermost variable of the scope stands last.
fn are_terms(sig: &Sig, scope: &[CatId], cats: &[CatId], terms: &[Term]) -> bool
    ensures { IsTrue result ↔ AreTerms sig.now (reverse (map (λ c. c.0) scope.now)) (map (λ c. c.0) cats.now) (map tree terms.now) }
{
    if cats.len() != terms.len() {
        return false;
    }
    for i in 0..cats.len() {
        if !in_scope(sig, scope, cats[i], &terms[i]) {
            return false;
        }
    }
    true
}

fn after_first(cats: &[CatId]) -> &[CatId]
    ensures { result.now ≡ drop 1 cats.now }
{
    match cats {
        [] => &[],
        [_, rest @ ..] => rest,
    }
}

/// Whether a form has a binder.
fn binds(items: &[Item]) -> bool
    ensures { IsTrue result ↔ (binders items.now ≢ []) }
{
    for item in items {
        if let Item::Binder(_) = item {
            return true;
        }
    }
    false
}

fn is_entry_of(
    alloc: Global,
    sig: &Sig,
    context: CatId,
    scope: &[CatId],
    prod: &Prod,
    args: &[Term],
) -> Result<bool, NoMemory>
    ensures { IfOk result (λ is. IsTrue is ↔ ((prod.now.cat.0 ≡ context.0) × (binders prod.now.items ≢ [])
        × AreArguments sig.now (reverse (map (λ c. c.0) scope.now)) (drop 1 (slots prod.now.items)) (map tree args.now))) }
{
    if prod.cat.0 != context.0 {
        return Ok(false);
    }
    if !binds(prod.items.as_slice()) {
        return Ok(false);
    }
    let cats = argument_cats(alloc, None, prod.items.as_slice())?;
    Ok(are_terms(sig, scope, after_first(cats.as_slice()), args))
}

/// Whether it is an entry of the category of contexts, in the scope of what stands before it.
fn is_entry(
    alloc: Global,
    sig: &Sig,
    context: CatId,
    scope: &[CatId],
    entry: &Entry,
) -> Result<bool, NoMemory>
    ensures { IfOk result (λ is. IsTrue is ↔ IsEntry sig.now context.0 (reverse (map (λ c. c.0) scope.now)) (ground_entry entry.now)) }
{
    match sig.prod(entry.prod) {
        Some(prod) => is_entry_of(alloc, sig, context, scope, prod, entry.args.as_slice()),
        None => Ok(false),
    }
}

/// Adds the variables of entries of the production.
fn add_variables(sig: &Sig, prod: ProdId, scope: &mut Vec<CatId>) -> Result<(), NoMemory>
    ensures { IfOk result (λ _. reverse (map (λ c. c.0) scope.new.items) ≡ variables sig.now prod.0 ++ reverse (map (λ c. c.0) scope.old.items)) }
{
    match sig.prod(prod) {
        Some(form) => add_binders(scope, form.items.as_slice()),
        None => Ok(()),
    }
}

fn are_entries(
    alloc: Global,
    sig: &Sig,
    context: CatId,
    entries: &[Entry],
) -> Result<bool, NoMemory>
    ensures { IfOk result (λ are. IsTrue are ↔ AreEntries sig.now context.0 [] (map ground_entry entries.now)) }
{
    let mut scope = Vec::new(alloc);
    for entry in entries {
        if !is_entry(alloc, sig, context, scope.as_slice(), entry)? {
            return Ok(false);
        }
        add_variables(sig, entry.prod, &mut scope)?;
    }
    Ok(true)
}

/// The categories of a context's variables, the innermost last.
pub fn scope_of(alloc: Global, sig: &Sig, ctx: &CtxValue) -> Result<Vec<CatId>, NoMemory>
    ensures { IfOk result (λ all. reverse (map (λ c. c.0) all.items) ≡ scope_of sig.now (context_value ctx.now)) }
{
    let mut scope = Vec::new(alloc);
    for entry in ctx.entries.as_slice() {
        add_variables(sig, entry.prod, &mut scope)?;
    }
    Ok(scope)
}

/// Whether it is a value of the root.
pub fn is_value(alloc: Global, sig: &Sig, root: Root, ctx: &CtxValue) -> Result<bool, NoMemory>
    ensures { IfOk result (λ is. IsTrue is ↔ IsValue sig.now root (context_value ctx.now)) }
{
    match root {
        Root::Closed => Ok(ctx.cat.is_none() && ctx.entries.len() == 0),
        Root::Empty(cat) => Ok(is_same(ctx.cat, cat) && ctx.entries.len() == 0),
        Root::Whole(cat) => {
            if !is_same(ctx.cat, cat) {
                return Ok(false);
            }
            are_entries(alloc, sig, cat, ctx.entries.as_slice())
        }
    }
}

/// The whole context that a judgment assumes, or none.
fn root_of(ctx: Option<CatId>) -> Root
    ensures { result ≡ root_of ctx }
{
    match ctx {
        Some(cat) => Root::Whole(cat),
        None => Root::Closed,
    }
}

fn is_of_form(alloc: Global, sig: &Sig, form: &Judgment, j: &JudgInst) -> Result<bool, NoMemory>
    ensures { IfOk result (λ is. IsTrue is ↔ (IsValue sig.now (root_of form.now.ctx) (judgment_value j.now).context
        × AreArguments sig.now (scope_of sig.now (judgment_value j.now).context) (argument_slots form.now.ctx (slots form.now.items)) (judgment_value j.now).args)) }
{
    if !is_value(alloc, sig, root_of(form.ctx), &j.ctx)? {
        return Ok(false);
    }
    let scope = scope_of(alloc, sig, &j.ctx)?;
    let cats = argument_cats(alloc, form.ctx, form.items.as_slice())?;
    Ok(are_terms(sig, scope.as_slice(), cats.as_slice(), j.args.as_slice()))
}

/// Whether it is a judgment of the system.
pub fn is_judgment(alloc: Global, sys: &System, j: &JudgInst) -> Result<bool, NoMemory>
    ensures { IfOk result (λ is. IsTrue is ↔ IsJudgment (theory sys.now) (judgment_value j.now)) }
{
    match sys.judgments().get(j.judgment.0 as usize) {
        Some(form) => is_of_form(alloc, sys.sig(), form, j),
        None => Ok(false),
    }
}
