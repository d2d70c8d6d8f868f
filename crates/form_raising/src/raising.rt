// Schemes and metavariables raised to the variables of explicit entries.
ghost use Rattle.std.specs.Prelude.{◌≡◌, ◌++◌, ℕ, Bool, IfOk, List, map, filter, slice_get};
ghost use Rattle.scheme_terms.specs.SchemeTree.{SchemeTree, Values, values};
ghost use Rattle.scheme_terms.specs.View.{scheme, scheme_parts};
ghost use Rattle.rule_schemes.specs.Raising.{TestsReach, with_entries, with_entries_of, raised, raised_values, raised_parts, raised_decl};
ghost use Rattle.form_raising.specs.Before.{before};

use binding_terms::{CatId, NoMemory, Sig, Text};
use scheme_terms::{MetaDecl, MetaId, SArg, Scheme};
use sqlite_items::{Items, at};
use std::alloc::Global;

/// The variables of the entries that the category reaches, as locals below so many others, the first entry's first.
fn entry_locals(
    alloc: Global,
    sig: &Sig,
    cat: CatId,
    cats: &[CatId],
    locals: usize,
) -> Result<Items<Scheme>, NoMemory>
    ensures { (reaches : ℕ → ℕ → Bool) → TestsReach sig.now reaches → (rest : Values) → IfOk result (λ all.
        before (map scheme all) rest ≡ with_entries reaches cat.0 (map (λ c. c.0) cats.now) locals rest) }
{
    let mut all = Items::new(alloc);
    for place in 0..cats.len() {
        if sig.reaches(cat, cats[place]) {
            let behind = cats.len() - 1 - place;
            let number = behind.checked_add(locals).ok_or(NoMemory)?;
            all.push(Scheme::Local(number))?;
        }
    }
    Ok(all)
}

/// The variables of the entries that the metavariable's category reaches; none where it is not declared.
fn locals_of_meta(
    alloc: Global,
    sig: &Sig,
    metas: &[MetaDecl],
    m: MetaId,
    cats: &[CatId],
    locals: usize,
) -> Result<Items<Scheme>, NoMemory>
    ensures { (reaches : ℕ → ℕ → Bool) → TestsReach sig.now reaches → (rest : Values) → IfOk result (λ all.
        before (map scheme all) rest ≡ with_entries_of reaches (slice_get metas.now m.0) (map (λ c. c.0) cats.now) locals rest) }
{
    match at(metas, m.0 as usize) {
        Some(decl) => entry_locals(alloc, sig, decl.cat, cats, locals),
        None => Ok(Items::new(alloc)),
    }
}

/// The scheme, which stands below so many locals of its own, raised to entries whose variables are of these categories, the first entry's
/// first: each metavariable takes the variables that its category reaches before its other arguments. `NoMemory` also where an index would
/// pass `usize::MAX`.
#[cycle(raise)]
pub fn raised_scheme(
    alloc: Global,
    sig: &Sig,
    metas: &[MetaDecl],
    cats: &[CatId],
    locals: usize,
    s: &Scheme,
) -> Result<Scheme, NoMemory>
    ensures { (reaches : ℕ → ℕ → Bool) → TestsReach sig.now reaches → IfOk result (λ new.
        scheme new ≡ raised reaches metas.now (map (λ c. c.0) cats.now) locals (scheme s.now)) }
{
    match s {
        Scheme::Meta(m, args) => {
            let mut all = locals_of_meta(alloc, sig, metas, *m, cats, locals)?;
            all.append(raised_args(alloc, sig, metas, cats, locals, args.as_slice())?)?;
            Ok(Scheme::Meta(*m, all))
        }
        Scheme::Known(k) => Ok(Scheme::Known(*k)),
        Scheme::Local(i) => Ok(Scheme::Local(*i)),
        Scheme::Con(p, parts) => Ok(Scheme::Con(
            *p,
            raised_bodies(alloc, sig, metas, cats, locals, parts.as_slice())?,
        )),
    }
}

#[cycle(raise)]
fn raised_args(
    alloc: Global,
    sig: &Sig,
    metas: &[MetaDecl],
    cats: &[CatId],
    locals: usize,
    args: &[Scheme],
) -> Result<Items<Scheme>, NoMemory>
    ensures { (reaches : ℕ → ℕ → Bool) → TestsReach sig.now reaches → IfOk result (λ all.
        values (map scheme all) ≡ raised_values reaches metas.now (map (λ c. c.0) cats.now) locals (values (map scheme args.now))) }
{
    let mut all = Items::new(alloc);
    for arg in args {
        all.push(raised_scheme(alloc, sig, metas, cats, locals, arg)?)?;
    }
    Ok(all)
}

#[cycle(raise)]
fn raised_bodies(
    alloc: Global,
    sig: &Sig,
    metas: &[MetaDecl],
    cats: &[CatId],
    locals: usize,
    parts: &[SArg],
) -> Result<Items<SArg>, NoMemory>
    ensures { (reaches : ℕ → ℕ → Bool) → TestsReach sig.now reaches → IfOk result (λ all.
        scheme_parts all ≡ raised_parts reaches metas.now (map (λ c. c.0) cats.now) locals (scheme_parts parts.now)) }
{
    let mut all = Items::new(alloc);
    for part in parts {
        let inner = locals.checked_add(part.binds).ok_or(NoMemory)?;
        let body = raised_scheme(alloc, sig, metas, cats, inner, &part.body)?;
        all.push(SArg {
            binds: part.binds,
            body,
        })?;
    }
    Ok(all)
}

/// The categories that the category reaches.
fn reached(alloc: Global, sig: &Sig, cat: CatId, cats: &[CatId]) -> Result<Items<CatId>, NoMemory>
    ensures { (reaches : ℕ → ℕ → Bool) → TestsReach sig.now reaches → IfOk result (λ all.
        all ≡ map (λ v. record { 0 = v }) (filter (reaches cat.0) (map (λ c. c.0) cats.now))) }
{
    let mut all = Items::new(alloc);
    for other in cats {
        if sig.reaches(cat, *other) {
            all.push(*other)?;
        }
    }
    Ok(all)
}

/// The metavariable raised to entries whose variables are of these categories: the ones that its category reaches are its first parameters.
fn raised_meta(
    alloc: Global,
    sig: &Sig,
    cats: &[CatId],
    decl: &MetaDecl,
) -> Result<MetaDecl, NoMemory>
    ensures { (reaches : ℕ → ℕ → Bool) → TestsReach sig.now reaches → IfOk result (λ new.
        new ≡ raised_decl reaches (map (λ c. c.0) cats.now) decl.now) }
{
    let mut params = reached(alloc, sig, decl.cat, cats)?;
    params.append(Items::from_slice(alloc, decl.params.as_slice())?)?;
    Ok(MetaDecl {
        name: Text::of(alloc, decl.name.bytes())?,
        cat: decl.cat,
        params,
    })
}

/// The metavariables raised to entries whose variables are of these categories.
#[tactic(auto, using(std::proofs::lemmas::List::take_all))]
pub fn raised_metas(
    alloc: Global,
    sig: &Sig,
    cats: &[CatId],
    metas: &[MetaDecl],
) -> Result<Items<MetaDecl>, NoMemory>
    ensures { (reaches : ℕ → ℕ → Bool) → TestsReach sig.now reaches → IfOk result (λ all.
        all ≡ map (raised_decl reaches (map (λ c. c.0) cats.now)) metas.now) }
{
    let mut all = Items::new(alloc);
    for decl in metas {
        all.push(raised_meta(alloc, sig, cats, decl)?)?;
    }
    Ok(all)
}
