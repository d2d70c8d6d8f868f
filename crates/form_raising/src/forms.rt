// Judgments and rules raised to explicit entries.
ghost use Rattle.std.specs.Prelude.{◌≡◌, ℕ, Bool, IfOk, map};
ghost use Rattle.scheme_terms.specs.View.{scheme, scheme_entry};
ghost use Rattle.rule_schemes.specs.Raising.{TestsReach, raised, raised_entries, raised_judgment, raised_by};
ghost use Rattle.rule_schemes.specs.View.{judgment_scheme};
ghost use Rattle.rule_schemes.specs.View as views;

use crate::raising::{raised_metas, raised_scheme};
use binding_terms::{CatId, NoMemory, Sig, Text};
use rule_schemes::{JScheme, RuleScheme, copy_judgment};
use scheme_terms::{MetaDecl, Root, SCtx, SEntry, Scheme, copy_metas};
use sqlite_items::Items;
use std::alloc::Global;

#[tactic(auto, using(std::proofs::lemmas::List::take_all))]
fn raised_list(
    alloc: Global,
    sig: &Sig,
    metas: &[MetaDecl],
    cats: &[CatId],
    locals: usize,
    args: &[Scheme],
) -> Result<Items<Scheme>, NoMemory>
    ensures { (reaches : ℕ → ℕ → Bool) → TestsReach sig.now reaches → IfOk result (λ all.
        map scheme all ≡ map (raised reaches metas.now (map (λ c. c.0) cats.now) locals) (map scheme args.now)) }
{
    let mut all = Items::new(alloc);
    for arg in args {
        all.push(raised_scheme(alloc, sig, metas, cats, locals, arg)?)?;
    }
    Ok(all)
}

fn raised_entries_of(
    alloc: Global,
    sig: &Sig,
    metas: &[MetaDecl],
    cats: &[CatId],
    entries: &[SEntry],
) -> Result<Items<SEntry>, NoMemory>
    ensures { (reaches : ℕ → ℕ → Bool) → TestsReach sig.now reaches → IfOk result (λ all.
        map scheme_entry all ≡ raised_entries reaches metas.now (map (λ c. c.0) cats.now) 0 (map scheme_entry entries.now)) }
{
    let mut all = Items::new(alloc);
    for place in 0..entries.len() {
        let entry = &entries[place];
        let args = raised_list(alloc, sig, metas, cats, place, entry.args.as_slice())?;
        all.push(SEntry {
            prod: entry.prod,
            args,
        })?;
    }
    Ok(all)
}

/// The judgment raised to entries whose variables are of these categories, without these entries, which are to stand before its own.
/// `NoMemory` also where an index would pass `usize::MAX`.
pub fn raised_judgment(
    alloc: Global,
    sig: &Sig,
    metas: &[MetaDecl],
    cats: &[CatId],
    j: &JScheme,
) -> Result<JScheme, NoMemory>
    ensures { (reaches : ℕ → ℕ → Bool) → TestsReach sig.now reaches → IfOk result (λ new.
        judgment_scheme new ≡ raised_judgment reaches metas.now (map (λ c. c.0) cats.now) (judgment_scheme j.now)) }
{
    let entries = raised_entries_of(alloc, sig, metas, cats, j.ctx.entries.as_slice())?;
    let args = raised_list(
        alloc,
        sig,
        metas,
        cats,
        j.ctx.entries.as_slice().len(),
        j.args.as_slice(),
    )?;
    Ok(JScheme {
        judgment: j.judgment,
        ctx: SCtx {
            root: j.ctx.root,
            entries,
        },
        args,
    })
}

#[tactic(auto, using(std::proofs::lemmas::List::take_all))]
fn raised_premises(
    alloc: Global,
    sig: &Sig,
    metas: &[MetaDecl],
    cats: &[CatId],
    premises: &[JScheme],
) -> Result<Items<JScheme>, NoMemory>
    ensures { (reaches : ℕ → ℕ → Bool) → TestsReach sig.now reaches → IfOk result (λ all.
        map judgment_scheme all ≡ map (raised_judgment reaches metas.now (map (λ c. c.0) cats.now)) (map judgment_scheme premises.now)) }
{
    let mut all = Items::new(alloc);
    for premise in premises {
        all.push(raised_judgment(alloc, sig, metas, cats, premise)?)?;
    }
    Ok(all)
}

#[tactic(auto, using(std::proofs::lemmas::List::take_all))]
fn copied_premises(alloc: Global, premises: &[JScheme]) -> Result<Items<JScheme>, NoMemory>
    ensures { IfOk result (λ all. map judgment_scheme all ≡ map judgment_scheme premises.now) }
{
    let mut all = Items::new(alloc);
    for premise in premises {
        all.push(copy_judgment(alloc, premise)?)?;
    }
    Ok(all)
}

fn copied_rule(alloc: Global, rule: &RuleScheme) -> Result<RuleScheme, NoMemory>
    ensures { IfOk result (λ new. views.rule new ≡ views.rule rule.now) }
{
    Ok(RuleScheme {
        name: Text::of(alloc, rule.name.bytes())?,
        metas: copy_metas(alloc, rule.metas.as_slice())?,
        premises: copied_premises(alloc, rule.premises.as_slice())?,
        conclusion: copy_judgment(alloc, &rule.conclusion)?,
    })
}

/// The rule raised to entries whose variables are of these categories, the first entry's first; a rule of a judgment without the whole context
/// as it is. `NoMemory` also where an index would pass `usize::MAX`.
pub fn raised_rule(
    alloc: Global,
    sig: &Sig,
    cats: &[CatId],
    rule: &RuleScheme,
) -> Result<RuleScheme, NoMemory>
    ensures { (reaches : ℕ → ℕ → Bool) → TestsReach sig.now reaches → IfOk result (λ new. views.rule new
        ≡ raised_by reaches (map (λ c. c.0) cats.now) rule.now.conclusion.ctx.root (views.rule rule.now)) }
{
    let metas = rule.metas.as_slice();
    match rule.conclusion.ctx.root {
        Root::Whole(_) => Ok(RuleScheme {
            name: Text::of(alloc, rule.name.bytes())?,
            metas: raised_metas(alloc, sig, cats, metas)?,
            premises: raised_premises(alloc, sig, metas, cats, rule.premises.as_slice())?,
            conclusion: raised_judgment(alloc, sig, metas, cats, &rule.conclusion)?,
        }),
        Root::Empty(_) => copied_rule(alloc, rule),
        Root::Closed => copied_rule(alloc, rule),
    }
}
