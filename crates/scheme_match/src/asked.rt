ghost use Rattle.std.specs.Prelude.{◌≡◌, ◌<◌, IfOk, MatchOption, map, drop, length, option_map};
ghost use Rattle.binding_terms.specs.View.{tree};
ghost use Rattle.scheme_terms.specs.Demands.{IsDemanded};
ghost use Rattle.scheme_terms.specs.Embedding.{embedded};
ghost use Rattle.scheme_terms.specs.View.{scheme, scheme_entry, ground_entry, context_value};
ghost use Rattle.rule_schemes.specs.View.{judgment_scheme, judgment_value};
ghost use Rattle.scheme_match.specs.Matching.{judgments};
ghost use Rattle.scheme_match.specs.Pairs.{matched};
ghost use Rattle.scheme_match.specs.Demands.{entries_over, ListDemands, EntriesDemand, PairDemands, PairsDemand, AreAsked};

use crate::context::entries_over;
use crate::pair::Pair;
use binding_terms::{NoMemory, Term, number};
use rule_schemes::{JScheme, JudgInst};
use scheme_terms::{CtxValue, Entry, MetaDecl, MetaId, Root, SEntry, Scheme, demanded_term};
use sqlite_items::Items;
use std::alloc::Global;

/// What the patterns that are to become these terms, place by place, ask the metavariable to be.
fn asked_in_list(
    alloc: Global,
    m: MetaId,
    locals: usize,
    patterns: &[Scheme],
    targets: &[Term],
) -> Result<Option<Term>, NoMemory>
    ensures { IfOk result (λ o. IsDemanded (ListDemands m.0 locals (map scheme patterns.now) (map tree targets.now)) (option_map (λ v. embedded (tree v)) o)) }
{
    let count = patterns.len().min(targets.len());
    for i in 0..count {
        match demanded_term(alloc, m, locals, &patterns[i], &targets[i])? {
            Some(value) => return Ok(Some(value)),
            None => {}
        }
    }
    Ok(None)
}

/// What explicit entries ask it to be.
fn asked_in_entries(
    alloc: Global,
    m: MetaId,
    patterns: &[SEntry],
    targets: &[Entry],
) -> Result<Option<Term>, NoMemory>
    ensures { IfOk result (λ o. IsDemanded (EntriesDemand m.0 0 (map scheme_entry patterns.now) (map ground_entry targets.now)) (option_map (λ v. embedded (tree v)) o)) }
{
    let count = patterns.len().min(targets.len());
    for i in 0..count {
        let args = patterns[i].args.as_slice();
        let asked = asked_in_list(alloc, m, i, args, targets[i].args.as_slice())?;
        if let Some(value) = asked {
            return Ok(Some(value));
        }
    }
    Ok(None)
}

/// The entries of a value after those of the root over which a form stands.
fn entries_after<'a>(root: &CtxValue, form: Root, value: &'a CtxValue) -> &'a [Entry]
    ensures { map ground_entry result.now ≡ drop (length (entries_over (context_value root.now) form)) (context_value value.now).entries }
{
    let entries = value.entries.as_slice();
    let over = entries_over(root, form).len();
    if entries.len() < over {
        return &[];
    }
    &entries[over..]
}

/// What a judgment asks it to be.
fn asked_in_judgment(
    alloc: Global,
    root: &CtxValue,
    m: MetaId,
    pattern: &JScheme,
    target: &JudgInst,
) -> Result<Option<Term>, NoMemory>
    ensures { IfOk result (λ o. IsDemanded (PairDemands (context_value root.now) m.0 (judgments (judgment_scheme pattern.now) (judgment_value target.now))) (option_map (λ v. embedded (tree v)) o)) }
{
    if pattern.judgment.0 != target.judgment.0 {
        return Ok(None);
    }
    let explicit = entries_after(root, pattern.ctx.root, &target.ctx);
    let entries = pattern.ctx.entries.as_slice();
    if let Some(value) = asked_in_entries(alloc, m, entries, explicit)? {
        return Ok(Some(value));
    }
    let args = pattern.args.as_slice();
    asked_in_list(alloc, m, entries.len(), args, target.args.as_slice())
}

fn asked_in_pair(
    alloc: Global,
    root: &CtxValue,
    m: MetaId,
    pair: &Pair<'_>,
) -> Result<Option<Term>, NoMemory>
    ensures { IfOk result (λ o. IsDemanded (PairDemands (context_value root.now) m.0 (matched pair.now)) (option_map (λ v. embedded (tree v)) o)) }
{
    match pair {
        Pair::Judgments(pattern, target) => asked_in_judgment(alloc, root, m, pattern, target),
        Pair::Terms(locals, pattern, target) => demanded_term(alloc, m, *locals, pattern, target),
    }
}

/// What the pairs ask it to be.
fn asked_in_pairs(
    alloc: Global,
    root: &CtxValue,
    m: MetaId,
    pairs: &[Pair<'_>],
) -> Result<Option<Term>, NoMemory>
    ensures { IfOk result (λ o. IsDemanded (PairsDemand (context_value root.now) m.0 (map matched pairs.now)) (option_map (λ v. embedded (tree v)) o)) }
{
    for pair in pairs {
        match asked_in_pair(alloc, root, m, pair)? {
            Some(value) => return Ok(Some(value)),
            None => {}
        }
    }
    Ok(None)
}

/// What the pairs ask the metavariables to be, or none where one of them is asked for nothing.
pub fn asked_values(
    alloc: Global,
    root: &CtxValue,
    metas: &[MetaDecl],
    pairs: &[Pair<'_>],
) -> Result<Option<Items<Option<Term>>>, NoMemory>
    ensures { IfOk result (λ o. AreAsked (context_value root.now) (map matched pairs.now) metas.now (option_map (λ all. map (option_map tree) all) o)) }
{
    let mut all = Items::new(alloc);
    for i in 0..metas.len() {
        match asked_in_pairs(alloc, root, MetaId(number(i)?), pairs)? {
            Some(value) => all.push(Some(value))?,
            None => return Ok(None),
        }
    }
    Ok(Some(all))
}
