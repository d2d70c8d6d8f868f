// Schemes and what stands around them with the metavariables numbered anew. The first ones keep their numbers, and of those behind
// the marked ones are counted.
ghost use Rattle.std.specs.Prelude.{◌≡◌, IfOk, map};
ghost use Rattle.scheme_terms.specs.SchemeTree.{values};
ghost use Rattle.scheme_terms.specs.View.{scheme, scheme_parts, scheme_entry, scheme_context, known_variable};
ghost use Rattle.rule_schemes.specs.View.{judgment_scheme};
ghost use Rattle.notation_parser.specs.Renaming.{renamed, renamed_values, renamed_parts, renamed_entry, renamed_context, renamed_judgment, renamed_known, renamed_written};
ghost use Rattle.notation_parser.specs.Used as used;
ghost use Rattle.notation_parser.specs.Used.{moved};
ghost use Rattle.notation_parser.specs.View.{written};

use binding_terms::{NoMemory, Text, number};
use rule_schemes::{JScheme, Written};
use scheme_terms::{KnownDecl, MetaId, SArg, SCtx, SEntry, Scheme};
use sqlite_items::Items;
use std::alloc::Global;

/// How many marks stand before the place.
fn marks_before(marks: &[bool], at: usize) -> usize
    ensures { result ≡ used.marks_before marks.now at }
{
    let mut count = 0;
    for i in 0..marks.len() {
        if i == at {
            return count;
        }
        if marks[i] {
            count += 1;
        }
    }
    count
}

/// The new number of a metavariable.
fn renumbered(first_new: usize, marks: &[bool], m: MetaId) -> Result<MetaId, NoMemory>
    ensures { IfOk result (λ new. new.0 ≡ moved first_new (used.marks_before marks.now) m.0) }
{
    let at = m.0 as usize;
    if at < first_new {
        return Ok(m);
    }
    let place = first_new
        .checked_add(marks_before(marks, at - first_new))
        .ok_or(NoMemory)?;
    Ok(MetaId(number(place)?))
}

#[cycle(renumber)]
fn scheme_again(
    alloc: Global,
    first_new: usize,
    marks: &[bool],
    s: &Scheme,
) -> Result<Scheme, NoMemory>
    ensures { IfOk result (λ new. scheme new ≡ renamed (moved first_new (used.marks_before marks.now)) (scheme s.now)) }
{
    match s {
        Scheme::Meta(m, args) => {
            let new = renumbered(first_new, marks, *m)?;
            let all = values_again(alloc, first_new, marks, args.as_slice())?;
            Ok(Scheme::Meta(new, all))
        }
        Scheme::Known(k) => Ok(Scheme::Known(*k)),
        Scheme::Local(i) => Ok(Scheme::Local(*i)),
        Scheme::Con(p, parts) => Ok(Scheme::Con(
            *p,
            parts_again(alloc, first_new, marks, parts.as_slice())?,
        )),
    }
}

#[cycle(renumber)]
#[tactic(auto, using(crate::proofs::Again::done_values))]
fn values_again(
    alloc: Global,
    first_new: usize,
    marks: &[bool],
    args: &[Scheme],
) -> Result<Items<Scheme>, NoMemory>
    ensures { IfOk result
        (λ all. values (map scheme all) ≡ renamed_values (moved first_new (used.marks_before marks.now)) (values (map scheme args.now))) }
{
    let mut all = Items::new(alloc);
    for arg in args {
        all.push(scheme_again(alloc, first_new, marks, arg)?)?;
    }
    Ok(all)
}

#[cycle(renumber)]
#[tactic(auto, using(crate::proofs::Again::done_parts))]
fn parts_again(
    alloc: Global,
    first_new: usize,
    marks: &[bool],
    parts: &[SArg],
) -> Result<Items<SArg>, NoMemory>
    ensures { IfOk result
        (λ all. scheme_parts all ≡ renamed_parts (moved first_new (used.marks_before marks.now)) (scheme_parts parts.now)) }
{
    let mut all = Items::new(alloc);
    for part in parts {
        let body = scheme_again(alloc, first_new, marks, &part.body)?;
        all.push(SArg {
            binds: part.binds,
            body,
        })?;
    }
    Ok(all)
}

#[tactic(auto, using(std::proofs::lemmas::List::take_all))]
fn schemes_again(
    alloc: Global,
    first_new: usize,
    marks: &[bool],
    schemes: &[Scheme],
) -> Result<Items<Scheme>, NoMemory>
    ensures { IfOk result
        (λ all. map scheme all ≡ map (renamed (moved first_new (used.marks_before marks.now))) (map scheme schemes.now)) }
{
    let mut all = Items::new(alloc);
    for one in schemes {
        all.push(scheme_again(alloc, first_new, marks, one)?)?;
    }
    Ok(all)
}

fn entry_again(
    alloc: Global,
    first_new: usize,
    marks: &[bool],
    entry: &SEntry,
) -> Result<SEntry, NoMemory>
    ensures { IfOk result
        (λ new. scheme_entry new ≡ renamed_entry (moved first_new (used.marks_before marks.now)) (scheme_entry entry.now)) }
{
    Ok(SEntry {
        prod: entry.prod,
        args: schemes_again(alloc, first_new, marks, entry.args.as_slice())?,
    })
}

#[tactic(auto, using(std::proofs::lemmas::List::take_all))]
fn entries_again(
    alloc: Global,
    first_new: usize,
    marks: &[bool],
    entries: &[SEntry],
) -> Result<Items<SEntry>, NoMemory>
    ensures { IfOk result
        (λ all. map scheme_entry all ≡ map (renamed_entry (moved first_new (used.marks_before marks.now))) (map scheme_entry entries.now)) }
{
    let mut all = Items::new(alloc);
    for entry in entries {
        all.push(entry_again(alloc, first_new, marks, entry)?)?;
    }
    Ok(all)
}

fn context_again(
    alloc: Global,
    first_new: usize,
    marks: &[bool],
    context: &SCtx,
) -> Result<SCtx, NoMemory>
    ensures { IfOk result
        (λ new. scheme_context new ≡ renamed_context (moved first_new (used.marks_before marks.now)) (scheme_context context.now)) }
{
    Ok(SCtx {
        root: context.root,
        entries: entries_again(alloc, first_new, marks, context.entries.as_slice())?,
    })
}

fn judgment_again(
    alloc: Global,
    first_new: usize,
    marks: &[bool],
    judgment: &JScheme,
) -> Result<JScheme, NoMemory>
    ensures { IfOk result
        (λ new. judgment_scheme new ≡ renamed_judgment (moved first_new (used.marks_before marks.now)) (judgment_scheme judgment.now)) }
{
    let ctx = context_again(alloc, first_new, marks, &judgment.ctx)?;
    let args = schemes_again(alloc, first_new, marks, judgment.args.as_slice())?;
    Ok(JScheme {
        judgment: judgment.judgment,
        ctx,
        args,
    })
}

/// What is written, with the metavariables numbered anew.
pub fn written_again(
    alloc: Global,
    first_new: usize,
    marks: &[bool],
    form: &Written,
) -> Result<Written, NoMemory>
    ensures { IfOk result
        (λ new. written new ≡ renamed_written (moved first_new (used.marks_before marks.now)) (written form.now)) }
{
    match form {
        Written::Term(term) => Ok(Written::Term(scheme_again(alloc, first_new, marks, term)?)),
        Written::Judgment(judgment) => Ok(Written::Judgment(judgment_again(
            alloc, first_new, marks, judgment,
        )?)),
        Written::Context(context) => Ok(Written::Context(context_again(
            alloc, first_new, marks, context,
        )?)),
    }
}

fn known_again(
    alloc: Global,
    first_new: usize,
    marks: &[bool],
    known: &KnownDecl,
) -> Result<KnownDecl, NoMemory>
    ensures { IfOk result
        (λ new. known_variable new ≡ renamed_known (moved first_new (used.marks_before marks.now)) (known_variable known.now)) }
{
    let name = Text::of(alloc, known.name.bytes())?;
    let entry = entry_again(alloc, first_new, marks, &known.entry)?;
    Ok(KnownDecl { name, entry })
}

/// Known variables, with the metavariables of their entries numbered anew.
#[tactic(auto, using(std::proofs::lemmas::List::take_all))]
pub fn knowns_again(
    alloc: Global,
    first_new: usize,
    marks: &[bool],
    knowns: &[KnownDecl],
) -> Result<Items<KnownDecl>, NoMemory>
    ensures { IfOk result
        (λ all. map known_variable all ≡ map (renamed_known (moved first_new (used.marks_before marks.now))) (map known_variable knowns.now)) }
{
    let mut all = Items::new(alloc);
    for known in knowns {
        all.push(known_again(alloc, first_new, marks, known)?)?;
    }
    Ok(all)
}
