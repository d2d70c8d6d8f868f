// What readings over all candidates say with the new metavariables that they use.
ghost use Rattle.std.specs.Prelude.{◌≡◌, ◌≤◌, ◌++◌, List, IfOk, length, map};
ghost use Rattle.binding_terms.specs.Signature.{Signature};
ghost use Rattle.scheme_terms.specs.View.{known_variable};
ghost use Rattle.rule_schemes.specs.Reading.{Token, ReadingScope, fresh_names};
ghost use Rattle.rule_schemes.specs.Said.{Want, IsBefore};
ghost use Rattle.rule_schemes.specs.declared.rule.Judgment.{Judgment};
ghost use Rattle.term_reader.specs.Firsts.{listed, AreFirst};
ghost use Rattle.notation_parser.specs.Answer.{IsAnswer};
ghost use Rattle.notation_parser.specs.Ordered.{ReadsWantedAt};
ghost use Rattle.notation_parser.specs.Used as used_spec;
ghost use Rattle.notation_parser.specs.Used.{Says, TellsUsed, MayBeNew, KnownsStand};
ghost use Rattle.notation_parser.specs.View.{written, what_is_said, outcome};

use crate::occurring::marks_of;
use crate::outcomes::Outcome;
use crate::renumbering::{knowns_again, written_again};
use binding_terms::NoMemory;
use rule_schemes::{Reading, Said, Written};
use scheme_terms::{KnownDecl, MetaDecl, copy_meta};
use sqlite_items::Items;
use std::alloc::Global;
use term_reader::Firsts;

/// The metavariables with a mark.
fn chosen(
    alloc: Global,
    marks: &[bool],
    candidates: &[MetaDecl],
) -> Result<Items<MetaDecl>, NoMemory>
    requires { length marks.now ≡ length candidates.now }
    ensures { IfOk result (λ all. all ≡ used_spec.marked marks.now candidates.now) }
{
    let mut all = Items::new(alloc);
    for i in 0..candidates.len() {
        if marks[i] {
            all.push(copy_meta(alloc, &candidates[i])?)?;
        }
    }
    Ok(all)
}

/// What a reading over the scope's names and all candidates says. The candidates that it uses are its new metavariables; they are
/// numbered in their order from `first_new` on, the number of the scope's names.
pub fn used(
    alloc: Global,
    first_new: usize,
    candidates: &[MetaDecl],
    form: &Written,
    knowns: &[KnownDecl],
) -> Result<Said, NoMemory>
    ensures { IfOk result
        (λ said. Says first_new candidates.now (written form.now, map known_variable knowns.now) (what_is_said said)) }
{
    let marks = marks_of(alloc, first_new, candidates.len(), form, knowns)?;
    let new_form = written_again(alloc, first_new, marks.as_slice(), form)?;
    let metas = chosen(alloc, marks.as_slice(), candidates)?;
    let new_knowns = knowns_again(alloc, first_new, marks.as_slice(), knowns)?;
    Ok(Said {
        written: new_form,
        metas,
        knowns: new_knowns,
    })
}

/// An answer that tells what these readings say.
fn told(
    alloc: Global,
    first_new: usize,
    candidates: &[MetaDecl],
    found: Firsts<Outcome>,
) -> Result<Reading, NoMemory>
    ensures { IfOk result (TellsUsed first_new candidates.now (listed outcome found)) }
{
    match found {
        Firsts::Nothing => Ok(Reading::NoReading),
        Firsts::One(a) => {
            let said = used(
                alloc,
                first_new,
                candidates,
                &a.written,
                a.knowns.as_slice(),
            )?;
            Ok(Reading::One(said.written, said.metas, said.knowns))
        }
        Firsts::Two(a, b) => {
            let first = used(
                alloc,
                first_new,
                candidates,
                &a.written,
                a.knowns.as_slice(),
            )?;
            let second = used(
                alloc,
                first_new,
                candidates,
                &b.written,
                b.knowns.as_slice(),
            )?;
            Ok(Reading::Ambiguous(first, second))
        }
    }
}

/// The answer, by the first two readings over the scope's names and all candidates; `first_new` is the number of the scope's names.
pub fn tell(
    alloc: Global,
    first_new: usize,
    candidates: &[MetaDecl],
    found: Firsts<Outcome>,
) -> Result<Reading, NoMemory>
    ensures { (sig : Signature) (js : List Judgment) (scope : ReadingScope) (want : Want) (ts : List Token)
        → first_new ≡ length scope.names.metas → MayBeNew sig scope ts candidates.now
        → (scope.fresh ≡ fresh_names → KnownsStand scope) → length ts ≤ 256
        → AreFirst IsBefore (ReadsWantedAt sig js scope (scope.names.metas ++ candidates.now) want ts) (listed outcome found)
        → IfOk result (λ r. IsAnswer sig js scope want ts r) }
{
    told(alloc, first_new, candidates, found)
}
