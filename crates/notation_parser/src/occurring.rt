// Which metavariables stand in what is written.
ghost use Rattle.std.specs.Prelude.{◌≡◌, ◌↔◌, ◌+◌, IsTrue, IfOk, length, map};
ghost use Rattle.binding_terms.specs.Numbered.{AnyByRecursion, AllNumbered};
ghost use Rattle.scheme_terms.specs.SchemeTree.{OccursIn};
ghost use Rattle.scheme_terms.specs.View.{scheme_entry, known_variable};
ghost use Rattle.rule_schemes.specs.Said.{OccursInWritten};
ghost use Rattle.notation_parser.specs.Renaming.{OccursInKnowns, OccursInWanted};
ghost use Rattle.notation_parser.specs.View.{written};

use binding_terms::{NoMemory, number};
use rule_schemes::{Written, occurs_in_any, occurs_in_entries, occurs_in_judgment};
use scheme_terms::{KnownDecl, MetaId, SEntry, occurs_in};
use sqlite_items::Items;
use std::alloc::Global;

fn in_entry(m: MetaId, entry: &SEntry) -> bool
    ensures { IsTrue result ↔ AnyByRecursion (OccursIn m.0) (scheme_entry entry.now).args }
{
    occurs_in_any(m, entry.args.as_slice())
}

fn in_knowns(m: MetaId, knowns: &[KnownDecl]) -> bool
    ensures { IsTrue result ↔ OccursInKnowns m.0 (map known_variable knowns.now) }
{
    for known in knowns {
        if in_entry(m, &known.entry) {
            return true;
        }
    }
    false
}

fn in_written(m: MetaId, form: &Written) -> bool
    ensures { IsTrue result ↔ OccursInWritten m.0 (written form.now) }
{
    match form {
        Written::Term(term) => occurs_in(m, term),
        Written::Judgment(judgment) => occurs_in_judgment(m, judgment),
        Written::Context(context) => occurs_in_entries(m, context.entries.as_slice()),
    }
}

/// Whether the metavariable stands in what is written or in the known variables that are written with it.
fn occurs(m: MetaId, form: &Written, knowns: &[KnownDecl]) -> bool
    ensures { IsTrue result ↔ OccursInWanted m.0 (written form.now) (map known_variable knowns.now) }
{
    in_written(m, form) || in_knowns(m, knowns)
}

/// The metavariable so far behind the first.
fn meta_at(first: usize, i: usize) -> Result<MetaId, NoMemory>
    ensures { IfOk result (λ m. m.0 ≡ first + i) }
{
    let at = first.checked_add(i).ok_or(NoMemory)?;
    Ok(MetaId(number(at)?))
}

/// Of so many metavariables from the first new one on, which stand in what is written.
pub fn marks_of(
    alloc: Global,
    first_new: usize,
    count: usize,
    form: &Written,
    knowns: &[KnownDecl],
) -> Result<Items<bool>, NoMemory>
    ensures { IfOk result
        (λ marks. (length marks ≡ count)
        × AllNumbered (λ m b. IsTrue b ↔ OccursInWanted m (written form.now) (map known_variable knowns.now)) first_new marks) }
{
    let mut marks = Items::new(alloc);
    for i in 0..count {
        let m = meta_at(first_new, i)?;
        marks.push(occurs(m, form, knowns))?;
    }
    Ok(marks)
}
