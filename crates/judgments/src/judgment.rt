// The judgments that a file declares.
ghost use Rattle.std.specs.Prelude.{◌≡◌, IfOk, OnOk, MatchOption, List, None, [], ◌∷◌, ◌++◌};
ghost use Rattle.std.specs.List.{AllZip};
ghost use Rattle.outline_reader.specs.Views.{portion_view};
ghost use Rattle.outline_reader.specs.Plain.{plain_portion, plain_form, outlined};
ghost use Rattle.rule_schemes.specs.declared.rule.Judgment.{Judgment};
ghost use Rattle.judgments.specs.Texts.{judgment_in, judgments_in};
ghost use Rattle.judgments.specs.Built.{IsBuiltJudgment};

use crate::items::items_of;
use binding_terms::{NoMemory, Sig, Text};
use outline_reader::{Form, Name, Outline, Portion};
use rule_schemes::Judgment;
use std::alloc::Global;

/// The most tokens of a form.
pub const LONGEST: usize = 256;

/// The judgment of that name and form, which assumes no context.
fn judgment_of(
    alloc: Global,
    sig: &Sig,
    outline: &Outline<'_>,
    name: Name<'_>,
    form: Form<'_>,
) -> Result<Option<Judgment>, NoMemory>
    ensures { IfOk result (λ found. MatchOption found
        ((j : Judgment) → IsBuiltJudgment sig.now (outlined outline.now)
        (record { name = name.now.text.now; form = plain_form form.now; assumes = None }) j → ⊥)
        (λ j. IsBuiltJudgment sig.now (outlined outline.now)
        (record { name = name.now.text.now; form = plain_form form.now; assumes = None }) j)) }
{
    if form.len() > LONGEST {
        return Ok(None);
    }
    match items_of(alloc, sig, outline, form)? {
        Some(items) => Ok(Some(Judgment {
            name: Text::of(alloc, name.text.as_bytes())?,
            ctx: None,
            items,
        })),
        None => Ok(None),
    }
}

fn alone(alloc: Global, j: Judgment) -> Result<Vec<Judgment>, NoMemory>
    ensures { IfOk result (λ all. all.items ≡ j ∷ []) }
{
    let mut all = Vec::new(alloc);
    all.push(j)?;
    Ok(all)
}

/// The judgment that the portion declares, alone, or no judgment where it declares none. A judgment that assumes a context is not built yet.
fn declared(
    alloc: Global,
    sig: &Sig,
    outline: &Outline<'_>,
    portion: &Portion<'_>,
) -> Result<Option<Vec<Judgment>>, NoMemory>
    ensures { IfOk result (λ found. MatchOption found
        ((js : List Judgment) → AllZip (IsBuiltJudgment sig.now (outlined outline.now)) (judgment_in (plain_portion (portion_view portion.now))) js → ⊥)
        (λ js. AllZip (IsBuiltJudgment sig.now (outlined outline.now)) (judgment_in (plain_portion (portion_view portion.now))) js.items)) }
{
    match portion {
        Portion::Judgment {
            name,
            form,
            assumes,
            ..
        } => {
            if assumes.is_some() {
                return Ok(None);
            }
            match judgment_of(alloc, sig, outline, name, form)? {
                Some(j) => Ok(Some(alone(alloc, j)?)),
                None => Ok(None),
            }
        }
        _ => Ok(Some(Vec::new(alloc))),
    }
}

fn join(all: &mut Vec<Judgment>, mut more: Vec<Judgment>) -> Result<(), NoMemory>
    ensures { OnOk result (all.new.items ≡ all.old.items ++ more.items) }
{
    all.append(&mut more)?;
    Ok(())
}

/// The judgments that the outline declares.
pub fn judgments_of(
    alloc: Global,
    sig: &Sig,
    outline: &Outline<'_>,
) -> Result<Option<Vec<Judgment>>, NoMemory>
    ensures { IfOk result (λ found. MatchOption found
        ((js : List Judgment) → AllZip (IsBuiltJudgment sig.now (outlined outline.now)) (judgments_in (outlined outline.now)) js → ⊥)
        (λ js. AllZip (IsBuiltJudgment sig.now (outlined outline.now)) (judgments_in (outlined outline.now)) js.items)) }
{
    let mut all = Vec::new(alloc);
    for portion in outline.parts.as_slice() {
        match declared(alloc, sig, outline, portion)? {
            Some(more) => join(&mut all, more)?,
            None => return Ok(None),
        }
    }
    Ok(Some(all))
}
