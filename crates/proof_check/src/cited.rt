// What a step cites.
ghost use Rattle.std.specs.Prelude.{IfOk, map, option_map};
ghost use Rattle.std.specs.List.{AllZip};
ghost use Rattle.outline_reader.specs.Views.{arg_view};
ghost use Rattle.outline_reader.specs.Plain.{plain_argument};
ghost use Rattle.proof_check.specs.Cited.{IsCitedAs};
ghost use Rattle.proof_check.specs.Finding.{Finds};

use crate::names::{is_unnamed, number_of};
use binding_terms::{NoMemory, Text, number};
use core_proofs::StepId;
use outline_reader::ArgText;
use sqlite_items::Items;
use std::alloc::Global;

/// The number of the derivation that an argument of `rule` cites.
fn cited(named: &[Text], argument: &ArgText<'_>) -> Option<usize>
    ensures { Finds (IsCitedAs named.now (plain_argument (arg_view argument.now))) result }
{
    match argument {
        ArgText::Name(name) => {
            if is_unnamed(name.text.as_bytes()) {
                return None;
            }
            number_of(name.text.as_bytes(), named)
        }
        ArgText::Form(_) => None,
    }
}

/// The numbers of the derivations that the arguments of `rule` cite, where each cites one.
pub fn all_cited(
    alloc: Global,
    named: &[Text],
    arguments: &[ArgText<'_>],
) -> Result<Option<Items<StepId>>, NoMemory>
    ensures { IfOk result (λ found. Finds
        (AllZip (IsCitedAs named.now) (map plain_argument (map arg_view arguments.now))) (option_map (map (λ id. id.0)) found)) }
{
    let mut on = Items::new(alloc);
    for argument in arguments {
        match cited(named, argument) {
            Some(at) => on.push(StepId(number(at)?))?,
            None => return Ok(None),
        }
    }
    Ok(Some(on))
}
