// What is counted of slots: their tokens, and the variables that they bind.
ghost use Rattle.std.specs.Prelude.{◌≡◌, ◌↔◌, ◌≤◌, IsTrue, IfOk, map};
ghost use Rattle.std.specs.List.{AllByRecursion};
ghost use Rattle.scheme_terms.specs.View.{scheme_parts};
ghost use Rattle.term_reader.specs.Splitting.{slot_range, lengths};
ghost use Rattle.term_reader.specs.PlaceCases.{BindAsMany};

use crate::splitting::Piece;
use binding_terms::{Item, NoMemory};
use scheme_terms::SArg;
use sqlite_items::Items;
use std::alloc::Global;

/// How many tokens each slot has.
pub fn slot_lengths(alloc: Global, slots: &[Piece<'_>]) -> Result<Items<usize>, NoMemory>
    requires forward { AllByRecursion (λ p. p.from ≤ p.to) (map slot_range slots.now) }
    ensures { IfOk result (λ all. all ≡ lengths (map slot_range slots.now)) }
{
    let mut all = Items::new(alloc);
    for slot in slots {
        all.push(slot.to - slot.from)?;
    }
    Ok(all)
}

/// Whether the slots of the items bind as many variables as the parts, one by one.
pub fn bind_as_many(items: &[Item], parts: &[SArg]) -> bool
    ensures { IsTrue result ↔ BindAsMany items.now (scheme_parts parts.now) }
{
    let mut at = 0;
    for item in items {
        if let Item::Slot { cat: _, binds } = item {
            if at == parts.len() {
                return false;
            }
            if binds.len() != parts[at].binds {
                return false;
            }
            at += 1;
        }
    }
    at == parts.len()
}
