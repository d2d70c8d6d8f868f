// The schemes that readings say.
ghost use Rattle.std.specs.Prelude.{◌≡◌, IfOk, map};
ghost use Rattle.scheme_terms.specs.SchemeTree.{values};
ghost use Rattle.scheme_terms.specs.View.{scheme, scheme_part, scheme_parts};
ghost use Rattle.ordered_readings.specs.NodeView.{reading, row, values_of, more_values, more_parts};

use crate::node::{Head, Node, Row};
use binding_terms::NoMemory;
use scheme_terms::{SArg, Scheme};
use sqlite_items::Items;
use std::alloc::Global;

/// What a reading says.
#[cycle(built)]
pub fn scheme_of(alloc: Global, node: &Node) -> Result<Scheme, NoMemory>
    ensures { IfOk result (λ new. scheme new ≡ (reading node.now).1) }
{
    match node {
        Node::Group(inside) => scheme_of(alloc, inside.as_ref()),
        Node::Made(_, head, slots) => match head {
            Head::Meta(m) => Ok(Scheme::Meta(*m, add_values(alloc, slots, Items::new(alloc))?)),
            Head::Known(k) => Ok(Scheme::Known(*k)),
            Head::Local(i) => Ok(Scheme::Local(*i)),
            Head::Con(p) => Ok(Scheme::Con(*p, add_parts(alloc, slots, Items::new(alloc))?)),
        },
    }
}

/// What the slots say, after these.
#[cycle(built)]
#[tactic(auto, using(crate::proofs::Behind::values_end, crate::proofs::Behind::values_more))]
fn add_values(alloc: Global, slots: &Row, found: Items<Scheme>) -> Result<Items<Scheme>, NoMemory>
    ensures { IfOk result (λ new. values (map scheme new) ≡ more_values (map scheme found) (values_of (row slots.now).2)) }
{
    let mut all = found;
    match slots {
        Row::End => Ok(all),
        Row::Slot(cell) => {
            all.push(scheme_of(alloc, &cell.body)?)?;
            add_values(alloc, &cell.rest, all)
        }
    }
}

/// What the slots say, as parts after these.
#[cycle(built)]
#[tactic(auto, using(crate::proofs::Behind::parts_end, crate::proofs::Behind::parts_more))]
fn add_parts(alloc: Global, slots: &Row, found: Items<SArg>) -> Result<Items<SArg>, NoMemory>
    ensures { IfOk result (λ new. scheme_parts new ≡ more_parts (map scheme_part found) (row slots.now).2) }
{
    let mut all = found;
    match slots {
        Row::End => Ok(all),
        Row::Slot(cell) => {
            let body = scheme_of(alloc, &cell.body)?;
            all.push(SArg {
                binds: cell.binds,
                body,
            })?;
            add_parts(alloc, &cell.rest, all)
        }
    }
}

/// What the slots say, as parts.
pub fn parts_of(alloc: Global, slots: &Row) -> Result<Items<SArg>, NoMemory>
    ensures { IfOk result (λ new. scheme_parts new ≡ (row slots.now).2) }
{
    add_parts(alloc, slots, Items::new(alloc))
}
