// Readings with their places: each call succeeds with ample memory, on readings worked out by hand.

use binding_terms::{CatId, NoMemory, ProdId};
use form_readings::{bodies_of, context_of};
use ordered_readings::{
    Answers, Head, Node, Row, added, is_before, is_full, is_none, joined, parts_of, product,
    same_scheme, scheme_of, share_answers, slot_before,
};
use scheme_terms::{MetaId, Scheme};
use std::alloc::Global;
use std::test::Fail;

const PAIR: ProdId = ProdId(1);

/// A form that reads as a metavariable, and as the known variable with the same word.
fn two_words() -> Answers {
    let known = Answers::One(Node::Made(2, Head::Known(0), Row::End));
    added(known, Node::Made(1, Head::Meta(MetaId(0)), Row::End))
}

/// A pair of that form and a variable, each in one token.
fn pairs(alloc: Global) -> Result<Answers, NoMemory> {
    let end = Answers::One(Node::Made(4, Head::Con(PAIR), Row::End));
    let variable = Answers::One(Node::Made(2, Head::Local(0), Row::End));
    let rest = product(alloc, 1, 0, &variable, &end)?;
    let found = product(alloc, 1, 0, &two_words(), &rest)?;
    Ok(joined(Answers::Nothing, share_answers(&found)?))
}

fn number_of_parts(scheme: &Scheme) -> usize {
    match scheme {
        Scheme::Con(_, args) => args.len(),
        _ => 0,
    }
}

/// The parts of both readings where there are two in order that say different things.
fn parts_of_both(alloc: Global, found: &Answers) -> Result<(usize, usize), NoMemory> {
    match found {
        Answers::Two(first, second) => {
            if !is_before(first, second) || same_scheme(first, second) {
                return Ok((0, 0));
            }
            let one = number_of_parts(&scheme_of(alloc, first)?);
            Ok((one, number_of_parts(&scheme_of(alloc, second)?)))
        }
        _ => Ok((0, 0)),
    }
}

#[test]
fn both_readings_of_a_pair_are_built(rt: HostRuntime) -> Result<(), Fail> {
    let alloc = rt.alloc();
    let found = pairs(alloc)?;
    assert_eq!(rt; is_full(&found), true);
    assert_eq!(rt; is_none(&found), false);
    assert_eq!(rt; parts_of_both(alloc, &found)?, (2, 2));
    Ok(())
}

#[test]
fn a_context_with_an_entry_is_built(rt: HostRuntime) -> Result<(), Fail> {
    let alloc = rt.alloc();
    let variable = Node::Made(2, Head::Local(0), Row::End);
    let own = slot_before(alloc, 1, 0, &variable, &Row::End)?;
    assert_eq!(rt; parts_of(alloc, &own)?.len(), 1);
    assert_eq!(rt; bodies_of(alloc, &own)?.len(), 1);
    let whole = Node::Made(0, Head::Known(0), Row::End);
    let slots = slot_before(alloc, 1, 0, &whole, &own)?;
    let entry = Node::Made(2, Head::Con(PAIR), slots);
    let context = context_of(alloc, CatId(4), b"G", &entry)?;
    assert_eq!(rt; context.ctx.entries.len(), 1);
    assert_eq!(rt; context.knowns.len(), 0);
    Ok(())
}
