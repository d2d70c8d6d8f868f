// Contexts of readings.
ghost use Rattle.std.specs.Prelude.{◌≡◌, ◌++◌, IfOk, [], map};
ghost use Rattle.scheme_terms.specs.View.{scheme};
ghost use Rattle.rule_schemes.specs.Reading.{bare};
ghost use Rattle.ordered_readings.specs.NodeView.{reading, row};
ghost use Rattle.form_readings.specs.Trees.{context_of, entry_of, with_entry, with_known, written_context};

use binding_terms::{CatId, NoMemory, ProdId, Text};
use ordered_readings::{Head, Node, Row, scheme_of};
use scheme_terms::{KnownDecl, Root, SCtx, SEntry, Scheme};
use sqlite_items::Items;
use std::alloc::Global;

/// A context, and the known variable that it writes.
#[derive(Drop)]
pub struct Context {
    pub ctx: SCtx,
    pub knowns: Items<KnownDecl>,
}

/// What slots say, without what they bind, after these.
fn add_bodies(alloc: Global, slots: &Row, found: Items<Scheme>) -> Result<Items<Scheme>, NoMemory>
    ensures { IfOk result (λ new. map scheme new ≡ map scheme found ++ bare (row slots.now).2) }
{
    let mut all = found;
    match slots {
        Row::End => Ok(all),
        Row::Slot(cell) => {
            all.push(scheme_of(alloc, &cell.body)?)?;
            add_bodies(alloc, &cell.rest, all)
        }
    }
}

/// What slots say, without what they bind.
pub fn bodies_of(alloc: Global, slots: &Row) -> Result<Items<Scheme>, NoMemory>
    ensures { IfOk result (λ new. map scheme new ≡ bare (row slots.now).2) }
{
    add_bodies(alloc, slots, Items::new(alloc))
}

/// The context with that root and without entries.
fn rooted(alloc: Global, root: Root) -> Context
    ensures { written_context result ≡ (record { root = root; entries = [] }, []) }
{
    Context {
        ctx: SCtx {
            root,
            entries: Items::new(alloc),
        },
        knowns: Items::new(alloc),
    }
}

/// The whole context, and a known variable with that entry.
fn known_context(
    alloc: Global,
    cat: CatId,
    name: &[u8],
    prod: ProdId,
    args: Items<Scheme>,
) -> Result<Context, NoMemory>
    ensures { IfOk result (λ new. written_context new ≡ with_known cat name.now prod.0 (map scheme args)) }
{
    let mut word = Text::new(alloc);
    word.push(name)?;
    let mut context = rooted(alloc, Root::Whole(cat));
    context.knowns.push(KnownDecl {
        name: word,
        entry: SEntry { prod, args },
    })?;
    Ok(context)
}

/// The context with one entry more.
fn extended(mut context: Context, prod: ProdId, args: Items<Scheme>) -> Result<Context, NoMemory>
    ensures { IfOk result (λ new. written_context new ≡ with_entry prod.0 (map scheme args) (written_context context)) }
{
    context.ctx.entries.push(SEntry { prod, args })?;
    Ok(context)
}

/// The context by an entry of the production with these slots, of which the first is the shorter context.
#[cycle(contexts)]
fn entered(
    alloc: Global,
    cat: CatId,
    name: &[u8],
    prod: ProdId,
    slots: &Row,
) -> Result<Context, NoMemory>
    ensures { IfOk result (λ new. written_context new ≡ entry_of cat name.now prod.0 (row slots.now).2) }
{
    match slots {
        Row::End => Ok(rooted(alloc, Root::Whole(cat))),
        Row::Slot(cell) => {
            let shorter = context_of(alloc, cat, name, &cell.body)?;
            extended(shorter, prod, bodies_of(alloc, &cell.rest)?)
        }
    }
}

/// The context of the category that a reading is, where a known variable has that name.
#[cycle(contexts)]
pub fn context_of(alloc: Global, cat: CatId, name: &[u8], node: &Node) -> Result<Context, NoMemory>
    ensures { IfOk result (λ new. written_context new ≡ context_of cat name.now (reading node.now).1) }
{
    match node {
        Node::Group(inside) => context_of(alloc, cat, name, inside.as_ref()),
        Node::Made(_, head, slots) => match head {
            Head::Known(_) => Ok(rooted(alloc, Root::Whole(cat))),
            Head::Local(_) => Ok(rooted(alloc, Root::Empty(cat))),
            Head::Meta(p) => {
                let args = bodies_of(alloc, slots)?;
                known_context(alloc, cat, name, ProdId(p.0), args)
            }
            Head::Con(p) => entered(alloc, cat, name, *p, slots),
        },
    }
}
