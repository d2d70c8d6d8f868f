ghost use Rattle.std.specs.Prelude.{◌≡◌, map, take, drop, OnOk};
ghost use Rattle.binding_terms.specs.View.{tree, args_tree};
ghost use Rattle.rule_schemes.specs.Printing.{grouped, no_labels, numbered, plain_parts, production, variable_word, term_tokens};
ghost use Rattle.binding_terms.specs.Signature.{binders};
ghost use Rattle.derivation_text.specs.Page.{written};
ghost use Rattle.derivation_text.specs.View.{variables, items_tokens, slot_tokens};

use crate::page::Page;
use crate::words::{
    Variable, items_of, numbered, scope_inside, write_local, write_terminal, write_variable,
};
use binding_terms::{Arg, Item, NoMemory, Sig, Term};

/// Writes a term as an argument.
#[cycle(write_term)]
pub fn write_term(
    page: &mut Page,
    sig: &Sig,
    scope: &[Variable],
    term: &Term,
) -> Result<(), NoMemory>
    ensures { OnOk result (page.new ≡ written page.old (term_tokens sig.now (variables scope.now) (tree term.now))) }
{
    match term {
        Term::Var(index) => write_local(page, sig, scope, *index),
        Term::Con(prod, args) => {
            write_production(page, sig, scope, items_of(sig, *prod), args.items())
        }
    }
}

/// Writes a production with its subterms, in parentheses unless it is of one token.
#[cycle(write_term)]
#[tactic(auto, using(crate::proofs::Pages::written_twice))]
fn write_production(
    page: &mut Page,
    sig: &Sig,
    scope: &[Variable],
    items: &[Item],
    args: &[Arg],
) -> Result<(), NoMemory>
    ensures { OnOk result (page.new ≡ written page.old (grouped items.now
        (production sig.now no_labels (variables scope.now) (numbered (variables scope.now) (binders items.now)) items.now (plain_parts (args_tree args.now))))) }
{
    let binders = numbered(page.alloc, scope, items)?;
    if items.len() == 1 {
        return write_items(page, sig, scope, binders.as_slice(), items, args);
    }
    page.token(b"(")?;
    write_items(page, sig, scope, binders.as_slice(), items, args)?;
    page.token(b")")
}

/// Writes the items of a production, whose binders are these variables.
#[cycle(write_term)]
fn write_items(
    page: &mut Page,
    sig: &Sig,
    scope: &[Variable],
    binders: &[Variable],
    items: &[Item],
    args: &[Arg],
) -> Result<(), NoMemory>
    ensures { OnOk result (page.new ≡ written page.old
        (items_tokens sig.now (variables scope.now) (variables binders.now) (variables binders.now) items.now args.now)) }
{
    let mut next_binder = 0;
    let mut next_slot = 0;
    for item in items {
        match item {
            Item::Word { text, quoted } => write_terminal(page, text, *quoted)?,
            Item::Slot { cat: _, binds } => {
                write_slot(page, sig, scope, binders, binds.as_slice(), args, next_slot)?;
                next_slot += 1;
            }
            Item::Binder(_) => {
                write_binder(page, sig, binders, next_binder)?;
                next_binder += 1;
            }
        }
    }
    Ok(())
}

/// Writes the word of the binder with that number, where there is one.
pub fn write_binder(
    page: &mut Page,
    sig: &Sig,
    binders: &[Variable],
    number: usize,
) -> Result<(), NoMemory>
    ensures { OnOk result (page.new ≡ written page.old
        (take 1 (map (variable_word sig.now) (variables (drop number binders.now))))) }
{
    if number < binders.len() {
        return write_variable(page, sig, &binders[number]);
    }
    Ok(())
}

/// Writes the argument with that number, where there is one, under the binders of its slot.
#[cycle(write_term)]
#[tactic(auto, using(crate::proofs::Terms::smaller))]
fn write_slot(
    page: &mut Page,
    sig: &Sig,
    scope: &[Variable],
    binders: &[Variable],
    binds: &[u32],
    args: &[Arg],
    number: usize,
) -> Result<(), NoMemory>
    ensures { OnOk result (page.new ≡ written page.old
        (slot_tokens sig.now (variables scope.now) (variables binders.now) binds.now (drop number args.now))) }
{
    if number >= args.len() {
        return Ok(());
    }
    if binds.len() == 0 {
        return write_term(page, sig, scope, &args[number].body);
    }
    let inner = scope_inside(page.alloc, scope, binders, binds)?;
    write_term(page, sig, inner.as_slice(), &args[number].body)
}
