//! Schemes as they are written.
ghost use Rattle.std.specs.Prelude.{◌≡◌, ◌∷◌, map, take, drop, OnOk};
ghost use Rattle.scheme_terms.specs.View.{scheme, scheme_parts};
ghost use Rattle.rule_schemes.specs.Printing.{after_commas, argument, bracketed, grouped, numbered, production, variable_word};
ghost use Rattle.binding_terms.specs.Signature.{binders};
ghost use Rattle.form_printing.specs.Page.{written};
ghost use Rattle.form_printing.specs.View.{shown, values_tokens, variables, items_tokens, slot_tokens};

use crate::labels::{Labels, write_known, write_meta};
use crate::page::Page;
use crate::words::{
    Variable, items_of, numbered, scope_inside, write_local, write_terminal, write_variable,
};
use binding_terms::{Item, NoMemory, Sig};
use scheme_terms::{MetaId, SArg, Scheme};

/// Writes a scheme as an argument.
#[cycle(write_scheme)]
pub fn write_scheme(
    page: &mut Page,
    sig: &Sig,
    labels: &Labels<'_>,
    scope: &[Variable],
    form: &Scheme,
) -> Result<(), NoMemory>
    ensures { OnOk result (page.new ≡ written page.old (argument sig.now (shown sig.now labels.now) (variables scope.now) (scheme form.now))) }
{
    match form {
        Scheme::Meta(number, args) => {
            write_applied(page, sig, labels, scope, *number, args.as_slice())
        }
        Scheme::Known(number) => write_known(page, sig, labels, *number),
        Scheme::Local(index) => write_local(page, sig, scope, *index),
        Scheme::Con(prod, args) => {
            write_production(
                page,
                sig,
                labels,
                scope,
                items_of(sig, *prod),
                args.as_slice(),
            )
        }
    }
}

/// Writes a metavariable with its arguments.
#[cycle(write_scheme)]
#[tactic(auto, using(crate::proofs::Pages::written_twice))]
fn write_applied(
    page: &mut Page,
    sig: &Sig,
    labels: &Labels<'_>,
    scope: &[Variable],
    number: MetaId,
    args: &[Scheme],
) -> Result<(), NoMemory>
    ensures { OnOk result (page.new ≡ written page.old
        ((shown sig.now labels.now).metas number.0
        ∷ bracketed (values_tokens sig.now (shown sig.now labels.now) (variables scope.now) args.now))) }
{
    write_meta(page, sig, labels, number.0)?;
    write_bracketed(page, sig, labels, scope, args)
}

/// Writes the arguments of a metavariable in brackets, where it has any.
#[cycle(write_scheme)]
#[tactic(auto, using(crate::proofs::Sizes::smaller_value))]
fn write_bracketed(
    page: &mut Page,
    sig: &Sig,
    labels: &Labels<'_>,
    scope: &[Variable],
    args: &[Scheme],
) -> Result<(), NoMemory>
    ensures { OnOk result (page.new ≡ written page.old
        (bracketed (values_tokens sig.now (shown sig.now labels.now) (variables scope.now) args.now))) }
{
    if args.len() == 0 {
        return Ok(());
    }
    page.token(b"[")?;
    write_scheme(page, sig, labels, scope, &args[0])?;
    write_further(page, sig, labels, scope, args)?;
    page.token(b"]")
}

/// Writes the arguments of a metavariable after the first, each after a comma.
#[cycle(write_scheme)]
#[tactic(auto, using(crate::proofs::Sizes::smaller_value))]
fn write_further(
    page: &mut Page,
    sig: &Sig,
    labels: &Labels<'_>,
    scope: &[Variable],
    args: &[Scheme],
) -> Result<(), NoMemory>
    ensures { OnOk result (page.new ≡ written page.old
        (after_commas (values_tokens sig.now (shown sig.now labels.now) (variables scope.now) (drop 1 args.now)))) }
{
    for i in 1..args.len() {
        page.token(b",")?;
        write_scheme(page, sig, labels, scope, &args[i])?;
    }
    Ok(())
}

/// Writes a production with its subterms, in parentheses unless it is of one token.
#[cycle(write_scheme)]
#[tactic(auto, using(crate::proofs::Pages::written_twice))]
fn write_production(
    page: &mut Page,
    sig: &Sig,
    labels: &Labels<'_>,
    scope: &[Variable],
    items: &[Item],
    args: &[SArg],
) -> Result<(), NoMemory>
    ensures { OnOk result (page.new ≡ written page.old (grouped items.now
        (production sig.now (shown sig.now labels.now) (variables scope.now) (numbered (variables scope.now) (binders items.now)) items.now (scheme_parts args.now)))) }
{
    let binders = numbered(page.alloc, scope, items)?;
    if items.len() == 1 {
        return write_items(page, sig, labels, scope, binders.as_slice(), items, args);
    }
    page.token(b"(")?;
    write_items(page, sig, labels, scope, binders.as_slice(), items, args)?;
    page.token(b")")
}

/// Writes the items of a production, whose binders are these variables.
#[cycle(write_scheme)]
fn write_items(
    page: &mut Page,
    sig: &Sig,
    labels: &Labels<'_>,
    scope: &[Variable],
    binders: &[Variable],
    items: &[Item],
    args: &[SArg],
) -> Result<(), NoMemory>
    ensures { OnOk result (page.new ≡ written page.old
        (items_tokens sig.now (shown sig.now labels.now) (variables scope.now) (variables binders.now) (variables binders.now) items.now args.now)) }
{
    let mut next_binder = 0;
    let mut next_slot = 0;
    for item in items {
        match item {
            Item::Word { text, quoted } => write_terminal(page, text, *quoted)?,
            Item::Slot { cat: _, binds } => {
                write_slot(
                    page,
                    sig,
                    labels,
                    scope,
                    binders,
                    binds.as_slice(),
                    args,
                    next_slot,
                )?;
                next_slot += 1;
            }
            Item::Binder(_) => {
                write_binder(page, sig, binders, next_binder)?;
                next_binder += 1;
            }
        }
    }
    Ok(())
}

/// Writes the word of the binder with that number, where there is one.
pub fn write_binder(
    page: &mut Page,
    sig: &Sig,
    binders: &[Variable],
    number: usize,
) -> Result<(), NoMemory>
    ensures { OnOk result (page.new ≡ written page.old
        (take 1 (map (variable_word sig.now) (variables (drop number binders.now))))) }
{
    if number < binders.len() {
        return write_variable(page, sig, &binders[number]);
    }
    Ok(())
}

/// Writes the argument with that number, where there is one, under the binders of its slot.
#[cycle(write_scheme)]
#[tactic(auto, using(crate::proofs::Sizes::smaller_part))]
fn write_slot(
    page: &mut Page,
    sig: &Sig,
    labels: &Labels<'_>,
    scope: &[Variable],
    binders: &[Variable],
    binds: &[u32],
    args: &[SArg],
    number: usize,
) -> Result<(), NoMemory>
    ensures { OnOk result (page.new ≡ written page.old
        (slot_tokens sig.now (shown sig.now labels.now) (variables scope.now) (variables binders.now) binds.now (drop number args.now))) }
{
    if number >= args.len() {
        return Ok(());
    }
    if binds.len() == 0 {
        return write_scheme(page, sig, labels, scope, &args[number].body);
    }
    let inner = scope_inside(page.alloc, scope, binders, binds)?;
    write_scheme(page, sig, labels, inner.as_slice(), &args[number].body)
}
