ghost use Rattle.std.specs.Prelude.{◌≡◌, IfOk, OnOk};
ghost use Rattle.std.specs.Option.{option_copied};
ghost use Rattle.rule_schemes.specs.Printing.{is_context_slot, judgment_value_tokens, text_of, value_judgment};
ghost use Rattle.rule_schemes.specs.View.{judgment_value, theory};
ghost use Rattle.derivation_text.specs.Page.{written};
ghost use Rattle.derivation_text.specs.View.{form_tokens, root_value, variables};
ghost use Rattle.derivation_text.specs.Text.{context_from};

use crate::context::{scope_of, write_argument, write_context};
use crate::page::Page;
use crate::words::{Variable, write_terminal};
use binding_terms::{CatId, Item, NoMemory, Sig, Text};
use rule_schemes::{JudgInst, Judgment, System};
use scheme_terms::CtxValue;
use sqlite_items::at;
use std::alloc::Global;

/// Whether the slot is that of the context which the judgment assumes.
fn is_context_slot(assumed: Option<CatId>, cat: CatId) -> bool
    ensures { result ≡ is_context_slot assumed cat }
{
    match assumed {
        Some(context) => context.0 == cat.0,
        None => false,
    }
}

/// Writes the items of a judgment's form, whose context adds the variables of the scope.
fn write_form(
    page: &mut Page,
    sig: &Sig,
    root: Option<&CtxValue>,
    form: &Judgment,
    j: &JudgInst,
    scope: &[Variable],
) -> Result<(), NoMemory>
    ensures { OnOk result (page.new ≡ written page.old (form_tokens sig.now (root_value (option_copied root.entry)) form.now j.now (variables scope.now))) }
{
    let mut next_slot = 0;
    for item in form.items.as_slice() {
        match item {
            Item::Word { text, quoted } => write_terminal(page, text, *quoted)?,
            Item::Slot { cat, binds: _ } => {
                if is_context_slot(form.ctx, *cat) {
                    write_context(page, sig, root, &j.ctx)?;
                } else {
                    write_argument(page, sig, scope, j.args.as_slice(), next_slot)?;
                    next_slot += 1;
                }
            }
            Item::Binder(_) => {}
        }
    }
    Ok(())
}

/// Writes a judgment, where a context that begins with the root is written from the root's name on.
pub fn write_judgment(
    page: &mut Page,
    sys: &System,
    root: Option<&CtxValue>,
    j: &JudgInst,
) -> Result<(), NoMemory>
    ensures { OnOk result (page.new ≡ written page.old
        (value_judgment (theory sys.now) (context_from sys.now.sig (root_value (option_copied root.entry))) (judgment_value j.now))) }
{
    match at(sys.judgments().as_slice(), j.judgment.0 as usize) {
        Some(form) => {
            let scope = scope_of(page.alloc, sys.sig(), j.ctx.entries.as_slice())?;
            write_form(page, sys.sig(), root, form, j, scope.as_slice())
        }
        None => Ok(()),
    }
}

/// A judgment as text, from the name of the root's category on where its context begins with the root.
pub fn judgment_text(
    alloc: Global,
    sys: &System,
    root: Option<&CtxValue>,
    j: &JudgInst,
) -> Result<Text, NoMemory>
    ensures { IfOk result (λ text. text ≡
        text_of (value_judgment (theory sys.now) (context_from sys.now.sig (root_value (option_copied root.entry))) (judgment_value j.now))) }
{
    let mut page = Page::new(alloc);
    write_judgment(&mut page, sys, root, j)?;
    Ok(page.text)
}

/// One judgment as text, its context in full.
pub fn print_judgment(alloc: Global, sys: &System, j: &JudgInst) -> Result<Text, NoMemory>
    ensures { IfOk result (λ text. text ≡ text_of (judgment_value_tokens (theory sys.now) (judgment_value j.now))) }
{
    judgment_text(alloc, sys, None, j)
}
