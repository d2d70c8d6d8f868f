//! Judgments as they are written.
ghost use Rattle.std.specs.Prelude.{◌≡◌, OnOk};
ghost use Rattle.rule_schemes.specs.Printing.{is_context_slot, judgment_over, with_entries, context_tokens};
ghost use Rattle.rule_schemes.specs.View.{judgment_scheme};
ghost use Rattle.scheme_terms.specs.View.{scheme_context};
ghost use Rattle.form_printing.specs.Page.{written};
ghost use Rattle.form_printing.specs.Shown.{judgment_written};
ghost use Rattle.form_printing.specs.View.{form_tokens, shown, variables};

use crate::context::{scope_of, write_argument, write_context};
use crate::labels::Labels;
use crate::page::Page;
use crate::words::{Variable, write_terminal};
use binding_terms::{CatId, Item, NoMemory, Sig};
use rule_schemes::{JScheme, Judgment};
use sqlite_items::at;

/// Whether the slot is that of the context which the judgment assumes.
fn is_context_slot(assumed: Option<CatId>, cat: CatId) -> bool
    ensures { result ≡ is_context_slot assumed cat }
{
    match assumed {
        Some(context) => context.0 == cat.0,
        None => false,
    }
}

/// Writes the items of a judgment's form, whose context adds the variables of the scope.
fn write_form(
    page: &mut Page,
    sig: &Sig,
    labels: &Labels<'_>,
    form: &Judgment,
    j: &JScheme,
    scope: &[Variable],
) -> Result<(), NoMemory>
    ensures { OnOk result (page.new ≡ written page.old (form_tokens sig.now (shown sig.now labels.now) form.now j.now (variables scope.now))) }
{
    let mut next_slot = 0;
    for item in form.items.as_slice() {
        match item {
            Item::Word { text, quoted } => write_terminal(page, text, *quoted)?,
            Item::Slot { cat, binds: _ } => {
                if is_context_slot(form.ctx, *cat) {
                    write_context(page, sig, labels, &j.ctx)?;
                } else {
                    write_argument(page, sig, labels, scope, j.args.as_slice(), next_slot)?;
                    next_slot += 1;
                }
            }
            Item::Binder(_) => {}
        }
    }
    Ok(())
}

/// Writes a judgment by its form, nothing where it is out of range.
pub fn write_judgment(
    page: &mut Page,
    sig: &Sig,
    judgments: &[Judgment],
    labels: &Labels<'_>,
    j: &JScheme,
) -> Result<(), NoMemory>
    ensures { OnOk result (page.new ≡ written page.old
        (judgment_written sig.now judgments.now (shown sig.now labels.now) (judgment_scheme j.now))) }
{
    match at(judgments, j.judgment.0 as usize) {
        Some(form) => {
            let scope = scope_of(page.alloc, sig, j.ctx.entries.as_slice())?;
            write_form(page, sig, labels, form, j, scope.as_slice())
        }
        None => Ok(()),
    }
}
