//! Forms as text.
ghost use Rattle.std.specs.Prelude.{◌≡◌, IfOk, option_map};
ghost use Rattle.scheme_terms.specs.View.{names, scheme, scheme_context};
ghost use Rattle.rule_schemes.specs.Printing.{argument, choice_labels, context_tokens, labels_of, text_of};
ghost use Rattle.rule_schemes.specs.View.{judgment_scheme};
ghost use Rattle.form_printing.specs.Shown.{judgment_written, local_variables};

use crate::context::write_context;
use crate::judgment::write_judgment;
use crate::labels::Labels;
use crate::page::Page;
use crate::term::write_scheme;
use crate::words::numbered_locals;
use binding_terms::{CatId, NoMemory, ProdId, Sig, Text};
use rule_schemes::{JScheme, Judgment};
use scheme_terms::{MetaDecl, SCtx, Scheme, Scope};
use std::alloc::Global;

/// A scheme as an argument. Its locals are of these categories, the innermost last. The metavariables of a choice's rule follow
/// those of the scope and are printed with `?` before their names, its known variable follows those of the scope and is printed
/// as `?` and its declared name, and any later metavariable as `?` and its place, from 1, among these.
pub fn show_scheme(
    alloc: Global,
    sig: &Sig,
    scope: &Scope,
    choice: &Vec<MetaDecl>,
    known: Option<ProdId>,
    locals: &[CatId],
    s: &Scheme,
) -> Result<Text, NoMemory>
    ensures { IfOk result (λ text. text ≡ text_of (argument sig.now
        (choice_labels sig.now (names scope.now) choice.now.items (option_map (λ p. p.0) known)) (local_variables locals.now) (scheme s.now))) }
{
    let variables = numbered_locals(alloc, locals)?;
    let labels = Labels::Choice {
        scope,
        metas: choice.as_slice(),
        known,
    };
    let mut page = Page::new(alloc);
    write_scheme(&mut page, sig, &labels, variables.as_slice(), s)?;
    Ok(page.text)
}

/// A judgment by its form, with the names of the scope, its context without parentheses.
pub fn show_judgment(
    alloc: Global,
    sig: &Sig,
    judgments: &Vec<Judgment>,
    scope: &Scope,
    j: &JScheme,
) -> Result<Text, NoMemory>
    ensures { IfOk result (λ text. text ≡
        text_of (judgment_written sig.now judgments.now.items (labels_of (names scope.now)) (judgment_scheme j.now))) }
{
    let mut page = Page::new(alloc);
    write_judgment(
        &mut page,
        sig,
        judgments.as_slice(),
        &Labels::Scope(scope),
        j,
    )?;
    Ok(page.text)
}

/// A context with the names of the scope.
pub fn show_context(alloc: Global, sig: &Sig, scope: &Scope, ctx: &SCtx) -> Result<Text, NoMemory>
    ensures { IfOk result (λ text. text ≡ text_of (context_tokens sig.now (labels_of (names scope.now)) (scheme_context ctx.now))) }
{
    let mut page = Page::new(alloc);
    write_context(&mut page, sig, &Labels::Scope(scope), ctx)?;
    Ok(page.text)
}
