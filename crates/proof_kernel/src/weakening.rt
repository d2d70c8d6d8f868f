// Whether a form is a judgment with one more explicit entry.
ghost use Rattle.std.specs.Prelude.{◌≡◌, ◌≢◌, Some, None, ◌↔◌, ◌++◌, ◌∷◌, [], IsTrue, IfOk, map};
ghost use Rattle.scheme_terms.specs.Forms.{SchemeEntry};
ghost use Rattle.scheme_terms.specs.SchemeTree.{shifted};
ghost use Rattle.scheme_terms.specs.View.{scheme, scheme_entry};
ghost use Rattle.scheme_terms.specs.declared.scheme.Root.TheVariants.{Closed};
ghost use Rattle.rule_schemes.specs.View.{judgment_scheme};
ghost use Rattle.sy_base.specs.declared.fault.Code.TheVariants.{NoContext, ResultMismatch};
ghost use Rattle.proof_trees.specs.ContextSteps.{IsWeakened};

use crate::same::{same_entries, same_root};
use binding_terms::NoMemory;
use rule_schemes::JScheme;
use scheme_terms::{Root, SEntry, Scheme, same_scheme, shift_scheme};
use std::alloc::Global;
use sy_base::Code;

fn is_shifted(alloc: Global, from: &Scheme, to: &Scheme) -> Result<bool, NoMemory>
    ensures { IfOk result (λ is. IsTrue is ↔ (scheme to.now ≡ shifted 0 1 (scheme from.now))) }
{
    let made = shift_scheme(alloc, from, 0, 1)?;
    Ok(same_scheme(to, &made))
}

/// Whether the second arguments are the first ones, seen from under one more entry.
fn are_shifted(alloc: Global, from: &[Scheme], to: &[Scheme]) -> Result<bool, NoMemory>
    ensures { IfOk result (λ are. IsTrue are ↔ (map scheme to.now ≡ map (shifted 0 1) (map scheme from.now))) }
{
    if from.len() != to.len() {
        return Ok(false);
    }
    for i in 0..from.len() {
        let same = is_shifted(alloc, &from[i], &to[i])?;
        if !same {
            return Ok(false);
        }
    }
    Ok(true)
}

/// Whether the second entries are the first ones and one more at the end.
fn is_one_more(from: &[SEntry], to: &[SEntry]) -> bool
    ensures { IsTrue result ↔ ((entry : SchemeEntry) × (map scheme_entry to.now ≡ map scheme_entry from.now ++ (entry ∷ []))) }
{
    if to.len() == 0 {
        return false;
    }
    if to.len() - 1 != from.len() {
        return false;
    }
    same_entries(&to[..from.len()], from)
}

fn is_closed(root: Root) -> bool
    ensures { IsTrue result ↔ (root ≡ Closed) }
{
    match root {
        Root::Closed => true,
        _ => false,
    }
}

/// Whether the form is the judgment with one more explicit entry at the end.
pub fn is_weakened(alloc: Global, from: &JScheme, form: &JScheme) -> Result<bool, NoMemory>
    ensures { IfOk result (λ is. IsTrue is ↔ IsWeakened (judgment_scheme from.now) (judgment_scheme form.now)) }
{
    if is_closed(from.ctx.root) {
        return Ok(false);
    }
    if form.judgment.0 != from.judgment.0 || !same_root(form.ctx.root, from.ctx.root) {
        return Ok(false);
    }
    if !is_one_more(from.ctx.entries.as_slice(), form.ctx.entries.as_slice()) {
        return Ok(false);
    }
    are_shifted(alloc, from.args.as_slice(), form.args.as_slice())
}

/// The code of a weakening whose form can stand here, or `None` exactly where the form is the judgment with one more explicit entry:
/// `NoContext` where the judgment has no context, else `ResultMismatch`.
pub fn weakening_code(
    alloc: Global,
    from: &JScheme,
    form: &JScheme,
) -> Result<Option<Code>, NoMemory>
    ensures right { IfOk result (λ code. (code ≡ None) ↔ IsWeakened (judgment_scheme from.now) (judgment_scheme form.now)) }
    ensures no_context { IfOk result (λ code. (code ≡ Some NoContext) ↔ (from.now.ctx.root ≡ Closed)) }
    ensures differs { IfOk result (λ code. (code ≡ Some ResultMismatch)
        ↔ ((from.now.ctx.root ≢ Closed) × (IsWeakened (judgment_scheme from.now) (judgment_scheme form.now) → ⊥))) }
{
    if is_closed(from.ctx.root) {
        return Ok(Some(Code::NoContext));
    }
    let is = is_weakened(alloc, from, form)?;
    if is {
        return Ok(None);
    }
    Ok(Some(Code::ResultMismatch))
}
