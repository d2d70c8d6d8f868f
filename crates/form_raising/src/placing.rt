// Forms with schemes for their names, in a context.
ghost use Rattle.std.specs.Prelude.{◌≡◌, ◌++◌, ℕ, IfOk, map, length};
ghost use Rattle.scheme_terms.specs.Substituting.{applied};
ghost use Rattle.scheme_terms.specs.View.{scheme, scheme_entry, scheme_context, substitution};
ghost use Rattle.rule_schemes.specs.Placed.{root_in, entries_in, applied_entries, form_in, applied_judgment};
ghost use Rattle.rule_schemes.specs.View.{judgment_scheme};

use binding_terms::NoMemory;
use rule_schemes::JScheme;
use scheme_terms::{Root, SCtx, SEntry, Scheme, Subst, apply_under, copy_entry};
use sqlite_items::Items;
use std::alloc::Global;

#[tactic(auto, using(std::proofs::lemmas::List::take_all))]
fn applied_list(
    alloc: Global,
    by: &Subst,
    locals: usize,
    args: &[Scheme],
) -> Result<Items<Scheme>, NoMemory>
    ensures { IfOk result (λ all. map scheme all ≡ map (applied (substitution by.now).metas (substitution by.now).knowns locals) (map scheme args.now)) }
{
    let mut all = Items::new(alloc);
    for arg in args {
        all.push(apply_under(alloc, arg, by, locals)?)?;
    }
    Ok(all)
}

/// Puts entries under a substitution behind so many others at the end.
fn add_applied(
    alloc: Global,
    by: &Subst,
    entries: &[SEntry],
    front: Items<SEntry>,
) -> Result<Items<SEntry>, NoMemory>
    ensures { IfOk result (λ all. map scheme_entry all
        ≡ map scheme_entry front ++ applied_entries (substitution by.now) (length front) (map scheme_entry entries.now)) }
{
    let mut all = front;
    for entry in entries {
        let args = applied_list(alloc, by, all.as_slice().len(), entry.args.as_slice())?;
        all.push(SEntry {
            prod: entry.prod,
            args,
        })?;
    }
    Ok(all)
}

#[tactic(auto, using(std::proofs::lemmas::List::take_all))]
fn copied_entries(alloc: Global, entries: &[SEntry]) -> Result<Items<SEntry>, NoMemory>
    ensures { IfOk result (λ all. map scheme_entry all ≡ map scheme_entry entries.now) }
{
    let mut all = Items::new(alloc);
    for entry in entries {
        all.push(copy_entry(alloc, entry)?)?;
    }
    Ok(all)
}

/// The entries of the context where the form's root is the whole one; else none.
fn front_of(alloc: Global, ctx: &SCtx, root: Root) -> Result<Items<SEntry>, NoMemory>
    ensures { IfOk result (λ all. map scheme_entry all ≡ entries_in (scheme_context ctx.now) root) }
{
    match root {
        Root::Whole(_) => copied_entries(alloc, ctx.entries.as_slice()),
        Root::Empty(_) => Ok(Items::new(alloc)),
        Root::Closed => Ok(Items::new(alloc)),
    }
}

fn root_of(ctx: &SCtx, root: Root) -> Root
    ensures { result ≡ root_in (scheme_context ctx.now) root }
{
    match root {
        Root::Whole(_) => ctx.root,
        Root::Empty(cat) => Root::Empty(cat),
        Root::Closed => Root::Closed,
    }
}

/// The form in the context, with schemes for its names: the context stands for the whole root of the form, with its entries before the form's own.
/// `NoMemory` also where an index would pass `usize::MAX`.
pub fn form_in(alloc: Global, ctx: &SCtx, by: &Subst, form: &JScheme) -> Result<JScheme, NoMemory>
    ensures { IfOk result (λ new. judgment_scheme new ≡ form_in (scheme_context ctx.now) (substitution by.now) (judgment_scheme form.now)) }
{
    let front = front_of(alloc, ctx, form.ctx.root)?;
    let entries = add_applied(alloc, by, form.ctx.entries.as_slice(), front)?;
    let args = applied_list(alloc, by, entries.as_slice().len(), form.args.as_slice())?;
    Ok(JScheme {
        judgment: form.judgment,
        ctx: SCtx {
            root: root_of(ctx, form.ctx.root),
            entries,
        },
        args,
    })
}

/// The form with schemes for its names. `NoMemory` also where an index would pass `usize::MAX`.
pub fn applied_judgment(alloc: Global, by: &Subst, form: &JScheme) -> Result<JScheme, NoMemory>
    ensures { IfOk result (λ new. judgment_scheme new ≡ applied_judgment (substitution by.now) (judgment_scheme form.now)) }
{
    let entries = add_applied(alloc, by, form.ctx.entries.as_slice(), Items::new(alloc))?;
    let args = applied_list(alloc, by, entries.as_slice().len(), form.args.as_slice())?;
    Ok(JScheme {
        judgment: form.judgment,
        ctx: SCtx {
            root: form.ctx.root,
            entries,
        },
        args,
    })
}
