// The judgment that a form becomes under an instance.
ghost use Rattle.std.specs.Prelude.{◌≡◌, ◌++◌, IfOk, map};
ghost use Rattle.binding_terms.specs.View.{tree};
ghost use Rattle.scheme_terms.specs.Instance.{instance_of, entries_instance, root_cat, root_entries};
ghost use Rattle.scheme_terms.specs.View.{scheme, scheme_entry, ground_entry, instance as plain_instance};
ghost use Rattle.std.specs.Prelude.{option_map};
ghost use Rattle.rule_schemes.specs.Rules.{judgment_instance};
ghost use Rattle.rule_schemes.specs.View.{judgment_scheme, judgment_value};

use binding_terms::{CatId, NoMemory, Term, copy};
use rule_schemes::{JScheme, JudgInst};
use scheme_terms::{CtxValue, Entry, Inst, Root, SEntry, Scheme, instance};
use sqlite_items::Items;
use std::alloc::Global;

#[tactic(auto, using(std::proofs::lemmas::List::take_all))]
fn ground_args(
    alloc: Global,
    args: &[Scheme],
    locals: usize,
    inst: &Inst,
) -> Result<Items<Term>, NoMemory>
    ensures { IfOk result (λ all. map tree all ≡ map (instance_of (plain_instance inst.now) locals) (map scheme args.now)) }
{
    let mut all = Items::new(alloc);
    for arg in args {
        all.push(instance(alloc, arg, locals, inst)?)?;
    }
    Ok(all)
}

/// Appends the instances of entries, each with those before it.
fn add_entries(
    alloc: Global,
    entries: &[SEntry],
    inst: &Inst,
    all: &mut Items<Entry>,
) -> Result<(), NoMemory>
    ensures { IfOk result (λ _. map ground_entry all.new ≡ map ground_entry all.old ++ entries_instance (plain_instance inst.now) 0 (map scheme_entry entries.now)) }
{
    for i in 0..entries.len() {
        let args = ground_args(alloc, entries[i].args.as_slice(), i, inst)?;
        all.push(Entry {
            prod: entries[i].prod,
            args,
        })?;
    }
    Ok(())
}

#[tactic(auto, using(std::proofs::lemmas::List::take_all))]
fn copy_terms(alloc: Global, args: &[Term]) -> Result<Items<Term>, NoMemory>
    ensures { IfOk result (λ all. map tree all ≡ map tree args.now) }
{
    let mut all = Items::new(alloc);
    for arg in args {
        all.push(copy(alloc, arg)?)?;
    }
    Ok(all)
}

#[tactic(auto, using(std::proofs::lemmas::List::take_all))]
fn copy_entries(alloc: Global, entries: &[Entry]) -> Result<Items<Entry>, NoMemory>
    ensures { IfOk result (λ all. map ground_entry all ≡ map ground_entry entries.now) }
{
    let mut all = Items::new(alloc);
    for entry in entries {
        let args = copy_terms(alloc, entry.args.as_slice())?;
        all.push(Entry {
            prod: entry.prod,
            args,
        })?;
    }
    Ok(all)
}

/// The entries of the root, where the form has the whole root.
fn entries_of_root(alloc: Global, root: Root, inst: &Inst) -> Result<Items<Entry>, NoMemory>
    ensures { IfOk result (λ all. map ground_entry all ≡ root_entries (plain_instance inst.now) root) }
{
    match root {
        Root::Whole(_) => copy_entries(alloc, inst.root.entries.as_slice()),
        _ => Ok(Items::new(alloc)),
    }
}

/// The category of a form's context.
fn category_of(root: Root) -> Option<CatId>
    ensures { option_map (λ c. c.0) result ≡ root_cat root }
{
    match root {
        Root::Closed => None,
        Root::Empty(cat) | Root::Whole(cat) => Some(cat),
    }
}

/// The instance of the form.
pub(crate) fn ground_form(alloc: Global, form: &JScheme, inst: &Inst) -> Result<JudgInst, NoMemory>
    ensures { IfOk result (λ j. judgment_value j ≡ judgment_instance (plain_instance inst.now) (judgment_scheme form.now)) }
{
    let mut entries = entries_of_root(alloc, form.ctx.root, inst)?;
    add_entries(alloc, form.ctx.entries.as_slice(), inst, &mut entries)?;
    let args = ground_args(alloc, form.args.as_slice(), form.ctx.entries.len(), inst)?;
    Ok(JudgInst {
        judgment: form.judgment,
        ctx: CtxValue {
            cat: category_of(form.ctx.root),
            entries,
        },
        args,
    })
}
