ghost use Rattle.std.specs.Prelude.{◌≡◌, IfOk, map};
ghost use Rattle.scheme_terms.specs.View.{scheme, scheme_part, scheme_entry, known_variable, names};

use crate::scheme::{KnownDecl, MetaDecl, SArg, SEntry, Scheme, Scope};
use binding_terms::{NoMemory, Text};
use sqlite_items::Items;
use std::alloc::Global;

/// The same scheme again.
#[cycle(copy)]
pub fn copy_scheme(alloc: Global, s: &Scheme) -> Result<Scheme, NoMemory>
    ensures { IfOk result (λ new. scheme new ≡ scheme s.now) }
{
    match s {
        Scheme::Meta(m, args) => Ok(Scheme::Meta(*m, copy_values(alloc, args.as_slice())?)),
        Scheme::Known(k) => Ok(Scheme::Known(*k)),
        Scheme::Local(i) => Ok(Scheme::Local(*i)),
        Scheme::Con(p, parts) => Ok(Scheme::Con(*p, copy_parts(alloc, parts.as_slice())?)),
    }
}

/// The same schemes again.
#[cycle(copy)]
#[tactic(auto, using(crate::proofs::Parts::done_copied_values))]
pub fn copy_values(alloc: Global, args: &[Scheme]) -> Result<Items<Scheme>, NoMemory>
    ensures { IfOk result (λ all. map scheme all ≡ map scheme args.now) }
{
    let mut all = Items::new(alloc);
    for arg in args {
        all.push(copy_scheme(alloc, arg)?)?;
    }
    Ok(all)
}

#[cycle(copy)]
#[tactic(auto, using(crate::proofs::Parts::done_copied_parts))]
fn copy_parts(alloc: Global, parts: &[SArg]) -> Result<Items<SArg>, NoMemory>
    ensures { IfOk result (λ all. map scheme_part all ≡ map scheme_part parts.now) }
{
    let mut all = Items::new(alloc);
    for part in parts {
        let body = copy_scheme(alloc, &part.body)?;
        all.push(SArg {
            binds: part.binds,
            body,
        })?;
    }
    Ok(all)
}

/// The same entry again.
pub fn copy_entry(alloc: Global, entry: &SEntry) -> Result<SEntry, NoMemory>
    ensures { IfOk result (λ new. scheme_entry new ≡ scheme_entry entry.now) }
{
    let args = copy_values(alloc, entry.args.as_slice())?;
    Ok(SEntry {
        prod: entry.prod,
        args,
    })
}

/// The same metavariable again.
pub fn copy_meta(alloc: Global, decl: &MetaDecl) -> Result<MetaDecl, NoMemory>
    ensures { IfOk result (λ new. new ≡ decl.now) }
{
    Ok(MetaDecl {
        name: Text::of(alloc, decl.name.bytes())?,
        cat: decl.cat,
        params: Items::from_slice(alloc, decl.params.as_slice())?,
    })
}

fn copy_known(alloc: Global, decl: &KnownDecl) -> Result<KnownDecl, NoMemory>
    ensures { IfOk result (λ new. known_variable new ≡ known_variable decl.now) }
{
    Ok(KnownDecl {
        name: Text::of(alloc, decl.name.bytes())?,
        entry: copy_entry(alloc, &decl.entry)?,
    })
}

/// The same metavariables again.
#[tactic(auto, using(std::proofs::lemmas::List::take_all))]
pub fn copy_metas(alloc: Global, decls: &[MetaDecl]) -> Result<Items<MetaDecl>, NoMemory>
    ensures { IfOk result (λ all. all ≡ decls.now) }
{
    let mut all = Items::new(alloc);
    for decl in decls {
        all.push(copy_meta(alloc, decl)?)?;
    }
    Ok(all)
}

#[tactic(auto, using(std::proofs::lemmas::List::take_all))]
fn copy_knowns(alloc: Global, decls: &[KnownDecl]) -> Result<Items<KnownDecl>, NoMemory>
    ensures { IfOk result (λ all. map known_variable all ≡ map known_variable decls.now) }
{
    let mut all = Items::new(alloc);
    for decl in decls {
        all.push(copy_known(alloc, decl)?)?;
    }
    Ok(all)
}

/// The same scope again.
pub fn copy_scope(alloc: Global, scope: &Scope) -> Result<Scope, NoMemory>
    ensures { IfOk result (λ new. names new ≡ names scope.now) }
{
    Ok(Scope {
        root: scope.root,
        metas: copy_metas(alloc, scope.metas.as_slice())?,
        knowns: copy_knowns(alloc, scope.knowns.as_slice())?,
    })
}
