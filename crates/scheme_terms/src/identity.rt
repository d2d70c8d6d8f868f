ghost use Rattle.std.specs.Prelude.{◌≡◌, IfOk, map};
ghost use Rattle.scheme_terms.specs.SchemeTree.{values};
ghost use Rattle.scheme_terms.specs.Substituting.{parameters, metas_from, knowns_from, identity};
ghost use Rattle.scheme_terms.specs.View.{scheme, known_variable, names, substitution};

use crate::copying::copy_scope;
use crate::scheme::{KnownDecl, MetaDecl, MetaId, Scheme, Scope, Subst};
use binding_terms::NoMemory;
use sqlite_items::Items;
use std::alloc::Global;

/// The parameters of a metavariable in their order, as its innermost locals.
pub fn make_parameters(alloc: Global, count: usize) -> Result<Items<Scheme>, NoMemory>
    ensures { IfOk result (λ all. map scheme all ≡ parameters count) }
{
    let mut all = Items::new(alloc);
    let mut left = count;
    while left > 0 {
        left -= 1;
        all.push(Scheme::Local(left))?;
    }
    Ok(all)
}

fn make_metas(alloc: Global, decls: &[MetaDecl]) -> Result<Items<Scheme>, NoMemory>
    ensures { IfOk result (λ all. map scheme all ≡ metas_from 0 decls.now) }
{
    let mut all = Items::new(alloc);
    for number in 0..decls.len() {
        let args = make_parameters(alloc, decls[number].params.len())?;
        all.push(Scheme::Meta(MetaId(binding_terms::number(number)?), args))?;
    }
    Ok(all)
}

fn make_knowns(alloc: Global, decls: &[KnownDecl]) -> Result<Items<u32>, NoMemory>
    ensures { IfOk result (λ all. all ≡ knowns_from 0 (map known_variable decls.now)) }
{
    let mut all = Items::new(alloc);
    for number in 0..decls.len() {
        all.push(binding_terms::number(number)?)?;
    }
    Ok(all)
}

/// The substitution of a scope into itself that changes nothing. `NoMemory` also where a name's number would pass `u32::MAX`.
pub fn identity_of(alloc: Global, scope: &Scope) -> Result<Subst, NoMemory>
    ensures { IfOk result (λ new. substitution new ≡ identity (names scope.now)) }
{
    Ok(Subst {
        metas: make_metas(alloc, scope.metas.as_slice())?,
        knowns: make_knowns(alloc, scope.knowns.as_slice())?,
        into: copy_scope(alloc, scope)?,
    })
}
