//! What instances and substitutions keep, and how one goes after another. Most functions here do nothing, since their contracts
//! are the laws; the last two run the calls.

ghost use Rattle.std.specs.Prelude.{◌≡◌, IfOk};
ghost use Rattle.std.specs.List.{AllByRecursion};
ghost use Rattle.binding_terms.specs.View.{tree};
ghost use Rattle.scheme_terms.specs.Instance.{instance_of};
ghost use Rattle.scheme_terms.specs.Substituting.{applied, composed, followed, Suits, IsSaturated};
ghost use Rattle.scheme_terms.specs.View.{scheme, substitution, instance as view};
ghost use Rattle.scheme_terms.specs.Laws.{InstanceOfApplied, InstanceOfAppliedScheme, InstanceKeepsScope, InstanceKeepsScopeOfMetas, StrictAgreement, StrictAgreementInScope, InstanceAsksForValues, SubstitutionAsksForSchemes, AppliedAnywhere, AppliedRaised, AppliedTwice, ShiftKeepsScheme, ApplyKeepsScope, AppliedTwiceInScope, ComposedIsSubstitution, FollowedFits, InstanceRaised, SubstitutionsAgree, InstancesAgree, IdentityChangesNothing, IdentityKeepsSchemes, IdentityIsSubstitution};

use crate::instantiate::instance;
use crate::scheme::{Inst, MetaDecl, Scheme, Subst};
use crate::substitute::{apply, compose};
use binding_terms::{NoMemory, Term};
use std::alloc::Global;

/// The instance of a scheme in which schemes were put in.
#[tactic(auto, using(crate::proofs::Followed::instance_of_applied, crate::proofs::Followed::instance_of_applied_scheme))]
pub fn instance_of_applied()
    ensures at_any_depth { InstanceOfApplied }
    ensures in_scope { InstanceOfAppliedScheme }
{}

/// The instance of a scheme is a term of its category.
#[tactic(auto, using(crate::proofs::InstanceScopes::instance_keeps_scope, crate::proofs::InstanceScopes::instance_keeps_scope_of_metas))]
pub fn instance_keeps_scope()
    ensures keeps { InstanceKeepsScope }
    ensures of_metas { InstanceKeepsScopeOfMetas }
{}

/// A strict occurrence tells the value of its metavariable: two instances that give a scheme the same instance give the same value
/// to a metavariable with a strict occurrence in it, which is what that occurrence asks for.
pub fn strict_agreement()
    ensures of_locals { StrictAgreement }
    ensures in_scope { StrictAgreementInScope }
    ensures asked { InstanceAsksForValues }
    ensures asked_of_schemes { SubstitutionAsksForSchemes }
{}

/// The locals around a scheme do not count where each name has a value, and raising goes before or after.
#[tactic(auto, using(crate::proofs::AppliedSchemes::applied_anywhere_law, crate::proofs::AppliedSchemes::applied_raised_law))]
pub fn applied_under_locals()
    ensures anywhere { AppliedAnywhere }
    ensures raised { AppliedRaised }
{}

/// One substitution after another is their composition.
#[tactic(auto, using(crate::proofs::AppliedSchemes::applied_twice_law, crate::proofs::Compositions::applied_twice_in_scope))]
pub fn applied_twice()
    ensures of_names { AppliedTwice }
    ensures in_scope { AppliedTwiceInScope }
{}

/// The composition of two substitutions is a substitution.
#[tactic(auto, using(crate::proofs::Compositions::composed_is_substitution))]
pub fn compose_keeps_scope()
    ensures { ComposedIsSubstitution }
{}

/// A substitution followed by an instance of its scope is an instance of the scope from which it goes.
#[tactic(auto, using(crate::proofs::Compositions::followed_fits))]
pub fn followed_fits()
    ensures { FollowedFits }
{}

/// The instance of a raised scheme is the raised instance.
#[tactic(auto, using(crate::proofs::Compositions::instance_raised))]
pub fn instance_raised()
    ensures { InstanceRaised }
{}

/// Raising keeps the category of a scheme, in the locals with what it was raised over.
#[tactic(auto, using(crate::proofs::SchemeScopes::shift_keeps_scheme))]
pub fn shift_keeps_scheme()
    ensures { ShiftKeepsScheme }
{}

/// What a substitution makes of a scheme is a scheme of its category.
#[tactic(auto, using(crate::proofs::SchemeScopes::apply_keeps_scope))]
pub fn apply_keeps_scope()
    ensures { ApplyKeepsScope }
{}

/// What is the same on the names of a scheme makes the same of it.
#[tactic(auto, using(crate::proofs::Agreements::substitutions_agree, crate::proofs::Agreements::instances_agree))]
pub fn names_decide()
    ensures substitutions { SubstitutionsAgree }
    ensures instances { InstancesAgree }
{}

/// The identity is a substitution and changes nothing.
#[tactic(auto, using(crate::proofs::Identities::identity_changes_nothing, crate::proofs::Identities::identity_keeps_schemes, crate::proofs::Identities::identity_is_substitution))]
pub fn identity_changes_nothing()
    ensures of_names { IdentityChangesNothing }
    ensures in_scope { IdentityKeepsSchemes }
    ensures keeps_scope { IdentityIsSubstitution }
{}

/// Puts schemes in by one substitution after another, and by their composition. The two are the same where each name has a value.
pub fn apply_both_ways(
    alloc: Global,
    s: &Scheme,
    first: &Subst,
    after: &Subst,
) -> Result<(Scheme, Scheme), NoMemory>
    ensures in_turn { IfOk result (λ both. scheme both.0 ≡ applied (substitution after.now).metas (substitution after.now).knowns 0
        (applied (substitution first.now).metas (substitution first.now).knowns 0 (scheme s.now))) }
    ensures at_once { let by = composed (substitution first.now) (substitution after.now) in
        IfOk result (λ both. scheme both.1 ≡ applied by.metas by.knowns 0 (scheme s.now)) }
    ensures same { Suits (substitution first.now).metas (substitution first.now).knowns (scheme s.now) →
        AllByRecursion (Suits (substitution after.now).metas (substitution after.now).knowns) (substitution first.now).metas →
        IfOk result (λ both. scheme both.0 ≡ scheme both.1) }
{
    let once = apply(alloc, s, first)?;
    let left = apply(alloc, &once, after)?;
    let both = compose(alloc, first, after)?;
    let right = apply(alloc, s, &both)?;
    Ok((left, right))
}

/// The instance of what a substitution makes of a scheme, and the scheme's instance under the substitution followed by the
/// instance. The two are the same where each name has a value.
pub fn instance_both_ways(
    alloc: Global,
    s: &Scheme,
    locals: usize,
    metas: &[MetaDecl],
    by: &Subst,
    inst: &Inst,
    followed_by: &Inst,
) -> Result<(Term, Term), NoMemory>
    ensures in_turn { IfOk result (λ both. tree both.0 ≡ instance_of (view inst.now) locals
        (applied (substitution by.now).metas (substitution by.now).knowns 0 (scheme s.now))) }
    ensures at_once { IfOk result (λ both. tree both.1 ≡ instance_of (view followed_by.now) locals (scheme s.now)) }
    ensures same { IsSaturated metas.now (scheme s.now) → Suits (substitution by.now).metas (substitution by.now).knowns (scheme s.now) →
        view followed_by.now ≡ followed metas.now (substitution by.now) (view inst.now) →
        IfOk result (λ both. tree both.0 ≡ tree both.1) }
{
    let put = apply(alloc, s, by)?;
    let left = instance(alloc, &put, locals, inst)?;
    let right = instance(alloc, s, locals, followed_by)?;
    Ok((left, right))
}
