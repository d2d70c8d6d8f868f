// What a right step adds to what is in scope.
ghost use Rattle.std.specs.Prelude.{◌≡◌, ◌∷◌, [], Some, IfOk, OnOk, OnErr, map, option_map};
ghost use Rattle.induction_order.specs.declared.relation.Rel.TheVariants.{Unknown};
ghost use Rattle.rule_schemes.specs.View.{judgment_scheme};
ghost use Rattle.scheme_terms.specs.View.{scheme};
ghost use Rattle.proof_trees.specs.Here.{holding, relations_at, unrelated};
ghost use Rattle.proof_kernel.specs.View.{here as plain_here};

use crate::here::{Held, Here};
use crate::step::StepId;
use binding_terms::NoMemory;
use induction_order::Rel;
use rule_schemes::JScheme;
use scheme_terms::Scheme;
use sqlite_items::{Items, at};
use std::alloc::Global;

/// Nothing known against each of these targets.
#[tactic(auto, using(std::proofs::lemmas::List::take_all))]
fn unknowns(alloc: Global, targets: &[Option<Scheme>]) -> Result<Items<Rel>, NoMemory>
    ensures { IfOk result (λ all. all ≡ map (λ target. Unknown) (map (option_map scheme) targets.now)) }
{
    let mut all = Items::new(alloc);
    for _target in targets {
        all.push(Rel::Unknown)?;
    }
    Ok(all)
}

impl Here {
    /// Puts a derivation of the form at the end, of which nothing is known against any target, as a step by a rule and a substitution do.
    /// Want of memory changes nothing.
    pub fn add_unrelated(&mut self, alloc: Global, form: JScheme) -> Result<(), NoMemory>
        ensures ok { OnOk result (plain_here self.new
            ≡ holding (plain_here self.old) (Some (unrelated (plain_here self.old) (judgment_scheme form)) ∷ [])) }
        ensures err { OnErr result (self.new ≡ self.old) }
    {
        let relations = unknowns(alloc, self.targets.as_slice())?;
        self.held.push(Some(Held { form, relations }))?;
        Ok(())
    }

    /// The marks of the derivation with this number against the targets; of a number out of scope nothing is known.
    fn relations_of(&self, alloc: Global, step: StepId) -> Result<Items<Rel>, NoMemory>
        ensures { IfOk result (λ all. all ≡ relations_at (plain_here self.now) step.0) }
    {
        match at(self.held.as_slice(), step.0 as usize) {
            Some(Some(held)) => {
                let again = Items::from_slice(alloc, held.relations.as_slice())?;
                Ok(again)
            }
            _ => unknowns(alloc, self.targets.as_slice()),
        }
    }

    /// Puts a derivation of the form at the end, with the marks of the cited one, as a step by a name, a weakening and an exchange do. Want of
    /// memory changes nothing.
    pub fn add_related(&mut self, alloc: Global, form: JScheme, of: StepId) -> Result<(), NoMemory>
        ensures ok { OnOk result (plain_here self.new ≡ holding (plain_here self.old)
            (Some (record { judgment = judgment_scheme form; relations = relations_at (plain_here self.old) of.0 }) ∷ [])) }
        ensures err { OnErr result (self.new ≡ self.old) }
    {
        let relations = self.relations_of(alloc, of)?;
        self.held.push(Some(Held { form, relations }))?;
        Ok(())
    }
}
