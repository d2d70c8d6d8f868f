// The goal of a block's cases.
ghost use Rattle.std.specs.Prelude.{◌≡◌, IfOk, map};
ghost use Rattle.rule_schemes.specs.View.{judgment_scheme};
ghost use Rattle.proof_trees.specs.Here.{goal_of};
ghost use Rattle.proof_kernel.specs.View.{goal as plain_goal};

use crate::here::Goal;
use binding_terms::NoMemory;
use rule_schemes::{JScheme, copy_judgment};
use scheme_terms::copy_metas;
use sqlite_items::Items;
use std::alloc::Global;

/// The same forms again.
#[tactic(auto, using(std::proofs::lemmas::List::take_all))]
pub(crate) fn copy_forms(alloc: Global, forms: &[JScheme]) -> Result<Items<JScheme>, NoMemory>
    ensures { IfOk result (λ all. map judgment_scheme all ≡ map judgment_scheme forms.now) }
{
    let mut all = Items::new(alloc);
    for form in forms {
        all.push(copy_judgment(alloc, form)?)?;
    }
    Ok(all)
}

impl Goal {
    fn copy(&self, alloc: Global) -> Result<Goal, NoMemory>
        ensures { IfOk result (λ new. plain_goal new ≡ plain_goal self.now) }
    {
        Ok(Goal {
            outer: self.outer,
            names: copy_metas(alloc, self.names.as_slice())?,
            forms: copy_forms(alloc, self.forms.as_slice())?,
        })
    }

    /// The goal of the cases of a block: the forms that are written, over so many names, or this goal where the block takes it over.
    pub(crate) fn of_cases(
        &self,
        alloc: Global,
        names: usize,
        forms: &[JScheme],
    ) -> Result<Goal, NoMemory>
        ensures { IfOk result (λ new. plain_goal new ≡ goal_of (plain_goal self.now) names (map judgment_scheme forms.now)) }
    {
        if forms.len() == 0 {
            return self.copy(alloc);
        }
        Ok(Goal {
            outer: names,
            names: Items::new(alloc),
            forms: copy_forms(alloc, forms)?,
        })
    }
}
