// What a step cites.
ghost use Rattle.std.specs.Prelude.{◌≡◌, ◌↔◌, IsTrue, map, option_map};
ghost use Rattle.std.specs.List.{AllByRecursion};
ghost use Rattle.rule_schemes.specs.View.{judgment_scheme};
ghost use Rattle.proof_trees.specs.Here.{held_at};
ghost use Rattle.proof_trees.specs.Faults.{IsInScope};
ghost use Rattle.proof_trees.specs.Right.{AreCited, IsCited};
ghost use Rattle.proof_kernel.specs.View.{here};

use crate::here::Here;
use crate::same::same_judgment;
use crate::step::StepId;
use rule_schemes::JScheme;
use sqlite_items::at;

impl Here {
    /// The form of the derivation with this number, where it is in scope.
    pub fn cited(&self, step: StepId) -> Option<&JScheme>
        ensures { option_map (λ j. judgment_scheme j.now) result ≡ option_map (λ h. h.judgment) (held_at (here self.now) step.0) }
    {
        match at(self.held.as_slice(), step.0 as usize) {
            Some(Some(held)) => Some(&held.form),
            _ => None,
        }
    }

    /// Whether the number is of a derivation in scope.
    pub fn is_in_scope(&self, step: StepId) -> bool
        ensures { IsTrue result ↔ IsInScope (here self.now) step.0 }
    {
        self.cited(step).is_some()
    }

    /// Whether each number is of a derivation in scope.
    pub fn are_in_scope(&self, on: &[StepId]) -> bool
        ensures { IsTrue result ↔ AllByRecursion (IsInScope (here self.now)) (map (λ id. id.0) on.now) }
    {
        for step in on {
            if !self.is_in_scope(*step) {
                return false;
            }
        }
        true
    }

    /// Whether the derivation with this number is in scope and has the form.
    pub fn is_cited(&self, step: StepId, form: &JScheme) -> bool
        ensures { IsTrue result ↔ IsCited (here self.now) step.0 (judgment_scheme form.now) }
    {
        match self.cited(step) {
            Some(found) => same_judgment(found, form),
            None => false,
        }
    }

    /// Whether the derivations with these numbers are in scope and have the forms, in order.
    pub fn are_cited(&self, of: &[StepId], forms: &[JScheme]) -> bool
        ensures { IsTrue result ↔ AreCited (here self.now) (map (λ id. id.0) of.now) (map judgment_scheme forms.now) }
    {
        if of.len() != forms.len() {
            return false;
        }
        for i in 0..of.len() {
            if !self.is_cited(of[i], &forms[i]) {
                return false;
            }
        }
        true
    }
}
