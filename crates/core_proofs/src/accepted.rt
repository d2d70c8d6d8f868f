// Proofs of which every step is right, and all of whose theorems are ended.
ghost use Rattle.std.specs.Prelude.{◌≡◌, ◌↔◌, [], IsTrue, IfSome, IfNone, length};
ghost use Rattle.std.specs.List.{AllByRecursion};
ghost use Rattle.rule_schemes.specs.View.{statement};
ghost use Rattle.core_proofs.specs.Kept.{kept_theory, kept_statements, IsAccepted};
ghost use Rattle.core_proofs.specs.Provable.{IsFirstNamed};
ghost use Rattle.core_proofs.specs.Trees.{whole_steps};
ghost use Rattle.proof_trees.specs.Standings.{AreWholeTrees};

use crate::step::CoreStep;
use rule_schemes::{Statement, System, TheoremId};
use std::alloc::Global;
use std::marker::Model;

/// Accepted proofs of all statements over a system.
#[derive(Drop)]
pub struct Accepted {
    system: System,
    statements: Vec<Statement>,
    steps: Vec<CoreStep>,
    /// The lines of unproved steps. There are none so far.
    unproved: Vec<u32>,
}

impl Model for Accepted {
    ghost use Rattle.std.specs.Prelude.{◌≡◌, []};
    ghost use Rattle.std.specs.Coded.{codes};
    ghost use Rattle.scheme_terms.specs.contracts.scheme.Scheme as of_scheme;
    ghost use Rattle.core_proofs.specs.Kept.{Kept};

    ghost Value = { Kept };

    ghost coded = { Prim.hlevel (codes, of_scheme.the_row.coded) };

    ghost use Rattle.core_proofs.specs.Kept.{IsAccepted};

    ghost view = { λ a. record { system = a.system; statements = a.statements.items; steps = a.steps.items } };

    ghost invariant = { λ a. IsAccepted (record { system = a.system; statements = a.statements.items; steps = a.steps.items })
        × (a.unproved.items ≡ []) };
}

/// Whether this is the name of the statement.
fn is_named(of: &Statement, name: &str) -> bool
    ensures { IsTrue result ↔ ((statement of.now).name ≡ name.now) }
{
    of.name.bytes() == name.as_bytes()
}

impl Accepted {
    pub(crate) fn new(
        alloc: Global,
        system: System,
        statements: Vec<Statement>,
        steps: Vec<CoreStep>,
    ) -> Accepted
        requires { IsAccepted (record { system = system; statements = statements.items; steps = steps.items }) }
        ensures { result ≡ record { system = system; statements = statements.items; steps = steps.items } }
    {
        Accepted {
            system,
            statements,
            steps,
            unproved: Vec::new(alloc),
        }
    }

    /// The system over which was proved.
    pub fn system(&self) -> &System
        ensures { result.now ≡ self.now.system }
    {
        &self.system
    }

    /// The statements that were proved.
    pub fn statements(&self) -> &Vec<Statement>
        ensures { result.now.items ≡ self.now.statements }
    {
        &self.statements
    }

    /// The steps of the proofs, in the order in which they were accepted.
    pub fn steps(&self) -> &Vec<CoreStep>
        ensures { result.now.items ≡ self.now.steps }
    {
        &self.steps
    }

    /// The lines of unproved steps. There are none so far.
    pub fn unproved(&self) -> &Vec<u32>
        ensures { result.now.items ≡ [] }
    {
        &self.unproved
    }

    /// The first theorem of that name. `None` where no theorem has it.
    pub fn theorem(&self, name: &str) -> Option<TheoremId>
        ensures some { IfSome result (λ id. IsFirstNamed (kept_statements self.now) name.now id.0) }
        ensures none { IfNone result (AllByRecursion (λ st. st.name ≡ name.now → ⊥) (kept_statements self.now)) }
    {
        for i in 0..self.statements.len() {
            if is_named(&self.statements[i], name) {
                return Some(TheoremId(i as u32));
            }
        }
        None
    }

    /// Tells a caller's proof what was accepted: nothing binds and there is no context, each statement can be proved so far, and the steps are right proofs of all of them.
    pub fn always_accepted(&self)
        ensures { IsAccepted self.now }
    {
        let _ = &self.steps;
    }

    /// Tells a caller's proof that the steps are those of right proofs on trees, one for each statement, in order.
    pub fn always_right_trees(&self)
        ensures { AreWholeTrees (kept_theory self.now) (kept_statements self.now) (length (kept_statements self.now)) (whole_steps self.now) }
    {
        self.always_accepted();
        let system = self.system();
        system.always_system();
    }
}
