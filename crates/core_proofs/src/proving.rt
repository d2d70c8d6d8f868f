// The object that keeps right steps.
ghost use Rattle.std.specs.Prelude.{◌≡◌, ◌↔◌, ◌++◌, ◌∷◌, ◌<◌, ◌^◌, [], map, option_map, vec_len, IfOk, IfErr, IsOk, OnOk, OnErr, IsErrOf};
ghost use Rattle.std.specs.List.{AllByRecursion};
ghost use Rattle.rule_schemes.specs.Plain.{IsPlainTheory};
ghost use Rattle.rule_schemes.specs.View.{theory, statement, judgment_scheme};
ghost use Rattle.core_proofs.specs.Faults.{IsTold};
ghost use Rattle.core_proofs.specs.Kept.{kept_theory, kept_statements, kept_steps, form_at};
ghost use Rattle.core_proofs.specs.Proof.{Standing, outside, Leads, Proves};
ghost use Rattle.core_proofs.specs.Provable.{IsProvable};
ghost use Rattle.core_proofs.specs.Step.{begin_theorem, end_theorem, by_rule};
ghost use Rattle.core_proofs.specs.View.{step as plain_step};
ghost use Rattle.sy_base.specs.declared.fault.Fault.{Fault};
ghost use Rattle.sy_base.specs.declared.fault.Refusal.TheVariants.{Refused};

use crate::accepted::Accepted;
use crate::citing::{rule_detail, rule_fault};
use crate::goal::has_goal;
use crate::scoping::{given_forms, proof_scope};
use crate::step::{CoreStep, StepId};
use binding_terms::{NoMemory, Text};
use rule_schemes::{JScheme, RuleId, Statement, System, TheoremId, copy_judgment};
use scheme_terms::{Root, Scope};
use sqlite_items::{Items, at};
use std::alloc::Global;
use std::marker::Model;
use sy_base::{Code, Fault, Refusal};

/// The steps of proofs so far, each of them right.
#[derive(Drop)]
pub struct Proving {
    alloc: Global,
    system: System,
    statements: Vec<Statement>,
    steps: Vec<CoreStep>,
    /// How many theorems are ended.
    ended: usize,
    /// Whether the proof of the next one was begun.
    inside: bool,
    scope: Scope,
    /// The forms in scope, by the numbers of their steps.
    forms: Vec<JScheme>,
    /// The number of the last step.
    last: Option<usize>,
}

impl Model for Proving {
    ghost use Rattle.std.specs.Coded.{codes};
    ghost use Rattle.scheme_terms.specs.contracts.scheme.Scheme as of_scheme;
    ghost use Rattle.core_proofs.specs.Kept.{Kept};

    ghost Value = { Kept };

    ghost coded = { Prim.hlevel (codes, of_scheme.the_row.coded) };

    ghost use Rattle.std.specs.Prelude.{map};
    ghost use Rattle.scheme_terms.specs.View.{names};
    ghost use Rattle.rule_schemes.specs.View.{judgment_scheme};
    ghost use Rattle.core_proofs.specs.Kept.{standing, IsProving};

    ghost view = { λ p. record { system = p.system; statements = p.statements.items; steps = p.steps.items } };

    ghost invariant = { λ p. IsProving (record { system = p.system; statements = p.statements.items; steps = p.steps.items })
        (standing p.inside p.ended (names p.scope) (map judgment_scheme p.forms.items) p.last) };
}

/// A refusal at a line with a code, and no more to tell.
fn refusal(alloc: Global, line: u32, code: Code) -> Refusal
    ensures { result ≡ Refused (record { line = line; code = code; detail = [] }) }
{
    Refusal::Refused(Fault {
        line,
        code,
        detail: Text::new(alloc),
    })
}

/// The form of the last step, by its number.
fn last_form(forms: &[JScheme], last: Option<usize>) -> Option<&JScheme>
    ensures { option_map (λ j. judgment_scheme j.now) result ≡ form_at (map judgment_scheme forms.now) last }
{
    match last {
        Some(number) => at(forms, number),
        None => None,
    }
}

impl Proving {
    /// Proofs of the statements over the system, without a step. So far nothing binds there and there is no context, and each statement
    /// can be proved (`IsProvable`).
    pub fn open(
        alloc: Global,
        system: System,
        statements: Vec<Statement>,
    ) -> Result<Proving, NoMemory>
        requires plain { IsPlainTheory (theory system) }
        requires provable { AllByRecursion (IsProvable (theory system)) (map statement statements.items) }
        requires count { vec_len statements < 2 ^ 32 }
        ensures { IfOk result (λ p. p ≡ record { system = system; statements = statements.items; steps = [] }) }
    {
        Ok(Proving {
            alloc,
            system,
            statements,
            steps: Vec::new(alloc),
            ended: 0,
            inside: false,
            scope: Scope {
                root: Root::Closed,
                metas: Items::new(alloc),
                knowns: Items::new(alloc),
            },
            forms: Vec::new(alloc),
            last: None,
        })
    }

    /// The system over which is proved.
    pub fn system(&self) -> &System
        ensures { result.now ≡ self.now.system }
    {
        &self.system
    }

    /// The statements that are to be proved.
    pub fn statements(&self) -> &Vec<Statement>
        ensures { result.now.items ≡ self.now.statements }
    {
        &self.statements
    }

    /// Keeps a step where it is right, and refuses it only where it is not, with its line (0 for a beginning) and the code that applies:
    /// `BadStep` before any other where it cannot stand here, `WrongCount` and the number of the rule's premises, `NotInstance` and the
    /// rule's name, or `NotTheGoal`. After a refusal nothing changed.
    pub fn accept_step(&mut self, step: CoreStep) -> Result<(), Refusal>
        ensures ok { OnOk result (self.new ≡ record self.old { steps = self.old.steps ++ step ∷ [] }) }
        ensures refused { (fault : Fault) → IsErrOf result (Refused fault) → (to : Standing)
            → Leads (kept_theory self.old) (kept_statements self.old) (outside 0) (kept_steps self.old ++ plain_step step ∷ []) to → ⊥ }
        ensures told { IfErr result (IsTold self.old (plain_step step)) }
        ensures err { OnErr result (self.new ≡ self.old) }
    {
        match step {
            CoreStep::Begin(theorem) => self.begin(theorem),
            CoreStep::End { line } => self.end(line),
            CoreStep::Rule {
                line,
                form,
                rule,
                on,
            } => self.add_rule_step(line, form, rule, on),
        }
    }

    /// Begins the proof of a theorem.
    fn begin(&mut self, theorem: TheoremId) -> Result<(), Refusal>
        ensures ok { OnOk result (self.new ≡ record self.old { steps = self.old.steps ++ CoreStep.Begin theorem ∷ [] }) }
        ensures refused { (fault : Fault) → IsErrOf result (Refused fault) → (to : Standing)
            → Leads (kept_theory self.old) (kept_statements self.old) (outside 0) (kept_steps self.old ++ begin_theorem theorem.0 ∷ []) to → ⊥ }
        ensures told { IfErr result (IsTold self.old (begin_theorem theorem.0)) }
        ensures err { OnErr result (self.new ≡ self.old) }
    {
        if self.inside {
            return Err(refusal(self.alloc, 0, Code::BadStep));
        }
        if theorem.0 as usize != self.ended {
            return Err(refusal(self.alloc, 0, Code::BadStep));
        }
        let begun = match at(self.statements.as_slice(), self.ended) {
            Some(begun) => begun,
            None => return Err(refusal(self.alloc, 0, Code::BadStep)),
        };
        let scope = proof_scope(self.alloc, begun)?;
        let forms = given_forms(self.alloc, begun.inputs.as_slice())?;
        self.steps.push(CoreStep::Begin(theorem))?;
        self.scope = scope;
        self.forms = forms;
        self.last = None;
        self.inside = true;
        Ok(())
    }

    /// Ends the proof of a theorem.
    fn end(&mut self, line: u32) -> Result<(), Refusal>
        ensures ok { OnOk result (self.new ≡ record self.old { steps = self.old.steps ++ CoreStep.End line ∷ [] }) }
        ensures refused { (fault : Fault) → IsErrOf result (Refused fault) → (to : Standing)
            → Leads (kept_theory self.old) (kept_statements self.old) (outside 0) (kept_steps self.old ++ end_theorem line ∷ []) to → ⊥ }
        ensures told { IfErr result (IsTold self.old (end_theorem line)) }
        ensures err { OnErr result (self.new ≡ self.old) }
    {
        if !self.inside {
            return Err(refusal(self.alloc, line, Code::BadStep));
        }
        self.system.always_system();
        let form = match last_form(self.forms.as_slice(), self.last) {
            Some(form) => form,
            None => return Err(refusal(self.alloc, line, Code::NotTheGoal)),
        };
        let ended = match at(self.statements.as_slice(), self.ended) {
            Some(ended) => ended,
            // Within a proof there is its theorem.
            None => unreachable!(),
        };
        if !has_goal(self.alloc, &self.system, ended, &self.scope, form)? {
            return Err(refusal(self.alloc, line, Code::NotTheGoal));
        }
        self.steps.push(CoreStep::End { line })?;
        self.ended += 1;
        self.inside = false;
        Ok(())
    }

    /// Adds a step by a rule.
    fn add_rule_step(
        &mut self,
        line: u32,
        form: JScheme,
        rule: RuleId,
        on: Items<StepId>,
    ) -> Result<(), Refusal>
        ensures ok { OnOk result (self.new ≡ record self.old { steps = self.old.steps ++ CoreStep.Rule line form rule on ∷ [] }) }
        ensures refused { (fault : Fault) → IsErrOf result (Refused fault) → (to : Standing)
            → Leads (kept_theory self.old) (kept_statements self.old) (outside 0)
            (kept_steps self.old ++ by_rule line (judgment_scheme form) rule.0 (map (λ id. id.0) on) ∷ []) to → ⊥ }
        ensures told { IfErr result (IsTold self.old (by_rule line (judgment_scheme form) rule.0 (map (λ id. id.0) on))) }
        ensures err { OnErr result (self.new ≡ self.old) }
    {
        if !self.inside {
            return Err(refusal(self.alloc, line, Code::BadStep));
        }
        self.system.always_system();
        let scoped = self.forms.as_slice();
        let fault = rule_fault(
            self.alloc,
            &self.system,
            &self.scope,
            scoped,
            &form,
            rule,
            on.as_slice(),
        )?;
        if let Some(code) = fault {
            let detail = rule_detail(self.alloc, &self.system, rule, code)?;
            return Err(Refusal::Refused(Fault { line, code, detail }));
        }
        let again = copy_judgment(self.alloc, &form)?;
        let number = self.forms.len();
        self.forms.reserve(1)?;
        self.steps.push(CoreStep::Rule {
            line,
            form,
            rule,
            on,
        })?;
        self.forms.push(again)?;
        self.last = Some(number);
        Ok(())
    }

    /// The proofs, where all theorems are ended; otherwise the same again.
    pub fn finish(self) -> Result<Accepted, Proving>
        ensures ok { IfOk result (λ accepted. accepted ≡ self) }
        ensures err { IfErr result (λ same. same ≡ self) }
        ensures ended { IsOk result ↔ Proves (kept_theory self) (kept_statements self) (kept_steps self) }
    {
        if self.inside {
            return Err(self);
        }
        if self.ended != self.statements.len() {
            return Err(self);
        }
        let Proving {
            alloc,
            system,
            statements,
            steps,
            ..
        } = self;
        Ok(Accepted::new(alloc, system, statements, steps))
    }
}
