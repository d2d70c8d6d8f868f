// How the standing of kept steps moves.
ghost use Rattle.std.specs.Prelude.{◌≡◌, OnOk, OnErr, map};
ghost use Rattle.rule_schemes.specs.View.{judgment_scheme};
ghost use Rattle.proof_trees.specs.Goals.{taking_over};
ghost use Rattle.proof_kernel.specs.Growth.{HasRoom, IsGoalOfCases, resumed, begun_case};
ghost use Rattle.proof_kernel.specs.Moves as moves;
ghost use Rattle.proof_kernel.specs.View.{here as plain_here, split_head, subject_form, last, standing};

use crate::here::{Goal, Here};
use crate::standing::{Last, Opened, Standing, SubjectForm};
use crate::step::SplitHead;
use binding_terms::NoMemory;
use rule_schemes::JScheme;
use sqlite_items::Items;
use std::alloc::Global;
use std::mem;

impl Last {
    /// A block or an unproved step without a form takes over the goal.
    fn taking_over(forms: Items<JScheme>) -> Last
        ensures { last result ≡ taking_over (map judgment_scheme forms) }
    {
        if forms.len() == 0 {
            Last::TheGoal
        } else {
            Last::WithForms(forms)
        }
    }
}

impl Standing {
    /// Takes the standing out.
    fn take(&mut self) -> Standing
        ensures { result ≡ self.old }
    {
        mem::replace(self, Standing::Outside { ended: 0 })
    }

    /// A block begins among the steps.
    pub fn split(
        &mut self,
        alloc: Global,
        head: SplitHead,
        subject: SubjectForm,
    ) -> Result<(), NoMemory>
        ensures ok { OnOk result (standing self.new ≡ moves.split (split_head head) (subject_form subject) (standing self.old)) }
        ensures err { OnErr result (self.new ≡ self.old) }
    {
        let goal = match self {
            Standing::Within { here, .. } => {
                let names = here.scope.metas.len();
                here.goal.of_cases(alloc, names, head.forms.as_slice())?
            }
            _ => return Ok(()),
        };
        *self = self.take().with_block(head, subject, goal);
        Ok(())
    }

    fn with_block(self, head: SplitHead, subject: SubjectForm, goal: Goal) -> Standing
        requires { IsGoalOfCases self head.forms goal }
        ensures { standing result ≡ moves.split (split_head head) (subject_form subject) (standing self) }
    {
        match self {
            Standing::Within {
                theorem,
                here,
                blocks,
                ..
            } => Standing::Between {
                theorem,
                innermost: Opened::begun(here, head, subject, goal),
                blocks,
            },
            at => at,
        }
    }

    /// The case ends: its block waits for the next one.
    pub fn leave(&mut self)
        ensures { standing self.new ≡ moves.left (standing self.old) }
    {
        *self = self.take().after_case();
    }

    fn after_case(self) -> Standing
        ensures { standing result ≡ moves.left (standing self) }
    {
        match self {
            Standing::Within {
                theorem,
                here,
                last,
                mut blocks,
            } => match blocks.pop() {
                Some(mut innermost) => {
                    innermost.end_case(here.held.len());
                    Standing::Between {
                        theorem,
                        innermost,
                        blocks,
                    }
                }
                None => Standing::Within {
                    theorem,
                    here,
                    last,
                    blocks,
                },
            },
            at => at,
        }
    }

    /// The innermost block ends: its forms come in scope. Want of memory changes nothing.
    pub fn close(&mut self, alloc: Global) -> Result<(), NoMemory>
        ensures ok { OnOk result (standing self.new ≡ moves.closed (standing self.old)) }
        ensures err { OnErr result (standing self.new ≡ standing self.old) }
    {
        self.give_forms(alloc)?;
        *self = self.take().without_innermost();
        Ok(())
    }

    /// Puts the forms of the innermost block in scope before it.
    fn give_forms(&mut self, alloc: Global) -> Result<(), NoMemory>
        ensures ok { OnOk result (resumed (standing self.new) ≡ moves.closed (standing self.old)) }
        ensures err { OnErr result (standing self.new ≡ standing self.old) }
    {
        match self {
            Standing::Between { innermost, .. } => innermost.give_forms(alloc),
            _ => Ok(()),
        }
    }

    fn without_innermost(self) -> Standing
        ensures { standing result ≡ resumed (standing self) }
    {
        match self {
            Standing::Between {
                theorem,
                innermost,
                blocks,
            } => {
                let Opened { before, head, .. } = innermost;
                let SplitHead { forms, .. } = head;
                Standing::Within {
                    theorem,
                    here: before,
                    last: Last::taking_over(forms),
                    blocks,
                }
            }
            at => at,
        }
    }

    fn with_case(self, here: Here) -> Standing
        requires { HasRoom self }
        ensures { standing result ≡ begun_case (plain_here here) (standing self) }
    {
        match self {
            Standing::Between {
                theorem,
                innermost,
                mut blocks,
            } => {
                blocks.push_reserved(innermost);
                Standing::Within {
                    theorem,
                    here,
                    last: Last::NoStep,
                    blocks,
                }
            }
            at => at,
        }
    }

    /// The proof of a theorem ends, outside all blocks.
    pub fn end(&mut self) -> Result<(), NoMemory>
        ensures ok { OnOk result (standing self.new ≡ moves.ended (standing self.old)) }
        ensures err { OnErr result (self.new ≡ self.old) }
    {
        if let Standing::Within {
            theorem,
            blocks,
            ..
        } = self
        {
            if blocks.len() == 0 {
                let ended = theorem.checked_add(1).ok_or(NoMemory)?;
                *self = Standing::Outside { ended };
            }
        }
        Ok(())
    }
}
