// Blocks that are begun.
ghost use Rattle.std.specs.Prelude.{◌≡◌, OnOk, OnErr, length, map};
ghost use Rattle.rule_schemes.specs.View.{judgment_scheme};
ghost use Rattle.proof_trees.specs.Here.{goal_of};
ghost use Rattle.proof_trees.specs.Standings.{opened, after_opened};
ghost use Rattle.proof_kernel.specs.Moves.{case_ended};
ghost use Rattle.proof_kernel.specs.View.{goal as plain_goal, here as plain_here, split_head, subject_form, opened as plain_opened};

use crate::here::{Goal, Here};
use crate::standing::{Opened, SubjectForm};
use crate::step::SplitHead;
use binding_terms::NoMemory;
use std::alloc::Global;

impl Opened {
    /// A block as it begins, with the goal of its cases.
    pub(crate) fn begun(before: Here, head: SplitHead, subject: SubjectForm, goal: Goal) -> Opened
        requires { plain_goal goal ≡ goal_of (plain_goal before.goal) (length before.scope.metas) (map judgment_scheme head.forms) }
        ensures { plain_opened result ≡ opened (plain_here before) (split_head head) (subject_form subject) }
    {
        let taken = head.forms.len();
        Opened {
            before,
            head,
            subject,
            goal,
            taken,
            done: 0,
        }
    }

    /// After the next of its cases, at whose end so many numbers were taken; where no case is due nothing changes.
    pub(crate) fn end_case(&mut self, numbers: usize)
        ensures { plain_opened self.new ≡ case_ended (plain_opened self.old) (plain_opened self.old).due numbers }
    {
        if self.done < self.head.named.len() {
            let own = numbers.saturating_sub(self.before.held.len());
            self.taken = self.taken.max(own);
            self.done += 1;
        }
    }

    /// Puts its forms in scope before it, under the numbers that they took. Want of memory changes nothing.
    pub(crate) fn give_forms(&mut self, alloc: Global) -> Result<(), NoMemory>
        ensures ok { OnOk result (plain_here self.new.before ≡ after_opened (plain_opened self.old)) }
        ensures head { self.new.head ≡ self.old.head }
        ensures err { OnErr result (plain_opened self.new ≡ plain_opened self.old) }
    {
        let nothing = self.taken.saturating_sub(self.head.forms.len());
        let forms = self.head.forms.as_slice();
        self.before.add_all_unrelated(alloc, forms, nothing)
    }
}
