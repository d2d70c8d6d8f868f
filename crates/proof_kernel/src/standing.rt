// Where the steps that were kept so far stand.
use crate::here::{Goal, Here};
use crate::step::SplitHead;
use binding_terms::CatId;
use rule_schemes::JScheme;
use scheme_terms::{SCtx, Scheme};
use sqlite_items::Items;

/// The last step of a proof or a case: none yet, one with forms, or one that takes over the goal.
#[derive(Drop)]
pub enum Last {
    NoStep,
    WithForms(Items<JScheme>),
    TheGoal,
}

/// What a block analyses, as it stands there: a judgment, or a scheme of a category in a context.
#[derive(Drop)]
pub enum SubjectForm {
    Judgment(JScheme),
    Scheme {
        ctx: SCtx,
        scheme: Scheme,
        cat: CatId,
    },
}

/// A block that is begun: what was in scope before it, its head, what it analyses, the goal of its cases, how many numbers its forms and
/// its cases so far took, and how many of its cases are done.
#[derive(Drop)]
pub struct Opened {
    pub(crate) before: Here,
    pub(crate) head: SplitHead,
    pub(crate) subject: SubjectForm,
    pub(crate) goal: Goal,
    pub(crate) taken: usize,
    pub(crate) done: usize,
}

/// After so many theorems; among the steps of a theorem or a case, within the blocks that are begun, the outermost first; or before a case
/// or the end of the innermost block.
#[derive(Drop)]
pub enum Standing {
    Outside {
        ended: usize,
    },
    Within {
        theorem: usize,
        here: Here,
        last: Last,
        blocks: Vec<Opened>,
    },
    Between {
        theorem: usize,
        innermost: Opened,
        blocks: Vec<Opened>,
    },
}
