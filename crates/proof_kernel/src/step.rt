// The steps of proofs.
use binding_terms::CatId;
use case_split::Place;
use rule_schemes::{JScheme, RuleId, TheoremId};
use scheme_terms::{MetaDecl, Scheme, Scope};
use sqlite_items::Items;

/// A step of a proof with a judgment, by its number: the given inputs first, then the forms of steps and the premises of cases, from 0 in
/// each theorem.
#[derive(Clone, Copy, Debug, PartialEq, Eq)]
pub struct StepId(pub u32);

/// An argument of a call: the derivation of a step, or a scheme.
#[derive(Drop)]
pub enum CallArgument {
    Step(StepId),
    Scheme(Scheme),
}

/// What a block analyses: the derivation of a step, or a scheme of a category.
#[derive(Drop)]
pub enum Subject {
    Step(StepId),
    Scheme { scheme: Scheme, cat: CatId },
}

/// The choice of a case: the number of a rule or production, and where its variable stands.
#[derive(Clone, Copy, Debug, PartialEq, Eq)]
pub struct CaseChoice {
    pub number: u32,
    pub place: Place,
}

/// The beginning of a block on cases: its forms, or none where it takes over the goal, what it analyses, and the choices of its cases.
#[derive(Drop)]
pub struct SplitHead {
    pub line: u32,
    pub forms: Items<JScheme>,
    pub subject: Subject,
    pub named: Items<CaseChoice>,
}

/// The head of a case: its choice, its scope, and its premises with a conclusion, or its term.
#[derive(Drop)]
pub struct CaseHead {
    pub line: u32,
    pub choice: CaseChoice,
    pub scope: Scope,
    pub premises: Items<JScheme>,
    pub conclusion: Option<JScheme>,
    pub term: Option<Scheme>,
}

/// A step of a proof, with the line on which it stands, counted from 1.
#[derive(Drop)]
pub enum CoreStep {
    /// The proof of a theorem begins.
    Begin(TheoremId),
    /// The proof ends.
    End {
        line: u32,
    },
    /// The form comes by a rule from the cited steps.
    Rule {
        line: u32,
        form: JScheme,
        rule: RuleId,
        on: Items<StepId>,
    },
    /// The forms come by a theorem on the arguments, with new names.
    Call {
        line: u32,
        forms: Items<JScheme>,
        callee: TheoremId,
        args: Items<CallArgument>,
        fresh: Items<MetaDecl>,
    },
    /// The forms are those of the cited steps.
    Again {
        line: u32,
        forms: Items<JScheme>,
        of: Items<StepId>,
    },
    /// The form is that of the cited step with one more explicit entry.
    Weakening {
        line: u32,
        form: JScheme,
        of: StepId,
    },
    /// The form is that of the cited step with its last two explicit entries exchanged.
    Exchange {
        line: u32,
        form: JScheme,
        of: StepId,
    },
    /// The form is that of the first cited step with the second one's term for the variable of its last explicit entry.
    Substitution {
        line: u32,
        form: JScheme,
        of: StepId,
        by: StepId,
    },
    /// The forms are claimed without a proof.
    Unproved {
        line: u32,
        forms: Items<JScheme>,
    },
    /// A block on cases begins.
    Split(SplitHead),
    /// A case of the innermost block begins.
    Case(CaseHead),
    /// The case ends.
    EndCase {
        line: u32,
    },
    /// The innermost block ends.
    EndSplit {
        line: u32,
    },
}
