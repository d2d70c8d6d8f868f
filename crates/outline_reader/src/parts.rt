// The portions of a file, which lend its tokens.
use crate::fault::Part;
use proof_lexer::Token;

pub type Name<'a> = &'a Token<'a>;

/// One or more tokens, none of them a reserved word; of a production none or more.
pub type Form<'a> = &'a [Token<'a>];

/// The portions of a file, in text order.
#[derive(Drop)]
pub struct Outline<'a> {
    pub parts: Vec<Portion<'a>>,
}

#[derive(Clone, Copy)]
pub struct NamedForm<'a> {
    pub name: Name<'a>,
    pub form: Form<'a>,
}

/// An argument: a name, or a form without the parentheses around it.
#[derive(Clone, Copy)]
pub enum ArgText<'a> {
    Name(Name<'a>),
    Form(Form<'a>),
}

#[derive(Clone, Copy)]
pub enum InputText<'a> {
    Given(NamedForm<'a>),
    Syntax(Name<'a>),
}

/// What justifies a step.
#[derive(Drop)]
pub enum Just<'a> {
    Rule {
        name: Name<'a>,
        on: Vec<ArgText<'a>>,
    },
    /// The kind is the word `theorem` or `lemma`.
    Theorem {
        kind: Name<'a>,
        name: Name<'a>,
        on: Vec<ArgText<'a>>,
    },
    Hypothesis {
        on: Vec<ArgText<'a>>,
    },
    Cases(ArgText<'a>),
    Induction(ArgText<'a>),
    Contradiction(ArgText<'a>),
    Weakening(Name<'a>),
    Exchange(Name<'a>),
    Substitution(Name<'a>, Name<'a>),
    Unproved,
    Names(Vec<Name<'a>>),
}

/// A part of the text that stands in the outline. A block, the head of a case and an `end` line are portions of their own. `first` is
/// the first token.
#[derive(Drop)]
pub enum Portion<'a> {
    Terminals {
        first: Name<'a>,
        items: Form<'a>,
    },
    Syntax {
        first: Name<'a>,
    },
    /// `mark` is the `::=`, which may stand on a later line than the name.
    Category {
        name: Name<'a>,
        mark: Name<'a>,
        productions: Vec<Form<'a>>,
    },
    Judgment {
        first: Name<'a>,
        name: Name<'a>,
        form: Form<'a>,
        assumes: Option<Name<'a>>,
    },
    Rule {
        premises: Vec<Form<'a>>,
        name: Name<'a>,
        conclusion: Form<'a>,
    },
    /// `joined` where `and` stands in front; the kind is the word `theorem` or `lemma`.
    Theorem {
        first: Name<'a>,
        joined: bool,
        kind: Name<'a>,
        name: Name<'a>,
        assumes: Option<Name<'a>>,
        inputs: Vec<InputText<'a>>,
        outputs: Vec<Form<'a>>,
        targets: Vec<Name<'a>>,
    },
    /// A step written with `proof` has no names and no forms.
    Step {
        first: Name<'a>,
        names: Vec<Name<'a>>,
        forms: Vec<Form<'a>>,
        just: Just<'a>,
    },
    Inversion {
        first: Name<'a>,
        subject: ArgText<'a>,
        premises: Vec<NamedForm<'a>>,
        name: Name<'a>,
        conclusion: NamedForm<'a>,
    },
    CaseRule {
        first: Name<'a>,
        premises: Vec<NamedForm<'a>>,
        name: Name<'a>,
        conclusion: NamedForm<'a>,
    },
    CaseTerm {
        first: Name<'a>,
        form: Form<'a>,
        assumes: Option<Form<'a>>,
    },
    End {
        first: Name<'a>,
        part: Part,
    },
}
