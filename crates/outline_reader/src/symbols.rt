// The words of the grammar: what stands where, and what it is in the outline.
use crate::fault::Part;
use crate::sort::Sort;

/// Where in its line a token stands.
#[derive(Clone, Copy)]
pub enum Place {
    /// It begins its line.
    First,
    /// It stands on the line of the token before it.
    Next,
    Anywhere,
}

/// Which tokens may stand somewhere.
#[derive(Clone, Copy)]
pub enum Class {
    /// A token of this sort.
    Is(Sort),
    /// What a list of terminals may have: a word, a symbol or a token in quotes.
    Listed,
    /// Any token of a form: all but the reserved words.
    Formed,
    /// A token of a form other than a bar.
    ButBar,
    /// A token of a form other than a dot.
    ButDot,
    /// A token of a form other than a parenthesis.
    ButParenthesis,
    /// A token of a form other than `|`.
    ButOr,
    /// A token of a form other than `|` and `::=`.
    ButOrDefine,
    /// A token of a form other than `|` and a name.
    ButOrName,
}

/// What a token is in the outline.
#[derive(Clone, Copy, PartialEq, Eq)]
pub enum Role {
    // The first token of a portion.
    TerminalsWord,
    SyntaxWord,
    /// The name of the first category of a syntax part.
    CategoryName,
    JudgmentWord,
    /// The first token of a rule's first premise, which is a form.
    RulePremise,
    /// The bar of a rule without premises.
    RuleBar,
    AndWord,
    TheoremWord,
    StepName,
    ProofWord,
    InversionWord,
    CaseWord,
    EndWord,
    /// The `::=` of a later category: the token before it is the category's name, and its portion's first.
    NewCategory,
    // Within a portion.
    /// A word or sign that the portion leaves out.
    Sign,
    /// The word `theorem` or `lemma` after `and`.
    KindWord,
    Name,
    /// The second name of a substitution.
    SecondName,
    Assumed,
    /// A terminal of a list, or a token of a production.
    Item,
    /// The `|` between two productions.
    Or,
    /// The bar of a rule with premises.
    Bar,
    /// The first token of another premise of a rule.
    Premise,
    /// The first token of any other form.
    Form,
    /// A further token of a form.
    More,
    ForallWord,
    InputName,
    /// The first token of the form after `exists`, of which the last token is the dot that ends it.
    Output,
    Target,
    HeadName,
    HeadConclusion,
    AssumedForm,
    // The word that tells the justification.
    RuleCall,
    TheoremCall,
    HypothesisCall,
    Cases,
    Induction,
    Contradiction,
    Weakening,
    Exchange,
    Substitution,
    Unproved,
    NameAlone,
    ArgName,
    ArgForm,
    /// The word `rule` of a rule's case.
    RuleCase,
    // The last word of an end.
    EndTheorem,
    EndLemma,
    EndCase,
    EndAnalysis,
    EndInduction,
}

/// A choice of the grammar: what stands there begins with the first token of one of its alternatives.
#[derive(Clone, Copy)]
pub enum Phrase {
    /// Parts before the first theorem.
    Parts,
    FirstTheorem,
    /// Parts after a theorem, where `and` may stand.
    LaterParts,
    AndKind,
    TheoremBody,
    LemmaBody,
    MoreListed,
    FirstDefine,
    /// The tokens of productions, within a line.
    Productions,
    /// The same after a name that begins a line.
    AfterLineName,
    /// The same after any other token that begins a line.
    AfterLineToken,
    /// The further tokens of a form on one line.
    MoreOnLine,
    /// The further tokens of a form that may run over lines.
    MoreOfForm,
    JudgmentAssumes,
    Rules,
    /// The lines of a rule after its first premise.
    RuleLines,
    TheoremAssumes,
    Inputs,
    InputForm,
    /// The form after `exists`, with the dot that ends it.
    Output,
    /// The same after a dot that begins it.
    OutputAfterDot,
    /// Its tokens up to the next dot.
    OutputTokens,
    /// What follows a dot, where the form goes on.
    OutputGoesOn,
    /// The steps of a proof from its first line on.
    Proof,
    MoreTargets,
    Steps,
    Just,
    /// What justifies the first step of a proof.
    FirstJust,
    InductionOrHypothesis,
    Args,
    MoreArgs,
    Arg,
    /// The first token of a form in parentheses, and what goes with it.
    Enclosed,
    /// The further tokens of a form in parentheses.
    MoreEnclosed,
    CaseList,
    CaseHead,
    CaseAssumes,
    /// The lines of the head of a rule's case.
    HeadLines,
    /// Nothing: it stays open where an inversion was, up to the end of its block.
    Inverted,
}

/// How often a phrase's alternatives are taken.
#[derive(Clone, Copy, PartialEq, Eq)]
pub enum Times {
    Once,
    AtMostOnce,
    Any,
}

/// What comes after the first token of an alternative.
#[derive(Clone, Copy)]
pub enum Rest {
    Nothing,
    Terminals,
    Syntax,
    Judgment,
    FirstTheorem,
    FirstLemma,
    Theorem,
    Lemma,
    And,
    TheoremBody,
    LemmaBody,
    Productions,
    AfterLineName,
    AfterLineToken,
    AssumedName,
    AssumedTheorem,
    RuleLines,
    BarLine,
    Input,
    InputForm,
    OutputTokens,
    OutputAfterDot,
    OutputGoesOn,
    Use,
    Target,
    FirstStep,
    FirstProofStep,
    Step,
    ProofStep,
    Inversion,
    Call,
    Hypothesis,
    InductionOrHypothesis,
    Args,
    Analysis,
    Induction,
    OnArg,
    OnName,
    OnTwoNames,
    Arg,
    OneArg,
    Enclosed,
    MoreEnclosed,
    Nested,
    FirstNested,
    Case,
    RuleHead,
    TermHead,
    AssumedForm,
    HeadPremise,
    HeadBar,
}

/// A symbol of the grammar.
#[derive(Clone, Copy)]
pub enum Symbol {
    /// One token: where it stands, which it may be, and what it is in the outline.
    One(Place, Class, Role),
    /// Alternatives of the phrase.
    Choice(Phrase),
}

/// A symbol and the part in which it stands.
#[derive(Clone, Copy)]
pub enum Item {
    /// In the part that is open.
    Here(Symbol),
    /// In a part that begins here.
    In(Part, Symbol),
}

/// An alternative: its first token, and what comes after it.
pub type Alternative = (Place, Class, Role, Rest);
