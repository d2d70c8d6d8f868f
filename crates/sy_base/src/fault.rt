// What is said of a faulty text, and where.
ghost use Rattle.std.specs.Prelude.{◌≡◌};
ghost use Rattle.sy_base.specs.CodeName.{code_name};
ghost use Rattle.sy_base.specs.Rank.{rank};
ghost use Rattle.sy_base.specs.declared.fault.Refusal.TheVariants.{NoMemory as OutOfMemory};

use binding_terms::{NoMemory, Text};
use std::alloc::{AllocError, AllocFailed};

/// A part of a text, from one place up to another, in bytes.
#[derive(Clone, Copy, Debug, PartialEq, Eq)]
pub struct Span {
    pub from: usize,
    pub to: usize,
}

/// What is wrong. Of several codes for one line the one that stands first here counts.
#[derive(Clone, Copy, Debug, PartialEq, Eq)]
pub enum Code {
    /// A byte of the text belongs to no character.
    NotUtf8,
    /// A comment has no end.
    OpenComment,
    /// A quote begins no quoted token.
    OpenQuote,
    /// No outline goes on at a token.
    Unexpected,
    /// The text ended within a part.
    MissingEnd,
    /// A count passed its limit.
    TooMany,
    /// A form that this program does not take yet.
    NotBuilt,
    /// A name is declared a second time, or two names have a common spelling.
    Duplicate,
    /// A production has no item.
    EmptyProduction,
    /// A production is one slot alone.
    SingleCategory,
    /// A word is no category, terminal or variable.
    UnknownWord,
    /// A word in brackets is no binder of its production.
    BadBinder,
    /// A word is a binder of one production twice.
    BinderTwice,
    /// A context category, or the form of a judgment about one, breaks its rules.
    BadContext,
    /// A name is in use.
    NameTaken,
    /// A form has too many tokens.
    TooLong,
    /// A form has no reading.
    NoReading,
    /// A form has two different readings.
    Ambiguous,
    /// A metavariable is not in scope.
    UnknownName,
    /// The conclusion of a rule or of a case breaks its rules.
    BadConclusion,
    /// A name has no strict occurrence.
    NotStrict,
    /// A judgment without a context holds parts that need one.
    NeedsContext,
    /// A second assumption rule of one production.
    TwoAssumptions,
    /// A theorem has another number of targets than its group.
    TargetCount,
    /// There is no such rule.
    NoRule,
    /// There is no such theorem here.
    NoTheorem,
    /// There is no such derivation or target.
    NoName,
    /// Another number of arguments is wanted.
    WrongCount,
    /// The roots of two contexts do not fit.
    RootMismatch,
    /// An argument is no instance of its input.
    ArgMismatch,
    /// A step's form is not what its justification gives.
    ResultMismatch,
    /// A step is no instance of its rule.
    NotInstance,
    /// A line or a core step cannot stand here.
    BadStep,
    /// A structural step on a judgment without a context.
    NoContext,
    /// The entry of a structural step is not the last.
    NotLast,
    /// An entry's production has no assumption rule.
    NoAssumptionRule,
    /// A judgment is not the assumption of the entry.
    NotTheAssumption,
    /// A later entry depends on one that is to move.
    Depends,
    /// A call within the group is not ordered.
    NotSmaller,
    /// A unification problem lies outside the pattern fragment.
    Outside,
    /// A possible choice has no written case.
    MissingCase,
    /// A second case of one choice.
    DuplicateCase,
    /// A case that has no instance.
    ImpossibleCase,
    /// A written case is not a most general one.
    NotMostGeneral,
    /// The last step does not have the goal.
    NotTheGoal,
    /// The inputs of a run do not fit the theorem.
    WrongInputs,
    /// The derivations that were handed in are too large.
    TooBig,
}

impl Code {
    /// The name by which a code is printed.
    pub fn name(&self) -> &'static str
        ensures { result.now ≡ code_name self.now }
    {
        match self {
            Code::NotUtf8 => "NotUtf8",
            Code::OpenComment => "OpenComment",
            Code::OpenQuote => "OpenQuote",
            Code::Unexpected => "Unexpected",
            Code::MissingEnd => "MissingEnd",
            Code::TooMany => "TooMany",
            Code::NotBuilt => "NotBuilt",
            Code::Duplicate => "Duplicate",
            Code::EmptyProduction => "EmptyProduction",
            Code::SingleCategory => "SingleCategory",
            Code::UnknownWord => "UnknownWord",
            Code::BadBinder => "BadBinder",
            Code::BinderTwice => "BinderTwice",
            Code::BadContext => "BadContext",
            Code::NameTaken => "NameTaken",
            Code::TooLong => "TooLong",
            Code::NoReading => "NoReading",
            Code::Ambiguous => "Ambiguous",
            Code::UnknownName => "UnknownName",
            Code::BadConclusion => "BadConclusion",
            Code::NotStrict => "NotStrict",
            Code::NeedsContext => "NeedsContext",
            Code::TwoAssumptions => "TwoAssumptions",
            Code::TargetCount => "TargetCount",
            Code::NoRule => "NoRule",
            Code::NoTheorem => "NoTheorem",
            Code::NoName => "NoName",
            Code::WrongCount => "WrongCount",
            Code::RootMismatch => "RootMismatch",
            Code::ArgMismatch => "ArgMismatch",
            Code::ResultMismatch => "ResultMismatch",
            Code::NotInstance => "NotInstance",
            Code::BadStep => "BadStep",
            Code::NoContext => "NoContext",
            Code::NotLast => "NotLast",
            Code::NoAssumptionRule => "NoAssumptionRule",
            Code::NotTheAssumption => "NotTheAssumption",
            Code::Depends => "Depends",
            Code::NotSmaller => "NotSmaller",
            Code::Outside => "Outside",
            Code::MissingCase => "MissingCase",
            Code::DuplicateCase => "DuplicateCase",
            Code::ImpossibleCase => "ImpossibleCase",
            Code::NotMostGeneral => "NotMostGeneral",
            Code::NotTheGoal => "NotTheGoal",
            Code::WrongInputs => "WrongInputs",
            Code::TooBig => "TooBig",
        }
    }

    /// The place of a code among all codes, from 0.
    pub fn rank(&self) -> u8
        ensures { result ≡ rank self.now }
    {
        match self {
            Code::NotUtf8 => 0,
            Code::OpenComment => 1,
            Code::OpenQuote => 2,
            Code::Unexpected => 3,
            Code::MissingEnd => 4,
            Code::TooMany => 5,
            Code::NotBuilt => 6,
            Code::Duplicate => 7,
            Code::EmptyProduction => 8,
            Code::SingleCategory => 9,
            Code::UnknownWord => 10,
            Code::BadBinder => 11,
            Code::BinderTwice => 12,
            Code::BadContext => 13,
            Code::NameTaken => 14,
            Code::TooLong => 15,
            Code::NoReading => 16,
            Code::Ambiguous => 17,
            Code::UnknownName => 18,
            Code::BadConclusion => 19,
            Code::NotStrict => 20,
            Code::NeedsContext => 21,
            Code::TwoAssumptions => 22,
            Code::TargetCount => 23,
            Code::NoRule => 24,
            Code::NoTheorem => 25,
            Code::NoName => 26,
            Code::WrongCount => 27,
            Code::RootMismatch => 28,
            Code::ArgMismatch => 29,
            Code::ResultMismatch => 30,
            Code::NotInstance => 31,
            Code::BadStep => 32,
            Code::NoContext => 33,
            Code::NotLast => 34,
            Code::NoAssumptionRule => 35,
            Code::NotTheAssumption => 36,
            Code::Depends => 37,
            Code::NotSmaller => 38,
            Code::Outside => 39,
            Code::MissingCase => 40,
            Code::DuplicateCase => 41,
            Code::ImpossibleCase => 42,
            Code::NotMostGeneral => 43,
            Code::NotTheGoal => 44,
            Code::WrongInputs => 45,
            Code::TooBig => 46,
        }
    }
}

/// What is wrong with a text: the line, counted from 1, the code and a detail, which may be empty.
#[derive(Debug, Drop)]
pub struct Fault {
    pub line: u32,
    pub code: Code,
    pub detail: Text,
}

/// Why there is no answer.
#[derive(Debug, Drop)]
pub enum Refusal {
    /// The text has this fault.
    Refused(Fault),
    /// There was no memory for the answer.
    NoMemory,
}

impl From<NoMemory> for Refusal {
    ghost from_gives = { λ _ refusal. refusal ≡ OutOfMemory };

    fn from(_failed: NoMemory) -> Refusal {
        Refusal::NoMemory
    }
}

impl From<AllocError> for Refusal {
    ghost from_gives = { λ _ refusal. refusal ≡ OutOfMemory };

    fn from(_failed: AllocError) -> Refusal {
        Refusal::NoMemory
    }
}

impl<T: Drop> From<AllocFailed<T>> for Refusal {
    ghost from_gives = { λ _ refusal. refusal ≡ OutOfMemory };

    fn from(_failed: AllocFailed<T>) -> Refusal {
        Refusal::NoMemory
    }
}
