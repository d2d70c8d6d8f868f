// What is given to a theorem.
use crate::deriv::Deriv;
use binding_terms::Term;
use rule_schemes::JudgInst;

/// What is given for an input.
#[derive(Drop)]
pub enum InputValue {
    /// A derivation.
    Tree(Deriv),
    /// A term, for a syntax input.
    Syntax(Term),
}

/// What is given for the inputs of a theorem, in order.
#[derive(Drop)]
pub struct Inputs {
    pub items: Vec<InputValue>,
}

/// What is given for an input, as far as it decides whether it fits.
#[derive(Drop)]
pub enum InputForm {
    /// The judgment of a derivation.
    Tree(JudgInst),
    /// A term, for a syntax input.
    Syntax(Term),
}

/// Whether what is given fits the inputs of a statement.
#[derive(Clone, Copy, Debug, PartialEq, Eq)]
pub enum Fit {
    Fits,
    /// The first input that does not, where the first has number 1. With number 0 the context does not.
    Wrong(u32),
}
