use binding_terms::Text;
use derivation_check::Deriv;
use proof_lexer::Kind;
use sqlite_items::Items;

/// The name of a line, and the tree that the line makes.
#[derive(Drop)]
pub struct Named {
    pub name: Text,
    pub tree: Deriv,
}

/// A token of a form that is read later.
#[derive(Drop)]
pub struct Kept {
    pub kind: Kind,
    pub text: Text,
}

/// What is given for an input.
#[derive(Drop)]
pub enum Argument {
    /// The name of a derivation.
    Name(Text),
    /// The form of a term, without the parentheses around it.
    Term(Items<Kept>),
}

/// The last line of a text.
#[derive(Drop)]
pub enum Ending {
    /// Neither of the others.
    Open,
    Apply(Items<Argument>),
    Gives(Items<Text>),
}

/// The lines of a derivation text that were read: their names with trees, and the last line.
#[derive(Drop)]
pub struct Derivs {
    pub named: Items<Named>,
    pub ending: Ending,
}
