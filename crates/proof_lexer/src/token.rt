// Tokens, which lend their text from the source.
use sy_base::Span;

/// What a token is.
#[derive(Clone, Copy, Debug, PartialEq, Eq)]
pub enum Kind {
    /// A name, a numeral or a reserved word.
    Word,
    /// A run of other characters.
    Symbol,
    /// One of `, ; . ( ) [ ] { }`.
    Punct,
    /// Three or more dashes and nothing else.
    Bar,
    /// A text in quotes.
    Quoted,
}

/// A token of a text: its kind, its text (of a quoted token what stands between the quotes), the part of the source that it
/// covers (with its quotes), and its line, counted from 1.
#[derive(Clone, Copy, Debug)]
pub struct Token<'a> {
    pub kind: Kind,
    pub text: &'a str,
    pub span: Span,
    pub line: u32,
}
