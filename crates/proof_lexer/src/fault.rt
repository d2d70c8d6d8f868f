// Why a text has no tokens.

/// Why a text has no tokens, with the place in bytes, from 0.
#[derive(Clone, Copy, Debug, PartialEq, Eq)]
pub enum LexFault {
    /// The first byte that belongs to no character.
    NotUtf8(usize),
    /// A `/*` that no `*/` follows.
    OpenComment(usize),
    /// A quote without a text of one or more characters, none a blank, and a closing quote.
    OpenQuote(usize),
    /// There was no memory for the tokens.
    NoMemory,
}
