//! Tests of tokens.
ghost use Rattle.std.specs.Prelude.{◌≡◌, ◌↔◌, IsTrue, map};
ghost use Rattle.rule_schemes.specs.Reading.{punctuation, word};
ghost use Rattle.term_reader.specs.View.{token};
ghost use Rattle.derivation_text.specs.Forms as forms;
ghost use Rattle.derivation_text.specs.Found as found;

use outline_reader::is_reserved;
use proof_lexer::{Kind, Token, is_numeral};

/// The names that no derivation has.
const KEPT: [&[u8]; 3] = [b"context", b"apply", b"gives"];

fn is_among(mut table: &[&[u8]], text: &[u8]) -> bool
    ensures { result ≡ forms.is_among (map (λ w. w.now) table.entry.now) text.now }
{
    while let [word, rest @ ..] = table {
        if *word == text {
            return true;
        }
        table = rest;
    }
    false
}

#[tactic(auto, unfolding(crate::specs::Forms::is_name))]
fn is_name(text: &str) -> bool
    ensures { result ≡ forms.is_name text.now }
{
    !is_reserved(text.as_bytes()) && !is_numeral(text)
}

#[tactic(auto, unfolding(crate::specs::Forms::is_own_name))]
fn is_own_name(text: &str) -> bool
    ensures { result ≡ forms.is_own_name text.now }
{
    is_name(text) && !is_among(&KEPT, text.as_bytes())
}

/// Whether the token is a name.
pub fn is_name_token(t: &Token<'_>) -> bool
    ensures { result ≡ found.is_name_token (token t.now) }
{
    match t.kind {
        Kind::Word => is_name(t.text),
        Kind::Symbol => false,
        Kind::Punct => false,
        Kind::Bar => false,
        Kind::Quoted => false,
    }
}

/// Whether the token is a name that a derivation may have.
pub fn is_own_name_token(t: &Token<'_>) -> bool
    ensures { result ≡ found.is_own_name_token (token t.now) }
{
    match t.kind {
        Kind::Word => is_own_name(t.text),
        Kind::Symbol => false,
        Kind::Punct => false,
        Kind::Bar => false,
        Kind::Quoted => false,
    }
}

/// Whether the token is a reserved word without quotes.
pub fn is_reserved_token(t: &Token<'_>) -> bool
    ensures { result ≡ forms.is_reserved_token (token t.now) }
{
    match t.kind {
        Kind::Word => is_reserved(t.text.as_bytes()),
        Kind::Symbol => false,
        Kind::Punct => false,
        Kind::Bar => false,
        Kind::Quoted => false,
    }
}

/// Whether the token is that word.
pub fn is_word(text: &[u8], t: &Token<'_>) -> bool
    ensures { IsTrue result ↔ (token t.now ≡ word text.now) }
{
    t.kind == Kind::Word && t.text.as_bytes() == text
}

/// Whether the token is the punctuation with that code.
pub fn is_punctuation(code: u8, t: &Token<'_>) -> bool
    ensures { IsTrue result ↔ (token t.now ≡ punctuation code) }
{
    t.kind == Kind::Punct && t.text.as_bytes() == [code].as_slice()
}

/// Whether the token is the symbol `:`.
pub fn is_colon(t: &Token<'_>) -> bool
    ensures { IsTrue result ↔ (token t.now ≡ forms.colon) }
{
    t.kind == Kind::Symbol && t.text.as_bytes() == b":".as_slice()
}
