// What a token is for the outline.
ghost use Rattle.std.specs.Prelude.{◌≡◌, ◌↔◌, IsTrue, map};
ghost use Rattle.std.specs.List.{list_any};
ghost use Rattle.std.specs.Str.{bytes_eq};
ghost use Rattle.outline_reader.specs.Sorts as spec;

use proof_lexer::{Kind, Token, is_numeral};

/// What a token is for the outline.
#[derive(Clone, Copy, PartialEq, Eq)]
pub enum Sort {
    Terminals,
    Syntax,
    Judgment,
    Assumes,
    Theorem,
    Lemma,
    And,
    Forall,
    Exists,
    By,
    Rule,
    On,
    Induction,
    Hypothesis,
    Inversion,
    Contradiction,
    Case,
    Analysis,
    Is,
    End,
    Proof,
    Use,
    Weakening,
    Exchange,
    Substitution,
    Unproved,
    Solve,
    Import,
    /// A word that is neither reserved nor a numeral.
    Name,
    Colon,
    /// The symbol `::=`.
    Define,
    /// The symbol `|`.
    Or,
    Dot,
    Comma,
    Open,
    Close,
    /// One of `; [ ] { }`.
    Mark,
    Bar,
    /// A numeral, any other symbol, or a token in quotes.
    Other,
}

/// The reserved words.
pub const RESERVED: [(&[u8], Sort); 28] = [
    (b"terminals", Sort::Terminals),
    (b"syntax", Sort::Syntax),
    (b"judgment", Sort::Judgment),
    (b"assumes", Sort::Assumes),
    (b"theorem", Sort::Theorem),
    (b"lemma", Sort::Lemma),
    (b"and", Sort::And),
    (b"forall", Sort::Forall),
    (b"exists", Sort::Exists),
    (b"by", Sort::By),
    (b"rule", Sort::Rule),
    (b"on", Sort::On),
    (b"induction", Sort::Induction),
    (b"hypothesis", Sort::Hypothesis),
    (b"inversion", Sort::Inversion),
    (b"contradiction", Sort::Contradiction),
    (b"case", Sort::Case),
    (b"analysis", Sort::Analysis),
    (b"is", Sort::Is),
    (b"end", Sort::End),
    (b"proof", Sort::Proof),
    (b"use", Sort::Use),
    (b"weakening", Sort::Weakening),
    (b"exchange", Sort::Exchange),
    (b"substitution", Sort::Substitution),
    (b"unproved", Sort::Unproved),
    (b"solve", Sort::Solve),
    (b"import", Sort::Import),
];

/// The signs that the outline knows.
pub const SIGNS: [(&[u8], Sort); 7] = [
    (b":", Sort::Colon),
    (b"::=", Sort::Define),
    (b"|", Sort::Or),
    (b".", Sort::Dot),
    (b",", Sort::Comma),
    (b"(", Sort::Open),
    (b")", Sort::Close),
];

/// The sort that a table gives a text, or else the other sort.
fn look_up(mut table: &[(&[u8], Sort)], text: &[u8], otherwise: Sort) -> Sort
    ensures { result ≡ spec.look_up (map (λ entry. (entry.0.now, entry.1)) table.entry.now) text.now otherwise }
{
    while let [entry, rest @ ..] = table {
        if entry.0 == text {
            return entry.1;
        }
        table = rest;
    }
    otherwise
}

/// Whether a table gives a sort to the text.
fn is_listed(mut table: &[(&[u8], Sort)], text: &[u8]) -> bool
    ensures { result ≡ list_any (λ one. bytes_eq one text.now) (map (λ entry. entry.0.now) table.entry.now) }
{
    while let [entry, rest @ ..] = table {
        if entry.0 == text {
            return true;
        }
        table = rest;
    }
    false
}

/// Whether a word that stands in no quotes is reserved.
#[tactic(auto, unfolding(crate::specs::Sorts::is_reserved, crate::specs::Sorts::IsReserved))]
pub fn is_reserved(word: &[u8]) -> bool
    ensures value { result ≡ spec.is_reserved word.now }
    ensures fact { IsTrue result ↔ spec.IsReserved word.now }
{
    is_listed(&RESERVED, word)
}

/// What a word is.
#[tactic(auto, unfolding(crate::specs::Sorts::word_sort))]
fn word_sort(word: &str) -> Sort
    ensures { result ≡ spec.word_sort word.now }
{
    if is_numeral(word) {
        return look_up(&RESERVED, word.as_bytes(), Sort::Other);
    }
    look_up(&RESERVED, word.as_bytes(), Sort::Name)
}

/// What the token is for the outline.
#[tactic(auto, unfolding(crate::specs::Sorts::sort_of))]
pub fn sort_of(token: &Token<'_>) -> Sort
    ensures { result ≡ spec.sort_of token.now }
{
    match token.kind {
        Kind::Word => word_sort(token.text),
        Kind::Symbol => look_up(&SIGNS, token.text.as_bytes(), Sort::Other),
        Kind::Punct => look_up(&SIGNS, token.text.as_bytes(), Sort::Mark),
        Kind::Bar => Sort::Bar,
        Kind::Quoted => Sort::Other,
    }
}
