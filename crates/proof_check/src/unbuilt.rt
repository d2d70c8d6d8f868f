// The tokens of a file at which a form stands that is not built.
ghost use Rattle.std.specs.Prelude.{◌≡◌, ◌↔◌, ◌++◌, ◌∷◌, [], IsTrue, List, map, option_map};
ghost use Rattle.sy_base.specs.Tokens.{PlainToken};
ghost use Rattle.proof_lexer.specs.View.{token_view};
ghost use Rattle.user_grammar.specs.Names.{IsAmong};
ghost use Rattle.user_grammar.specs.Production.{IsMark};
ghost use Rattle.proof_check.specs.NotBuilt.{IsWord, IsUnbuiltWord, IsReservedWord, IsName, IsCallee, BeginsWithColon, EndsInSyntax, IsUnbuiltAt};
ghost use Rattle.proof_check.specs.Places.{IsKeptOf, FindsUnbuilt};

use outline_reader::is_reserved;
use proof_lexer::{Kind, Token, is_numeral};
use rule_schemes::same_text;

/// The words of forms that are not built.
const UNBUILT: [&[u8]; 11] = [
    b"assumes",
    b"unproved",
    b"case",
    b"inversion",
    b"contradiction",
    b"induction",
    b"use",
    b"and",
    b"weakening",
    b"exchange",
    b"substitution",
];

fn is_among(table: &[&[u8]], text: &[u8]) -> bool
    ensures { IsTrue result ↔ IsAmong (map (λ word. word.now) table.now) text.now }
{
    for word in table {
        if same_text(word, text) {
            return true;
        }
    }
    false
}

fn is_plain_word(token: &Token<'_>) -> bool
    ensures { IsTrue result ↔ ((token_view token.now).kind ≡ 0) }
{
    token.kind == Kind::Word
}

fn is_word(token: &Token<'_>, word: &[u8]) -> bool
    ensures { IsTrue result ↔ IsWord word.now (token_view token.now) }
{
    token.kind == Kind::Word && same_text(token.text.as_bytes(), word)
}

fn is_unbuilt_word(token: &Token<'_>) -> bool
    ensures { IsTrue result ↔ IsUnbuiltWord (token_view token.now) }
{
    is_plain_word(token) && is_among(&UNBUILT, token.text.as_bytes())
}

fn is_reserved_word(token: &Token<'_>) -> bool
    ensures { IsTrue result ↔ IsReservedWord (token_view token.now) }
{
    is_plain_word(token) && is_reserved(token.text.as_bytes())
}

fn is_name(token: &Token<'_>) -> bool
    ensures { IsTrue result ↔ IsName (token_view token.now) }
{
    token.kind == Kind::Word && !is_reserved_word(token) && !is_numeral(token.text)
}

fn is_opening_bracket(token: &Token<'_>) -> bool
    ensures { IsTrue result ↔ IsMark 91 (token_view token.now) }
{
    token.kind == Kind::Punct && token.text.as_bytes() == b"[".as_slice()
}

fn is_colon(token: &Token<'_>) -> bool
    ensures { IsTrue result ↔ BeginsWithColon (token_view token.now ∷ []) }
{
    token.kind == Kind::Symbol && token.text.as_bytes() == b":".as_slice()
}

fn begins_with_colon(rest: &[Token<'_>]) -> bool
    ensures { IsTrue result ↔ BeginsWithColon (map token_view rest.now) }
{
    match rest.first() {
        Some(token) => is_colon(token),
        None => false,
    }
}

/// Whether what stands behind `by` is `theorem`, `lemma` or a name.
fn is_callee(token: &Token<'_>) -> bool
    ensures { IsTrue result ↔ IsCallee (token_view token.now) }
{
    is_word(token, b"theorem") || is_word(token, b"lemma") || is_name(token)
}

/// What is kept of the tokens before a place.
#[derive(Clone, Copy)]
struct Before {
    /// Their last reserved word is `syntax`.
    in_syntax: bool,
    behind_by: bool,
    behind_forall: bool,
}

/// What is kept of no tokens.
fn nothing_before() -> Before
    ensures { IsKeptOf [] result }
{
    Before {
        in_syntax: false,
        behind_by: false,
        behind_forall: false,
    }
}

/// Whether the last reserved word is `syntax`, one token later.
fn stays_in_syntax(in_syntax: bool, token: &Token<'_>) -> bool
    ensures { (tokens : List PlainToken) → (IsTrue in_syntax ↔ EndsInSyntax tokens)
        → IsTrue result ↔ EndsInSyntax (tokens ++ token_view token.now ∷ []) }
{
    if is_reserved_word(token) {
        return is_word(token, b"syntax");
    }
    in_syntax
}

/// What is kept one token later.
fn past(before: Before, token: &Token<'_>) -> Before
    ensures { (tokens : List PlainToken) → IsKeptOf tokens before → IsKeptOf (tokens ++ token_view token.now ∷ []) result }
{
    Before {
        in_syntax: stays_in_syntax(before.in_syntax, token),
        behind_by: is_word(token, b"by"),
        behind_forall: is_word(token, b"forall"),
    }
}

/// Whether a form that is not built stands at a token, before these.
fn is_unbuilt(before: Before, token: &Token<'_>, rest: &[Token<'_>]) -> bool
    ensures { (tokens : List PlainToken) → IsKeptOf tokens before
        → IsTrue result ↔ IsUnbuiltAt tokens (token_view token.now) (map token_view rest.now) }
{
    is_unbuilt_word(token)
        || is_opening_bracket(token) && !before.in_syntax
        || before.behind_by && is_callee(token)
        || before.behind_forall && is_name(token) && !begins_with_colon(rest)
}

/// The first token at which a form stands that is not built.
pub fn first_unbuilt<'a>(tokens: &[Token<'a>]) -> Option<Token<'a>>
    ensures { FindsUnbuilt (map token_view tokens.now) (option_map token_view result) }
{
    let mut before = nothing_before();
    let mut left = tokens;
    while let [token, rest @ ..] = left {
        if is_unbuilt(before, token, rest) {
            return Some(*token);
        }
        before = past(before, token);
        left = rest;
    }
    None
}
