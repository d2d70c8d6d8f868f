// What stands at the front of a text: a blank, a comment or a token.
ghost use Rattle.std.specs.Prelude.{◌≡◌, ◌≤◌, ◌==◌, ◌||◌, ◌&&◌, IsTrue, length, chars, ◌∷◌, nat_le};
ghost use Rattle.sy_base.specs.Tokens.{begins, goes_on_symbol, is_single, all_dashes, symbol_kind};
ghost use Rattle.unicode_ident.specs.Ident.{is_xid_continue};
ghost use Rattle.proof_lexer.specs.View.{kind_number};
ghost use Rattle.proof_lexer.specs.Front.{IsFront};

use crate::characters::{first_of, part_before};
use crate::run::{Run, after_run, is_blank, is_single, opens_comment};
use crate::token::Kind;
use unicode_ident::is_xid_continue;

// What stands at the front of a text, and the rest behind it.
#[derive(Clone, Copy)]
pub(crate) enum Front<'a> {
    // A blank or a comment.
    Gap {
        rest: &'a str,
    },
    Token {
        kind: Kind,
        text: &'a str,
        rest: &'a str,
    },
    OpenComment,
    OpenQuote,
}

// What stands at the front of a text, by its first character.
pub(crate) fn front_of<'a>(text: &'a str, first: char, after: &'a str) -> Front<'a>
    requires { chars text.now ≡ first ∷ chars after.now }
    ensures { IsFront (chars text.now) result }
{
    if is_blank(first) {
        return Front::Gap { rest: after };
    }
    if is_single(first) {
        return single(text, first, after);
    }
    if first == '"' {
        return quoted(after);
    }
    if is_xid_continue(first) {
        return word(text, first, after);
    }
    if first == '/' && opens_comment(after) {
        return comment(after);
    }
    symbol(text, first, after)
}

// A token of one character, which stands before the rest.
fn single<'a>(text: &'a str, first: char, after: &'a str) -> Front<'a>
    requires parts { chars text.now ≡ first ∷ chars after.now }
    requires single { IsTrue (is_single first) }
    ensures { IsFront (chars text.now) result }
{
    Front::Token {
        kind: Kind::Punct,
        text: part_before(text, after),
        rest: after,
    }
}

// A word, by its first character.
fn word<'a>(text: &'a str, first: char, after: &'a str) -> Front<'a>
    requires parts { chars text.now ≡ first ∷ chars after.now }
    requires word { IsTrue (is_xid_continue first) }
    ensures { IsFront (chars text.now) result }
{
    let rest = after_run(Run::Word, after);
    Front::Token {
        kind: Kind::Word,
        text: part_before(text, rest),
        rest,
    }
}

// A quoted token, by the text inside its first quote.
fn quoted<'a>(inside: &'a str) -> Front<'a>
    ensures { IsFront (34 ∷ chars inside.now) result }
{
    let end = after_run(Run::Quoted, inside);
    let text = part_before(inside, end);
    if text.is_empty() {
        return Front::OpenQuote;
    }
    match first_of(end) {
        Some((last, rest)) => {
            if last == '"' {
                Front::Token {
                    kind: Kind::Quoted,
                    text,
                    rest,
                }
            } else {
                Front::OpenQuote
            }
        }
        None => Front::OpenQuote,
    }
}

// A comment, by the text after its first character.
fn comment<'a>(after: &'a str) -> Front<'a>
    requires { IsTrue (begins (λ d. (d == 47) || (d == 42)) (chars after.now)) }
    ensures { IsFront (47 ∷ chars after.now) result }
{
    match first_of(after) {
        Some((second, inside)) => {
            if second == '/' {
                Front::Gap {
                    rest: after_run(Run::Line, inside),
                }
            } else {
                block_comment(inside)
            }
        }
        None => unreachable!(),
    }
}

// A comment up to `*/`, by the text inside.
fn block_comment<'a>(inside: &'a str) -> Front<'a>
    ensures { IsFront (47 ∷ 42 ∷ chars inside.now) result }
{
    let end = after_run(Run::Comment, inside);
    match first_of(end) {
        Some((_, last)) => match first_of(last) {
            Some((_, rest)) => Front::Gap { rest },
            None => unreachable!(),
        },
        None => Front::OpenComment,
    }
}

// Whether a text has no other characters than dashes.
fn all_dashes(text: &str) -> bool
    ensures { result ≡ all_dashes (chars text.now) }
{
    let mut rest = text;
    while let Some((first, after)) = first_of(rest) {
        if first != '-' {
            return false;
        }
        rest = after;
    }
    true
}

// A bar has three or more dashes and nothing else.
fn symbol_kind(symbol: &str) -> Kind
    ensures { kind_number result ≡ symbol_kind (chars symbol.now) }
{
    if symbol.len() >= 3 && all_dashes(symbol) {
        Kind::Bar
    } else {
        Kind::Symbol
    }
}

// A symbol, with the character that begins it.
fn symbol<'a>(text: &'a str, first: char, after: &'a str) -> Front<'a>
    requires parts { chars text.now ≡ first ∷ chars after.now }
    requires goes_on { IsTrue (goes_on_symbol first (chars after.now)) }
    ensures { IsFront (chars text.now) result }
{
    let rest = after_run(Run::Symbol, text);
    let symbol = part_before(text, rest);
    Front::Token {
        kind: symbol_kind(symbol),
        text: symbol,
        rest,
    }
}
