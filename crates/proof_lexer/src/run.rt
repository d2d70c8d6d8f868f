// Runs of characters: comments, words, symbols and the insides of quotes.
ghost use Rattle.std.specs.Prelude.{◌≡◌, ◌≤◌, ◌==◌, ◌||◌, length, chars};
ghost use Rattle.sy_base.specs.Tokens.{begins, is_blank, is_single, is_other, is_numeral};
ghost use Rattle.unicode_ident.specs.Ident.{is_xid_continue};
ghost use Rattle.proof_lexer.specs.Front.{goes_on, RunEnds};

use crate::characters::first_of;
use unicode_ident::{is_xid_continue, is_xid_start};

// What a run of characters is the inside of.
#[derive(Clone, Copy)]
pub(crate) enum Run {
    // A comment up to the end of its line.
    Line,
    // A comment up to `*/`.
    Comment,
    Quoted,
    Word,
    Symbol,
}

#[tactic(auto, unfolding(sy_base::specs::Tokens::is_blank))]
pub(crate) fn is_blank(c: char) -> bool
    ensures { result ≡ is_blank c }
{
    c == ' ' || c == '\t' || c == '\r' || c == '\n'
}

#[tactic(auto, unfolding(sy_base::specs::Tokens::is_single))]
pub(crate) fn is_single(c: char) -> bool
    ensures { result ≡ is_single c }
{
    c == ','
        || c == ';'
        || c == '.'
        || c == '('
        || c == ')'
        || c == '['
        || c == ']'
        || c == '{'
        || c == '}'
}

#[tactic(auto, unfolding(sy_base::specs::Tokens::is_other))]
pub(crate) fn is_other(c: char) -> bool
    ensures { result ≡ is_other c }
{
    !(is_blank(c) || is_xid_continue(c) || is_single(c) || c == '"')
}

// Whether a text begins with a word's character.
fn begins_with_word(text: &str) -> bool
    ensures { result ≡ begins is_xid_continue (chars text.now) }
{
    match first_of(text) {
        Some((first, _)) => is_xid_continue(first),
        None => false,
    }
}

/// Whether a word is a numeral, which is no name: it begins with neither an XID start character nor `_`.
#[tactic(auto, unfolding(sy_base::specs::Tokens::is_numeral))]
pub fn is_numeral(word: &str) -> bool
    ensures { result ≡ is_numeral word.now }
{
    match first_of(word) {
        Some((first, _)) => !(is_xid_start(first) || first == '_'),
        None => true,
    }
}

// Whether a text begins with this character.
pub(crate) fn begins_with(text: &str, c: char) -> bool
    ensures { result ≡ begins (λ d. d == c) (chars text.now) }
{
    match first_of(text) {
        Some((first, _)) => first == c,
        None => false,
    }
}

// Whether `/` or `*` begins a text.
pub(crate) fn opens_comment(text: &str) -> bool
    ensures { result ≡ begins (λ d. (d == 47) || (d == 42)) (chars text.now) }
{
    match first_of(text) {
        Some((first, _)) => first == '/' || first == '*',
        None => false,
    }
}

// Whether a run goes on with a character, by the text after it.
#[tactic(auto, unfolding(sy_base::specs::Tokens::goes_on_line, sy_base::specs::Tokens::goes_on_comment, sy_base::specs::Tokens::goes_on_quoted, sy_base::specs::Tokens::goes_on_word, sy_base::specs::Tokens::goes_on_symbol))]
fn goes_on(run: Run, c: char, after: &str) -> bool
    ensures { result ≡ goes_on run c (chars after.now) }
{
    match run {
        Run::Line => c != '\n',
        Run::Comment => !(c == '*' && begins_with(after, '/')),
        Run::Quoted => !(c == '"' || is_blank(c)),
        Run::Word => is_xid_continue(c) || c == '\'' || (c == '-' && begins_with_word(after)),
        Run::Symbol => is_other(c) && !(c == '/' && opens_comment(after)),
    }
}

// The text after the longest run at its front.
pub(crate) fn after_run<'a>(run: Run, text: &'a str) -> &'a str
    ensures { RunEnds (goes_on run) (chars text.now) (chars result.now) }
{
    let mut rest = text;
    while let Some((first, after)) = first_of(rest) {
        if !goes_on(run, first, after) {
            return rest;
        }
        rest = after;
    }
    rest
}
