// The tokens of a source.
ghost use Rattle.std.specs.Prelude.{◌≡◌, ◌+◌, ◌-◌, ◌^◌, ◌<◌, ◌≤◌, ◌↔◌, [], map, length, chars, IsFalse, IfOk, IfErr};
ghost use Rattle.sy_base.specs.Tokens.{AreTokens, goes_on_comment, IsLongestRun};
ghost use Rattle.proof_lexer.specs.View.{token_view, IsRefusedFor};

use crate::characters::{decoded, first_of};
use crate::cursor::Cursor;
use crate::fault::LexFault;
use crate::front::{Front, front_of};
use crate::token::Token;
use std::alloc::Global;
use sy_base::Span;

// Whether `*/` stands among these bytes.
fn closes_comment(bytes: &[u8]) -> bool
    ensures { IsFalse result ↔ IsLongestRun goes_on_comment bytes.now [] }
{
    for place in 1..bytes.len() {
        if bytes[place - 1] == b'*' && bytes[place] == b'/' {
            return true;
        }
    }
    false
}

/// The tokens of a source, in order, which lend their texts from it.
///
/// The fault is the one at the least place: a byte that belongs to no character, a `/*` that no `*/` follows, or a quote
/// without a text and a closing quote.
pub fn lex<'a>(alloc: Global, source: &'a [u8]) -> Result<Vec<Token<'a>>, LexFault>
    requires { length source.now < 2 ^ 32 - 1 }
    ensures tokens { IfOk result (λ tokens. AreTokens source.now (map token_view tokens.items)) }
    ensures refused { IfErr result (λ fault. IsRefusedFor source.now fault) }
{
    let (text, stray) = decoded(source);
    let mut tokens = Vec::new(alloc);
    let mut at = Cursor {
        place: 0,
        line: 1,
        rest: text,
    };
    while let Some((first, after)) = first_of(at.rest) {
        match front_of(at.rest, first, after) {
            Front::Gap { rest } => at = at.past(rest),
            Front::Token { kind, text, rest } => {
                let next = at.past(rest);
                let span = Span {
                    from: at.place,
                    to: next.place,
                };
                let token = Token {
                    kind,
                    text,
                    span,
                    line: at.line,
                };
                if tokens.push(token).is_err() {
                    return Err(LexFault::NoMemory);
                }
                at = next;
            }
            Front::OpenComment => {
                if closes_comment(stray) {
                    return Err(LexFault::NotUtf8(text.len()));
                }
                return Err(LexFault::OpenComment(at.place));
            }
            Front::OpenQuote => return Err(LexFault::OpenQuote(at.place)),
        }
    }
    if stray.is_empty() {
        Ok(tokens)
    } else {
        Err(LexFault::NotUtf8(text.len()))
    }
}
