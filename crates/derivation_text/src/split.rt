//! The lines of a text.
ghost use Rattle.std.specs.Prelude.{◌≡◌, ◌<◌, ◌++◌, length, map};
ghost use Rattle.proof_lexer.specs.View.{token_view};
ghost use Rattle.term_reader.specs.View.{token};
ghost use Rattle.derivation_text.specs.Splitting.{IsLineCut, IsFirstLine};

use proof_lexer::Token;

/// The tokens up to the first that is not on the line, and those from there on.
fn cut_line<'a>(line: u32, tokens: &'a [Token<'a>]) -> (&'a [Token<'a>], &'a [Token<'a>])
    ensures { IsLineCut line tokens.now result.0.now result.1.now }
{
    for i in 0..tokens.len() {
        if tokens[i].line != line {
            return tokens.split_at(i);
        }
    }
    (tokens, &[])
}

/// The tokens of the first line, and those after it.
pub fn first_line<'a>(tokens: &'a [Token<'a>]) -> (&'a [Token<'a>], &'a [Token<'a>])
    requires { 0 < length tokens.now }
    ensures lines { IsFirstLine (map token_view tokens.now) (map token result.0.now) (map token_view result.1.now) }
    ensures parts { tokens.now ≡ result.0.now ++ result.1.now }
    ensures some { 0 < length result.0.now }
{
    let first = &tokens[0];
    cut_line(first.line, tokens)
}
