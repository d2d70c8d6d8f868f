// A fault that was found at a token.
ghost use Rattle.std.specs.Prelude.{◌≡◌};
ghost use Rattle.sy_base.specs.FirstFault.{at_token, IsFoundAt as IsThere};
ghost use Rattle.proof_lexer.specs.View.{token_view};
ghost use Rattle.user_grammar.specs.Finding.{IsFoundAt, lent_words};

use proof_lexer::Token;
use sy_base::{Code, Place};

/// A code at a place, with a detail that is lent.
pub type Found<'a> = sy_base::Found<&'a str>;

fn place_of(token: &Token<'_>) -> Place
    ensures { result ≡ at_token (token_view token.now) }
{
    Place::own(token.line, token.span.from)
}

/// The code at the token, with a name.
pub fn named_at<'a>(code: Code, token: &Token<'_>, name: &'a str) -> Found<'a>
    ensures { IsThere at_token lent_words code (token_view token.now) name.now result }
{
    Found {
        place: place_of(token),
        code,
        detail: name,
    }
}

/// The code at the token, with its text.
pub fn at_token<'a>(code: Code, token: &Token<'a>) -> Found<'a>
    ensures { IsFoundAt code (token_view token.now) result }
{
    named_at(code, token, token.text)
}
