// The first place of a file with an outline that is not built.
ghost use Rattle.std.specs.Prelude.{map, option_map};
ghost use Rattle.sy_base.specs.Tokens.{AreTokens};
ghost use Rattle.proof_lexer.specs.View.{token_view};
ghost use Rattle.outline_reader.specs.Outline.{IsOutline};
ghost use Rattle.outline_reader.specs.Views.{portion_view};
ghost use Rattle.proof_check.specs.Places.{FindsNotBuilt, IsEarlier, IsEarlierIfAny};

use crate::unbuilt::first_unbuilt;
use crate::variables::unbuilt_judgment;
use outline_reader::Outline;
use proof_lexer::Token;

/// The one of two tokens that stands first, by line and then by place.
fn earlier<'a>(one: Token<'a>, other: Token<'a>) -> Token<'a>
    ensures { IsEarlier (token_view one.entry) (token_view other.entry) (token_view result) }
{
    if other.line < one.line || other.line == one.line && other.span.from < one.span.from {
        return other;
    }
    one
}

/// The one of two that stands first, of those that are there.
fn earlier_if_any<'a>(one: Option<Token<'a>>, other: Option<Token<'a>>) -> Option<Token<'a>>
    ensures { IsEarlierIfAny (option_map token_view one.entry) (option_map token_view other.entry) (option_map token_view result) }
{
    match one {
        Some(first) => match other {
            Some(second) => Some(earlier(first, second)),
            None => Some(first),
        },
        None => other,
    }
}

/// The first token of a source with an outline at which a form stands that is not built.
pub fn first_not_built<'a>(
    source: &[u8],
    tokens: &[Token<'a>],
    outline: &Outline<'a>,
) -> Option<Token<'a>>
    requires are_tokens { AreTokens source.now (map token_view tokens.now) }
    requires outline { IsOutline tokens.now (map portion_view outline.now.parts.items) }
    ensures { FindsNotBuilt source.now (option_map token_view result) }
{
    let _ = source;
    earlier_if_any(
        first_unbuilt(tokens),
        unbuilt_judgment(outline.parts.as_slice()),
    )
}
