// A text character by character.
ghost use Rattle.std.specs.Prelude.{◌≡◌, ◌+◌, ◌<◌, ◌≤◌, ◌^◌, ℕ, List, [], ◌∷◌, ◌++◌, length, chars, IsUtf8, MatchOption};
ghost use Rattle.sy_base.specs.Tokens.{IsDecoded, line_feeds};
ghost use Rattle.proof_lexer.specs.Front.{EndsWith};

use std::str::from_utf8;

// The first character of a text, and the text after it.
pub(crate) fn first_of<'a>(text: &'a str) -> Option<(char, &'a str)>
    ensures { MatchOption result ((chars text.now ≡ []) × (length text.now ≡ 0))
        (λ x. (chars text.now ≡ x.0 ∷ chars x.1.now) × (length x.1.now < length text.now)) }
{
    let mut chars = text.chars();
    match chars.next() {
        Some(first) => Some((first, chars.as_str())),
        None => None,
    }
}

// What stands in a text before its end.
pub(crate) fn part_before<'a>(text: &'a str, end: &str) -> &'a str
    requires { EndsWith (chars text.now) (chars end.now) }
    ensures part { chars text.now ≡ chars result.now ++ chars end.now }
    ensures size { length text.now ≡ length result.now + length end.now }
{
    text.split_at(text.len() - end.len()).0
}

// How many line feeds a text has.
pub(crate) fn line_feeds(text: &str) -> u32
    requires { length text.now < 2 ^ 32 }
    ensures { result ≡ line_feeds (chars text.now) }
{
    let mut count = 0;
    let mut rest = text;
    while let Some((first, after)) = first_of(rest) {
        if first == '\n' {
            count += 1;
        }
        rest = after;
    }
    count
}

// Bytes that are UTF-8, as a text.
fn text_of(bytes: &[u8]) -> &str
    requires { IsUtf8 bytes.now }
    ensures { result.now ≡ bytes.now }
{
    match from_utf8(bytes) {
        Ok(text) => text,
        Err(_) => unreachable!(),
    }
}

// The text up to the first byte that belongs to no character, and the bytes from there on.
pub(crate) fn decoded<'a>(source: &'a [u8]) -> (&'a str, &'a [u8])
    ensures decoded { IsDecoded source.now (chars result.0.now) result.1.now }
    ensures utf8 { IsUtf8 result.0.now }
    ensures size { length result.0.now + length result.1.now ≡ length source.now }
{
    match from_utf8(source) {
        Ok(text) => (text, &[]),
        Err(error) => {
            let (front, stray) = source.split_at(error.valid_up_to());
            (text_of(front), stray)
        }
    }
}
