// Tokens of small texts and of the worked theories.
ghost use Rattle.std.specs.Prelude.{◌-◌, ◌^◌, ◌<◌, length};

use crate::worked::{fifth_lines, first_lines, fourth_lines, second_lines, third_lines};
use proof_lexer::{
    Kind, LexFault, Token, lex, source_line, tokens_are_unique, tokens_or_fault,
    tokens_stand_in_source,
};
use std::alloc::{AllocError, Global};
use std::test::Fail;

fn letter(kind: Kind) -> &'static str {
    match kind {
        Kind::Word => "w",
        Kind::Symbol => "s",
        Kind::Punct => "p",
        Kind::Bar => "b",
        Kind::Quoted => "q",
    }
}

fn shown_token(alloc: Global, token: &Token<'_>) -> Result<String, AllocError> {
    let mark = letter(token.kind);
    let text = token.text;
    let from = token.span.from;
    let to = token.span.to;
    let line = token.line;
    format!(in alloc; "{mark}:{text}@{from}-{to}/{line}")
}

// The tokens of a text, each with its kind, its span and its line, or its fault.
fn shown(alloc: Global, source: &[u8]) -> Result<String, AllocError>
    requires { length source.now < 2 ^ 32 - 1 }
{
    match lex(alloc, source) {
        Ok(tokens) => {
            let mut text = String::new(alloc);
            for token in &tokens {
                if !text.is_empty() {
                    text.push_str(" ")?;
                }
                text.push_str(shown_token(alloc, token)?.as_str())?;
            }
            Ok(text)
        }
        Err(LexFault::NotUtf8(place)) => format!(in alloc; "NotUtf8 {place}"),
        Err(LexFault::OpenComment(place)) => format!(in alloc; "OpenComment {place}"),
        Err(LexFault::OpenQuote(place)) => format!(in alloc; "OpenQuote {place}"),
        Err(LexFault::NoMemory) => String::from_str(alloc, "NoMemory"),
    }
}

// The texts of the tokens, with blanks between them.
fn words(alloc: Global, source: &[u8]) -> Result<String, AllocError>
    requires { length source.now < 2 ^ 32 - 1 }
{
    let mut text = String::new(alloc);
    if let Ok(tokens) = lex(alloc, source) {
        for token in &tokens {
            if !text.is_empty() {
                text.push_str(" ")?;
            }
            text.push_str(token.text)?;
        }
    }
    Ok(text)
}

#[test]
fn small_texts(rt: HostRuntime) -> Result<(), Fail> {
    let alloc = rt.alloc();
    let rows: [(&[u8], &str); 50] = [
        (b"", ""),
        (b" ", ""),
        (b"a--b", "w:a@0-1/1 s:--@1-3/1 w:b@3-4/1"),
        (b"a-", "w:a@0-1/1 s:-@1-2/1"),
        (b"x''-y", "w:x''-y@0-5/1"),
        (b"n1'", "w:n1'@0-3/1"),
        (b"1a", "w:1a@0-2/1"),
        (b"_", "w:_@0-1/1"),
        (b"---", "b:---@0-3/1"),
        (b"--", "s:--@0-2/1"),
        (b"-->", "s:-->@0-3/1"),
        (b"=>//c", "s:=>@0-2/1"),
        (b"=>/*c*/d", "s:=>@0-2/1 w:d@7-8/1"),
        (b"|", "s:|@0-1/1"),
        (b"\"|\"", "q:|@0-3/1"),
        (b"\"\"", "OpenQuote 0"),
        (b"\"a b\"", "OpenQuote 0"),
        (b"\"ab", "OpenQuote 0"),
        (b"a \"ab", "OpenQuote 2"),
        (b"/* /* */ a", "w:a@9-10/1"),
        (b"/*", "OpenComment 0"),
        (b"/*/", "OpenComment 0"),
        (b"a /* b", "OpenComment 2"),
        (b"\"a\" \"", "OpenQuote 4"),
        (b"\xFF", "NotUtf8 0"),
        (b"a\xFF", "NotUtf8 1"),
        (b"a // \xFF\n\"", "NotUtf8 5"),
        (b"/* \xFF */ \"", "NotUtf8 3"),
        (b"/* \xFF", "OpenComment 0"),
        (b"\"a\xFF\"", "OpenQuote 0"),
        (b"a\xE2\x82", "NotUtf8 1"),
        (b"\xCC\x81a", "w:́a@0-3/1"),
        (b"a\xCC\x81b", "w:áb@0-4/1"),
        (
            b"\xC3\xA9t\xC3\xA9 \xE2\x88\x80x.",
            "w:été@0-5/1 s:∀@6-9/1 w:x@9-10/1 p:.@10-11/1",
        ),
        (b"a\r\nb\r\n", "w:a@0-1/1 w:b@3-4/2"),
        (b"a\nb", "w:a@0-1/1 w:b@2-3/2"),
        (b"/* \n\n */ a // b\n c", "w:a@9-10/3 w:c@17-18/4"),
        (
            b"f(x, y) [z]; {w}.",
            "w:f@0-1/1 p:(@1-2/1 w:x@2-3/1 p:,@3-4/1 w:y@5-6/1 p:)@6-7/1 p:[@8-9/1 w:z@9-10/1 p:]@10-11/1 p:;@11-12/1 p:{@13-14/1 w:w@14-15/1 p:}@15-16/1 p:.@16-17/1",
        ),
        (b"a-//b", "w:a@0-1/1 s:-@1-2/1"),
        (b"'a", "s:'@0-1/1 w:a@1-2/1"),
        (b"a/b", "w:a@0-1/1 s:/@1-2/1 w:b@2-3/1"),
        (b"a/ /b", "w:a@0-1/1 s:/@1-2/1 s:/@3-4/1 w:b@4-5/1"),
        (b"----\n---x", "b:----@0-4/1 b:---@5-8/2 w:x@8-9/2"),
        (b"\"---\"", "q:---@0-5/1"),
        (b"a\tb\rc", "w:a@0-1/1 w:b@2-3/1 w:c@4-5/1"),
        (b"\"a\"b\"c\"", "q:a@0-3/1 w:b@3-4/1 q:c@4-7/1"),
        (b"1-2", "w:1-2@0-3/1"),
        (b"x-1", "w:x-1@0-3/1"),
        (b"*/", "s:*/@0-2/1"),
        (b"\xC2\xA0", "s: @0-2/1"),
    ];
    for (source, tokens) in rows {
        assert!(rt; source.len() < 1000);
        assert_eq!(rt; shown(alloc, source)?.as_str(), tokens, "for {source:?}");
    }
    tokens_are_unique();
    tokens_or_fault();
    tokens_stand_in_source();
    Ok(())
}

// All the lines, each after such an end of a line.
fn theories(alloc: Global, lines: &[(&str, &str)], end: &str) -> Result<String, AllocError> {
    let mut text = String::new(alloc);
    for (line, _) in lines {
        text.push_str(end)?;
        text.push_str(line)?;
    }
    Ok(text)
}

// The words of all the lines.
fn theory_words(alloc: Global, lines: &[(&str, &str)]) -> Result<String, AllocError> {
    let mut text = String::new(alloc);
    for (_, tokens) in lines {
        if !text.is_empty() {
            text.push_str(" ")?;
        }
        text.push_str(tokens)?;
    }
    Ok(text)
}

// Whether each line, and all of them after one another, have the words beside them.
fn agree(alloc: Global, lines: &[(&str, &str)]) -> Result<bool, AllocError> {
    let all = theory_words(alloc, lines)?;
    for end in ["\n", "\r\n"] {
        let source = theories(alloc, lines, end)?;
        if source.len() >= 100_000 || words(alloc, source.as_bytes())? != all {
            return Ok(false);
        }
    }
    for (line, tokens) in lines {
        if line.len() >= 1000 || words(alloc, line.as_bytes())?.as_str() != *tokens {
            return Ok(false);
        }
    }
    Ok(true)
}

#[test]
fn worked_theories(rt: HostRuntime) -> Result<(), Fail> {
    let alloc = rt.alloc();
    assert!(rt; agree(alloc, first_lines())?);
    assert!(rt; agree(alloc, second_lines())?);
    assert!(rt; agree(alloc, third_lines())?);
    assert!(rt; agree(alloc, fourth_lines())?);
    assert!(rt; agree(alloc, fifth_lines())?);
    Ok(())
}

#[test]
fn source_lines(rt: HostRuntime) {
    let source = b"one\r\n\ntwo\rthree\r\r\nlast\r";
    let rows: [(u32, &[u8]); 7] = [
        (0, b""),
        (1, b"one"),
        (2, b""),
        (3, b"two\rthree\r"),
        (4, b"last"),
        (5, b""),
        (u32::MAX, b""),
    ];
    for (line, bytes) in rows {
        assert_eq!(rt; source_line(source, line), bytes, "for {line}");
    }
    assert_eq!(rt; source_line(b"a\n", 2), b"".as_slice());
}
