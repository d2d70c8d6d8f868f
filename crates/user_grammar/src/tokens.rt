// What the tokens of a production are.
ghost use Rattle.std.specs.Prelude.{◌≡◌, ◌↔◌, ◌⊎◌, ◌∷◌, [], IsTrue, map};
ghost use Rattle.proof_lexer.specs.View.{kind_number};
ghost use Rattle.rule_schemes.specs.Reading.{MayBeTerminal};
ghost use Rattle.user_grammar.specs.Names.{IsAmong};

use proof_lexer::{Kind, Token};
use rule_schemes::same_text;

fn is_bracket(text: &[u8]) -> bool
    ensures { IsTrue result ↔ ((text.now ≡ 91 ∷ []) ⊎ (text.now ≡ 93 ∷ [])) }
{
    text == b"[".as_slice() || text == b"]".as_slice()
}

pub fn is_parenthesis(text: &[u8]) -> bool
    ensures { IsTrue result ↔ ((text.now ≡ 40 ∷ []) ⊎ (text.now ≡ 41 ∷ [])) }
{
    text == b"(".as_slice() || text == b")".as_slice()
}

/// Whether a token of this kind with this text may be a terminal, but for words and parentheses.
pub fn may_be_terminal(kind: Kind, text: &[u8]) -> bool
    ensures { IsTrue result ↔ MayBeTerminal (kind_number kind) text.now }
{
    match kind {
        Kind::Word => true,
        Kind::Symbol => text != b"|".as_slice(),
        Kind::Punct => !is_parenthesis(text) && !is_bracket(text),
        Kind::Bar => false,
        Kind::Quoted => true,
    }
}

pub fn is_listed(listed: &[&[u8]], word: &[u8]) -> bool
    ensures { IsTrue result ↔ IsAmong (map (λ text. text.now) listed.now) word.now }
{
    for text in listed {
        if same_text(text, word) {
            return true;
        }
    }
    false
}

pub fn is_word(token: &Token<'_>) -> bool
    ensures { IsTrue result ↔ (kind_number token.now.kind ≡ 0) }
{
    token.kind == Kind::Word
}
