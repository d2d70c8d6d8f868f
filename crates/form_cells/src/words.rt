// What a token is tested for.
ghost use Rattle.std.specs.Prelude.{◌≡◌, ◌↔◌, ◌⊎◌, IsTrue, ◌∷◌, []};
ghost use Rattle.rule_schemes.specs.Reading.{IsVariableWord, IsTerminal, MayBeTerminal, punctuation, word};
ghost use Rattle.form_cells.specs.View.{token, kind_number};

use binding_terms::Sig;
use proof_lexer::{Kind, Token};
use rule_schemes::is_spelling;
use sqlite_items::at;

fn is_bracket(text: &[u8]) -> bool
    ensures { IsTrue result
        ↔ ((text.now ≡ 40 ∷ []) ⊎ (text.now ≡ 41 ∷ []) ⊎ (text.now ≡ 91 ∷ []) ⊎ (text.now ≡ 93 ∷ [])) }
{
    text == b"(".as_slice()
        || text == b")".as_slice()
        || text == b"[".as_slice()
        || text == b"]".as_slice()
}

fn may_be_terminal(kind: Kind, text: &[u8]) -> bool
    ensures { IsTrue result ↔ MayBeTerminal (kind_number kind) text.now }
{
    match kind {
        Kind::Word => true,
        Kind::Symbol => text != b"|".as_slice(),
        Kind::Punct => !is_bracket(text),
        Kind::Bar => false,
        Kind::Quoted => true,
    }
}

/// Whether the token is the terminal with that text.
pub fn is_terminal(text: &[u8], t: &Token<'_>) -> bool
    ensures { IsTrue result ↔ IsTerminal text.now (token t.now) }
{
    t.text.as_bytes() == text && may_be_terminal(t.kind, t.text.as_bytes())
}

/// Whether the token is the punctuation with that code.
pub fn is_punctuation(code: u8, t: &Token<'_>) -> bool
    ensures { IsTrue result ↔ (token t.now ≡ punctuation code) }
{
    t.kind == Kind::Punct && t.text.as_bytes() == [code].as_slice()
}

/// Whether the token is that word.
pub fn is_word(text: &[u8], t: &Token<'_>) -> bool
    ensures { IsTrue result ↔ (token t.now ≡ word text.now) }
{
    t.kind == Kind::Word && t.text.as_bytes() == text
}

/// Whether the token is a word.
pub fn is_any_word(t: &Token<'_>) -> bool
    ensures { IsTrue result ↔ ((token t.now).0 ≡ 0) }
{
    t.kind == Kind::Word
}

/// Whether the word is a spelling of the category's variable.
fn is_variable_word(sig: &Sig, cat: usize, word: &[u8]) -> bool
    ensures { IsTrue result ↔ IsVariableWord sig.now cat word.now }
{
    match at(sig.cats().as_slice(), cat) {
        Some(found) => match &found.var {
            Some(name) => is_spelling(name.bytes(), word),
            None => false,
        },
        None => false,
    }
}

/// Whether the token may be a binder of the category.
pub fn is_binder(sig: &Sig, cat: usize, t: &Token<'_>) -> bool
    ensures { IsTrue result ↔ (((token t.now).0 ≡ 0) × IsVariableWord sig.now cat (token t.now).1) }
{
    t.kind == Kind::Word && is_variable_word(sig, cat, t.text.as_bytes())
}
