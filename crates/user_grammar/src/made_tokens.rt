// What the tokens of a production are, where categories have variables.
ghost use Rattle.std.specs.Prelude.{◌≡◌, ◌↔◌, ◌<◌, ◌^◌, ◌∷◌, [], IsTrue, length, map, MatchOption};
ghost use Rattle.proof_lexer.specs.View.{token_view};
ghost use Rattle.rule_schemes.specs.Reading.{IsSpelling};
ghost use Rattle.outline_reader.specs.Plain.{plain_form};
ghost use Rattle.user_grammar.specs.Indexed.{names_in};
ghost use Rattle.user_grammar.specs.MadeItems.{IsBinderSpelling, Means, WordMeans};
ghost use Rattle.user_grammar.specs.Names.{IsNoSpelling, names, variable_names};
ghost use Rattle.user_grammar.specs.Production.{IsMark, IsVariable};

use crate::name_index::{NameIndex, has_name};
use crate::names::category_of;
use binding_terms::{Cat, CatId};
use proof_lexer::{Kind, Token, is_numeral};
use rule_schemes::is_spelling;

/// What a token stands for outside brackets.
#[derive(Clone, Copy, Debug, PartialEq, Eq)]
pub enum Meaning {
    /// A part of the category.
    Slot(CatId),
    /// A variable of the category.
    Binder(CatId),
    /// Itself.
    Other,
}

/// Where a token behind a slot stands.
#[derive(Clone, Copy, Debug, PartialEq, Eq)]
pub enum Spot {
    /// Outside brackets.
    Outside,
    /// Where a word is expected.
    BeforeWord,
    /// Where a comma or the end is expected.
    BehindWord,
}

fn is_variable_word(cat: &Cat, word: &[u8]) -> bool
    ensures { IsTrue result ↔ MatchOption cat.now.var ⊥ (λ name. IsSpelling name word.now) }
{
    match &cat.var {
        Some(name) => is_spelling(name.bytes(), word),
        None => false,
    }
}

/// A category of whose variable the word is a spelling, or none where it is a spelling of none.
pub fn binder_of(cats: &[Cat], word: &[u8]) -> Option<CatId>
    requires { length cats.now < 2 ^ 32 }
    ensures { MatchOption result (IsNoSpelling (variable_names cats.now) word.now)
        (λ c. IsBinderSpelling cats.now c.0 word.now) }
{
    for (number, cat) in cats.iter().enumerate() {
        if is_variable_word(cat, word) {
            return Some(CatId(number as u32));
        }
    }
    None
}

fn word_means(cats: &[Cat], word: &[u8]) -> Meaning
    requires { length cats.now < 2 ^ 32 }
    ensures { WordMeans cats.now word.now result }
{
    if let Some(cat) = category_of(cats, word) {
        return Meaning::Slot(cat);
    }
    match binder_of(cats, word) {
        Some(cat) => Meaning::Binder(cat),
        None => Meaning::Other,
    }
}

/// What a token stands for outside brackets.
pub fn meaning_of(cats: &[Cat], token: &Token<'_>) -> Meaning
    requires { length cats.now < 2 ^ 32 }
    ensures { Means cats.now (token_view token.now) result }
{
    match token.kind {
        Kind::Word => word_means(cats, token.text.as_bytes()),
        Kind::Symbol => Meaning::Other,
        Kind::Punct => Meaning::Other,
        Kind::Bar => Meaning::Other,
        Kind::Quoted => Meaning::Other,
    }
}

/// Whether a token is punctuation with this code.
pub fn is_mark(code: u8, token: &Token<'_>) -> bool
    ensures { IsTrue result ↔ IsMark code (token_view token.now) }
{
    token.kind == Kind::Punct && token.text.as_bytes() == [code].as_slice()
}

fn spells_none(names: &[&[u8]], word: &[u8]) -> bool
    ensures { IsTrue result ↔ IsNoSpelling (map (λ name. name.now) names.now) word.now }
{
    for name in names {
        if is_spelling(name, word) {
            return false;
        }
    }
    true
}

fn is_variable_token(names: &[&[u8]], listed: &NameIndex<'_>, token: &Token<'_>) -> bool
    ensures { IsTrue result ↔ IsVariable (map (λ name. name.now) names.now) (names_in listed.now)
        (token_view token.now ∷ []) }
{
    token.kind == Kind::Word
        && !is_numeral(token.text)
        && !has_name(listed, token.text.as_bytes())
        && spells_none(names, token.text.as_bytes())
}

/// The word of a form that is a word alone, no listed terminal, no numeral and no category: it is a variable.
pub fn lone_variable<'a>(
    names: &[&[u8]],
    listed: &NameIndex<'_>,
    form: &'a [Token<'a>],
) -> Option<&'a Token<'a>>
    ensures { MatchOption result
        (IsVariable (map (λ name. name.now) names.now) (names_in listed.now) (plain_form form.now) → ⊥)
        (λ token. (plain_form form.now ≡ token_view token.now ∷ [])
        × IsVariable (map (λ name. name.now) names.now) (names_in listed.now) (token_view token.now ∷ [])) }
{
    match form {
        [token] => {
            if is_variable_token(names, listed, token) {
                return Some(token);
            }
            None
        }
        _ => None,
    }
}

/// Whether a form is a variable.
pub fn is_variable(names: &[&[u8]], listed: &NameIndex<'_>, form: &[Token<'_>]) -> bool
    ensures { IsTrue result ↔ IsVariable (map (λ name. name.now) names.now) (names_in listed.now)
        (plain_form form.now) }
{
    match form {
        [token] => is_variable_token(names, listed, token),
        _ => false,
    }
}
