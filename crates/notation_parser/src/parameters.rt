// The parameters of a new name, by its first telling occurrence.
ghost use Rattle.std.specs.Prelude.{◌≡◌, ◌↔◌, [], ◌∷◌, ◌++◌, ℕ, List, IsTrue, IfOk, MatchOption, map};
ghost use Rattle.std.specs.List.{AllByRecursion};
ghost use Rattle.rule_schemes.specs.Reading.{IsEnding, IsSpelling, IsVariableWord, IsVariableOfFirst, punctuation};
ghost use Rattle.rule_schemes.specs.NewNames.{TellsBrackets, TellsWords, AreDifferentWords, IsTelling, FirstTells};
ghost use Rattle.term_reader.specs.View.{token};
ghost use Rattle.notation_parser.specs.Candidates.{TellsBehind, IsToldAfter};

use binding_terms::{Cat, CatId, NoMemory, Sig, Text, number};
use proof_lexer::{Kind, Token};
use rule_schemes::{is_spelling, same_text};
use sqlite_items::Items;
use std::alloc::Global;
use term_reader::{is_any_word, is_word};

/// Words that stand in brackets, with the categories of which they are variables.
#[derive(Drop)]
pub struct Told {
    pub words: Items<Text>,
    pub cats: Items<CatId>,
}

/// Whether the word is a spelling of the category's variable.
fn is_variable_of(cat: &Cat, word: &[u8]) -> bool
    ensures { IsTrue result ↔ MatchOption cat.now.var ⊥ (λ name. IsSpelling name word.now) }
{
    match &cat.var {
        Some(name) => is_spelling(name.bytes(), word),
        None => false,
    }
}

/// The category of which the word is a variable: the first, where it is one of several.
fn variable_category(sig: &Sig, word: &[u8]) -> Result<Option<CatId>, NoMemory>
    ensures { IfOk result
        (λ found. MatchOption found ((c : ℕ) → IsVariableWord sig.now c word.now → ⊥) (λ c. IsVariableOfFirst sig.now c.0 word.now)) }
{
    let cats = sig.cats().as_slice();
    for c in 0..cats.len() {
        if is_variable_of(&cats[c], word) {
            return Ok(Some(CatId(number(c)?)));
        }
    }
    Ok(None)
}

/// Whether the token is the punctuation with that code.
fn is_punctuation(code: u8, t: &Token<'_>) -> bool
    ensures { IsTrue result ↔ (token t.now ≡ punctuation code) }
{
    t.kind == Kind::Punct && t.text.as_bytes() == [code].as_slice()
}

/// One word more.
fn with_word(alloc: Global, told: Told, word: &[u8], cat: CatId) -> Result<Told, NoMemory>
    ensures { IfOk result
        (λ new. (new.words ≡ told.words ++ word.now ∷ []) × (new.cats ≡ told.cats ++ cat ∷ [])) }
{
    let mut words = told.words;
    let mut cats = told.cats;
    words.push(Text::of(alloc, word)?)?;
    cats.push(cat)?;
    Ok(Told { words, cats })
}

/// What the brackets at the beginning of the tokens tell.
#[cycle(telling)]
fn brackets(
    alloc: Global,
    sig: &Sig,
    tokens: &[Token<'_>],
    told: Told,
) -> Result<Option<Told>, NoMemory>
    ensures { IfOk result (IsToldAfter (TellsBrackets sig.now (map token tokens.now)) told) }
{
    match tokens {
        [] => Ok(Some(told)),
        [first, rest @ ..] => bracket(alloc, sig, first, rest, told),
    }
}

#[cycle(telling)]
fn bracket(
    alloc: Global,
    sig: &Sig,
    first: &Token<'_>,
    rest: &[Token<'_>],
    told: Told,
) -> Result<Option<Told>, NoMemory>
    ensures { IfOk result (IsToldAfter (TellsBrackets sig.now (token first.now ∷ map token rest.now)) told) }
{
    if is_punctuation(b'[', first) {
        words(alloc, sig, rest, told)
    } else {
        Ok(Some(told))
    }
}

/// What the words tell that stand after a bracket or a comma.
#[cycle(telling)]
fn words(
    alloc: Global,
    sig: &Sig,
    tokens: &[Token<'_>],
    told: Told,
) -> Result<Option<Told>, NoMemory>
    ensures { IfOk result (IsToldAfter (TellsWords sig.now (map token tokens.now)) told) }
{
    match tokens {
        [] => Ok(None),
        [first, rest @ ..] => word(alloc, sig, first, rest, told),
    }
}

#[cycle(telling)]
fn word(
    alloc: Global,
    sig: &Sig,
    first: &Token<'_>,
    rest: &[Token<'_>],
    told: Told,
) -> Result<Option<Told>, NoMemory>
    ensures { IfOk result (IsToldAfter (TellsWords sig.now (token first.now ∷ map token rest.now)) told) }
{
    if !is_any_word(first) {
        return Ok(None);
    }
    let text = first.text.as_bytes();
    match variable_category(sig, text)? {
        None => Ok(None),
        Some(cat) => {
            let more = with_word(alloc, told, text, cat)?;
            behind(alloc, sig, rest, more)
        }
    }
}

/// What is told behind a word.
#[cycle(telling)]
fn behind(
    alloc: Global,
    sig: &Sig,
    tokens: &[Token<'_>],
    told: Told,
) -> Result<Option<Told>, NoMemory>
    ensures { IfOk result (IsToldAfter (TellsBehind sig.now (map token tokens.now)) told) }
{
    match tokens {
        [] => Ok(None),
        [first, rest @ ..] => mark(alloc, sig, first, rest, told),
    }
}

#[cycle(telling)]
fn mark(
    alloc: Global,
    sig: &Sig,
    first: &Token<'_>,
    rest: &[Token<'_>],
    told: Told,
) -> Result<Option<Told>, NoMemory>
    ensures { IfOk result (IsToldAfter (TellsBehind sig.now (token first.now ∷ map token rest.now)) told) }
{
    if is_punctuation(b',', first) {
        return words(alloc, sig, rest, told);
    }
    if is_punctuation(b']', first) {
        return brackets(alloc, sig, rest, told);
    }
    Ok(None)
}

fn is_other(one: &Text, words: &[Text]) -> bool
    ensures { IsTrue result ↔ AllByRecursion (λ v. one.now ≡ v → ⊥) words.now }
{
    for word in words {
        if same_text(one.bytes(), word.bytes()) {
            return false;
        }
    }
    true
}

fn are_different(words: &[Text]) -> bool
    ensures { IsTrue result ↔ AreDifferentWords words.now }
{
    for i in 0..words.len() {
        if !is_other(&words[i], &words[i + 1..]) {
            return false;
        }
    }
    true
}

/// The categories of the arguments of the name, where the tokens begin with a telling occurrence of it.
fn telling(
    alloc: Global,
    sig: &Sig,
    name: &[u8],
    first: &Token<'_>,
    rest: &[Token<'_>],
) -> Result<Option<Items<CatId>>, NoMemory>
    ensures { IfOk result
        (λ found. MatchOption found ((cs : List ℕ) → IsTelling sig.now name.now (token first.now ∷ map token rest.now) cs → ⊥)
        (λ cats. IsTelling sig.now name.now (token first.now ∷ map token rest.now) (map (λ c. c.0) cats))) }
{
    if !is_word(name, first) {
        return Ok(None);
    }
    let none = Told {
        words: Items::new(alloc),
        cats: Items::new(alloc),
    };
    match brackets(alloc, sig, rest, none)? {
        None => Ok(None),
        Some(told) => {
            if are_different(told.words.as_slice()) {
                Ok(Some(told.cats))
            } else {
                Ok(None)
            }
        }
    }
}

/// The categories of the arguments at the first telling occurrence of the name.
pub fn first_telling(
    alloc: Global,
    sig: &Sig,
    name: &[u8],
    tokens: &[Token<'_>],
) -> Result<Option<Items<CatId>>, NoMemory>
    ensures { IfOk result
        (λ found. MatchOption found ((cs : List ℕ) → FirstTells sig.now name.now (map token tokens.now) cs → ⊥)
        (λ cats. FirstTells sig.now name.now (map token tokens.now) (map (λ c. c.0) cats))) }
{
    match tokens {
        [] => Ok(None),
        [first, rest @ ..] => match telling(alloc, sig, name, first, rest)? {
            Some(cats) => Ok(Some(cats)),
            None => first_telling(alloc, sig, name, rest),
        },
    }
}
