// The metavariables that a form may bring.
ghost use Rattle.std.specs.Prelude.{◌≡◌, ◌≢◌, ◌↔◌, ℕ, IsTrue, IfOk, MatchOption, map};
ghost use Rattle.std.specs.List.{AllByRecursion};
ghost use Rattle.binding_terms.specs.Numbered.{AnyByRecursion};
ghost use Rattle.rule_schemes.specs.NewNames.{IsPlainSpelling, IsOfFirst};
ghost use Rattle.term_reader.specs.View.{token};
ghost use Rattle.notation_parser.specs.Candidates.{IsPlainSpellingOf, AreCandidates, IsNextCandidate};

use crate::parameters::first_telling;
use binding_terms::{Cat, CatId, NoMemory, Sig, Text, number};
use proof_lexer::Token;
use rule_schemes::{is_among, is_spelling, same_text};
use scheme_terms::MetaDecl;
use sqlite_items::Items;
use std::alloc::Global;
use term_reader::is_any_word;

/// Whether the word is a spelling of the category, which is none of contexts.
fn is_plain_spelling(cat: &Cat, word: &[u8]) -> bool
    ensures { IsTrue result ↔ IsPlainSpellingOf cat.now word.now }
{
    !cat.context && is_spelling(cat.name.bytes(), word)
}

/// The category of which the word is a spelling: the first, where it is one of several.
fn category(sig: &Sig, word: &[u8]) -> Result<Option<CatId>, NoMemory>
    ensures { IfOk result
        (λ found. MatchOption found ((c : ℕ) → IsPlainSpelling sig.now c word.now → ⊥) (λ c. IsOfFirst sig.now c.0 word.now)) }
{
    let cats = sig.cats().as_slice();
    for c in 0..cats.len() {
        if is_plain_spelling(&cats[c], word) {
            return Ok(Some(CatId(number(c)?)));
        }
    }
    Ok(None)
}

/// Whether no metavariable has that name.
fn is_new(metas: &[MetaDecl], name: &[u8]) -> bool
    ensures { IsTrue result ↔ AllByRecursion (λ m. m.name ≢ name.now) metas.now }
{
    for decl in metas {
        if same_text(decl.name.bytes(), name) {
            return false;
        }
    }
    true
}

/// The new metavariable whose name the token is, if any.
fn candidate(
    alloc: Global,
    sig: &Sig,
    metas: &[MetaDecl],
    found: &[MetaDecl],
    tokens: &[Token<'_>],
    t: &Token<'_>,
) -> Result<Option<MetaDecl>, NoMemory>
    ensures { IfOk result (IsNextCandidate sig.now metas.now found.now (map token tokens.now) (token t.now)) }
{
    let name = t.text.as_bytes();
    if !is_any_word(t) {
        return Ok(None);
    }
    if !is_new(metas, name) {
        return Ok(None);
    }
    if is_among(found, name) {
        return Ok(None);
    }
    match category(sig, name)? {
        None => Ok(None),
        Some(cat) => match first_telling(alloc, sig, name, tokens)? {
            None => Ok(None),
            Some(params) => Ok(Some(MetaDecl {
                name: Text::of(alloc, name)?,
                cat,
                params,
            })),
        },
    }
}

/// All metavariables that the tokens may bring, in the order of first places.
pub fn candidates(
    alloc: Global,
    sig: &Sig,
    metas: &[MetaDecl],
    tokens: &[Token<'_>],
) -> Result<Items<MetaDecl>, NoMemory>
    ensures { IfOk result (AreCandidates sig.now metas.now (map token tokens.now)) }
{
    let mut found = Items::new(alloc);
    for t in tokens {
        match candidate(alloc, sig, metas, found.as_slice(), tokens, t)? {
            Some(decl) => found.push(decl)?,
            None => {}
        }
    }
    Ok(found)
}
