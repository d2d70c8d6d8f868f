// Spellings, which name no derivation.
ghost use Rattle.std.specs.Prelude.{◌↔◌, ◌⊎◌, IsTrue, MatchOption};
ghost use Rattle.binding_terms.specs.Numbered.{AnyByRecursion};
ghost use Rattle.rule_schemes.specs.Reading.{IsSpelling};
ghost use Rattle.proof_check.specs.Cited.{IsSpellingIn};

use binding_terms::{Cat, Sig};
use rule_schemes::is_spelling;

fn is_spelling_of(cat: &Cat, word: &[u8]) -> bool
    ensures { IsTrue result
        ↔ (IsSpelling cat.now.name word.now ⊎ MatchOption cat.now.var ⊥ (λ name. IsSpelling name word.now)) }
{
    if is_spelling(cat.name.bytes(), word) {
        return true;
    }
    match &cat.var {
        Some(name) => is_spelling(name.bytes(), word),
        None => false,
    }
}

fn is_spelling_of_any(cats: &[Cat], word: &[u8]) -> bool
    ensures { IsTrue result
        ↔ AnyByRecursion (λ cat. IsSpelling cat.name word.now ⊎ MatchOption cat.var ⊥ (λ name. IsSpelling name word.now)) cats.now }
{
    for cat in cats {
        if is_spelling_of(cat, word) {
            return true;
        }
    }
    false
}

/// Whether the word is a spelling of a category or of its variable.
pub fn is_spelling_in(sig: &Sig, word: &[u8]) -> bool
    ensures { IsTrue result ↔ IsSpellingIn sig.now word.now }
{
    is_spelling_of_any(sig.cats().as_slice(), word)
}
