// Spellings of the names of categories.
ghost use Rattle.std.specs.Prelude.{◌↔◌, IsTrue};
ghost use Rattle.rule_schemes.specs.Reading.{IsOtherSpelling};

use binding_terms::{CatId, Sig};
use rule_schemes::is_spelling;
use sqlite_items::at;

/// Whether the word is a spelling of the category with a digit or prime.
pub fn is_other_spelling(sig: &Sig, cat: CatId, word: &[u8]) -> bool
    ensures { IsTrue result ↔ IsOtherSpelling sig.now cat.0 word.now }
{
    match at(sig.cats().as_slice(), cat.0 as usize) {
        Some(found) => is_spelling(found.name.bytes(), word) && found.name.bytes() != word,
        None => false,
    }
}
