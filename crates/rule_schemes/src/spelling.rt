// Names of metavariables, and spellings of names.
ghost use Rattle.std.specs.Prelude.{◌≡◌, ◌≢◌, ◌↔◌, ◌++◌, ℕ, List, IsTrue, MatchOption};
ghost use Rattle.std.specs.List.{AllByRecursion};
ghost use Rattle.binding_terms.specs.Numbered.{AnyByRecursion};
ghost use Rattle.rule_schemes.specs.Reading.{IsEnding, IsSpelling};

use scheme_terms::MetaDecl;

fn is_ending(byte: u8) -> bool
    ensures { IsTrue result ↔ IsEnding byte }
{
    byte.is_ascii_digit() || byte == b'\''
}

fn are_endings(bytes: &[u8]) -> bool
    ensures { IsTrue result ↔ AllByRecursion IsEnding bytes.now }
{
    for &byte in bytes {
        if !is_ending(byte) {
            return false;
        }
    }
    true
}

/// What follows a name in a word that begins with it.
fn behind_name<'a>(name: &[u8], word: &'a [u8]) -> Option<&'a [u8]>
    ensures { MatchOption result ((ending : List ℕ) → word.now ≢ name.now ++ ending)
        (λ ending. word.now ≡ name.now ++ ending.now) }
{
    word.strip_prefix(name)
}

/// Whether a word is a spelling of a name: the name followed by digits and primes.
pub fn is_spelling(name: &[u8], word: &[u8]) -> bool
    ensures { IsTrue result ↔ IsSpelling name.now word.now }
{
    match behind_name(name, word) {
        Some(ending) => are_endings(ending),
        None => false,
    }
}

/// Whether two texts are the same.
pub fn same_text(one: &[u8], other: &[u8]) -> bool
    ensures { IsTrue result ↔ (one.now ≡ other.now) }
{
    one == other
}

/// Whether one of the metavariables has that name.
pub fn is_among(metas: &[MetaDecl], name: &[u8]) -> bool
    ensures { IsTrue result ↔ AnyByRecursion (λ m. m.name ≡ name.now) metas.now }
{
    for decl in metas {
        if same_text(decl.name.bytes(), name) {
            return true;
        }
    }
    false
}
