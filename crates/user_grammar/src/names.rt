// The names of a grammar.
ghost use Rattle.std.specs.Prelude.{◌<◌, ◌^◌, length, MatchOption};
ghost use Rattle.rule_schemes.specs.Reading.{IsCategoryWord};
ghost use Rattle.user_grammar.specs.Names.{category_names, IsNoSpelling};

use binding_terms::{Cat, CatId};
use rule_schemes::is_spelling;

/// A category of which the word is a spelling, or none where it is a spelling of none.
pub fn category_of(cats: &[Cat], word: &[u8]) -> Option<CatId>
    requires { length cats.now < 2 ^ 32 }
    ensures { MatchOption result (IsNoSpelling (category_names cats.now) word.now)
        (λ c. IsCategoryWord cats.now c.0 word.now) }
{
    for (number, cat) in cats.iter().enumerate() {
        if is_spelling(cat.name.bytes(), word) {
            return Some(CatId(number as u32));
        }
    }
    None
}
