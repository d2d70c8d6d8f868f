// Words and the categories whose spellings they are.
ghost use Rattle.std.specs.Prelude.{◌↔◌, IsTrue, IfOk, MatchOption};
ghost use Rattle.std.specs.List.{AllByRecursion};
ghost use Rattle.rule_schemes.specs.Reading.{AreSpelledApart, IsCategoryWord, IsSpelling};
ghost use Rattle.user_grammar.specs.Names.{AllApart, AreApart, category_names};
ghost use Rattle.judgments.specs.Spellings.{IsNoSpelling};

use binding_terms::{Cat, CatId, NoMemory, Sig};
use rule_schemes::is_spelling;
use user_grammar::category_of;

/// A category of which the word is a spelling.
pub fn spelled(cats: &[Cat], word: &[u8]) -> Result<Option<CatId>, NoMemory>
    ensures { IfOk result
        (λ found. MatchOption found (IsNoSpelling cats.now word.now) (λ c. IsCategoryWord cats.now c.0 word.now)) }
{
    if cats.len() > u32::MAX as usize {
        return Err(NoMemory);
    }
    Ok(category_of(cats, word))
}

/// Whether neither name is a spelling of the other.
fn neither_spells(one: &Cat, other: &Cat) -> bool
    ensures { IsTrue result
        ↔ ((IsSpelling one.now.name other.now.name → ⊥) × (IsSpelling other.now.name one.now.name → ⊥)) }
{
    !is_spelling(one.name.bytes(), other.name.bytes())
        && !is_spelling(other.name.bytes(), one.name.bytes())
}

/// Whether the names have no spelling in common.
fn names_apart(one: &Cat, other: &Cat) -> bool
    ensures { IsTrue result ↔ AreApart one.now.name other.now.name }
{
    neither_spells(one, other)
}

/// Whether the category's name has no spelling in common with the others.
fn is_apart(one: &Cat, others: &[Cat]) -> bool
    ensures { IsTrue result ↔ AllByRecursion (AreApart one.now.name) (category_names others.now) }
{
    for other in others {
        if !names_apart(one, other) {
            return false;
        }
    }
    true
}

/// Whether no two names of categories have a spelling in common.
fn all_apart(cats: &[Cat]) -> bool
    ensures { IsTrue result ↔ AllApart (category_names cats.now) }
{
    for i in 0..cats.len() {
        if !is_apart(&cats[i], &cats[i + 1..]) {
            return false;
        }
    }
    true
}

/// Whether no word is a spelling of two categories.
pub fn spelled_apart(sig: &Sig) -> bool
    ensures { IsTrue result ↔ AreSpelledApart sig.now }
{
    all_apart(sig.cats().as_slice())
}
