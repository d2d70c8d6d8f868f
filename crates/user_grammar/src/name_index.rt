// Names with look-up by name.
ghost use Rattle.std.specs.Prelude.{◌≡◌, ◌↔◌, [], IsTrue, IfOk, OnOk, Some, map, slice_get, MatchOption};
ghost use Rattle.user_grammar.specs.Indexed.{HaveSame, IsAdded, names_in};
ghost use Rattle.user_grammar.specs.Names.{AllDiffer, IsAmong};

use binding_terms::NoMemory;
use indexmap::IndexSet;
use std::alloc::Global;

/// Names in the order of their declaration, each once, with look-up by name.
#[derive(Drop)]
pub struct NameIndex<'a> {
    pub names: IndexSet<&'a [u8]>,
}

/// No names.
pub fn no_names<'a>(alloc: Global) -> NameIndex<'a>
    ensures { names_in result ≡ [] }
{
    NameIndex {
        names: IndexSet::new(alloc),
    }
}

/// Adds a name: one that is there keeps its place, and another goes last.
pub fn add_name<'a>(index: &mut NameIndex<'a>, name: &'a [u8]) -> Result<(), NoMemory>
    ensures { OnOk result (IsAdded (names_in index.old) name.now (names_in index.new)) }
{
    index.names.insert(name)?;
    Ok(())
}

/// Whether a word is one of the names.
pub fn has_name(index: &NameIndex<'_>, word: &[u8]) -> bool
    ensures { IsTrue result ↔ IsAmong (names_in index.now) word.now }
{
    index.names.contains(word)
}

/// The place of a word among the names.
pub fn place_of(index: &NameIndex<'_>, word: &[u8]) -> Option<usize>
    ensures { MatchOption result (IsAmong (names_in index.now) word.now → ⊥)
        (λ n. slice_get (names_in index.now) n ≡ Some word.now) }
{
    index.names.get_index_of(word)
}

/// Some texts, in their order, each once.
pub fn indexed<'a>(alloc: Global, texts: &[&'a [u8]]) -> Result<NameIndex<'a>, NoMemory>
    ensures same { IfOk result (λ index. HaveSame (names_in index) (map (λ text. text.now) texts.now)) }
    ensures in_order { IfOk result (λ index. AllDiffer (map (λ text. text.now) texts.now)
        → names_in index ≡ map (λ text. text.now) texts.now) }
{
    let mut index = no_names(alloc);
    for text in texts {
        add_name(&mut index, text)?;
    }
    Ok(index)
}
