// The names that a file lists, declares and assumes, with look-up by name.
ghost use Rattle.std.specs.Prelude.{IfOk};
ghost use Rattle.user_grammar.specs.Fault.{category_texts};
ghost use Rattle.user_grammar.specs.File.{assumed, listed};
ghost use Rattle.user_grammar.specs.Indexed.{HaveSame, names_in};
ghost use Rattle.user_grammar.specs.Made.{plains};

use crate::made_productions::{assumed_texts, category_texts};
use crate::name_index::{NameIndex, indexed};
use crate::portions::listed;
use binding_terms::NoMemory;
use outline_reader::Portion;
use std::alloc::Global;

/// The listed terminals.
pub fn listed_index<'a>(alloc: Global, portions: &[Portion<'a>]) -> Result<NameIndex<'a>, NoMemory>
    ensures { IfOk result (λ index. HaveSame (names_in index) (listed (plains portions.now))) }
{
    let texts = listed(alloc, portions)?;
    let index = indexed(alloc, texts.as_slice())?;
    Ok(index)
}

/// The names of the categories.
pub fn category_index<'a>(
    alloc: Global,
    portions: &[Portion<'a>],
) -> Result<NameIndex<'a>, NoMemory>
    ensures { IfOk result (λ index. HaveSame (names_in index) (category_texts (plains portions.now))) }
{
    let texts = category_texts(alloc, portions)?;
    let index = indexed(alloc, texts.as_slice())?;
    Ok(index)
}

/// The names behind `assumes`.
pub fn assumed_index<'a>(alloc: Global, portions: &[Portion<'a>]) -> Result<NameIndex<'a>, NoMemory>
    ensures { IfOk result (λ index. HaveSame (names_in index) (assumed (plains portions.now))) }
{
    let texts = assumed_texts(alloc, portions)?;
    let index = indexed(alloc, texts.as_slice())?;
    Ok(index)
}
