// The categories and the listed terminals of a file, as its portions lend them.
ghost use Rattle.std.specs.Prelude.{◌≡◌, ◌++◌, IfOk, OnOk, map};
ghost use Rattle.outline_reader.specs.Plain.{plain_portion};
ghost use Rattle.outline_reader.specs.Views.{portion_view};
ghost use Rattle.user_grammar.specs.File.{categories, category_in};
ghost use Rattle.user_grammar.specs.Finding.{written_view};
ghost use Rattle.user_grammar.specs.Made.{plains};

use crate::name_index::NameIndex;
use binding_terms::NoMemory;
use outline_reader::{Form, Name, Portion};
use std::alloc::Global;

/// A category: its name, its `::=`, and the form of each production.
#[derive(Clone, Copy)]
pub struct Written<'a> {
    pub name: Name<'a>,
    pub mark: Name<'a>,
    pub forms: &'a [Form<'a>],
}

/// The portions of a file, its categories and their names, and the terminals that it lists.
#[derive(Clone, Copy)]
pub struct Lists<'a> {
    pub portions: &'a [Portion<'a>],
    pub categories: &'a [Written<'a>],
    pub names: &'a NameIndex<'a>,
    pub listed: &'a NameIndex<'a>,
}

fn add_written<'p>(portion: &'p Portion<'_>, all: &mut Vec<Written<'p>>) -> Result<(), NoMemory>
    ensures { OnOk result (map written_view all.new.items
        ≡ map written_view all.old.items ++ category_in (plain_portion (portion_view portion.now))) }
{
    match portion {
        Portion::Category {
            name,
            mark,
            productions,
        } => {
            all.push(Written {
                name,
                mark,
                forms: productions.as_slice(),
            })?;
            Ok(())
        }
        _ => Ok(()),
    }
}

/// The categories, in text order.
pub fn lent_categories<'p>(
    alloc: Global,
    portions: &'p [Portion<'_>],
) -> Result<Vec<Written<'p>>, NoMemory>
    ensures { IfOk result (λ all. map written_view all.items ≡ categories (plains portions.now)) }
{
    let mut all = Vec::new(alloc);
    for portion in portions {
        add_written(portion, &mut all)?;
    }
    Ok(all)
}
