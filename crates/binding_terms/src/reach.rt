ghost use Rattle.std.specs.Prelude.{◌≡◌, ◌<◌, ◌↔◌, ℕ, IfOk, IsTrue, MatchBool, MatchOption, Some, false, length, slice_get};
ghost use Rattle.std.specs.List.{AllByRecursion};
ghost use Rattle.binding_terms.specs.Draft.{drafted};
ghost use Rattle.binding_terms.specs.Reach.{Follows, HasMarkedSlot, IsClosed, IsColumn, IsMarked, IsReachTable};
ghost use Rattle.binding_terms.specs.Signature.{Fits, HasVariable};

use crate::fitting::Draft;
use crate::grammar::{CatId, Item, Prod};
use crate::text::NoMemory;
use sqlite_items::{Items, at};
use std::alloc::Global;

impl<'a> Draft<'a> {
    /// For each category, which categories reach it.
    pub(crate) fn reach_table(&self, alloc: Global) -> Result<Vec<Items<bool>>, NoMemory>
        requires { Fits (drafted self.now) }
        ensures { IfOk result (λ columns. IsReachTable (drafted self.now) columns.items) }
    {
        let mut columns = Vec::new(alloc);
        for number in 0..self.cats.len() {
            columns.push(self.column(alloc, number)?)?;
        }
        Ok(columns)
    }

    /// Which categories reach the one with this number.
    fn column(&self, alloc: Global, to: usize) -> Result<Items<bool>, NoMemory>
        requires fits { Fits (drafted self.now) }
        requires in_range { to < length self.now.cats.now }
        ensures { IfOk result (λ marks. IsColumn (drafted self.now) to marks) }
    {
        let mut marks = Vec::from_elem(alloc, false, self.cats.len())?;
        marks[to] = self.has_variable(to);
        while let Some(cat) = next_mark(self.prods, marks.as_slice()) {
            marks[cat.0 as usize] = true;
        }
        Ok(Items::from_vec(marks))
    }
}

/// A category without a mark, of which a production has a slot of a marked one.
fn next_mark(prods: &[Prod], marks: &[bool]) -> Option<CatId>
    requires { AllByRecursion (λ p. p.cat.0 < length marks.now) prods.now }
    ensures { MatchOption result (IsClosed marks.now prods.now)
        (λ cat. (slice_get marks.now cat.0 ≡ Some false) × Follows marks.now prods.now cat.0) }
{
    for prod in prods {
        if is_next(prod, marks) {
            return Some(prod.cat);
        }
    }
    None
}

/// Whether the production has a marked slot and is of a category without a mark.
fn is_next(prod: &Prod, marks: &[bool]) -> bool
    requires { prod.now.cat.0 < length marks.now }
    ensures { MatchBool result
        ((slice_get marks.now prod.now.cat.0 ≡ Some false) × HasMarkedSlot marks.now prod.now.items)
        (HasMarkedSlot marks.now prod.now.items → IsMarked marks.now prod.now.cat.0) }
{
    !is_marked(marks, prod.cat) && has_marked_slot(prod.items.as_slice(), marks)
}

fn has_marked_slot(items: &[Item], marks: &[bool]) -> bool
    ensures { IsTrue result ↔ HasMarkedSlot marks.now items.now }
{
    for item in items {
        if let Item::Slot { cat, binds: _ } = item {
            if is_marked(marks, *cat) {
                return true;
            }
        }
    }
    false
}

/// Whether the category has a mark.
pub(crate) fn is_marked(marks: &[bool], cat: CatId) -> bool
    ensures { IsTrue result ↔ IsMarked marks.now cat.0 }
{
    match at(marks, cat.0 as usize) {
        Some(mark) => *mark,
        None => false,
    }
}
