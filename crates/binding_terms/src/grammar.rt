ghost use Rattle.std.specs.Prelude.{◌≡◌, ◌↔◌, IfOk, IsTrue, slice_get, slice_index};
ghost use Rattle.std.specs.Option.{option_copied};
ghost use Rattle.binding_terms.specs.Signature.{Fits, Reaches, binders};

use crate::fitting::Draft;
use crate::reach::is_marked;
use crate::text::{NoMemory, Text};
use sqlite_items::{Items, at};
use std::alloc::Global;
use std::marker::Model;

#[derive(Clone, Copy, Debug, PartialEq, Eq)]
pub struct CatId(pub u32);

#[derive(Clone, Copy, Debug, PartialEq, Eq)]
pub struct ProdId(pub u32);

/// A category: its name, its variable's name, and whether it is a category of contexts.
#[derive(Debug, Drop)]
pub struct Cat {
    pub name: Text,
    pub var: Option<Text>,
    pub context: bool,
}

/// An item of a production. A slot lists the binders that it is under by their number in the production.
#[derive(Debug, Drop)]
pub enum Item {
    Word { text: Text, quoted: bool },
    Slot { cat: CatId, binds: Items<u32> },
    Binder(CatId),
}

#[derive(Debug, Drop)]
pub struct Prod {
    pub cat: CatId,
    pub items: Items<Item>,
}

/// A signature, whose productions fit its categories.
#[derive(Drop)]
pub struct Sig {
    cats: Vec<Cat>,
    prods: Vec<Prod>,
    // For each category, which categories reach it.
    columns: Vec<Items<bool>>,
}

impl Model for Sig {
    ghost use Rattle.binding_terms.specs.Signature.{Signature, Fits};
    ghost use Rattle.binding_terms.specs.Reach.{IsReachTable};

    ghost Value = { Signature };

    ghost view = { λ s. record { cats = s.cats.items; prods = s.prods.items } };

    ghost invariant = { λ s. Fits (record { cats = s.cats.items; prods = s.prods.items })
        × IsReachTable (record { cats = s.cats.items; prods = s.prods.items }) s.columns.items };
}

impl Sig {
    /// Whether the categories and productions make a signature.
    pub fn fits(cats: &Vec<Cat>, prods: &Vec<Prod>) -> bool
        ensures { IsTrue result ↔ Fits (record { cats = cats.now.items; prods = prods.now.items }) }
    {
        let draft = Draft {
            cats: cats.as_slice(),
            prods: prods.as_slice(),
        };
        draft.fits()
    }

    /// The signature of categories and productions that fit.
    pub fn make(alloc: Global, cats: Vec<Cat>, prods: Vec<Prod>) -> Result<Sig, NoMemory>
        requires { Fits (record { cats = cats.items; prods = prods.items }) }
        ensures cats { IfOk result (λ sig. sig.cats ≡ cats.items) }
        ensures prods { IfOk result (λ sig. sig.prods ≡ prods.items) }
    {
        let draft = Draft {
            cats: cats.as_slice(),
            prods: prods.as_slice(),
        };
        let columns = draft.reach_table(alloc)?;
        Ok(Sig {
            cats,
            prods,
            columns,
        })
    }

    /// The categories, which fit with the productions.
    pub fn cats(&self) -> &Vec<Cat>
        ensures value { result.now.items ≡ self.now.cats }
        ensures fits { Fits self.now }
    {
        &self.cats
    }

    /// The productions, which fit with the categories.
    pub fn prods(&self) -> &Vec<Prod>
        ensures value { result.now.items ≡ self.now.prods }
        ensures fits { Fits self.now }
    {
        &self.prods
    }

    /// The production of that number, or `None` where there is none.
    pub fn prod(&self, id: ProdId) -> Option<&Prod>
        ensures { option_copied result ≡ slice_get self.now.prods id.0 }
    {
        at(self.prods.as_slice(), id.0 as usize)
    }

    /// Whether a term of the first category can hold a variable of the second.
    pub fn reaches(&self, from: CatId, to: CatId) -> bool
        ensures { IsTrue result ↔ Reaches self.now from.0 to.0 }
    {
        match at(self.columns.as_slice(), to.0 as usize) {
            Some(marks) => is_marked(marks.as_slice(), from),
            None => false,
        }
    }
}

/// The category of a binder, by its number in the production, or category 0 where it has none.
pub fn binder_at(items: &[Item], number: u32) -> CatId
    ensures { result.0 ≡ slice_index (binders items.now) number }
{
    let mut left = number;
    for item in items {
        if let Item::Binder(cat) = item {
            if left == 0 {
                return *cat;
            }
            left -= 1;
        }
    }
    CatId(0)
}
