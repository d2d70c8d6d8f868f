ghost use Rattle.std.specs.Prelude.{◌≡◌, ◌≢◌, ◌<◌, ◌↔◌, ◌==◌, ◌&&◌, [], IsTrue, MatchBool, MatchOption, count_by, drop, length, slice_get};
ghost use Rattle.std.specs.List.{AllByRecursion};
ghost use Rattle.binding_terms.specs.Draft.{drafted};
ghost use Rattle.binding_terms.specs.Numbered.{AllNumbered, AreDifferent};
ghost use Rattle.binding_terms.specs.Signature.{CatFits, Extends, Fits, HasVariable, IsContextForm, IsPlain, IsSingle, PlaceFits, ProdFits, binders, is_empty_form, slots};

use crate::grammar::{Cat, CatId, Item, Prod};
use sqlite_items::at;

/// Categories and productions that are not known to fit.
#[derive(Clone, Copy, Drop)]
pub(crate) struct Draft<'a> {
    pub(crate) cats: &'a [Cat],
    pub(crate) prods: &'a [Prod],
}

impl<'a> Draft<'a> {
    /// Whether the categories and productions make a signature.
    pub(crate) fn fits(&self) -> bool
        ensures { IsTrue result ↔ Fits (drafted self.now) }
    {
        self.all_prods_fit() && self.all_cats_fit()
    }

    fn all_prods_fit(&self) -> bool
        ensures { IsTrue result ↔ AllByRecursion (ProdFits (drafted self.now)) self.now.prods.now }
    {
        for prod in self.prods {
            if !self.prod_fits(prod) {
                return false;
            }
        }
        true
    }

    fn prod_fits(&self, prod: &Prod) -> bool
        ensures { IsTrue result ↔ ProdFits (drafted self.now) prod.now }
    {
        let items = prod.items.as_slice();
        items.len() > 0
            && !is_single(items)
            && self.all_places_fit(prod)
            && self.all_vary(items)
            && self.has_form(prod)
    }

    fn all_places_fit(&self, prod: &Prod) -> bool
        ensures { IsTrue result
            ↔ AllByRecursion (PlaceFits (drafted self.now) prod.now) (slots prod.now.items) }
    {
        let count = count_binders(prod.items.as_slice());
        let items = prod.items.as_slice();
        for item in items {
            if let Item::Slot { cat, binds } = item {
                if !self.place_fits(prod, *cat, binds.as_slice(), count) {
                    return false;
                }
            }
        }
        true
    }

    /// Whether a slot of the production may be of the category and under these binders.
    fn place_fits(&self, prod: &Prod, cat: CatId, binds: &[u32], count: usize) -> bool
        requires { count ≡ length (binders prod.now.items) }
        ensures { IsTrue result
            ↔ PlaceFits (drafted self.now) prod.now (record { cat = cat.0; binds = binds.now }) }
    {
        (cat.0 as usize) < self.cats.len() && all_below(binds, count) && are_different(binds)
    }

    fn all_vary(&self, items: &[Item]) -> bool
        ensures { IsTrue result ↔ AllByRecursion (HasVariable (drafted self.now)) (binders items.now) }
    {
        for item in items {
            if let Item::Binder(cat) = item {
                if !self.has_variable(cat.0 as usize) {
                    return false;
                }
            }
        }
        true
    }

    /// Whether the category with this number has a variable.
    pub(crate) fn has_variable(&self, number: usize) -> bool
        ensures { IsTrue result ↔ HasVariable (drafted self.now) number }
    {
        match at(self.cats, number) {
            Some(cat) => cat.var.is_some(),
            None => false,
        }
    }

    fn has_form(&self, prod: &Prod) -> bool
        ensures { IsTrue result ↔ MatchOption (slice_get self.now.cats.now prod.now.cat.0) ⊥
            (λ cat. MatchBool cat.context (IsContextForm (drafted self.now) prod.now)
            (AllByRecursion (λ s. IsPlain (drafted self.now) s.cat) (slots prod.now.items))) }
    {
        match at(self.cats, prod.cat.0 as usize) {
            Some(cat) => {
                if cat.context {
                    self.is_context_form(prod)
                } else {
                    self.all_plain(prod.items.as_slice())
                }
            }
            None => false,
        }
    }

    fn is_context_form(&self, prod: &Prod) -> bool
        ensures { IsTrue result ↔ IsContextForm (drafted self.now) prod.now }
    {
        is_empty_form(prod) || self.is_extension(prod.cat, prod.items.as_slice())
    }

    fn is_extension(&self, context: CatId, items: &[Item]) -> bool
        ensures { IsTrue result ↔ (Extends context.0 items.now
            × AllByRecursion (λ s. IsPlain (drafted self.now) s.cat) (drop 1 (slots items.now))) }
    {
        match items {
            [Item::Slot { cat, binds }, rest @ ..] => binds.len() == 0
                && cat.0 == context.0
                && count_binders(rest) == 1
                && none_binds(rest)
                && self.all_plain(rest),
            _ => false,
        }
    }

    fn all_plain(&self, items: &[Item]) -> bool
        ensures { IsTrue result
            ↔ AllByRecursion (λ s. IsPlain (drafted self.now) s.cat) (slots items.now) }
    {
        for item in items {
            if let Item::Slot { cat, binds: _ } = item {
                if !self.is_plain(*cat) {
                    return false;
                }
            }
        }
        true
    }

    fn is_plain(&self, cat: CatId) -> bool
        ensures { IsTrue result ↔ IsPlain (drafted self.now) cat.0 }
    {
        match at(self.cats, cat.0 as usize) {
            Some(cat) => !cat.context,
            None => false,
        }
    }

    fn all_cats_fit(&self) -> bool
        ensures { IsTrue result ↔ AllNumbered (CatFits (drafted self.now)) 0 self.now.cats.now }
    {
        for number in 0..self.cats.len() {
            if !self.cat_fits(number, &self.cats[number]) {
                return false;
            }
        }
        true
    }

    fn cat_fits(&self, number: usize, cat: &Cat) -> bool
        ensures { IsTrue result ↔ CatFits (drafted self.now) number cat.now }
    {
        !cat.context || cat.var.is_none() && self.count_empty_forms(number) == 1
    }

    fn count_empty_forms(&self, number: usize) -> usize
        ensures { result ≡ count_by (λ p. (p.cat.0 == number) && is_empty_form p) self.now.prods.now }
    {
        let mut count = 0;
        for prod in self.prods {
            if prod.cat.0 as usize == number && is_empty_form(prod) {
                count += 1;
            }
        }
        count
    }
}

/// Whether the items are one slot alone.
fn is_single(items: &[Item]) -> bool
    ensures { IsTrue result ↔ IsSingle items.now }
{
    match items {
        [Item::Slot { cat: _, binds: _ }] => true,
        _ => false,
    }
}

/// Whether the production has terminals alone.
fn is_empty_form(prod: &Prod) -> bool
    ensures { result ≡ is_empty_form prod.now }
{
    let items = prod.items.as_slice();
    for item in items {
        match item {
            Item::Word { text: _, quoted: _ } => {}
            _ => return false,
        }
    }
    true
}

fn count_binders(items: &[Item]) -> usize
    ensures { result ≡ length (binders items.now) }
{
    let mut count = 0;
    for item in items {
        if let Item::Binder(_) = item {
            count += 1;
        }
    }
    count
}

fn none_binds(items: &[Item]) -> bool
    ensures { IsTrue result ↔ AllByRecursion (λ s. s.binds ≡ []) (slots items.now) }
{
    for item in items {
        if let Item::Slot { cat: _, binds } = item {
            if binds.len() != 0 {
                return false;
            }
        }
    }
    true
}

fn all_below(numbers: &[u32], count: usize) -> bool
    ensures { IsTrue result ↔ AllByRecursion (λ n. n < count) numbers.now }
{
    for number in numbers {
        if *number as usize >= count {
            return false;
        }
    }
    true
}

fn are_different(numbers: &[u32]) -> bool
    ensures { IsTrue result ↔ AreDifferent numbers.now }
{
    for i in 0..numbers.len() {
        if !differs_from_all(numbers[i], &numbers[i + 1..]) {
            return false;
        }
    }
    true
}

fn differs_from_all(number: u32, numbers: &[u32]) -> bool
    ensures { IsTrue result ↔ AllByRecursion (λ m. number ≢ m) numbers.now }
{
    for other in numbers {
        if *other == number {
            return false;
        }
    }
    true
}
