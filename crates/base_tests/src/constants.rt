// A signature with one category, of two constants.
ghost use Rattle.std.specs.Prelude.{◌≡◌, [], length, IfOk, IfSome};
ghost use Rattle.std.specs.List.{AllByRecursion};
ghost use Rattle.binding_terms.specs.Signature.{slots};

use binding_terms::{Cat, CatId, Item, NoMemory, Prod, Sig, Text};
use sqlite_items::Items;
use std::alloc::Global;

pub(crate) const TERM: CatId = CatId(0);

/// A production that is one word.
fn constant(alloc: Global) -> Result<Prod, NoMemory>
    ensures { IfOk result (λ p. (p.cat.0 ≡ 0) × (slots p.items ≡ [])) }
{
    let mut text = Text::new(alloc);
    text.push(b"c")?;
    let mut items = Items::new(alloc);
    items.push(Item::Word {
        text,
        quoted: false,
    })?;
    Ok(Prod { cat: TERM, items })
}

/// A category with two constants.
pub(crate) fn signature(alloc: Global) -> Result<Option<Sig>, NoMemory>
    ensures { IfOk result (λ o. IfSome o (λ sig. (length sig.prods ≡ 2) × AllByRecursion (λ p. (p.cat.0 ≡ 0) × (slots p.items ≡ [])) sig.prods)) }
{
    let mut cats = Vec::new(alloc);
    cats.push(Cat {
        name: Text::new(alloc),
        var: None,
        context: false,
    })?;
    let first = constant(alloc)?;
    let second = constant(alloc)?;
    let mut prods = Vec::new(alloc);
    prods.push(first)?;
    prods.push(second)?;
    if !Sig::fits(&cats, &prods) {
        return Ok(None);
    }
    Ok(Some(Sig::make(alloc, cats, prods)?))
}
