// Signatures and terms: each call succeeds with ample memory, on values worked out by hand.

use binding_terms::laws::{put_both_ways, shift_then_put};
use binding_terms::{
    Arg, ArgList, Cat, CatId, Item, NoMemory, Prod, ProdId, Sig, Term, Text, copy, in_scope, put,
    same, shift, size,
};
use sqlite_items::Items;
use std::alloc::Global;
use std::test::Fail;

const TERM: CatId = CatId(0);

const TYPE: CatId = CatId(1);

const PROGRAM: CatId = CatId(2);

const SESSION: CatId = CatId(3);

const CONTEXT: CatId = CatId(4);

fn cat(alloc: Global, var: Option<Text>, context: bool) -> Result<Cat, NoMemory> {
    let name = Text::of(alloc, b"c")?;
    Ok(Cat { name, var, context })
}

fn cats(alloc: Global) -> Result<Vec<Cat>, NoMemory> {
    let mut cats = Vec::new(alloc);
    let var = Text::of(alloc, b"x")?;
    cats.push(cat(alloc, Some(var), false)?)?;
    for context in [false, false, false, true] {
        cats.push(cat(alloc, None, context)?)?;
    }
    Ok(cats)
}

fn word(alloc: Global) -> Result<Item, NoMemory> {
    let text = Text::of(alloc, b"w")?;
    Ok(Item::Word {
        text,
        quoted: false,
    })
}

fn slot(alloc: Global, cat: CatId, binds: &[u32]) -> Result<Item, NoMemory> {
    let binds = Items::from_slice(alloc, binds)?;
    Ok(Item::Slot { cat, binds })
}

/// A term that binds two variables in one slot and none in another.
fn binding(alloc: Global) -> Result<Prod, NoMemory> {
    let mut items = Vec::new(alloc);
    items.push(slot(alloc, TERM, &[])?)?;
    items.push(Item::Binder(TERM))?;
    items.push(Item::Binder(TERM))?;
    items.push(slot(alloc, TERM, &[0, 1])?)?;
    let items = Items::from_vec(items);
    Ok(Prod { cat: TERM, items })
}

/// A terminal, and a slot of another category.
fn holding(alloc: Global, cat: CatId, held: CatId) -> Result<Prod, NoMemory> {
    let mut items = Vec::new(alloc);
    items.push(word(alloc)?)?;
    items.push(slot(alloc, held, &[])?)?;
    let items = Items::from_vec(items);
    Ok(Prod { cat, items })
}

/// A context with a variable more, and its type.
fn extension(alloc: Global) -> Result<Prod, NoMemory> {
    let mut items = Vec::new(alloc);
    items.push(slot(alloc, CONTEXT, &[])?)?;
    items.push(Item::Binder(TERM))?;
    items.push(slot(alloc, TYPE, &[])?)?;
    let items = Items::from_vec(items);
    Ok(Prod {
        cat: CONTEXT,
        items,
    })
}

fn empty_form(alloc: Global) -> Result<Prod, NoMemory> {
    let mut items = Vec::new(alloc);
    items.push(word(alloc)?)?;
    let items = Items::from_vec(items);
    Ok(Prod {
        cat: CONTEXT,
        items,
    })
}

/// A program holds a term, and a session a program; the context has so many empty forms.
fn prods(alloc: Global, empty_forms: usize) -> Result<Vec<Prod>, NoMemory> {
    let mut prods = Vec::new(alloc);
    prods.push(binding(alloc)?)?;
    for (cat, held) in [(TYPE, TYPE), (PROGRAM, TERM), (SESSION, PROGRAM)] {
        prods.push(holding(alloc, cat, held)?)?;
    }
    prods.push(extension(alloc)?)?;
    for _ in 0..empty_forms {
        prods.push(empty_form(alloc)?)?;
    }
    Ok(prods)
}

/// The signature, where it fits.
fn signature(alloc: Global, empty_forms: usize) -> Result<Option<Sig>, NoMemory> {
    let cats = cats(alloc)?;
    let prods = prods(alloc, empty_forms)?;
    if !Sig::fits(&cats, &prods) {
        return Ok(None);
    }
    Ok(Some(Sig::make(alloc, cats, prods)?))
}

/// A term with a part under no binder and one under two.
fn two(alloc: Global, first: Term, second: Term) -> Result<Term, NoMemory> {
    let mut args = Vec::new(alloc);
    let body = first;
    args.push(Arg { binds: 0, body })?;
    let body = second;
    args.push(Arg { binds: 2, body })?;
    Ok(Term::Con(ProdId(0), ArgList::make(alloc, args)?))
}

/// The variable `outer` twice, once under four binders beside one of these.
fn sample(alloc: Global, outer: usize) -> Result<Term, NoMemory> {
    let under = outer.checked_add(4).ok_or(NoMemory)?;
    let body = two(alloc, Term::Var(1), Term::Var(under))?;
    two(alloc, Term::Var(outer), body)
}

fn is_sample(alloc: Global, t: &Term, outer: usize) -> Result<bool, NoMemory> {
    Ok(same(t, &sample(alloc, outer)?))
}

#[test]
fn signatures_fit(rt: HostRuntime) -> Result<(), Fail> {
    for (empty_forms, fits) in [(0, false), (1, true), (2, false)] {
        let sig = signature(rt.alloc(), empty_forms)?;
        assert_eq!(rt; sig.is_some(), fits, "with {empty_forms} empty forms");
    }
    Ok(())
}

#[test]
fn categories_reach(rt: HostRuntime) -> Result<(), Fail> {
    let sig = signature(rt.alloc(), 1)?.ok_or("it does not fit")?;
    for (from, to, reaches) in [
        (TERM, TERM, true),
        (SESSION, TERM, true),
        (TYPE, TERM, false),
        (TERM, SESSION, false),
        (SESSION, SESSION, false),
        (CONTEXT, TERM, false),
        (TERM, CatId(9), false),
    ] {
        assert_eq!(rt; sig.reaches(from, to), reaches, "from {from:?} to {to:?}");
    }
    Ok(())
}

#[test]
fn terms_stand_in_scopes(rt: HostRuntime) -> Result<(), Fail> {
    let sig = signature(rt.alloc(), 1)?.ok_or("it does not fit")?;
    let t = sample(rt.alloc(), 0)?;
    for (outer, inner, cat, stands) in [
        (TYPE, TERM, TERM, true),
        (TERM, TYPE, TERM, false),
        (TYPE, TERM, PROGRAM, false),
    ] {
        assert_eq!(rt;
            in_scope(&sig, &[outer, inner], cat, &t),
            stands,
            "{outer:?}, {inner:?}"
        );
    }
    Ok(())
}

#[test]
fn terms_are_shifted(rt: HostRuntime) -> Result<(), Fail> {
    let alloc = rt.alloc();
    let t = sample(alloc, 1)?;
    for (cut, by, outer) in [(0, 3, 4), (1, 3, 4), (2, 3, 1)] {
        let shifted = shift(alloc, &t, cut, by)?;
        assert!(rt; is_sample(alloc, &shifted, outer)?, "at {cut}");
    }
    assert!(rt; shift(alloc, &t, 0, usize::MAX).is_err());
    Ok(())
}

#[test]
fn terms_are_put_in(rt: HostRuntime) -> Result<(), Fail> {
    let alloc = rt.alloc();
    let t = sample(alloc, 1)?;
    for (at, outer) in [(0, 0), (1, 7), (2, 1)] {
        let changed = put(alloc, &t, at, &Term::Var(7))?;
        assert!(rt; is_sample(alloc, &changed, outer)?, "at {at}");
    }
    let back = shift_then_put(alloc, &t, 1, &Term::Var(7))?;
    assert!(rt; is_sample(alloc, &back, 1)?);
    let both = put_both_ways(alloc, &t, &Term::Var(2), 0, &Term::Var(7))?;
    assert!(rt; is_sample(alloc, &both.0, 7)?);
    Ok(())
}

#[test]
fn terms_are_copied(rt: HostRuntime) -> Result<(), Fail> {
    let t = sample(rt.alloc(), 1)?;
    let again = copy(rt.alloc(), &t)?;
    assert!(rt; same(&again, &t));
    assert!(rt; !is_sample(rt.alloc(), &again, 2)?);
    assert_eq!(rt; size(&again), 5);
    Ok(())
}
