// Each call on schemes once, on schemes like `fn x => fn x' => t[x, x']`.
use binding_terms::{Arg, ArgList, CatId, NoMemory, ProdId, Term, Text, same};
use scheme_terms::laws::{
    applied_twice, applied_under_locals, apply_both_ways, apply_keeps_scope, compose_keeps_scope,
    followed_fits, identity_changes_nothing, instance_both_ways, instance_keeps_scope,
    instance_of_applied, instance_raised, names_decide, shift_keeps_scheme, strict_agreement,
};
use scheme_terms::{
    CtxValue, Entry, Inst, KnownDecl, MetaDecl, MetaId, Root, SArg, SEntry, Scheme, Scope, Subst,
    apply, compose, copy_entry, copy_scheme, copy_scope, identity_of, instance, known_in,
    occurs_in, same_scheme, shift_scheme, strict_in,
};
use sqlite_items::Items;
use std::alloc::Global;
use std::test::Fail;

/// The production `fn x => t[x]`.
const FUNCTION: ProdId = ProdId(0);

/// The production `t t`.
const APPLIED: ProdId = ProdId(1);

/// The metavariable `t`, with two parameters.
const BODY: MetaId = MetaId(0);

/// `fn x => ..` around a scheme.
fn function(alloc: Global, body: Scheme) -> Result<Scheme, NoMemory> {
    let mut parts = Items::new(alloc);
    parts.push(SArg { binds: 1, body })?;
    Ok(Scheme::Con(FUNCTION, parts))
}

/// `fn x => fn x' => ..` around a scheme.
fn under_two(alloc: Global, body: Scheme) -> Result<Scheme, NoMemory> {
    let inner = function(alloc, body)?;
    function(alloc, inner)
}

/// The metavariable on two locals.
fn body_on(alloc: Global, first: usize, second: usize) -> Result<Scheme, NoMemory> {
    let mut args = Items::new(alloc);
    args.push(Scheme::Local(first))?;
    args.push(Scheme::Local(second))?;
    Ok(Scheme::Meta(BODY, args))
}

/// `fn x => fn x' => t[..]` on two locals.
fn pattern(alloc: Global, first: usize, second: usize) -> Result<Scheme, NoMemory> {
    let body = body_on(alloc, first, second)?;
    under_two(alloc, body)
}

/// Two locals, the first applied to the second.
fn applied_locals(alloc: Global, first: usize, second: usize) -> Result<Scheme, NoMemory> {
    let mut parts = Items::new(alloc);
    parts.push(SArg {
        binds: 0,
        body: Scheme::Local(first),
    })?;
    parts.push(SArg {
        binds: 0,
        body: Scheme::Local(second),
    })?;
    Ok(Scheme::Con(APPLIED, parts))
}

/// `fn x => fn x' => ..` around two locals.
fn applied_under_two(alloc: Global, first: usize, second: usize) -> Result<Scheme, NoMemory> {
    let body = applied_locals(alloc, first, second)?;
    under_two(alloc, body)
}

/// Two variables, the first applied to the second.
fn applied_variables(alloc: Global, first: usize, second: usize) -> Result<Term, NoMemory> {
    let mut parts = Vec::new(alloc);
    parts.push(Arg {
        binds: 0,
        body: Term::Var(first),
    })?;
    parts.push(Arg {
        binds: 0,
        body: Term::Var(second),
    })?;
    Ok(Term::Con(APPLIED, ArgList::make(alloc, parts)?))
}

fn function_term(alloc: Global, body: Term) -> Result<Term, NoMemory> {
    let mut parts = Vec::new(alloc);
    parts.push(Arg { binds: 1, body })?;
    Ok(Term::Con(FUNCTION, ArgList::make(alloc, parts)?))
}

/// `fn x => fn x' => ..` around two variables.
fn term_under_two(alloc: Global, first: usize, second: usize) -> Result<Term, NoMemory> {
    let body = applied_variables(alloc, first, second)?;
    let inner = function_term(alloc, body)?;
    function_term(alloc, inner)
}

/// An entry without arguments.
fn entry(alloc: Global) -> SEntry {
    SEntry {
        prod: APPLIED,
        args: Items::new(alloc),
    }
}

/// The metavariable's declaration.
fn declaration(alloc: Global) -> Result<MetaDecl, NoMemory> {
    Ok(MetaDecl {
        name: Text::of(alloc, b"t")?,
        cat: CatId(0),
        params: Items::from_slice(alloc, &[CatId(0), CatId(0)])?,
    })
}

fn declarations(alloc: Global) -> Result<Items<MetaDecl>, NoMemory> {
    let mut metas = Items::new(alloc);
    metas.push(declaration(alloc)?)?;
    Ok(metas)
}

/// A known variable `x`.
fn knowns(alloc: Global) -> Result<Items<KnownDecl>, NoMemory> {
    let mut knowns = Items::new(alloc);
    knowns.push(KnownDecl {
        name: Text::of(alloc, b"x")?,
        entry: entry(alloc),
    })?;
    Ok(knowns)
}

/// The metavariable `t` and a known variable.
fn scope(alloc: Global) -> Result<Scope, NoMemory> {
    Ok(Scope {
        root: Root::Whole(CatId(1)),
        metas: declarations(alloc)?,
        knowns: knowns(alloc)?,
    })
}

/// The last parameter applied to the first, put in for the metavariable.
fn turned(alloc: Global) -> Result<Subst, NoMemory> {
    let mut metas = Items::new(alloc);
    metas.push(applied_locals(alloc, 0, 1)?)?;
    Ok(Subst {
        metas,
        knowns: Items::from_slice(alloc, &[0])?,
        into: scope(alloc)?,
    })
}

/// A root of two entries.
fn root(alloc: Global) -> Result<CtxValue, NoMemory> {
    let mut entries = Items::new(alloc);
    for _ in 0..2 {
        entries.push(Entry {
            prod: APPLIED,
            args: Items::new(alloc),
        })?;
    }
    Ok(CtxValue {
        cat: Some(CatId(1)),
        entries,
    })
}

/// The last parameter applied to the first, and the root's first entry.
fn values(alloc: Global) -> Result<Inst, NoMemory> {
    let mut metas = Items::new(alloc);
    metas.push(Some(applied_variables(alloc, 0, 1)?))?;
    Ok(Inst {
        metas,
        knowns: Items::from_slice(alloc, &[Some(0)])?,
        root: root(alloc)?,
    })
}

#[test]
fn occurrences(rt: HostRuntime) -> Result<(), Fail> {
    let apart = pattern(rt.alloc(), 1, 0)?;
    assert!(rt; strict_in(BODY, &apart));
    assert!(rt; !known_in(0, &apart));
    let twice = pattern(rt.alloc(), 0, 0)?;
    assert!(rt; !strict_in(BODY, &twice));
    assert!(rt; occurs_in(BODY, &twice));
    assert!(rt; !occurs_in(MetaId(1), &twice));
    assert!(rt; known_in(3, &Scheme::Known(3)));
    Ok(())
}

#[test]
fn copies(rt: HostRuntime) -> Result<(), Fail> {
    let alloc = rt.alloc();
    let first = pattern(alloc, 1, 0)?;
    let again = copy_scheme(alloc, &first)?;
    assert!(rt; same_scheme(&first, &again));
    let other = pattern(alloc, 0, 1)?;
    assert!(rt; !same_scheme(&first, &other));
    let names = scope(alloc)?;
    let names_again = copy_scope(alloc, &names)?;
    assert_eq!(rt; names_again.metas.len(), 1);
    assert_eq!(rt; names_again.knowns.len(), 1);
    let entry_again = copy_entry(alloc, &entry(alloc))?;
    assert_eq!(rt; entry_again.args.len(), 0);
    Ok(())
}

#[test]
fn raising(rt: HostRuntime) -> Result<(), Fail> {
    let alloc = rt.alloc();
    let bound = pattern(alloc, 1, 0)?;
    let stays = shift_scheme(alloc, &bound, 0, 3)?;
    assert!(rt; same_scheme(&stays, &bound));
    let free = pattern(alloc, 2, 0)?;
    let raised = shift_scheme(alloc, &free, 0, 3)?;
    let expected = pattern(alloc, 5, 0)?;
    assert!(rt; same_scheme(&raised, &expected));
    Ok(())
}

#[test]
fn instances(rt: HostRuntime) -> Result<(), Fail> {
    let alloc = rt.alloc();
    let values = values(alloc)?;
    for (first, second) in [(1, 0), (0, 1), (0, 0), (2, 0)] {
        let scheme = pattern(alloc, first, second)?;
        let term = instance(alloc, &scheme, 0, &values)?;
        let expected = term_under_two(alloc, second, first)?;
        assert!(rt; same(&term, &expected), "of {first} and {second}");
    }
    let known = instance(alloc, &Scheme::Known(0), 3, &values)?;
    assert!(rt; same(&known, &Term::Var(4)));
    Ok(())
}

#[test]
fn substitutions(rt: HostRuntime) -> Result<(), Fail> {
    let alloc = rt.alloc();
    let scheme = pattern(alloc, 1, 0)?;
    let by = turned(alloc)?;
    let put = apply(alloc, &scheme, &by)?;
    let expected = applied_under_two(alloc, 0, 1)?;
    assert!(rt; same_scheme(&put, &expected));
    let nothing = identity_of(alloc, &by.into)?;
    let unchanged = apply(alloc, &scheme, &nothing)?;
    assert!(rt; same_scheme(&unchanged, &scheme));
    let both = compose(alloc, &nothing, &by)?;
    let put_again = apply(alloc, &scheme, &both)?;
    assert!(rt; same_scheme(&put_again, &expected));
    Ok(())
}

#[test]
fn both_ways(rt: HostRuntime) -> Result<(), Fail> {
    let alloc = rt.alloc();
    let scheme = pattern(alloc, 1, 0)?;
    let by = turned(alloc)?;
    let nothing = identity_of(alloc, &by.into)?;
    let (one, other) = apply_both_ways(alloc, &scheme, &by, &nothing)?;
    assert!(rt; same_scheme(&one, &other));
    let values = values(alloc)?;
    let metas = declarations(alloc)?;
    let (left, right) = instance_both_ways(
        alloc,
        &scheme,
        0,
        metas.as_slice(),
        &by,
        &values,
        &values,
    )?;
    assert!(rt; same(&left, &right));
    Ok(())
}

#[test]
fn laws_are_called() {
    applied_twice();
    applied_under_locals();
    apply_keeps_scope();
    compose_keeps_scope();
    followed_fits();
    identity_changes_nothing();
    instance_keeps_scope();
    instance_of_applied();
    instance_raised();
    names_decide();
    shift_keeps_scheme();
    strict_agreement();
}
