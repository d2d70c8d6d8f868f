// The answers of `unify` to equations of patterns, worked out by hand.
ghost use Rattle.std.specs.Prelude.{◌≡◌, [], ◌∷◌, map, reverse, IfOk, IfSome};
ghost use Rattle.std.specs.List.{AllByRecursion};
ghost use Rattle.binding_terms.specs.Signature.{slots, binders};
ghost use Rattle.scheme_terms.specs.SchemeTree.{meta, con, no_values, value, no_parts, part};
ghost use Rattle.scheme_terms.specs.View.{names, scheme};
ghost use Rattle.pattern_unify.specs.Equations.{equation};
ghost use Rattle.base_tests.specs.Pairs.{IsBinding, Binds, AreFive, IsOver};

use crate::constants::TERM;
use binding_terms::{Cat, CatId, Item, NoMemory, Prod, ProdId, Sig, Text};
use pattern_unify::{Equation, Unified, unify};
use scheme_terms::{MetaDecl, MetaId, Root, SArg, Scheme, Scope, Subst, same_scheme};
use sqlite_items::Items;
use std::alloc::Global;
use std::test::Fail;

/// `fn x => t[x]`
fn function(alloc: Global) -> Result<Prod, NoMemory>
    ensures { IfOk result (λ p. IsBinding p) }
{
    let mut text = Text::new(alloc);
    text.push(b"fn")?;
    let mut items = Items::new(alloc);
    items.push(Item::Word {
        text,
        quoted: false,
    })?;
    items.push(Item::Binder(TERM))?;
    let mut arrow = Text::new(alloc);
    arrow.push(b"=>")?;
    items.push(Item::Word {
        text: arrow,
        quoted: false,
    })?;
    items.push(Item::Slot {
        cat: TERM,
        binds: Items::from_slice(alloc, &[0])?,
    })?;
    Ok(Prod { cat: TERM, items })
}

/// `t ::= fn x => t[x] | x`
fn signature(alloc: Global) -> Result<Option<Sig>, NoMemory>
    ensures { IfOk result (λ o. IfSome o (λ sig. Binds sig)) }
{
    let mut name = Text::new(alloc);
    name.push(b"t")?;
    let mut var = Text::new(alloc);
    var.push(b"x")?;
    let mut cats = Vec::new(alloc);
    cats.push(Cat {
        name,
        var: Some(var),
        context: false,
    })?;
    let mut prods = Vec::new(alloc);
    prods.push(function(alloc)?)?;
    if !Sig::fits(&cats, &prods) {
        return Ok(None);
    }
    Ok(Some(Sig::make(alloc, cats, prods)?))
}

fn declared(alloc: Global, params: &[CatId]) -> Result<MetaDecl, NoMemory>
    ensures { IfOk result (λ decl. (decl.cat.0 ≡ 0) × (decl.params ≡ params.now)) }
{
    Ok(MetaDecl {
        name: Text::new(alloc),
        cat: TERM,
        params: Items::from_slice(alloc, params)?,
    })
}

/// Five names, with 2, 1, 2, no and 1 parameters.
fn five(alloc: Global) -> Result<Scope, NoMemory>
    ensures { IfOk result (λ s. AreFive (names s)) }
{
    let mut metas = Items::new(alloc);
    metas.push(declared(alloc, &[TERM, TERM])?)?;
    metas.push(declared(alloc, &[TERM])?)?;
    metas.push(declared(alloc, &[TERM, TERM])?)?;
    metas.push(declared(alloc, &[])?)?;
    metas.push(declared(alloc, &[TERM])?)?;
    Ok(Scope {
        root: Root::Closed,
        metas,
        knowns: Items::new(alloc),
    })
}

fn alone(alloc: Global, name: u32) -> Scheme
    ensures { scheme result ≡ meta name no_values }
{
    Scheme::Meta(MetaId(name), Items::new(alloc))
}

fn of_one(alloc: Global, name: u32, arg: Scheme) -> Result<Scheme, NoMemory>
    ensures { IfOk result (λ s. scheme s ≡ meta name (value (scheme arg) no_values)) }
{
    let mut args = Items::new(alloc);
    args.push(arg)?;
    Ok(Scheme::Meta(MetaId(name), args))
}

fn of_two(alloc: Global, name: u32, first: Scheme, second: Scheme) -> Result<Scheme, NoMemory>
    ensures { IfOk result (λ s. scheme s ≡ meta name (value (scheme first) (value (scheme second) no_values))) }
{
    let mut args = Items::new(alloc);
    args.push(first)?;
    args.push(second)?;
    Ok(Scheme::Meta(MetaId(name), args))
}

fn function_of(alloc: Global, body: Scheme) -> Result<Scheme, NoMemory>
    ensures { IfOk result (λ s. scheme s ≡ con 0 (part 1 (scheme body) no_parts)) }
{
    let mut args = Items::new(alloc);
    args.push(SArg { binds: 1, body })?;
    Ok(Scheme::Con(ProdId(0), args))
}

fn equate(alloc: Global, scope: &[CatId], left: Scheme, right: Scheme) -> Result<Equation, NoMemory>
    ensures { IfOk result (λ e. equation e ≡ record { locals = reverse (map (λ c. c.0) scope.now); left = scheme left; right = scheme right }) }
{
    Ok(Equation {
        scope: Items::from_slice(alloc, scope)?,
        left,
        right,
    })
}

/// `t[x, x'] = t[x', x]`
fn swapped(alloc: Global) -> Result<Equation, NoMemory>
    ensures { IfOk result (λ e. IsOver (equation e)) }
{
    let left = of_two(alloc, 0, Scheme::Local(1), Scheme::Local(0))?;
    let right = of_two(alloc, 0, Scheme::Local(0), Scheme::Local(1))?;
    equate(alloc, &[TERM, TERM], left, right)
}

/// `t1[x] = t[x, x']`
fn fewer(alloc: Global) -> Result<Equation, NoMemory>
    ensures { IfOk result (λ e. IsOver (equation e)) }
{
    let left = of_one(alloc, 1, Scheme::Local(1))?;
    let right = of_two(alloc, 0, Scheme::Local(1), Scheme::Local(0))?;
    equate(alloc, &[TERM, TERM], left, right)
}

/// `t[x, x'] = fn x'' => t2[x'', x]`
fn under_a_binder(alloc: Global) -> Result<Equation, NoMemory>
    ensures { IfOk result (λ e. IsOver (equation e)) }
{
    let left = of_two(alloc, 0, Scheme::Local(1), Scheme::Local(0))?;
    let body = of_two(alloc, 2, Scheme::Local(0), Scheme::Local(2))?;
    let right = function_of(alloc, body)?;
    equate(alloc, &[TERM, TERM], left, right)
}

/// `t1[x] = x'`
fn escaping(alloc: Global) -> Result<Equation, NoMemory>
    ensures { IfOk result (λ e. IsOver (equation e)) }
{
    let left = of_one(alloc, 1, Scheme::Local(1))?;
    equate(alloc, &[TERM, TERM], left, Scheme::Local(0))
}

/// `t3 = fn x => t3`
fn circular(alloc: Global) -> Result<Equation, NoMemory>
    ensures { IfOk result (λ e. IsOver (equation e)) }
{
    let right = function_of(alloc, alone(alloc, 3))?;
    equate(alloc, &[], alone(alloc, 3), right)
}

/// `t1[t3] = fn x => x`
fn no_pattern(alloc: Global) -> Result<Equation, NoMemory>
    ensures { IfOk result (λ e. IsOver (equation e)) }
{
    let left = of_one(alloc, 1, alone(alloc, 3))?;
    let right = function_of(alloc, Scheme::Local(0))?;
    equate(alloc, &[], left, right)
}

/// `t1[t4[x]] = x`
fn freed(alloc: Global) -> Result<Equation, NoMemory>
    ensures { IfOk result (λ e. IsOver (equation e)) }
{
    let inner = of_one(alloc, 4, Scheme::Local(0))?;
    let left = of_one(alloc, 1, inner)?;
    equate(alloc, &[TERM], left, Scheme::Local(0))
}

/// `t4[x] = x`
fn freeing(alloc: Global) -> Result<Equation, NoMemory>
    ensures { IfOk result (λ e. IsOver (equation e)) }
{
    let left = of_one(alloc, 4, Scheme::Local(0))?;
    equate(alloc, &[TERM], left, Scheme::Local(0))
}

/// `fn x => t4[x] = fn x => x`
fn bodies(alloc: Global) -> Result<Equation, NoMemory>
    ensures { IfOk result (λ e. IsOver (equation e)) }
{
    let left = of_one(alloc, 4, Scheme::Local(0))?;
    let left = function_of(alloc, left)?;
    let right = function_of(alloc, Scheme::Local(0))?;
    equate(alloc, &[], left, right)
}

fn answer(alloc: Global, sig: &Sig, eqs: &Vec<Equation>) -> Result<Unified, NoMemory>
    requires sig { Binds sig.now }
    requires eqs { AllByRecursion IsOver (map equation eqs.now.items) }
{
    let scope = five(alloc)?;
    unify(alloc, sig, &scope, eqs)
}

fn answer_to_none(alloc: Global, sig: &Sig) -> Result<Unified, NoMemory>
    requires { Binds sig.now }
{
    answer(alloc, sig, &Vec::new(alloc))
}

fn answer_to_one(alloc: Global, sig: &Sig, one: Equation) -> Result<Unified, NoMemory>
    requires sig { Binds sig.now }
    requires one { IsOver (equation one) }
{
    let mut eqs = Vec::new(alloc);
    eqs.push(one)?;
    answer(alloc, sig, &eqs)
}

fn answer_to_two(
    alloc: Global,
    sig: &Sig,
    first: Equation,
    second: Equation,
) -> Result<Unified, NoMemory>
    requires sig { Binds sig.now }
    requires first { IsOver (equation first) }
    requires second { IsOver (equation second) }
{
    let mut eqs = Vec::new(alloc);
    eqs.push(first)?;
    eqs.push(second)?;
    answer(alloc, sig, &eqs)
}

/// The name that a value is, where it is one with so many parameters, in their order.
fn name_with(value: Option<&Scheme>, params: usize) -> Option<u32> {
    let Some(Scheme::Meta(name, args)) = value else {
        return None;
    };
    if args.len() != params {
        return None;
    }
    let mut left = params;
    for arg in args.as_slice() {
        left = left.saturating_sub(1);
        if !same_scheme(arg, &Scheme::Local(left)) {
            return None;
        }
    }
    Some(name.0)
}

fn is(value: Option<&Scheme>, wanted: &Scheme) -> bool {
    match value {
        Some(value) => same_scheme(value, wanted),
        None => false,
    }
}

fn unifier(answer: Unified) -> Option<Subst> {
    match answer {
        Unified::Unifier(by) => Some(by),
        Unified::NoUnifier => None,
        Unified::Outside(_) => None,
    }
}

/// Whether one of so many values is that name.
fn is_earlier(by: &Subst, name: u32, count: usize) -> bool {
    for place in 0..count {
        if let Some(Scheme::Meta(other, _)) = by.metas.get(place) {
            if other.0 == name {
                return true;
            }
        }
    }
    false
}

/// Whether the five values are different names with so many parameters.
fn are_names(by: &Option<Subst>, params: [usize; 5]) -> bool {
    let Some(by) = by else {
        return false;
    };
    for place in 0..5 {
        match name_with(by.metas.get(place), params[place]) {
            Some(name) => {
                if is_earlier(by, name, place) {
                    return false;
                }
            }
            None => return false,
        }
    }
    true
}

fn is_none(answer: &Unified) -> bool {
    matches!(answer, Unified::NoUnifier)
}

/// Whether the answer is that equation alone, which is left.
fn is_left(answer: &Unified, wanted: &Equation) -> bool {
    let Unified::Outside(eqs) = answer else {
        return false;
    };
    if eqs.len() != 1 {
        return false;
    }
    match eqs.get(0) {
        Some(one) => {
            one.scope.as_slice().len() == wanted.scope.as_slice().len()
                && same_scheme(&one.left, &wanted.left)
                && same_scheme(&one.right, &wanted.right)
        }
        None => false,
    }
}

#[test]
fn swapped_patterns_lose_their_parameters(rt: HostRuntime) -> Result<(), Fail> {
    let alloc = rt.alloc();
    let sig = signature(alloc)?;
    if let Some(sig) = &sig {
        let by = unifier(answer_to_one(alloc, sig, swapped(alloc)?)?);
        assert!(rt; are_names(&by, [0, 1, 2, 0, 1]));
    }
    assert!(rt; sig.is_some());
    Ok(())
}

#[test]
fn nothing_is_unified_by_the_identity(rt: HostRuntime) -> Result<(), Fail> {
    let alloc = rt.alloc();
    let sig = signature(alloc)?;
    if let Some(sig) = &sig {
        let by = unifier(answer_to_none(alloc, sig)?);
        assert!(rt; are_names(&by, [2, 1, 2, 0, 1]));
    }
    assert!(rt; sig.is_some());
    Ok(())
}

#[test]
fn a_parameter_that_the_other_lacks_is_pruned(rt: HostRuntime) -> Result<(), Fail> {
    let alloc = rt.alloc();
    let sig = signature(alloc)?;
    if let Some(sig) = &sig {
        let by = unifier(answer_to_one(alloc, sig, fewer(alloc)?)?);
        assert!(rt; by.is_some());
        if let Some(by) = &by {
            let same = name_with(by.metas.get(1), 1);
            assert!(rt; same.is_some());
            if let Some(name) = same {
                let wanted = of_one(alloc, name, Scheme::Local(1))?;
                assert!(rt; is(by.metas.get(0), &wanted));
            }
        }
    }
    assert!(rt; sig.is_some());
    Ok(())
}

#[test]
fn a_pattern_becomes_what_stands_under_a_binder(rt: HostRuntime) -> Result<(), Fail> {
    let alloc = rt.alloc();
    let sig = signature(alloc)?;
    if let Some(sig) = &sig {
        let by = unifier(answer_to_one(alloc, sig, under_a_binder(alloc)?)?);
        assert!(rt; by.is_some());
        if let Some(by) = &by {
            let inner = name_with(by.metas.get(2), 2);
            assert!(rt; inner.is_some());
            if let Some(name) = inner {
                let body = of_two(alloc, name, Scheme::Local(0), Scheme::Local(2))?;
                let wanted = function_of(alloc, body)?;
                assert!(rt; is(by.metas.get(0), &wanted));
            }
        }
    }
    assert!(rt; sig.is_some());
    Ok(())
}

#[test]
fn bodies_are_unified_below_their_binder(rt: HostRuntime) -> Result<(), Fail> {
    let alloc = rt.alloc();
    let sig = signature(alloc)?;
    if let Some(sig) = &sig {
        let by = unifier(answer_to_one(alloc, sig, bodies(alloc)?)?);
        assert!(rt; by.is_some());
        if let Some(by) = &by {
            assert!(rt; is(by.metas.get(4), &Scheme::Local(0)));
        }
    }
    assert!(rt; sig.is_some());
    Ok(())
}

#[test]
fn what_escapes_or_contains_itself_has_no_unifier(rt: HostRuntime) -> Result<(), Fail> {
    let alloc = rt.alloc();
    let sig = signature(alloc)?;
    if let Some(sig) = &sig {
        let first = answer_to_one(alloc, sig, escaping(alloc)?)?;
        let second = answer_to_one(alloc, sig, circular(alloc)?)?;
        assert!(rt; is_none(&first));
        assert!(rt; is_none(&second));
    }
    assert!(rt; sig.is_some());
    Ok(())
}

#[test]
fn what_is_no_pattern_is_left(rt: HostRuntime) -> Result<(), Fail> {
    let alloc = rt.alloc();
    let sig = signature(alloc)?;
    if let Some(sig) = &sig {
        let answer = answer_to_one(alloc, sig, no_pattern(alloc)?)?;
        let wanted = no_pattern(alloc)?;
        assert!(rt; is_left(&answer, &wanted));
    }
    assert!(rt; sig.is_some());
    Ok(())
}

#[test]
fn a_later_equation_frees_an_earlier_one(rt: HostRuntime) -> Result<(), Fail> {
    let alloc = rt.alloc();
    let sig = signature(alloc)?;
    if let Some(sig) = &sig {
        let answer = answer_to_two(alloc, sig, freed(alloc)?, freeing(alloc)?)?;
        let by = unifier(answer);
        assert!(rt; by.is_some());
        if let Some(by) = &by {
            assert!(rt; is(by.metas.get(4), &Scheme::Local(0)));
            assert!(rt; is(by.metas.get(1), &Scheme::Local(0)));
        }
    }
    assert!(rt; sig.is_some());
    Ok(())
}
