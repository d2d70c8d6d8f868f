// The fits: `fit_into` and `unify` succeed with ample memory, on answers worked out by hand.
ghost use Rattle.std.specs.Prelude.{◌≡◌, ◌<◌, [], ◌∷◌, length, map, IfOk, IfSome};
ghost use Rattle.std.specs.List.{AllByRecursion};
ghost use Rattle.binding_terms.specs.Signature.{slots};
ghost use Rattle.scheme_terms.specs.SchemeTree.{meta, con, no_values, no_parts};
ghost use Rattle.scheme_terms.specs.View.{names};
ghost use Rattle.pattern_unify.specs.Equations.{equation};

use crate::constants::{TERM, signature};
use binding_terms::{NoMemory, ProdId, Sig, Text};
use pattern_unify::{Equation, Unified, fit_into, unify};
use scheme_terms::{MetaDecl, MetaId, Root, Scheme, Scope, Subst, same_scheme};
use sqlite_items::Items;
use std::alloc::Global;
use std::test::Fail;

/// A scope with one name.
fn scope(alloc: Global) -> Result<Scope, NoMemory>
    ensures { IfOk result (λ s. (length s.metas ≡ 1) × AllByRecursion (λ m. (m.cat.0 ≡ 0) × (m.params ≡ [])) s.metas × (s.knowns ≡ [])) }
{
    let mut metas = Items::new(alloc);
    metas.push(MetaDecl {
        name: Text::new(alloc),
        cat: TERM,
        params: Items::new(alloc),
    })?;
    Ok(Scope {
        root: Root::Closed,
        metas,
        knowns: Items::new(alloc),
    })
}

/// The name is to be a constant.
fn wanted(alloc: Global, constant: u32) -> Equation
    ensures { equation result ≡ record { locals = []; left = meta 0 no_values; right = con constant no_parts } }
{
    Equation {
        scope: Items::new(alloc),
        left: Scheme::Meta(MetaId(0), Items::new(alloc)),
        right: Scheme::Con(ProdId(constant), Items::new(alloc)),
    }
}

/// What fits where the name is to be both constants.
fn fitted(alloc: Global, sig: &Sig, first: u32, second: u32) -> Result<Option<Subst>, NoMemory>
    requires first { first < 2 }
    requires second { second < 2 }
    requires sig { (length sig.now.prods ≡ 2) × AllByRecursion (λ p. (p.cat.0 ≡ 0) × (slots p.items ≡ [])) sig.now.prods }
{
    let scope = scope(alloc)?;
    let mut eqs = Vec::new(alloc);
    eqs.push(wanted(alloc, first))?;
    eqs.push(wanted(alloc, second))?;
    fit_into(alloc, sig, &scope, &scope, &eqs)
}

/// What unifies the name with both constants.
fn unified(alloc: Global, sig: &Sig, first: u32, second: u32) -> Result<Unified, NoMemory>
    requires first { first < 2 }
    requires second { second < 2 }
    requires sig { (length sig.now.prods ≡ 2) × AllByRecursion (λ p. (p.cat.0 ≡ 0) × (slots p.items ≡ [])) sig.now.prods }
{
    let scope = scope(alloc)?;
    let mut eqs = Vec::new(alloc);
    eqs.push(wanted(alloc, first))?;
    eqs.push(wanted(alloc, second))?;
    unify(alloc, sig, &scope, &eqs)
}

#[test]
fn a_name_stands_for_one_constant(rt: HostRuntime) -> Result<(), Fail> {
    let alloc = rt.alloc();
    let sig = signature(alloc)?;
    if let Some(sig) = &sig {
        for (first, second) in [(0, 0), (0, 1), (1, 0), (1, 1)] {
            let answer = fitted(alloc, sig, first, second)?;
            assert_eq!(rt;
                answer.is_some(),
                first == second,
                "at {first} and {second}"
            );
            if let Some(by) = &answer {
                let wanted = wanted(alloc, first);
                for value in by.metas.as_slice() {
                    assert!(rt; same_scheme(value, &wanted.right), "at {first}");
                }
            }
        }
    }
    assert!(rt; sig.is_some());
    Ok(())
}

#[test]
fn a_name_unifies_with_one_constant(rt: HostRuntime) -> Result<(), Fail> {
    let alloc = rt.alloc();
    let sig = signature(alloc)?;
    if let Some(sig) = &sig {
        for (first, second) in [(0, 0), (0, 1), (1, 0), (1, 1)] {
            match unified(alloc, sig, first, second)? {
                Unified::Unifier(by) => {
                    assert_eq!(rt; first, second, "at {first} and {second}");
                    let wanted = wanted(alloc, first);
                    for value in by.metas.as_slice() {
                        assert!(rt; same_scheme(value, &wanted.right), "at {first}");
                    }
                    assert_eq!(rt; by.into.metas.as_slice().len(), 0, "at {first}");
                }
                Unified::NoUnifier => {
                    assert!(rt; first != second, "at {first} and {second}");
                }
                Unified::Outside(_) => {
                    assert!(rt; false, "at {first} and {second}");
                }
            }
        }
    }
    assert!(rt; sig.is_some());
    Ok(())
}
