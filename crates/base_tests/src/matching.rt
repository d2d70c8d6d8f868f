// The matcher: the calls succeed with ample memory, on answers worked out by hand.
ghost use Rattle.std.specs.Prelude.{◌≡◌, ◌<◌, [], ◌∷◌, length, None, IfOk, IfSome};
ghost use Rattle.std.specs.List.{AllByRecursion};
ghost use Rattle.binding_terms.specs.Signature.{slots};
ghost use Rattle.binding_terms.specs.Tree as trees;
ghost use Rattle.binding_terms.specs.View.{tree};
ghost use Rattle.scheme_terms.specs.SchemeTree.{meta, no_values};
ghost use Rattle.scheme_terms.specs.View.{scheme, context_value};
ghost use Rattle.scheme_terms.specs.declared.scheme.Root.TheVariants.{Closed};
ghost use Rattle.rule_schemes.specs.View.{judgment_scheme, judgment_value};

use crate::constants::{TERM, signature};
use binding_terms::{ArgList, NoMemory, ProdId, Sig, Term, Text, same};
use rule_schemes::{JScheme, JudgId, JudgInst};
use scheme_match::Matcher;
use scheme_terms::{CtxValue, Inst, MetaDecl, MetaId, Root, SCtx, Scheme};
use sqlite_items::Items;
use std::alloc::Global;
use std::test::Fail;

fn one_name(alloc: Global) -> Result<Items<MetaDecl>, NoMemory>
    ensures { IfOk result (λ ms. (length ms ≡ 1) × AllByRecursion (λ m. (m.cat.0 ≡ 0) × (m.params ≡ [])) ms) }
{
    let mut metas = Items::new(alloc);
    metas.push(MetaDecl {
        name: Text::new(alloc),
        cat: TERM,
        params: Items::new(alloc),
    })?;
    Ok(metas)
}

fn no_context(alloc: Global) -> CtxValue
    ensures { context_value result ≡ record { cat = None; entries = [] } }
{
    CtxValue {
        cat: None,
        entries: Items::new(alloc),
    }
}

fn name(alloc: Global) -> Scheme
    ensures { scheme result ≡ meta 0 no_values }
{
    Scheme::Meta(MetaId(0), Items::new(alloc))
}

fn term(alloc: Global, constant: u32) -> Result<Term, NoMemory>
    ensures { IfOk result (λ t. tree t ≡ trees.con constant trees.no_args) }
{
    Ok(Term::Con(ProdId(constant), ArgList::make(alloc, Vec::new(alloc))?))
}

/// The judgment of a name.
fn pattern(alloc: Global) -> Result<JScheme, NoMemory>
    ensures { IfOk result (λ j. ((judgment_scheme j).context ≡ record { root = Closed; entries = [] }) × ((judgment_scheme j).args ≡ meta 0 no_values ∷ [])) }
{
    let mut args = Items::new(alloc);
    args.push(name(alloc))?;
    Ok(JScheme {
        judgment: JudgId(0),
        ctx: SCtx {
            root: Root::Closed,
            entries: Items::new(alloc),
        },
        args,
    })
}

/// The judgment of a constant.
fn target(alloc: Global, constant: u32) -> Result<JudgInst, NoMemory>
    ensures { IfOk result (λ j. ((judgment_value j).context ≡ record { cat = None; entries = [] }) × ((judgment_value j).args ≡ trees.con constant trees.no_args ∷ [])) }
{
    let mut args = Items::new(alloc);
    args.push(term(alloc, constant)?)?;
    Ok(JudgInst {
        judgment: JudgId(0),
        ctx: no_context(alloc),
        args,
    })
}

/// What makes the name both constants.
fn matched(alloc: Global, sig: &Sig, first: u32, second: u32) -> Result<Option<Inst>, NoMemory>
    requires first { first < 2 }
    requires second { second < 2 }
    requires sig { (length sig.now.prods ≡ 2) × AllByRecursion (λ p. (p.cat.0 ≡ 0) × (slots p.items ≡ [])) sig.now.prods }
{
    let metas = one_name(alloc)?;
    let knowns = Items::new(alloc);
    let root = no_context(alloc);
    let pattern = pattern(alloc)?;
    let target = target(alloc, first)?;
    let name = name(alloc);
    let term = term(alloc, second)?;
    let mut matcher = Matcher::new(alloc, sig, metas.as_slice(), knowns.as_slice(), &root)?;
    matcher.add(&pattern, &target)?;
    matcher.add_term(0, &name, &term)?;
    matcher.finish()
}

#[test]
fn a_name_becomes_one_constant(rt: HostRuntime) -> Result<(), Fail> {
    let alloc = rt.alloc();
    let sig = signature(alloc)?;
    if let Some(sig) = &sig {
        for (first, second) in [(0, 0), (0, 1), (1, 0), (1, 1)] {
            let answer = matched(alloc, sig, first, second)?;
            assert_eq!(rt;
                answer.is_some(),
                first == second,
                "at {first} and {second}"
            );
            if let Some(inst) = &answer {
                let wanted = term(alloc, first)?;
                for value in inst.metas.as_slice() {
                    let is_wanted = match value {
                        Some(value) => same(value, &wanted),
                        None => false,
                    };
                    assert!(rt; is_wanted, "at {first}");
                }
            }
        }
    }
    assert!(rt; sig.is_some());
    Ok(())
}
