// A system with one judgment that has no place for terms, and rules of it.
ghost use Rattle.std.specs.Prelude.{◌≡◌, ◌∷◌, [], None, IfOk};
ghost use Rattle.scheme_terms.specs.declared.scheme.Root.TheVariants.{Closed};

use binding_terms::{CatId, NoMemory, Sig, Text};
use rule_schemes::{JScheme, JudgId, Judgment, RuleFault, RuleId, RuleScheme, System};
use scheme_terms::{MetaDecl, MetaId, Root, SCtx};
use sqlite_items::Items;
use std::alloc::Global;
use std::test::Fail;

fn one_judgment(alloc: Global) -> Result<System, NoMemory>
    ensures { IfOk result (λ s. s.judgments ≡ record { name = []; ctx = None; items = [] } ∷ []) }
{
    let mut judgments = Vec::new(alloc);
    judgments.push(Judgment {
        name: Text::new(alloc),
        ctx: None,
        items: Items::new(alloc),
    })?;
    let sig = Sig::make(alloc, Vec::new(alloc), Vec::new(alloc))?;
    System::new(alloc, sig, judgments)
}

fn axiom(alloc: Global, metas: Items<MetaDecl>) -> RuleScheme
    ensures { result ≡ record {
      name = [];
      metas = metas;
      premises = [];
      conclusion = record {
        judgment = record { 0 = 0 };
        ctx = record { root = Closed; entries = [] };
        args = [];
      };
    } }
{
    RuleScheme {
        name: Text::new(alloc),
        metas,
        premises: Items::new(alloc),
        conclusion: JScheme {
            judgment: JudgId(0),
            ctx: SCtx {
                root: Root::Closed,
                entries: Items::new(alloc),
            },
            args: Items::new(alloc),
        },
    }
}

#[test]
fn rules_are_added_and_refused(rt: HostRuntime) -> Result<(), Fail> {
    let alloc = rt.alloc();
    let mut system = one_judgment(alloc)?;
    assert_eq!(rt; system.judgments().len(), 1);
    assert_eq!(rt; system.rules().len(), 0);
    let first = system.add_rule(axiom(alloc, Items::new(alloc)));
    assert_eq!(rt; first, Ok(RuleId(0)));
    assert_eq!(rt; system.rules().len(), 1);
    let mut metas = Vec::new(alloc);
    metas.push(MetaDecl {
        name: Text::new(alloc),
        cat: CatId(0),
        params: Items::new(alloc),
    })?;
    let unused = system.add_rule(axiom(alloc, Items::from_vec(metas)));
    assert_eq!(rt; unused, Err(RuleFault::NotStrict(MetaId(0))));
    assert_eq!(rt; system.rules().len(), 1);
    Ok(())
}
