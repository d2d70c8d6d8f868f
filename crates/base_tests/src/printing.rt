// The printed text: the calls succeed with ample memory, on texts worked out by hand.
use binding_terms::{NoMemory, Sig, Text};
use derivation_check::Deriv;
use derivation_text::{print_derivs, print_judgment};
use rule_schemes::{JudgId, JudgInst, Judgment, RuleId, System};
use scheme_terms::CtxValue;
use sqlite_items::Items;
use std::alloc::Global;
use std::test::Fail;

/// A system with one judgment, which has no token, and no rule.
fn one_judgment(alloc: Global) -> Result<System, NoMemory> {
    let mut judgments = Vec::new(alloc);
    judgments.push(Judgment {
        name: Text::new(alloc),
        ctx: None,
        items: Items::new(alloc),
    })?;
    let sig = Sig::make(alloc, Vec::new(alloc), Vec::new(alloc))?;
    System::new(alloc, sig, judgments)
}

fn nothing(alloc: Global) -> JudgInst {
    JudgInst {
        judgment: JudgId(0),
        ctx: CtxValue {
            cat: None,
            entries: Items::new(alloc),
        },
        args: Items::new(alloc),
    }
}

#[test]
fn derivations_are_printed(rt: HostRuntime) -> Result<(), Fail> {
    let alloc = rt.alloc();
    let system = one_judgment(alloc)?;
    let mut derivs = Vec::new(alloc);
    derivs.push(Deriv::node(alloc, RuleId(0), nothing(alloc), Vec::new(alloc))?)?;
    let text = print_derivs(alloc, &system, None, &derivs)?;
    assert_eq!(rt; text.bytes(), b"d1:  by rule \ngives d1\n".as_slice());
    let judgment = print_judgment(alloc, &system, &nothing(alloc))?;
    assert_eq!(rt; judgment.bytes(), b"".as_slice());
    Ok(())
}
