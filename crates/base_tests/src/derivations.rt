// Trees that share a subtree.
use derivation_check::Deriv;
use rule_schemes::{JudgId, JudgInst, RuleId};
use scheme_terms::CtxValue;
use sqlite_items::Items;
use std::alloc::Global;
use std::test::Fail;

fn judgment(alloc: Global, number: u32) -> JudgInst {
    JudgInst {
        judgment: JudgId(number),
        ctx: CtxValue {
            cat: None,
            entries: Items::new(alloc),
        },
        args: Items::new(alloc),
    }
}

#[test]
fn shared_subtrees_count_each_time(rt: HostRuntime) -> Result<(), Fail> {
    let alloc = rt.alloc();
    let leaf = Deriv::leaf(alloc, RuleId(1), judgment(alloc, 5), 4)?;
    let mut premises = Vec::new(alloc);
    premises.push(leaf.copy(alloc)?)?;
    premises.push(leaf)?;
    let tree = Deriv::node(alloc, RuleId(2), judgment(alloc, 6), premises)?;
    assert_eq!(rt; tree.rule(), RuleId(2));
    assert_eq!(rt; tree.conclusion().judgment, JudgId(6));
    assert_eq!(rt; tree.place(), None);
    assert_eq!(rt; (tree.size(), tree.height()), (3, 2));
    assert_eq!(rt; tree.premises(), 2);
    let second = tree.premise(1);
    assert_eq!(rt; second.place(), Some(4));
    assert_eq!(rt; second.conclusion().judgment, JudgId(5));
    assert_eq!(rt;
        (second.size(), second.height(), second.premises()),
        (1, 1, 0)
    );
    Ok(())
}

// A tree so high that a recursive drop would run out of stack.
#[test]
fn a_high_tree_is_dropped(rt: HostRuntime) -> Result<(), Fail> {
    let alloc = rt.alloc();
    let mut tree = Deriv::leaf(alloc, RuleId(0), judgment(alloc, 0), 0)?;
    for _ in 0..400_000 {
        let mut premises = Vec::new(alloc);
        premises.push(tree)?;
        tree = Deriv::node(alloc, RuleId(0), judgment(alloc, 0), premises)?;
    }
    assert_eq!(rt; tree.height(), 400_001);
    Ok(())
}
