ghost use Rattle.std.specs.Prelude.{◌≡◌, ◌^◌, ◌-◌, ◌<◌, IfOk, IfSome, Some, min, length, slice_get};
ghost use Rattle.rule_schemes.specs.View.{judgment_value};
ghost use Rattle.rule_schemes.specs.Derivation.{node, leaf, judgment, size, sizes, height, heights};
ghost use Rattle.derivation_check.specs.Parts.{subtrees_of, rule_of, place_of, premises_of};
ghost use Rattle.derivation_check.specs.View.{derivation, IsCounted};

use binding_terms::NoMemory;
use rule_schemes::{JudgInst, RuleId};
use std::alloc::Global;
use std::marker::Model;
use std::mem::ManuallyDrop;
use std::rc::Rc;

/// A derivation tree. Others may share it, and its subtrees.
#[cycle(deriv)]
pub struct Deriv {
    node: Rc<Node>,
}

#[cycle(deriv)]
#[derive(Drop)]
struct Node {
    size: u64,
    height: u64,
    rule: RuleId,
    conclusion: JudgInst,
    /// The place of a leaf in its context. A node has none.
    place: Option<usize>,
    premises: Vec<Deriv>,
}

impl Model for Deriv {
    ghost use Rattle.rule_schemes.specs.Derivation.{Derivation};
    ghost use Rattle.rule_schemes.specs.Derivation.{size as node_count};
    ghost use Rattle.derivation_check.specs.Coding.{coded_derivation};

    ghost Value = { Derivation };

    ghost coded = { coded_derivation };

    ghost use Rattle.derivation_check.specs.View.{derivation, IsCounted};

    ghost view = { λ d. derivation d.node.value };

    ghost invariant = { λ d. IsCounted d.node.value };

    ghost size = { node_count };

    ghost use Rattle.std.proofs.Common.{arith};
    ghost use Rattle.derivation_check.specs.Falls.{premises_fall};

    ghost size_decreases = { λ d h. Prim.omega (arith, premises_fall d.node.value h) };
}

// A loop, so that a high tree does not run out of stack.
impl Drop for Deriv {
    fn drop(self) {
        if let Some(premises) = last_premises(self) {
            drop_all(premises);
        }
    }
}

/// The premises of a tree that no one else holds.
fn last_premises(tree: Deriv) -> Option<Vec<Deriv>>
    ensures { IfSome result (λ premises. sizes (subtrees_of premises.items) < size tree) }
{
    match Rc::into_inner(tree.open()) {
        Some(node) => {
            let Node { premises, .. } = node;
            Some(premises)
        }
        None => None,
    }
}

#[tactic(auto, using(crate::proofs::Sums::sizes_append))]
fn drop_all(premises: Vec<Deriv>) {
    let mut left = premises;
    while let Some(one) = left.pop() {
        if let Some(premises) = last_premises(one) {
            let mut more = premises;
            match left.append(&mut more) {
                Ok(()) => more.destroy_empty(),
                Err(_) => {
                    let _kept = unsafe { ManuallyDrop::new_unchecked(more) };
                }
            }
        }
    }
    left.destroy_empty();
}

impl Deriv {
    fn open(self) -> Rc<Node>
        ensures tree { derivation result.value ≡ self }
        ensures counted { IsCounted result.value }
    {
        let Deriv { node } = self;
        node
    }

    /// A node with that rule and conclusion over those premises.
    pub fn node(
        alloc: Global,
        rule: RuleId,
        conclusion: JudgInst,
        premises: Vec<Deriv>,
    ) -> Result<Deriv, NoMemory>
        ensures { IfOk result (λ d. d ≡ node rule.0 (judgment_value conclusion) (subtrees_of premises.items)) }
    {
        let size = size_all(premises.as_slice()).saturating_add(1);
        let height = height_all(premises.as_slice()).saturating_add(1);
        let node = Rc::new(
            alloc,
            Node {
                size,
                height,
                rule,
                conclusion,
                place: None,
                premises,
            },
        )?;
        Ok(Deriv { node })
    }

    /// A leaf with that assumption rule, for the variable at that place of the conclusion's context. Places count from 0, the
    /// first entry.
    pub fn leaf(
        alloc: Global,
        rule: RuleId,
        conclusion: JudgInst,
        place: usize,
    ) -> Result<Deriv, NoMemory>
        ensures { IfOk result (λ d. d ≡ leaf rule.0 (judgment_value conclusion) place) }
    {
        let node = Rc::new(
            alloc,
            Node {
                size: 1,
                height: 1,
                rule,
                conclusion,
                place: Some(place),
                premises: Vec::new(alloc),
            },
        )?;
        Ok(Deriv { node })
    }

    /// The same tree again, in no more than a step: both share its nodes.
    pub fn copy(&self, _alloc: Global) -> Result<Deriv, NoMemory>
        ensures { IfOk result (λ d. d ≡ self.now) }
    {
        let node = self.node.clone()?;
        Ok(Deriv { node })
    }

    pub fn rule(&self) -> RuleId
        ensures { result.0 ≡ rule_of self.now }
    {
        self.node.rule
    }

    pub fn conclusion(&self) -> &JudgInst
        ensures { judgment_value result.now ≡ judgment self.now }
    {
        &self.node.conclusion
    }

    /// The place of a leaf, and none for a node.
    pub fn place(&self) -> Option<usize>
        ensures { result ≡ place_of self.now }
    {
        self.node.place
    }

    pub(crate) fn subtrees(&self) -> &[Deriv]
        ensures { result.now ≡ premises_of self.now }
    {
        self.node.premises.as_slice()
    }

    /// How many premises a node has, and 0 for a leaf.
    pub fn premises(&self) -> usize
        ensures { result ≡ length (premises_of self.now) }
    {
        self.subtrees().len()
    }

    /// The premise of that number, which counts from 0.
    pub fn premise(&self, i: usize) -> &Deriv
        requires { i < length (premises_of self.now) }
        ensures { slice_get (premises_of self.now) i ≡ Some result.now }
    {
        &self.subtrees()[i]
    }

    /// The number of nodes, or `u64::MAX` where it is larger.
    pub fn size(&self) -> u64
        ensures { result ≡ min (size self.now) (2 ^ 64 - 1) }
    {
        self.node.size
    }

    /// The height, where a single node has height 1, or `u64::MAX` where it is larger.
    pub fn height(&self) -> u64
        ensures { result ≡ min (height self.now) (2 ^ 64 - 1) }
    {
        self.node.height
    }
}

#[tactic(auto, using(crate::proofs::Sums::done_sizes))]
fn size_all(all: &[Deriv]) -> u64
    ensures { result ≡ min (sizes (subtrees_of all.now)) (2 ^ 64 - 1) }
{
    let mut total = 0u64;
    for one in all {
        total = total.saturating_add(one.size());
    }
    total
}

#[tactic(auto, using(crate::proofs::Sums::done_heights))]
fn height_all(all: &[Deriv]) -> u64
    ensures { result ≡ min (heights (subtrees_of all.now)) (2 ^ 64 - 1) }
{
    let mut most = 0u64;
    for one in all {
        most = most.max(one.height());
    }
    most
}
