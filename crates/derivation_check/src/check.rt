// Whether a tree is a derivation.
ghost use Rattle.std.specs.Prelude.{◌≡◌, ◌↔◌, IsTrue, IfOk, MatchOption, OnOk, IsErrOf, List, ℕ, Some, None, map, slice_get};
ghost use Rattle.rule_schemes.specs.Derivation.{Derives};
ghost use Rattle.rule_schemes.specs.View.{theory, rule as plain_rule};
ghost use Rattle.derivation_check.specs.Nodes.{IsRightNode, IsFirstWrong};
ghost use Rattle.derivation_check.specs.Walk.{stop, path_of};
ghost use Rattle.derivation_check.specs.declared.fault.DerivFault.{DerivFault};

use crate::deriv::Deriv;
use crate::fault::DerivFault;
use crate::judged::is_judgment;
use crate::leaf::is_leaf;
use crate::node::{always_so_far, is_node};
use binding_terms::{NoMemory, number};
use rule_schemes::{RuleId, RuleScheme, System};
use sqlite_items::Items;
use std::alloc::Global;

/// A tree that the walk is in, and how many of its premises it went into.
#[derive(Drop)]
struct Frame<'a> {
    tree: &'a Deriv,
    gone: usize,
}

/// The rule with that number.
fn rule_at(sys: &System, id: RuleId) -> Option<&RuleScheme>
    ensures { MatchOption result (slice_get (theory sys.now).rules id.0 ≡ None) (λ rule. slice_get (theory sys.now).rules id.0 ≡ Some (plain_rule rule.now)) }
{
    sys.rules().get(id.0 as usize)
}

/// Whether the tree's first node is right, where each subtree is taken to be a derivation of the judgment that it carries.
fn is_right_node(alloc: Global, sys: &System, tree: &Deriv) -> Result<bool, NoMemory>
    ensures { IfOk result (λ is. IsTrue is ↔ IsRightNode (theory sys.now) tree.now) }
{
    let rule = match rule_at(sys, tree.rule()) {
        Some(rule) => rule,
        None => return Ok(false),
    };
    always_so_far(sys);
    let carried = tree.conclusion();
    if !is_judgment(alloc, sys, carried)? {
        return Ok(false);
    }
    match tree.place() {
        Some(place) => {
            let right = is_leaf(alloc, sys, rule, carried, place)?;
            Ok(right)
        }
        None => {
            let right = is_node(alloc, sys, rule, carried, tree.subtrees())?;
            Ok(right)
        }
    }
}

/// The numbers of the premises that lead to the last that the walk went into.
#[tactic(auto, using(std::proofs::lemmas::List::take_all))]
fn path_of(alloc: Global, frames: &[Frame<'_>]) -> Result<Items<u32>, NoMemory>
    ensures { IfOk result (λ path. path ≡ path_of (map stop frames.now)) }
{
    let mut path = Items::new(alloc);
    for frame in frames {
        path.push(number(frame.gone.saturating_sub(1))?)?;
    }
    Ok(path)
}

/// The path of the first node in pre-order that is not right, or none where the tree is a derivation. The walk keeps a stack of its
/// own, so that a high tree does not run out of the machine's.
fn first_wrong(alloc: Global, sys: &System, tree: &Deriv) -> Result<Option<Items<u32>>, NoMemory>
    ensures { IfOk result (λ found. MatchOption found (Derives (theory sys.now) tree.now) (IsFirstWrong (theory sys.now) tree.now)) }
{
    if !is_right_node(alloc, sys, tree)? {
        return Ok(Some(Items::new(alloc)));
    }
    let mut frames = Vec::new(alloc);
    frames.push(Frame { tree, gone: 0 })?;
    while let Some(frame) = frames.pop() {
        if frame.gone < frame.tree.premises() {
            let below = frame.tree.premise(frame.gone);
            frames.push(Frame {
                tree: frame.tree,
                gone: frame.gone + 1,
            })?;
            if !is_right_node(alloc, sys, below)? {
                return Ok(Some(path_of(alloc, frames.as_slice())?));
            }
            frames.push(Frame {
                tree: below,
                gone: 0,
            })?;
        }
    }
    Ok(None)
}

/// Accepts exactly the derivations. A tree that is none is refused with the first node in pre-order that is not right.
pub fn check_deriv(alloc: Global, sys: &System, tree: &Deriv) -> Result<(), DerivFault>
    ensures ok { OnOk result (Derives (theory sys.now) tree.now) }
    ensures none { (path : List ℕ) → IsErrOf result (DerivFault.BadNode path) → Derives (theory sys.now) tree.now → ⊥ }
    ensures bad { (path : List ℕ) → IsErrOf result (DerivFault.BadNode path) → IsFirstWrong (theory sys.now) tree.now path }
{
    match first_wrong(alloc, sys, tree)? {
        Some(path) => Err(DerivFault::BadNode(path)),
        None => Ok(()),
    }
}
