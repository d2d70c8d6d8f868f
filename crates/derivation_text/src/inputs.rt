//! The inputs that a text gives for a statement.
ghost use Rattle.std.specs.Prelude.{◌≡◌, ◌≤◌, ◌↔◌, ◌-◌, ◌^◌, IsTrue, IfOk, MatchOption, map, min, option_map};
ghost use Rattle.std.specs.List.{AllByRecursion};
ghost use Rattle.rule_schemes.specs.Derivation.{sizes, height};
ghost use Rattle.rule_schemes.specs.Rules.{Theory};
ghost use Rattle.rule_schemes.specs.Statement.{derived};
ghost use Rattle.rule_schemes.specs.View.{statement as theorem};
ghost use Rattle.derivation_check.specs.Parts.{subtrees_of};
ghost use Rattle.derivation_text.specs.Bare.{TakesDerivations};
ghost use Rattle.derivation_text.specs.Contents.{argument, contents};
ghost use Rattle.derivation_text.specs.Given.{given_trees, IsWithin, HasNoInputs};
ghost use Rattle.derivation_text.specs.Inputs.{GivesInputs, HEIGHT};
ghost use Rattle.derivation_text.specs.Valid.{nothing_around};

use crate::cited::tree_named;
use crate::derivs::{Argument, Derivs, Ending, Named};
use binding_terms::NoMemory;
use derivation_check::Deriv;
use rule_schemes::Statement;
use std::alloc::Global;

/// The most nodes of the derivations that are given, together.
const NODES: u64 = 100_000;

/// The greatest height of a derivation that is given.
const HIGHEST: u64 = 4_096;

/// The trees of the names, if the arguments are names.
fn given_trees(
    alloc: Global,
    known: &[Named],
    args: &[Argument],
) -> Result<Option<Vec<Deriv>>, NoMemory>
    ensures { IfOk result (λ found. option_map (λ ds. ds.items) found ≡ given_trees known.now (map argument args.now)) }
{
    let mut trees = Vec::new(alloc);
    for arg in args {
        match arg {
            Argument::Name(name) => match tree_named(known, name.bytes()) {
                Some(tree) => trees.push(tree.copy(alloc)?)?,
                None => return Ok(None),
            },
            Argument::Term(_) => return Ok(None),
        }
    }
    Ok(Some(trees))
}

#[tactic(auto, using(derivation_check::proofs::Sums::done_sizes))]
fn size_all(trees: &[Deriv]) -> u64
    ensures { result ≡ min (sizes (subtrees_of trees.now)) (2 ^ 64 - 1) }
{
    let mut total = 0u64;
    for one in trees {
        total = total.saturating_add(one.size());
    }
    total
}

fn all_low(trees: &[Deriv]) -> bool
    ensures { IsTrue result ↔ AllByRecursion (λ d. height d ≤ HEIGHT) trees.now }
{
    for one in trees {
        if one.height() > HIGHEST {
            return false;
        }
    }
    true
}

/// Whether the trees are within the limits on nodes and height.
fn are_within(trees: &[Deriv]) -> bool
    ensures { IsTrue result ↔ IsWithin trees.now }
{
    size_all(trees) <= NODES && all_low(trees)
}

impl Derivs {
    /// The derivations that the `apply` line gives for a statement whose inputs are derivations, or none where the last line is none, gives
    /// another number of names or a term, or where the trees are too many or too high.
    pub fn inputs(
        &self,
        alloc: Global,
        statement: &Statement,
    ) -> Result<Option<Vec<Deriv>>, NoMemory>
        requires { TakesDerivations (theorem statement.now) }
        ensures { (th : Theory) → IfOk result (λ found. MatchOption found (HasNoInputs th (theorem statement.now) (contents self.now))
            (λ ds. GivesInputs th (theorem statement.now) nothing_around (contents self.now) (map derived ds.items))) }
    {
        let args = match &self.ending {
            Ending::Apply(args) => args.as_slice(),
            Ending::Open => return Ok(None),
            Ending::Gives(_) => return Ok(None),
        };
        if args.len() != statement.inputs.len() {
            return Ok(None);
        }
        match given_trees(alloc, self.named.as_slice(), args)? {
            Some(trees) => {
                if are_within(trees.as_slice()) {
                    Ok(Some(trees))
                } else {
                    Ok(None)
                }
            }
            None => Ok(None),
        }
    }
}
