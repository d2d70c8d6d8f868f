// The scope in which a proof begins.
ghost use Rattle.std.specs.Prelude.{◌≡◌, IfOk, option_map};
ghost use Rattle.scheme_terms.specs.View.{names};
ghost use Rattle.rule_schemes.specs.View.{statement as plain};
ghost use Rattle.notation_parser.specs.View.{reading_scope};
ghost use Rattle.judgments.specs.Written.{settled};
ghost use Rattle.proof_trees.specs.Right.{IsProofScope};
ghost use Rattle.proof_check.specs.Finding.{Finds};

use binding_terms::NoMemory;
use core_proofs::{has_proof_scope, proof_scope};
use rule_schemes::{Fresh, ReadScope, Statement};
use scheme_terms::Scope;
use sqlite_items::Items;
use std::alloc::Global;

/// The scope in which the proof of a statement begins. None where a goal name stands before a name of the inputs.
pub fn scope_of_proof(alloc: Global, statement: &Statement) -> Result<Option<Scope>, NoMemory>
    ensures { IfOk result (λ found. Finds (IsProofScope (plain statement.now)) (option_map names found)) }
{
    if !has_proof_scope(statement)? {
        return Ok(None);
    }
    Ok(Some(proof_scope(alloc, statement)?))
}

/// What the forms of a proof are read in: its scope, and no new name.
pub fn settled(alloc: Global, scope: Scope) -> ReadScope
    ensures reading { reading_scope result ≡ settled (names scope) }
    ensures same { names result.scope ≡ names scope }
{
    ReadScope {
        scope,
        vars: Items::new(alloc),
        fresh: Fresh::No,
    }
}
