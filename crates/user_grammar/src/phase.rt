// The grammar of a file: its signature, or its first fault.
ghost use Rattle.sy_base.specs.declared.fault.Fault.{Fault};
ghost use Rattle.sy_base.specs.declared.fault.Refusal.TheVariants.{Refused};
ghost use Rattle.std.specs.Prelude.{IfOk, IsErrOf};
ghost use Rattle.outline_reader.specs.Plain.{outlined};
ghost use Rattle.user_grammar.specs.Fault.{IsFirstFault};
ghost use Rattle.user_grammar.specs.Grammar.{IsSignatureOf};

use crate::fault::first_fault;
use crate::made::made_signature;
use binding_terms::Sig;
use outline_reader::Outline;
use std::alloc::Global;
use sy_base::Refusal;

/// The signature for which an outline stands by 'Grammar' of docs/notation.md, or the first fault of its grammar by 'Faults of grammars'.
pub fn grammar(alloc: Global, outline: &Outline<'_>) -> Result<Sig, Refusal>
    ensures signature { IfOk result (λ sig. IsSignatureOf (outlined outline.now) sig) }
    ensures refused { (fault : Fault) → IsErrOf result (Refused fault)
        → IsFirstFault (outlined outline.now) fault.line fault.code fault.detail }
{
    match first_fault(alloc, outline.parts.as_slice())? {
        Some(fault) => Err(Refusal::Refused(fault)),
        None => Ok(made_signature(alloc, outline)?),
    }
}
