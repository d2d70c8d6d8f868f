// The signature for which an outline stands, with variables, binders and contexts.
ghost use Rattle.std.specs.Prelude.{◌≡◌, ◌<◌, ◌^◌, IfOk, length, map};
ghost use Rattle.binding_terms.specs.Signature.{Fits, Signature};
ghost use Rattle.outline_reader.specs.Plain.{outlined};
ghost use Rattle.user_grammar.specs.Fault.{HasNoFault};
ghost use Rattle.user_grammar.specs.File.{categories, listed};
ghost use Rattle.user_grammar.specs.Grammar.{IsSignatureOf, IsWritten};
ghost use Rattle.user_grammar.specs.Indexed.{names_in};
ghost use Rattle.user_grammar.specs.Made.{plains};

use crate::made_productions::{category_texts, made_categories, made_productions};
use crate::name_index::{NameIndex, indexed};
use crate::name_lists::assumed_index;
use crate::portions::listed;
use binding_terms::{Cat, NoMemory, Prod, Sig};
use outline_reader::{Outline, Portion};
use std::alloc::Global;

/// The categories and productions of a signature, which need not fit.
#[derive(Drop)]
pub struct Written {
    pub cats: Vec<Cat>,
    pub prods: Vec<Prod>,
}

/// The categories of the signature.
fn written_categories(
    alloc: Global,
    names: &[&[u8]],
    texts: &NameIndex<'_>,
    portions: &[Portion<'_>],
) -> Result<Vec<Cat>, NoMemory>
    requires named { map (λ name. name.now) names.now
        ≡ map (λ written. written.name.text) (categories (plains portions.now)) }
    requires are_listed { names_in texts.now ≡ listed (plains portions.now) }
    ensures few { IfOk result (λ cats. length cats.items < 2 ^ 32) }
    ensures are { IfOk result (λ cats. (sig : Signature) → IsWritten (plains portions.now) sig → cats.items ≡ sig.cats) }
{
    let assumed = assumed_index(alloc, portions)?;
    let cats = made_categories(alloc, names, texts, &assumed, portions)?;
    if cats.len() > u32::MAX as usize {
        return Err(NoMemory);
    }
    Ok(cats)
}

/// The categories and productions of the signature.
fn written_parts(alloc: Global, portions: &[Portion<'_>]) -> Result<Written, NoMemory>
    requires { (sig : Signature) × IsWritten (plains portions.now) sig }
    ensures { IfOk result (λ written. (sig : Signature) → IsWritten (plains portions.now) sig
        → record { cats = written.cats.items; prods = written.prods.items } ≡ sig) }
{
    let names = category_texts(alloc, portions)?;
    let words = listed(alloc, portions)?;
    let texts = indexed(alloc, words.as_slice())?;
    let cats = written_categories(alloc, names.as_slice(), &texts, portions)?;
    let prods = made_productions(alloc, cats.as_slice(), names.as_slice(), &texts, portions)?;
    Ok(Written { cats, prods })
}

/// The signature for which an outline stands, where its categories and productions are written, and nothing says that they do not fit.
fn written_signature(alloc: Global, outline: &Outline<'_>) -> Result<Sig, NoMemory>
    requires { (sig : Signature) × IsWritten (outlined outline.now) sig × ((Fits sig → ⊥) → ⊥) }
    ensures { IfOk result (λ sig. IsSignatureOf (outlined outline.now) sig) }
{
    let written = written_parts(alloc, outline.parts.as_slice())?;
    if !Sig::fits(&written.cats, &written.prods) {
        unreachable!();
    }
    Sig::make(alloc, written.cats, written.prods)
}

/// The signature for which an outline stands whose grammar has no fault.
pub fn made_signature(alloc: Global, outline: &Outline<'_>) -> Result<Sig, NoMemory>
    requires { HasNoFault (outlined outline.now) }
    ensures { IfOk result (λ sig. IsSignatureOf (outlined outline.now) sig) }
{
    written_signature(alloc, outline)
}
