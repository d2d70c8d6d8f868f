ghost use Rattle.std.specs.Prelude.{◌≡◌, ◌++◌, IfOk, OnOk, map};
ghost use Rattle.term_reader.specs.View.{token};
ghost use Rattle.notation_parser.specs.Answer.{IsAnswer};
ghost use Rattle.notation_parser.specs.Plain.{IsReadable};
ghost use Rattle.notation_parser.specs.Used.{MayBeNew};
ghost use Rattle.notation_parser.specs.View.{reading_scope, wanted};

use crate::new_names::candidates;
use crate::over::read_over;
use crate::used::tell;
use binding_terms::{NoMemory, Sig};
use proof_lexer::Token;
use rule_schemes::{Fresh, Judgment, ReadScope, Reading, Want};
use scheme_terms::{MetaDecl, copy_meta};
use sqlite_items::Items;
use std::alloc::Global;

/// The most tokens of a form that is read.
const LONGEST: usize = 256;

/// The metavariables that the form may bring: none where no new name may stand in it.
fn may_be_new(
    alloc: Global,
    sig: &Sig,
    scope: &ReadScope,
    tokens: &[Token<'_>],
) -> Result<Items<MetaDecl>, NoMemory>
    ensures { IfOk result (MayBeNew sig.now (reading_scope scope.now) (map token tokens.now)) }
{
    let metas = scope.scope.metas.as_slice();
    match scope.fresh {
        Fresh::No => Ok(Items::new(alloc)),
        Fresh::Names => candidates(alloc, sig, metas, tokens),
        Fresh::Head => candidates(alloc, sig, metas, tokens),
    }
}

/// Puts these metavariables at the end of the others.
fn put_all(alloc: Global, all: &mut Items<MetaDecl>, more: &[MetaDecl]) -> Result<(), NoMemory>
    ensures { OnOk result (all.new ≡ all.old ++ more.now) }
{
    for decl in more {
        all.push(copy_meta(alloc, decl)?)?;
    }
    Ok(())
}

/// The metavariables of both lists.
fn both(alloc: Global, first: &[MetaDecl], second: &[MetaDecl]) -> Result<Items<MetaDecl>, NoMemory>
    ensures { IfOk result (λ all. all ≡ first.now ++ second.now) }
{
    let mut all = Items::new(alloc);
    put_all(alloc, &mut all, first)?;
    put_all(alloc, &mut all, second)?;
    Ok(all)
}

/// How the tokens read as what is wanted, with the names of a scope and the new names that may stand in the form.
pub fn read(
    alloc: Global,
    sig: &Sig,
    judgments: &Vec<Judgment>,
    scope: &ReadScope,
    want: Want,
    tokens: &[Token<'_>],
) -> Result<Reading, NoMemory>
    requires { IsReadable (reading_scope scope.now) }
    ensures { IfOk result
        (λ r. IsAnswer sig.now judgments.now.items (reading_scope scope.now) (wanted want) (map token tokens.now) r) }
{
    if tokens.len() > LONGEST {
        return Ok(Reading::TooLong(tokens.len()));
    }
    let new = may_be_new(alloc, sig, scope, tokens)?;
    let own = scope.scope.metas.as_slice();
    let metas = both(alloc, own, new.as_slice())?;
    let found = read_over(alloc, sig, judgments, scope, metas.as_slice(), want, tokens)?;
    tell(alloc, own.len(), new.as_slice(), found)
}
