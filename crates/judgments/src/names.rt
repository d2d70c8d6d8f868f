// The metavariables of forms.
ghost use Rattle.std.specs.Prelude.{OnOk, map, flat_map};
ghost use Rattle.proof_lexer.specs.View.{kind_and_text};
ghost use Rattle.rule_schemes.specs.Reading.{Token, word, IsCategoryWord};
ghost use Rattle.judgments.specs.Collected.{AreCollectedFrom, AreNext, IsLonger};

use crate::items::is_word;
use crate::words::spelled;
use binding_terms::{Cat, CatId, NoMemory, Sig, Text};
use outline_reader::{Form, NamedForm};
use proof_lexer::Token;
use rule_schemes::is_among;
use scheme_terms::MetaDecl;
use sqlite_items::Items;
use std::alloc::Global;

/// Puts a metavariable without parameters at the end, where its name is new.
fn add_name(
    alloc: Global,
    metas: &mut Items<MetaDecl>,
    cat: CatId,
    name: &[u8],
    cats: &[Cat],
) -> Result<(), NoMemory>
    requires { IsCategoryWord cats.now cat.0 name.now }
    ensures { OnOk result (AreNext cats.now metas.old (word name.now) metas.new) }
{
    if is_among(metas.as_slice(), name) {
        return Ok(());
    }
    metas.push(MetaDecl {
        name: Text::of(alloc, name)?,
        cat,
        params: Items::new(alloc),
    })?;
    Ok(())
}

/// Adds the name that the token is, if any.
fn take_token(
    alloc: Global,
    sig: &Sig,
    metas: &mut Items<MetaDecl>,
    token: &Token<'_>,
) -> Result<(), NoMemory>
    ensures { OnOk result (AreNext sig.now.cats metas.old (kind_and_text token.now) metas.new) }
{
    if !is_word(token.kind) {
        return Ok(());
    }
    let cats = sig.cats().as_slice();
    let name = token.text.as_bytes();
    match spelled(cats, name)? {
        Some(cat) => add_name(alloc, metas, cat, name, cats),
        None => Ok(()),
    }
}

/// Adds the names of a form.
pub fn take_names(
    alloc: Global,
    sig: &Sig,
    metas: &mut Items<MetaDecl>,
    form: &[Token<'_>],
) -> Result<(), NoMemory>
    ensures collected { OnOk result (AreCollectedFrom sig.now.cats metas.old (map kind_and_text form.now) metas.new) }
    ensures longer { OnOk result (IsLonger metas.old metas.new) }
{
    for token in form {
        take_token(alloc, sig, metas, token)?;
    }
    Ok(())
}

/// Adds the names of forms.
pub fn take_all_names(
    alloc: Global,
    sig: &Sig,
    metas: &mut Items<MetaDecl>,
    forms: &[Form<'_>],
) -> Result<(), NoMemory>
    ensures collected { OnOk result
        (AreCollectedFrom sig.now.cats metas.old (flat_map (λ form. map kind_and_text form.now) forms.now) metas.new) }
    ensures longer { OnOk result (IsLonger metas.old metas.new) }
{
    for form in forms {
        take_names(alloc, sig, metas, form)?;
    }
    Ok(())
}

/// Adds the names of forms that have names themselves.
pub fn take_given_names(
    alloc: Global,
    sig: &Sig,
    metas: &mut Items<MetaDecl>,
    forms: &[NamedForm<'_>],
) -> Result<(), NoMemory>
    ensures { OnOk result
        (AreCollectedFrom sig.now.cats metas.old (flat_map (λ named. map kind_and_text named.form.now) forms.now) metas.new) }
{
    for named in forms {
        take_names(alloc, sig, metas, named.form)?;
    }
    Ok(())
}
