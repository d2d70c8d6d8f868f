// Which metavariables stand in what was read over them.
ghost use Rattle.std.specs.Prelude.{◌≡◌, ◌↔◌, ◌++◌, IsTrue, IfOk, map};
ghost use Rattle.rule_schemes.specs.Statement.{OccursInJudgment};
ghost use Rattle.rule_schemes.specs.View.{judgment_scheme};
ghost use Rattle.judgments.specs.Standing.{IsReadFrom, IsRead, AreReadOf, AreUnreadOf};

use binding_terms::{NoMemory, number};
use rule_schemes::{JScheme, occurs_in_judgment, same_text};
use scheme_terms::{MetaDecl, MetaId, copy_meta, copy_metas};
use sqlite_items::Items;
use std::alloc::Global;

/// Whether this metavariable has the name and stands in the judgment.
fn stands_in(m: MetaId, decl: &MetaDecl, name: &[u8], j: &JScheme) -> bool
    ensures { IsTrue result ↔ ((decl.now.name ≡ name.now) × OccursInJudgment m.0 (judgment_scheme j.now)) }
{
    same_text(decl.name.bytes(), name) && occurs_in_judgment(m, j)
}

/// Whether the metavariable with this name stands in the judgment.
fn is_read_in(metas: &[MetaDecl], name: &[u8], j: &JScheme) -> Result<bool, NoMemory>
    ensures { IfOk result (λ is. IsTrue is ↔ IsReadFrom 0 metas.now name.now (judgment_scheme j.now)) }
{
    for i in 0..metas.len() {
        if stands_in(MetaId(number(i)?), &metas[i], name, j) {
            return Ok(true);
        }
    }
    Ok(false)
}

/// Whether it stands in one of the judgments.
fn is_read(metas: &[MetaDecl], forms: &[JScheme], name: &[u8]) -> Result<bool, NoMemory>
    ensures { IfOk result (λ is. IsTrue is ↔ IsRead metas.now (map judgment_scheme forms.now) name.now) }
{
    for form in forms {
        if is_read_in(metas, name, form)? {
            return Ok(true);
        }
    }
    Ok(false)
}

/// Those of the listed metavariables that stand in one of the judgments, which were read over `metas`.
pub fn read_of(
    alloc: Global,
    metas: &[MetaDecl],
    forms: &[JScheme],
    listed: &[MetaDecl],
) -> Result<Items<MetaDecl>, NoMemory>
    ensures { IfOk result (λ those. AreReadOf metas.now (map judgment_scheme forms.now) listed.now those) }
{
    let mut those = Items::new(alloc);
    for decl in listed {
        if is_read(metas, forms, decl.name.bytes())? {
            those.push(copy_meta(alloc, decl)?)?;
        }
    }
    Ok(those)
}

/// Those of the listed metavariables that stand in none of the judgments, which were read over `metas`.
pub fn unread_of(
    alloc: Global,
    metas: &[MetaDecl],
    forms: &[JScheme],
    listed: &[MetaDecl],
) -> Result<Items<MetaDecl>, NoMemory>
    ensures { IfOk result (λ those. AreUnreadOf metas.now (map judgment_scheme forms.now) listed.now those) }
{
    let mut those = Items::new(alloc);
    for decl in listed {
        if !is_read(metas, forms, decl.name.bytes())? {
            those.push(copy_meta(alloc, decl)?)?;
        }
    }
    Ok(those)
}

/// The metavariables, and then these more.
pub fn with_more(
    alloc: Global,
    metas: &[MetaDecl],
    more: Items<MetaDecl>,
) -> Result<Items<MetaDecl>, NoMemory>
    ensures { IfOk result (λ all. all ≡ metas.now ++ more) }
{
    let mut all = copy_metas(alloc, metas)?;
    all.append(more)?;
    Ok(all)
}
