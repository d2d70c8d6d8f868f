// The variables in scope in a part of a form, the innermost last.
ghost use Rattle.std.specs.Prelude.{◌≡◌, ◌↔◌, ◌++◌, ◌∷◌, [], IfOk, MatchOption, map};
ghost use Rattle.scheme_terms.specs.SchemeTree.{SchemeTree};
ghost use Rattle.scheme_terms.specs.View.{scheme};
ghost use Rattle.rule_schemes.specs.Reading.{Means, meant, slot_variables};
ghost use Rattle.term_reader.specs.View.{meaning, variable, in_scope, scope_words};

use binding_terms::{CatId, NoMemory, Text};
use scheme_terms::Scheme;
use sqlite_items::{Items, at};
use std::alloc::Global;

/// What a word that is in scope stands for.
#[derive(Clone, Copy, Debug, PartialEq, Eq)]
pub enum Meaning {
    /// A local.
    Bound,
    /// The known variable with this number.
    Entry(u32),
}

/// A word that is in scope as a variable.
#[derive(Clone, Copy, Debug)]
pub struct Var<'a> {
    pub word: &'a [u8],
    pub cat: CatId,
    pub means: Meaning,
}

/// What a variable reads as, where so many locals stand before it.
fn meant(means: Meaning, before: usize) -> Scheme
    ensures { scheme result ≡ meant (meaning means) before }
{
    match means {
        Meaning::Bound => Scheme::Local(before),
        Meaning::Entry(number) => Scheme::Known(number),
    }
}

/// What the innermost variable with the word reads as, where it is of the category.
pub fn innermost(vars: &[Var<'_>], cat: CatId, word: &[u8]) -> Option<Scheme>
    ensures { MatchOption result ((s : SchemeTree) → Means 0 (in_scope vars.now) word.now cat.0 s → ⊥)
        (λ found. (s : SchemeTree) → Means 0 (in_scope vars.now) word.now cat.0 s ↔ (s ≡ scheme found)) }
{
    let mut before = 0;
    let mut left = vars.len();
    while left > 0 {
        left -= 1;
        let var = vars[left];
        if var.word == word {
            if var.cat.0 != cat.0 {
                return None;
            }
            return Some(meant(var.means, before));
        }
        if var.means == Meaning::Bound {
            before += 1;
        }
    }
    None
}

/// The variables of a slot: those around it, and then the ones that it is under.
pub fn slot_scope<'a>(
    alloc: Global,
    vars: &[Var<'a>],
    own: &[Var<'a>],
    binds: &[u32],
) -> Result<Items<Var<'a>>, NoMemory>
    ensures { IfOk result
        (λ all. in_scope all ≡ slot_variables (map variable own.now) binds.now ++ in_scope vars.now) }
{
    let mut all = Items::from_slice(alloc, vars)?;
    for &number in binds {
        match at(own, number as usize) {
            Some(var) => all.push(*var)?,
            None => (),
        }
    }
    Ok(all)
}

/// The variables with the words of a scope.
pub fn scope_variables<'a>(
    alloc: Global,
    words: &'a [(Text, CatId)],
) -> Result<Items<Var<'a>>, NoMemory>
    ensures { IfOk result (λ all. in_scope all ≡ scope_words words.now) }
{
    let mut all = Items::new(alloc);
    for one in words {
        all.push(Var {
            word: one.0.bytes(),
            cat: one.1,
            means: Meaning::Bound,
        })?;
    }
    Ok(all)
}
