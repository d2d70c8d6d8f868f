// The variables in scope in a part of a form, the innermost last.
ghost use Rattle.std.specs.Prelude.{◌≡◌, ◌↔◌, ◌++◌, ◌∷◌, [], IsTrue, IfOk, MatchOption, map};
ghost use Rattle.scheme_terms.specs.SchemeTree.{SchemeTree, no_parts};
ghost use Rattle.ordered_readings.specs.NodeView.{made};
ghost use Rattle.rule_schemes.specs.Reading.{Means, meant, slot_variables};
ghost use Rattle.form_cells.specs.declared.variables.Meaning.{Meaning};
ghost use Rattle.form_cells.specs.View.{meaning, variable, in_scope, scope_words};

use binding_terms::{CatId, NoMemory, Text};
use ordered_readings::Head;
use sqlite_items::{Items, at};
use std::alloc::Global;

/// What a word that is in scope stands for.
#[derive(Clone, Copy, Debug, PartialEq, Eq)]
pub enum Meaning {
    /// A local.
    Bound,
    /// The known variable with this number.
    Entry(u32),
}

/// A word that is in scope as a variable.
#[derive(Clone, Copy, Debug)]
pub struct Var<'a> {
    pub word: &'a [u8],
    pub cat: CatId,
    pub means: Meaning,
}

/// What a variable reads as, where so many locals stand before it.
fn meant(means: Meaning, before: usize) -> Head
    ensures { made result no_parts ≡ meant (meaning means) before }
{
    match means {
        Meaning::Bound => Head::Local(before),
        Meaning::Entry(number) => Head::Known(number),
    }
}

fn has_word(var: &Var<'_>, word: &[u8]) -> bool
    ensures { IsTrue result ↔ (var.now.word.now ≡ word.now) }
{
    var.word == word
}

fn is_bound(means: Meaning) -> bool
    ensures { IsTrue result ↔ (means ≡ Meaning.Bound) }
{
    match means {
        Meaning::Bound => true,
        Meaning::Entry(_) => false,
    }
}

/// What the innermost variable with the word reads as, where it is of the category.
pub fn innermost(vars: &[Var<'_>], cat: CatId, word: &[u8]) -> Option<Head>
    ensures { MatchOption result ((s : SchemeTree) → Means 0 (in_scope vars.now) word.now cat.0 s → ⊥)
        (λ found. (s : SchemeTree) → Means 0 (in_scope vars.now) word.now cat.0 s ↔ (s ≡ made found no_parts)) }
{
    let mut before = 0;
    let mut left = vars.len();
    while left > 0 {
        left -= 1;
        let var = &vars[left];
        if has_word(var, word) {
            if var.cat.0 != cat.0 {
                return None;
            }
            return Some(meant(var.means, before));
        }
        if is_bound(var.means) {
            before += 1;
        }
    }
    None
}

/// The variables of a slot: those around it, and then the ones that it is under.
pub fn slot_scope<'a>(
    alloc: Global,
    vars: &[Var<'a>],
    own: &[Var<'a>],
    binds: &[u32],
) -> Result<Items<Var<'a>>, NoMemory>
    ensures { IfOk result
        (λ all. in_scope all ≡ slot_variables (map variable own.now) binds.now ++ in_scope vars.now) }
{
    let mut all = Items::from_slice(alloc, vars)?;
    for &number in binds {
        match at(own, number as usize) {
            Some(var) => all.push(*var)?,
            None => (),
        }
    }
    Ok(all)
}

/// The variables with the words of a scope.
pub fn scope_variables<'a>(
    alloc: Global,
    words: &'a [(Text, CatId)],
) -> Result<Items<Var<'a>>, NoMemory>
    ensures { IfOk result (λ all. in_scope all ≡ scope_words words.now) }
{
    let mut all = Items::new(alloc);
    for one in words {
        all.push(Var {
            word: one.0.bytes(),
            cat: one.1,
            means: Meaning::Bound,
        })?;
    }
    Ok(all)
}

fn same_variable(one: &Var<'_>, other: &Var<'_>) -> bool
    ensures { IsTrue result ↔ (variable one.now ≡ variable other.now) }
{
    one.cat.0 == other.cat.0 && one.means == other.means && one.word == other.word
}

/// Whether the variables are seen to be the same, one by one.
pub(crate) fn same_variables(one: &[Var<'_>], other: &[Var<'_>]) -> bool
    ensures { IsTrue result → in_scope one.now ≡ in_scope other.now }
{
    if one.len() != other.len() {
        return false;
    }
    for i in 0..one.len() {
        if !same_variable(&one[i], &other[i]) {
            return false;
        }
    }
    true
}
