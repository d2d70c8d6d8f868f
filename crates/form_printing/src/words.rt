ghost use Rattle.std.specs.Prelude.{◌≡◌, [], ◌∷◌, ◌++◌, map, reverse, IfOk, OnOk};
ghost use Rattle.binding_terms.specs.Signature.{binders};
ghost use Rattle.rule_schemes.specs.Printing.{greatest, next_variable, numbered, binder_at, bound_variables, declared_name, variable_word, terminal, local_word, items_of};
ghost use Rattle.form_printing.specs.Page.{written};
ghost use Rattle.form_printing.specs.Shown.{local_variables};
ghost use Rattle.form_printing.specs.View.{variable, variables};

use crate::page::Page;
use binding_terms::{CatId, Item, NoMemory, ProdId, Sig, Text};
use itoa::Buffer;
use sqlite_items::at;
use std::alloc::Global;

/// A variable in scope, and the number that is printed after its declared name. A scope has the innermost variable first.
#[derive(Clone, Copy, Debug, PartialEq, Eq)]
pub struct Variable {
    pub cat: CatId,
    pub number: u64,
}

/// The greatest number of a variable of the category, or 0 where there is none.
fn greatest(cat: CatId, scope: &[Variable]) -> u64
    ensures { result ≡ greatest cat.0 (variables scope.now) }
{
    let mut most = 0;
    for variable in scope {
        if variable.cat.0 == cat.0 {
            most = most.max(variable.number);
        }
    }
    most
}

/// A further variable of the category after these binders, the last of them innermost.
#[tactic(auto, using(crate::proofs::Scopes::greatest_outside))]
fn next_variable(cat: CatId, scope: &[Variable], binders: &[Variable]) -> Result<Variable, NoMemory>
    ensures { IfOk result (λ v. variable v ≡ next_variable cat.0 (reverse (variables binders.now) ++ variables scope.now)) }
{
    let before = greatest(cat, scope).max(greatest(cat, binders));
    let number = before.checked_add(1).ok_or(NoMemory)?;
    Ok(Variable { cat, number })
}

/// The binders of a production or an entry as variables.
pub fn numbered(
    alloc: Global,
    scope: &[Variable],
    items: &[Item],
) -> Result<Vec<Variable>, NoMemory>
    ensures { IfOk result (λ vs. variables vs.items ≡ numbered (variables scope.now) (binders items.now)) }
{
    let mut all = Vec::new(alloc);
    for item in items {
        if let Item::Binder(cat) = item {
            all.push(next_variable(*cat, scope, all.as_slice())?)?;
        }
    }
    Ok(all)
}

/// The variables of locals, the outermost first.
fn numbered_outward(alloc: Global, locals: &[CatId]) -> Result<Vec<Variable>, NoMemory>
    ensures { IfOk result (λ vs. variables vs.items ≡ numbered [] (map (λ c. c.0) locals.now)) }
{
    let mut all = Vec::new(alloc);
    for cat in locals {
        all.push(next_variable(*cat, &[], all.as_slice())?)?;
    }
    Ok(all)
}

/// The variables of locals whose categories are listed, the outermost first, as a scope.
pub fn numbered_locals(alloc: Global, locals: &[CatId]) -> Result<Vec<Variable>, NoMemory>
    ensures { IfOk result (λ vs. variables vs.items ≡ local_variables locals.now) }
{
    let mut all = numbered_outward(alloc, locals)?;
    all.reverse();
    Ok(all)
}

/// The name that the category declares for its variables, empty where it has none.
pub fn declared_name(sig: &Sig, cat: CatId) -> &[u8]
    ensures { result.now ≡ declared_name sig.now cat.0 }
{
    match at(sig.cats().as_slice(), cat.0 as usize) {
        Some(cat) => match &cat.var {
            Some(name) => name.bytes(),
            None => b"",
        },
        None => b"",
    }
}

/// The items of a production, none where it is out of range.
pub fn items_of(sig: &Sig, prod: ProdId) -> &[Item]
    ensures { result.now ≡ items_of sig.now prod.0 }
{
    match sig.prod(prod) {
        Some(prod) => prod.items.as_slice(),
        None => &[],
    }
}

/// The variable's declared name and its number.
fn variable_word(alloc: Global, sig: &Sig, named: &Variable) -> Result<Text, NoMemory>
    ensures { IfOk result (λ t. t ≡ variable_word sig.now (variable named.now)) }
{
    let mut word = Text::new(alloc);
    let mut digits = Buffer::new();
    word.push(declared_name(sig, named.cat))?;
    word.push(digits.format(named.number).as_bytes())?;
    Ok(word)
}

/// Writes a variable's word.
pub fn write_variable(page: &mut Page, sig: &Sig, named: &Variable) -> Result<(), NoMemory>
    ensures { OnOk result (page.new ≡ written page.old (variable_word sig.now (variable named.now) ∷ [])) }
{
    let word = variable_word(page.alloc, sig, named)?;
    page.token(word.bytes())
}

#[tactic(auto, using(crate::proofs::Pages::written_nothing, crate::proofs::Scopes::get_variables))]
/// Writes the variable of that index, nothing where it is out of scope.
pub fn write_local(
    page: &mut Page,
    sig: &Sig,
    scope: &[Variable],
    index: usize,
) -> Result<(), NoMemory>
    ensures { OnOk result (page.new ≡ written page.old (local_word sig.now (variables scope.now) index)) }
{
    match at(scope, index) {
        Some(named) => write_variable(page, sig, named),
        None => Ok(()),
    }
}

/// Writes a terminal as its production writes it.
pub fn write_terminal(page: &mut Page, text: &Text, quoted: bool) -> Result<(), NoMemory>
    ensures { OnOk result (page.new ≡ written page.old (terminal text.now quoted ∷ [])) }
{
    if !quoted {
        return page.token(text.bytes());
    }
    let mut word = Text::new(page.alloc);
    word.push(b"\"")?;
    word.push(text.bytes())?;
    word.push(b"\"")?;
    page.token(word.bytes())
}

/// The binder of that number.
#[tactic(auto, using(crate::proofs::Scopes::get_variables))]
fn binder_at(binders: &[Variable], number: u32) -> Variable
    ensures { variable result ≡ binder_at (variables binders.now) number }
{
    match at(binders, number as usize) {
        Some(binder) => *binder,
        None => Variable {
            cat: CatId(0),
            number: 0,
        },
    }
}

/// The scope inside a slot, which is under those of the binders that it lists.
pub fn scope_inside(
    alloc: Global,
    scope: &[Variable],
    binders: &[Variable],
    binds: &[u32],
) -> Result<Vec<Variable>, NoMemory>
    ensures { IfOk result (λ vs. variables vs.items ≡ bound_variables (variables binders.now) binds.now ++ variables scope.now) }
{
    let mut inner = Vec::new(alloc);
    for i in 0..binds.len() {
        inner.push(binder_at(binders, binds[binds.len() - 1 - i]))?;
    }
    inner.extend_from_slice(scope)?;
    Ok(inner)
}
