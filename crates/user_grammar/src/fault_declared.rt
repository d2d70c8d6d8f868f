// Words that are declared a second time.
ghost use Rattle.std.specs.Prelude.{◌≡◌, ◌↔◌, ◌++◌, ◌∷◌, [], List, IsTrue, IfOk, OnOk, map};
ghost use Rattle.binding_terms.specs.Numbered.{AnyByRecursion};
ghost use Rattle.sy_base.specs.declared.fault.Code.TheVariants.{Duplicate};
ghost use Rattle.proof_lexer.specs.View.{token_view};
ghost use Rattle.outline_reader.specs.Plain.{plain_form, plain_portion};
ghost use Rattle.outline_reader.specs.Views.{portion_view};
ghost use Rattle.user_grammar.specs.File.{categories};
ghost use Rattle.user_grammar.specs.Fault.{CategoryDeclares, Declared, DeclareAll, DeclaresHere, IsDuplicate, IsSpelledAs, a_terminal, a_variable, declared_as};
ghost use Rattle.user_grammar.specs.declared.fault_declared.Means.TheVariants.{Terminal};
ghost use Rattle.sy_base.specs.FirstFault.{OfSome};
ghost use Rattle.user_grammar.specs.Finding.{
  AreLists,
  AtToken,
  HaveCommon,
  HaveSeen,
  IsCommon,
  IsLeast,
  IsOneToken,
  IsSecond,
  declaration_view,
  portions_of,
  written_view,
};

use crate::fault_found::{Found, at_token};
use crate::fault_lists::Lists;
use crate::fault_names::variables;
use crate::name_index::{NameIndex, add_name, has_name, no_names};
use binding_terms::NoMemory;
use outline_reader::{Form, Name, Portion};
use proof_lexer::Token;
use rule_schemes::{is_spelling, same_text};
use std::alloc::Global;
use sy_base::{Code, earlier};

/// How a word is declared.
#[derive(Clone, Copy)]
pub enum Means {
    Terminal,
    Category,
    Variable,
}

/// A token by which a word is declared.
#[derive(Clone, Copy)]
pub struct Declaration<'a> {
    pub means: Means,
    pub token: Name<'a>,
}

fn declare_tokens<'a>(
    tokens: &'a [Token<'a>],
    all: &mut Vec<Declaration<'a>>,
) -> Result<(), NoMemory>
    ensures { OnOk result (map declaration_view all.new.items
        ≡ map declaration_view all.old.items ++ map (declared_as a_terminal) (plain_form tokens.now)) }
{
    for token in tokens {
        all.push(Declaration {
            means: Means::Terminal,
            token,
        })?;
    }
    Ok(())
}

fn declare_variables<'a>(names: &[Name<'a>], all: &mut Vec<Declaration<'a>>) -> Result<(), NoMemory>
    ensures { OnOk result (map declaration_view all.new.items
        ≡ map declaration_view all.old.items ++ map (declared_as a_variable) (map (λ name. token_view name.now) names.now)) }
{
    for name in names {
        all.push(Declaration {
            means: Means::Variable,
            token: name,
        })?;
    }
    Ok(())
}

fn declare_category<'a>(
    alloc: Global,
    lists: &Lists<'_>,
    name: Name<'a>,
    forms: &[Form<'a>],
    all: &mut Vec<Declaration<'a>>,
) -> Result<(), NoMemory>
    requires { AreLists lists.now }
    ensures { OnOk result ((own : List Declared) × (map declaration_view all.new.items ≡ map declaration_view all.old.items ++ own)
        × CategoryDeclares (portions_of lists.now) (token_view name.now) (map plain_form (map (λ form. form.now) forms.now)) own) }
{
    let own = variables(alloc, lists, forms)?;
    all.push(Declaration {
        means: Means::Category,
        token: name,
    })?;
    declare_variables(own.as_slice(), all)
}

fn declare<'a>(
    alloc: Global,
    lists: &Lists<'_>,
    portion: &'a Portion<'a>,
    all: &mut Vec<Declaration<'a>>,
) -> Result<(), NoMemory>
    requires { AreLists lists.now }
    ensures { OnOk result ((own : List Declared) × (map declaration_view all.new.items ≡ map declaration_view all.old.items ++ own)
        × DeclaresHere (portions_of lists.now) (plain_portion (portion_view portion.now)) own) }
{
    match portion {
        Portion::Terminals { items, .. } => declare_tokens(items, all),
        Portion::Category {
            name,
            productions,
            ..
        } => { declare_category(alloc, lists, name, productions.as_slice(), all) }
        _ => Ok(()),
    }
}

/// What the portions declare, in text order.
fn declarations<'a>(alloc: Global, lists: &Lists<'a>) -> Result<Vec<Declaration<'a>>, NoMemory>
    requires { AreLists lists.now }
    ensures { IfOk result (λ all. DeclareAll (portions_of lists.now) (portions_of lists.now) (map declaration_view all.items)) }
{
    let mut all = Vec::new(alloc);
    for portion in lists.portions {
        declare(alloc, lists, portion, &mut all)?;
    }
    Ok(all)
}

/// Whether a word is a spelling of what is declared.
fn is_spelled_as(declaration: &Declaration<'_>, word: &[u8]) -> bool
    ensures { IsTrue result ↔ IsSpelledAs (declaration_view declaration.now) word.now }
{
    match declaration.means {
        Means::Terminal => same_text(word, declaration.token.text.as_bytes()),
        Means::Category => is_spelling(declaration.token.text.as_bytes(), word),
        Means::Variable => is_spelling(declaration.token.text.as_bytes(), word),
    }
}

/// Whether two declared words have a common spelling.
fn have_common(one: &Declaration<'_>, other: &Declaration<'_>) -> bool
    ensures { IsTrue result ↔ HaveCommon (declaration_view one.now) (declaration_view other.now) }
{
    if is_spelled_as(one, other.token.text.as_bytes()) {
        return true;
    }
    is_spelled_as(other, one.token.text.as_bytes())
}

/// Whether one of some declared words has a common spelling with another.
fn some_common(before: &[Declaration<'_>], declaration: &Declaration<'_>) -> bool
    ensures { IsTrue result ↔ AnyByRecursion (λ earlier. HaveCommon earlier (declaration_view declaration.now))
        (map declaration_view before.now) }
{
    for earlier in before {
        if have_common(earlier, declaration) {
            return true;
        }
    }
    false
}

/// What was declared so far: the listed terminals, with look-up, and the categories and variables.
#[derive(Drop)]
pub struct Seen<'a> {
    pub terminals: NameIndex<'a>,
    pub names: Vec<Declaration<'a>>,
}

/// Whether a listed terminal has a common spelling with what was declared: it is listed before, or it is spelled as a category or a variable.
fn terminal_common(seen: &Seen<'_>, declaration: &Declaration<'_>) -> bool
    requires { declaration.now.means ≡ Terminal }
    ensures { (before : List Declared) → HaveSeen before seen.now
        → IsTrue result ↔ AnyByRecursion (λ earlier. HaveCommon earlier (declaration_view declaration.now)) before }
{
    if has_name(&seen.terminals, declaration.token.text.as_bytes()) {
        return true;
    }
    some_common(seen.names.as_slice(), declaration)
}

/// Whether a declared word has a common spelling with one that is declared before it.
fn has_common(seen: &Seen<'_>, before: &[Declaration<'_>], declaration: &Declaration<'_>) -> bool
    requires { HaveSeen (map declaration_view before.now) seen.now }
    ensures { IsTrue result ↔ AnyByRecursion (λ earlier. HaveCommon earlier (declaration_view declaration.now))
        (map declaration_view before.now) }
{
    match declaration.means {
        Means::Terminal => terminal_common(seen, declaration),
        Means::Category => some_common(before, declaration),
        Means::Variable => some_common(before, declaration),
    }
}

/// The first word with a common spelling, where one more word is declared.
fn common_found<'a>(
    seen: &Seen<'_>,
    before: &[Declaration<'a>],
    declaration: &Declaration<'a>,
    found: Option<Found<'a>>,
) -> Option<Found<'a>>
    requires { HaveSeen (map declaration_view before.now) seen.now }
    ensures { IsLeast (AtToken Duplicate (IsCommon (map declaration_view before.now))) found.entry
        → IsLeast (AtToken Duplicate (IsCommon (map declaration_view before.now ++ declaration_view declaration.now ∷ []))) result }
{
    if has_common(seen, before, declaration) {
        return earlier(found, Some(at_token(Code::Duplicate, declaration.token)));
    }
    found
}

/// Nothing was declared.
fn nothing_seen<'a>(alloc: Global) -> Seen<'a>
    ensures { HaveSeen [] result }
{
    Seen {
        terminals: no_names(alloc),
        names: Vec::new(alloc),
    }
}

/// Adds a declaration to what was declared.
fn see<'a>(seen: &mut Seen<'a>, declaration: &Declaration<'a>) -> Result<(), NoMemory>
    ensures { OnOk result ((before : List Declared) → HaveSeen before seen.old
        → HaveSeen (before ++ declaration_view declaration.now ∷ []) seen.new) }
{
    match declaration.means {
        Means::Terminal => add_name(&mut seen.terminals, declaration.token.text.as_bytes()),
        Means::Category => {
            seen.names.push(*declaration)?;
            Ok(())
        }
        Means::Variable => {
            seen.names.push(*declaration)?;
            Ok(())
        }
    }
}

/// The first word that has a common spelling with one that is declared before it.
fn first_common<'a>(alloc: Global, all: &[Declaration<'a>]) -> Result<Option<Found<'a>>, NoMemory>
    ensures { IfOk result (IsLeast (AtToken Duplicate (IsCommon (map declaration_view all.now)))) }
{
    let mut seen = nothing_seen(alloc);
    let mut found = None;
    for (number, declaration) in all.iter().enumerate() {
        found = common_found(&seen, &all[..number], declaration, found);
        see(&mut seen, declaration)?;
    }
    Ok(found)
}

/// The first of some tokens, with a code.
fn first_token<'a>(code: Code, names: &[Name<'a>]) -> Option<Found<'a>>
    ensures { IsLeast (AtToken code (IsOneToken (map (λ name. token_view name.now) names.now))) result }
{
    let mut found = None;
    for name in names {
        found = earlier(found, Some(at_token(code, name)));
    }
    found
}

/// The first variable of a category but one.
fn second_variable<'a>(
    alloc: Global,
    lists: &Lists<'_>,
    forms: &[Form<'a>],
) -> Result<Option<Found<'a>>, NoMemory>
    requires { AreLists lists.now }
    ensures { IfOk result (IsLeast (AtToken Duplicate
        (IsSecond (portions_of lists.now) (map plain_form (map (λ form. form.now) forms.now))))) }
{
    let own = variables(alloc, lists, forms)?;
    if let [_, others @ ..] = own.as_slice() {
        return Ok(first_token(Code::Duplicate, others));
    }
    Ok(None)
}

fn first_second<'a>(alloc: Global, lists: &Lists<'a>) -> Result<Option<Found<'a>>, NoMemory>
    requires { AreLists lists.now }
    ensures { IfOk result (IsLeast (OfSome (λ written. AtToken Duplicate (IsSecond (portions_of lists.now) written.forms))
        (map written_view lists.now.categories.now))) }
{
    let mut found = None;
    for written in lists.categories {
        let one = second_variable(alloc, lists, written.forms)?;
        found = earlier(found, one);
    }
    Ok(found)
}

/// The first word that is declared a second time.
pub fn first_duplicate<'a>(alloc: Global, lists: &Lists<'a>) -> Result<Option<Found<'a>>, NoMemory>
    requires { AreLists lists.now }
    ensures { IfOk result (IsLeast (AtToken Duplicate (IsDuplicate (portions_of lists.now)))) }
{
    let all = declarations(alloc, lists)?;
    let common = first_common(alloc, all.as_slice())?;
    let second = first_second(alloc, lists)?;
    Ok(earlier(common, second))
}
