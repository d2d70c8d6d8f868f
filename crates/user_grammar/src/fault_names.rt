// Of which names a word is a spelling, and which forms are variables.
ghost use Rattle.std.specs.Prelude.{◌≡◌, ◌↔◌, ◌⊎◌, ◌++◌, ◌∷◌, [], List, IsTrue, IfOk, OnOk, map, MatchOption};
ghost use Rattle.binding_terms.specs.Numbered.{AnyByRecursion};
ghost use Rattle.sy_base.specs.Tokens.{PlainToken, is_numeral};
ghost use Rattle.proof_lexer.specs.View.{kind_number, token_view};
ghost use Rattle.outline_reader.specs.Plain.{plain_form};
ghost use Rattle.rule_schemes.specs.Reading.{IsSpelling};
ghost use Rattle.user_grammar.specs.File.{categories, listed};
ghost use Rattle.user_grammar.specs.Names.{IsAmong, IsNoSpelling};
ghost use Rattle.user_grammar.specs.Production.{IsTerminal};
ghost use Rattle.user_grammar.specs.Fault.{AreVariables, DeclaresVariable, IsBinderWord, IsSlotWord, category_texts};
ghost use Rattle.user_grammar.specs.Finding.{AreLists, AreNames, all_forms, portions_of, written_view};

use crate::fault_lists::{Lists, Written};
use crate::name_index::has_name;
use crate::tokens::{is_parenthesis, is_word, may_be_terminal};
use binding_terms::NoMemory;
use outline_reader::{Form, Name};
use proof_lexer::{Kind, Token, is_numeral};
use rule_schemes::is_spelling;
use std::alloc::Global;

/// The lists of a file, and the variables of its categories.
#[derive(Clone, Copy)]
pub struct Names<'a> {
    pub lists: Lists<'a>,
    pub variables: &'a [Name<'a>],
}

/// Whether a word is a spelling of one of the categories.
fn is_category_word(categories: &[Written<'_>], word: &[u8]) -> bool
    ensures { IsTrue result ↔ AnyByRecursion (λ name. IsSpelling name word.now)
        (map (λ written. written.name.text) (map written_view categories.now)) }
{
    for written in categories {
        if is_spelling(written.name.text.as_bytes(), word) {
            return true;
        }
    }
    false
}

/// Whether a word is a spelling of a category of the file.
fn is_spelled(lists: &Lists<'_>, word: &[u8]) -> bool
    requires { AreLists lists.now }
    ensures { IsTrue result
        ↔ AnyByRecursion (λ name. IsSpelling name word.now) (category_texts (portions_of lists.now)) }
{
    is_category_word(lists.categories, word)
}

/// Whether the word of a token is a spelling of a category.
pub fn is_slot_word(lists: &Lists<'_>, token: &Token<'_>) -> bool
    requires { AreLists lists.now }
    ensures { IsTrue result ↔ IsSlotWord (portions_of lists.now) (token_view token.now) }
{
    is_word(token) && is_spelled(lists, token.text.as_bytes())
}

fn is_no_category(lists: &Lists<'_>, word: &[u8]) -> bool
    requires { AreLists lists.now }
    ensures { IsTrue result ↔ IsNoSpelling (category_texts (portions_of lists.now)) word.now }
{
    !is_spelled(lists, word)
}

/// Whether a word is a listed terminal.
fn is_listed_word(lists: &Lists<'_>, word: &[u8]) -> bool
    requires { AreLists lists.now }
    ensures { IsTrue result ↔ IsAmong (listed (portions_of lists.now)) word.now }
{
    has_name(lists.listed, word)
}

/// Whether a word may be a terminal of the file, and any other token.
fn is_known(lists: &Lists<'_>, token: &Token<'_>) -> bool
    requires { AreLists lists.now }
    ensures { IsTrue result ↔ (kind_number token.now.kind ≡ 0
        → IsAmong (listed (portions_of lists.now)) token.now.text.now ⊎ IsTrue (is_numeral token.now.text.now)) }
{
    match token.kind {
        Kind::Word => is_listed_word(lists, token.text.as_bytes()) || is_numeral(token.text),
        Kind::Symbol => true,
        Kind::Punct => true,
        Kind::Bar => true,
        Kind::Quoted => true,
    }
}

/// Whether a token may be a terminal of the file.
pub fn may_stand(lists: &Lists<'_>, token: &Token<'_>) -> bool
    requires { AreLists lists.now }
    ensures { IsTrue result ↔ IsTerminal (listed (portions_of lists.now)) (token_view token.now) }
{
    may_be_terminal(token.kind, token.text.as_bytes())
        && !is_parenthesis(token.text.as_bytes())
        && is_known(lists, token)
}

/// Whether a token alone is a variable: a word that is no numeral, not listed and no category.
fn is_variable(lists: &Lists<'_>, token: &Token<'_>) -> bool
    requires { AreLists lists.now }
    ensures { IsTrue result ↔ DeclaresVariable (portions_of lists.now) (token_view token.now ∷ []) }
{
    is_word(token)
        && !is_numeral(token.text)
        && !is_listed_word(lists, token.text.as_bytes())
        && is_no_category(lists, token.text.as_bytes())
}

/// The variable that a form declares.
pub fn variable_of<'a>(lists: &Lists<'_>, form: Form<'a>) -> Option<Name<'a>>
    requires { AreLists lists.now }
    ensures { MatchOption result (DeclaresVariable (portions_of lists.now) (plain_form form.now) → ⊥)
        (λ name. (plain_form form.now ≡ token_view name.now ∷ [])
        × DeclaresVariable (portions_of lists.now) (token_view name.now ∷ [])) }
{
    if form.len() != 1 {
        return None;
    }
    let token = &form[0];
    if is_variable(lists, token) {
        return Some(token);
    }
    None
}

fn add_variable<'a>(
    lists: &Lists<'_>,
    form: Form<'a>,
    all: &mut Vec<Name<'a>>,
) -> Result<(), NoMemory>
    requires { AreLists lists.now }
    ensures { OnOk result ((own : List PlainToken) × (map (λ name. token_view name.now) all.new.items
        ≡ map (λ name. token_view name.now) all.old.items ++ own)
        × AreVariables (portions_of lists.now) (plain_form form.now ∷ []) own) }
{
    match variable_of(lists, form) {
        Some(name) => {
            all.push(name)?;
            Ok(())
        }
        None => Ok(()),
    }
}

/// The variables that forms declare, in text order.
pub fn variables<'a>(
    alloc: Global,
    lists: &Lists<'_>,
    forms: &[Form<'a>],
) -> Result<Vec<Name<'a>>, NoMemory>
    requires { AreLists lists.now }
    ensures { IfOk result (λ all. AreVariables (portions_of lists.now) (map plain_form (map (λ form. form.now) forms.now))
        (map (λ name. token_view name.now) all.items)) }
{
    let mut all = Vec::new(alloc);
    for form in forms {
        add_variable(lists, form, &mut all)?;
    }
    Ok(all)
}

/// The variables of all categories.
pub fn all_variables<'a>(alloc: Global, lists: &Lists<'a>) -> Result<Vec<Name<'a>>, NoMemory>
    requires { AreLists lists.now }
    ensures { IfOk result (λ all. AreVariables (portions_of lists.now) (all_forms (categories (portions_of lists.now)))
        (map (λ name. token_view name.now) all.items)) }
{
    let mut all = Vec::new(alloc);
    for written in lists.categories {
        let own = variables(alloc, lists, written.forms)?;
        all.extend_from_slice(own.as_slice())?;
    }
    Ok(all)
}

/// Whether a word is a spelling of one of the variables.
fn is_spelling_of_one(variables: &[Name<'_>], word: &[u8]) -> bool
    ensures { IsTrue result ↔ AnyByRecursion (λ token. IsSpelling token.text word.now)
        (map (λ name. token_view name.now) variables.now) }
{
    for name in variables {
        if is_spelling(name.text.as_bytes(), word) {
            return true;
        }
    }
    false
}

/// Whether the word of a token is a spelling of a variable.
pub fn is_binder_word(names: &Names<'_>, token: &Token<'_>) -> bool
    requires { AreNames names.now }
    ensures { IsTrue result ↔ IsBinderWord (portions_of names.now.lists) (token_view token.now) }
{
    is_word(token) && is_spelling_of_one(names.variables, token.text.as_bytes())
}
