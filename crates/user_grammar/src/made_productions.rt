// The categories and productions of a grammar, with variables and contexts.
ghost use Rattle.std.specs.Prelude.{◌≡◌, ◌<◌, ◌^◌, ◌++◌, ◌∷◌, ℕ, List, Option, IfOk, OnOk, length, map, option_map};
ghost use Rattle.std.specs.List.{AllZip};
ghost use Rattle.binding_terms.specs.declared.grammar.Cat.{Cat};
ghost use Rattle.binding_terms.specs.declared.grammar.Prod.{Prod};
ghost use Rattle.sy_base.specs.Tokens.{PlainToken};
ghost use Rattle.proof_lexer.specs.View.{token_view};
ghost use Rattle.outline_reader.specs.Plain.{plain_form, plain_portion};
ghost use Rattle.outline_reader.specs.Views.{portion_view};
ghost use Rattle.user_grammar.specs.File.{WrittenCategory, assumed, assumed_in, categories, category_in, texts_if};
ghost use Rattle.user_grammar.specs.Grammar.{AreForms, AreProductions};
ghost use Rattle.user_grammar.specs.Indexed.{names_in};
ghost use Rattle.user_grammar.specs.Made.{plains};
ghost use Rattle.user_grammar.specs.MadeItems.{IsFirstVariable, IsMadeCategory};
ghost use Rattle.user_grammar.specs.Names.{AllApart, category_names, names};

use crate::made_forms::production;
use crate::made_tokens::{is_variable, lone_variable};
use crate::name_index::{NameIndex, has_name};
use binding_terms::{Cat, CatId, NoMemory, Prod, Text};
use outline_reader::{Form, Name, Portion};
use proof_lexer::Token;
use std::alloc::Global;

fn add_name<'a>(portion: &Portion<'a>, texts: &mut Vec<&'a [u8]>) -> Result<(), NoMemory>
    ensures { OnOk result (map (λ text. text.now) texts.new.items ≡ map (λ text. text.now) texts.old.items
        ++ map (λ written. written.name.text) (category_in (plain_portion (portion_view portion.now)))) }
{
    match portion {
        Portion::Category { name, .. } => {
            texts.push(name.text.as_bytes())?;
            Ok(())
        }
        _ => Ok(()),
    }
}

/// The names of the categories, in text order.
pub fn category_texts<'a>(
    alloc: Global,
    portions: &[Portion<'a>],
) -> Result<Vec<&'a [u8]>, NoMemory>
    ensures { IfOk result (λ texts. map (λ text. text.now) texts.items
        ≡ map (λ written. written.name.text) (categories (plains portions.now))) }
{
    let mut texts = Vec::new(alloc);
    for portion in portions {
        add_name(portion, &mut texts)?;
    }
    Ok(texts)
}

fn add_if<'a>(name: Option<Name<'a>>, texts: &mut Vec<&'a [u8]>) -> Result<(), NoMemory>
    ensures { OnOk result (map (λ text. text.now) texts.new.items ≡ map (λ text. text.now) texts.old.items
        ++ texts_if (option_map token_view (option_map (λ token. token.now) name.entry))) }
{
    match name {
        Some(token) => {
            texts.push(token.text.as_bytes())?;
            Ok(())
        }
        None => Ok(()),
    }
}

fn add_assumed<'a>(portion: &Portion<'a>, texts: &mut Vec<&'a [u8]>) -> Result<(), NoMemory>
    ensures { OnOk result (map (λ text. text.now) texts.new.items
        ≡ map (λ text. text.now) texts.old.items ++ assumed_in (plain_portion (portion_view portion.now))) }
{
    match portion {
        Portion::Judgment { assumes, .. } => add_if(*assumes, texts),
        Portion::Theorem { assumes, .. } => add_if(*assumes, texts),
        _ => Ok(()),
    }
}

/// The names behind `assumes`, in text order.
pub fn assumed_texts<'a>(alloc: Global, portions: &[Portion<'a>]) -> Result<Vec<&'a [u8]>, NoMemory>
    ensures { IfOk result (λ texts. map (λ text. text.now) texts.items ≡ assumed (plains portions.now)) }
{
    let mut texts = Vec::new(alloc);
    for portion in portions {
        add_assumed(portion, &mut texts)?;
    }
    Ok(texts)
}

/// The name of the first variable among the forms of a category.
fn variable(
    alloc: Global,
    names: &[&[u8]],
    listed: &NameIndex<'_>,
    forms: &[Form<'_>],
) -> Result<Option<Text>, NoMemory>
    ensures { IfOk result (λ var. IsFirstVariable (map (λ name. name.now) names.now) (names_in listed.now)
        (map plain_form (map (λ form. form.now) forms.now)) var) }
{
    for form in forms {
        if let Some(token) = lone_variable(names, listed, form) {
            return Ok(Some(Text::of(alloc, token.text.as_bytes())?));
        }
    }
    Ok(None)
}

fn made_category(
    alloc: Global,
    names: &[&[u8]],
    listed: &NameIndex<'_>,
    assumed: &NameIndex<'_>,
    name: &Token<'_>,
    forms: &[Form<'_>],
) -> Result<Cat, NoMemory>
    ensures { IfOk result (λ cat. (mark : PlainToken) → IsMadeCategory (map (λ name. name.now) names.now) (names_in listed.now)
        (names_in assumed.now)
        (record { name = token_view name.now; mark = mark; forms = map plain_form (map (λ form. form.now) forms.now) }) cat) }
{
    Ok(Cat {
        name: Text::of(alloc, name.text.as_bytes())?,
        var: variable(alloc, names, listed, forms)?,
        context: has_name(assumed, name.text.as_bytes()),
    })
}

fn add_made_category(
    alloc: Global,
    names: &[&[u8]],
    listed: &NameIndex<'_>,
    assumed: &NameIndex<'_>,
    portion: &Portion<'_>,
    cats: &mut Vec<Cat>,
) -> Result<(), NoMemory>
    ensures { OnOk result ((own : List Cat) × (cats.new.items ≡ cats.old.items ++ own)
        × AllZip (IsMadeCategory (map (λ name. name.now) names.now) (names_in listed.now)
        (names_in assumed.now)) (category_in (plain_portion (portion_view portion.now))) own) }
{
    match portion {
        Portion::Category {
            name,
            productions,
            ..
        } => {
            let forms = productions.as_slice();
            cats.push(made_category(alloc, names, listed, assumed, name, forms)?)?;
            Ok(())
        }
        _ => Ok(()),
    }
}

/// The categories, in text order, with their variables and contexts.
pub fn made_categories(
    alloc: Global,
    names: &[&[u8]],
    listed: &NameIndex<'_>,
    assumed: &NameIndex<'_>,
    portions: &[Portion<'_>],
) -> Result<Vec<Cat>, NoMemory>
    ensures { IfOk result (λ cats. AllZip (IsMadeCategory (map (λ name. name.now) names.now)
        (names_in listed.now) (names_in assumed.now)) (categories (plains portions.now)) cats.items) }
{
    let mut cats = Vec::new(alloc);
    for portion in portions {
        add_made_category(alloc, names, listed, assumed, portion, &mut cats)?;
    }
    Ok(cats)
}

/// Puts the production for which a form stands at the end, if it is no variable.
fn add_form(
    alloc: Global,
    cats: &[Cat],
    cat_names: &[&[u8]],
    listed: &NameIndex<'_>,
    number: CatId,
    form: Form<'_>,
    prods: &mut Vec<Prod>,
) -> Result<(), NoMemory>
    requires few { length cats.now < 2 ^ 32 }
    requires apart { AllApart (names cats.now) }
    requires named { map (λ name. name.now) cat_names.now ≡ category_names cats.now }
    ensures { OnOk result ((var : Option (List ℕ)) → (forms : List (List PlainToken)) → (own : List Prod)
        → AreForms cats.now (names_in listed.now) number.0 var (plain_form form.now ∷ forms) own
        → (left_var : Option (List ℕ)) × (left : List Prod)
        × AreForms cats.now (names_in listed.now) number.0 left_var forms left
        × (prods.new.items ++ left ≡ prods.old.items ++ own)) }
{
    if is_variable(cat_names, listed, form) {
        return Ok(());
    }
    prods.push(production(alloc, cats, number, form)?)?;
    Ok(())
}

/// Puts the productions among the forms of a category at the end.
fn add_forms(
    alloc: Global,
    cats: &[Cat],
    cat_names: &[&[u8]],
    listed: &NameIndex<'_>,
    number: CatId,
    forms: &[Form<'_>],
    prods: &mut Vec<Prod>,
) -> Result<(), NoMemory>
    requires few { length cats.now < 2 ^ 32 }
    requires apart { AllApart (names cats.now) }
    requires named { map (λ name. name.now) cat_names.now ≡ category_names cats.now }
    ensures { OnOk result ((var : Option (List ℕ)) → (own : List Prod)
        → AreForms cats.now (names_in listed.now) number.0 var (map plain_form (map (λ form. form.now) forms.now)) own
        → prods.new.items ≡ prods.old.items ++ own) }
{
    for form in forms {
        add_form(alloc, cats, cat_names, listed, number, form, prods)?;
    }
    Ok(())
}

/// Puts the productions of a portion at the end, and tells the number of the category after it.
fn add_made(
    alloc: Global,
    cats: &[Cat],
    cat_names: &[&[u8]],
    listed: &NameIndex<'_>,
    number: u32,
    portion: &Portion<'_>,
    prods: &mut Vec<Prod>,
) -> Result<u32, NoMemory>
    requires few { length cats.now < 2 ^ 32 }
    requires apart { AllApart (names cats.now) }
    requires named { map (λ name. name.now) cat_names.now ≡ category_names cats.now }
    ensures { IfOk result (λ next. (written : List WrittenCategory) → (vars : List (Option (List ℕ))) → (own : List Prod)
        → AreProductions cats.now (names_in listed.now) number
        (category_in (plain_portion (portion_view portion.now)) ++ written) vars own
        → (left_vars : List (Option (List ℕ))) × (left : List Prod)
        × AreProductions cats.now (names_in listed.now) next written left_vars left
        × (prods.new.items ++ left ≡ prods.old.items ++ own)) }
{
    match portion {
        Portion::Category { productions, .. } => {
            let forms = productions.as_slice();
            add_forms(alloc, cats, cat_names, listed, CatId(number), forms, prods)?;
            if number == u32::MAX {
                return Err(NoMemory);
            }
            Ok(number + 1)
        }
        _ => Ok(number),
    }
}

/// The productions of the categories, in text order.
pub fn made_productions(
    alloc: Global,
    cats: &[Cat],
    cat_names: &[&[u8]],
    listed: &NameIndex<'_>,
    portions: &[Portion<'_>],
) -> Result<Vec<Prod>, NoMemory>
    requires few { length cats.now < 2 ^ 32 }
    requires apart { AllApart (names cats.now) }
    requires named { map (λ name. name.now) cat_names.now ≡ category_names cats.now }
    ensures { IfOk result (λ prods. (vars : List (Option (List ℕ))) → (own : List Prod)
        → AreProductions cats.now (names_in listed.now) 0 (categories (plains portions.now)) vars own
        → prods.items ≡ own) }
{
    let mut prods = Vec::new(alloc);
    let mut number = 0;
    for portion in portions {
        number = add_made(alloc, cats, cat_names, listed, number, portion, &mut prods)?;
    }
    Ok(prods)
}
