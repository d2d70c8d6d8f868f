// Whether a file declares a variable, and its first judgment part.
ghost use Rattle.std.specs.Prelude.{◌≡◌, ◌↔◌, IsTrue, MatchOption, ◌∷◌, [], map, option_map};
ghost use Rattle.binding_terms.specs.Numbered.{AnyByRecursion};
ghost use Rattle.sy_base.specs.Tokens.{PlainToken};
ghost use Rattle.proof_lexer.specs.View.{token_view};
ghost use Rattle.outline_reader.specs.Views.{portion_view};
ghost use Rattle.outline_reader.specs.Plain.{plain_form, plain_portion};
ghost use Rattle.user_grammar.specs.File.{listed, listed_in, category_in};
ghost use Rattle.user_grammar.specs.Names.{IsAmong, IsNoSpelling};
ghost use Rattle.user_grammar.specs.Fault.{DeclaresVariable, category_texts};
ghost use Rattle.proof_check.specs.NotBuilt.{judgment_word, IsFirstJudgment, HasVariable};
ghost use Rattle.proof_check.specs.Places.{FindsJudgment};
ghost use Rattle.proof_check.specs.View.{plain_portions};

use outline_reader::{Form, Portion};
use proof_lexer::{Kind, Token, is_numeral};
use rule_schemes::{is_spelling, same_text};

fn is_listed_in(items: &[Token<'_>], word: &[u8]) -> bool
    ensures { IsTrue result ↔ IsAmong (map (λ token. token.text) (plain_form items.now)) word.now }
{
    for token in items {
        if same_text(token.text.as_bytes(), word) {
            return true;
        }
    }
    false
}

fn lists(portion: &Portion<'_>, word: &[u8]) -> bool
    ensures { IsTrue result ↔ IsAmong (listed_in (plain_portion (portion_view portion.now))) word.now }
{
    match portion {
        Portion::Terminals { items, .. } => is_listed_in(items, word),
        _ => false,
    }
}

fn is_listed(portions: &[Portion<'_>], word: &[u8]) -> bool
    ensures { IsTrue result ↔ IsAmong (listed (plain_portions portions.now)) word.now }
{
    for portion in portions {
        if lists(portion, word) {
            return true;
        }
    }
    false
}

fn is_apart(portion: &Portion<'_>, word: &[u8]) -> bool
    ensures { IsTrue result
        ↔ IsNoSpelling (map (λ written. written.name.text) (category_in (plain_portion (portion_view portion.now)))) word.now }
{
    match portion {
        Portion::Category { name, .. } => !is_spelling(name.text.as_bytes(), word),
        _ => true,
    }
}

fn is_no_category(portions: &[Portion<'_>], word: &[u8]) -> bool
    ensures { IsTrue result ↔ IsNoSpelling (category_texts (plain_portions portions.now)) word.now }
{
    for portion in portions {
        if !is_apart(portion, word) {
            return false;
        }
    }
    true
}

fn is_variable(portions: &[Portion<'_>], token: &Token<'_>) -> bool
    ensures { IsTrue result ↔ DeclaresVariable (plain_portions portions.now) (token_view token.now ∷ []) }
{
    token.kind == Kind::Word
        && !is_numeral(token.text)
        && !is_listed(portions, token.text.as_bytes())
        && is_no_category(portions, token.text.as_bytes())
}

/// Whether a production declares a variable.
fn declares_variable(portions: &[Portion<'_>], form: &[Token<'_>]) -> bool
    ensures { IsTrue result ↔ DeclaresVariable (plain_portions portions.now) (plain_form form.now) }
{
    form.len() == 1 && is_variable(portions, &form[0])
}

fn any_declares(portions: &[Portion<'_>], forms: &[Form<'_>]) -> bool
    ensures { IsTrue result
        ↔ AnyByRecursion (DeclaresVariable (plain_portions portions.now)) (map plain_form (map (λ form. form.now) forms.now)) }
{
    for form in forms {
        if declares_variable(portions, form) {
            return true;
        }
    }
    false
}

fn has_variable_in(portions: &[Portion<'_>], portion: &Portion<'_>) -> bool
    ensures { IsTrue result
        ↔ AnyByRecursion (λ written. AnyByRecursion (DeclaresVariable (plain_portions portions.now)) written.forms)
        (category_in (plain_portion (portion_view portion.now))) }
{
    match portion {
        Portion::Category { productions, .. } => any_declares(portions, productions.as_slice()),
        _ => false,
    }
}

/// Whether some production of the file declares a variable.
fn has_variable(portions: &[Portion<'_>]) -> bool
    ensures { IsTrue result ↔ HasVariable (plain_portions portions.now) }
{
    for portion in portions {
        if has_variable_in(portions, portion) {
            return true;
        }
    }
    false
}

fn judgment_word<'a>(portion: &Portion<'a>) -> Option<Token<'a>>
    ensures { option_map token_view result ≡ judgment_word (plain_portion (portion_view portion.now)) }
{
    match portion {
        Portion::Judgment { first, .. } => Some(**first),
        _ => None,
    }
}

/// The word `judgment` of the first judgment part.
fn first_judgment<'a>(portions: &[Portion<'a>]) -> Option<Token<'a>>
    ensures { MatchOption (option_map token_view result) ((token : PlainToken) → IsFirstJudgment (plain_portions portions.now) token → ⊥)
        (IsFirstJudgment (plain_portions portions.now)) }
{
    for portion in portions {
        if let Some(token) = judgment_word(portion) {
            return Some(token);
        }
    }
    None
}

/// The word `judgment` of the first judgment part of a file that declares a variable.
pub fn unbuilt_judgment<'a>(portions: &[Portion<'a>]) -> Option<Token<'a>>
    ensures { FindsJudgment (plain_portions portions.now) (option_map token_view result) }
{
    if !has_variable(portions) {
        return None;
    }
    first_judgment(portions)
}
