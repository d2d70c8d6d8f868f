// Names behind `assumes` that are no categories.
ghost use Rattle.std.specs.Prelude.{◌≡◌, ◌↔◌, IsTrue, option_map};
ghost use Rattle.proof_lexer.specs.View.{token_view};
ghost use Rattle.outline_reader.specs.Plain.{plain_portion};
ghost use Rattle.outline_reader.specs.Views.{portion_view};
ghost use Rattle.user_grammar.specs.Fault.{category_texts};
ghost use Rattle.user_grammar.specs.Names.{IsAmong};
ghost use Rattle.sy_base.specs.FirstFault.{OfSome};
ghost use Rattle.user_grammar.specs.Finding.{AreLists, IsLeast, UnknownContexts, assumed_token, portions_of};

use crate::fault_found::{Found, at_token};
use crate::fault_lists::Lists;
use crate::name_index::has_name;
use outline_reader::{Name, Portion};
use sy_base::{Code, earlier};

/// The name that a portion has behind `assumes`.
fn assumed_of<'a>(portion: &'a Portion<'a>) -> Option<Name<'a>>
    ensures { option_map (λ name. token_view name.now) result ≡ assumed_token (plain_portion (portion_view portion.now)) }
{
    match portion {
        Portion::Judgment { assumes, .. } => *assumes,
        Portion::Theorem { assumes, .. } => *assumes,
        _ => None,
    }
}

/// Whether a word is the name of a category.
pub fn is_category(lists: &Lists<'_>, word: &[u8]) -> bool
    requires { AreLists lists.now }
    ensures { IsTrue result ↔ IsAmong (category_texts (portions_of lists.now)) word.now }
{
    has_name(lists.names, word)
}

fn unknown_context<'a>(lists: &Lists<'_>, portion: &'a Portion<'a>) -> Option<Found<'a>>
    requires { AreLists lists.now }
    ensures { IsLeast (UnknownContexts (portions_of lists.now) (plain_portion (portion_view portion.now))) result }
{
    let Some(name) = assumed_of(portion) else {
        return None;
    };
    if is_category(lists, name.text.as_bytes()) {
        return None;
    }
    Some(at_token(Code::UnknownWord, name))
}

/// The first name behind `assumes` that is no category.
pub fn first_unknown_context<'a>(lists: &Lists<'a>) -> Option<Found<'a>>
    requires { AreLists lists.now }
    ensures { IsLeast (OfSome (UnknownContexts (portions_of lists.now)) (portions_of lists.now)) result }
{
    let mut found = None;
    for portion in lists.portions {
        found = earlier(found, unknown_context(lists, portion));
    }
    found
}
