// What the portions of a file say of its grammar.
ghost use Rattle.std.specs.Prelude.{◌≡◌, ◌++◌, IfOk, OnOk, map};
ghost use Rattle.outline_reader.specs.Plain.{plain_form, plain_portion};
ghost use Rattle.outline_reader.specs.Views.{portion_view};
ghost use Rattle.user_grammar.specs.File.{listed, listed_in};
ghost use Rattle.user_grammar.specs.Made.{plains};

use binding_terms::NoMemory;
use outline_reader::Portion;
use proof_lexer::Token;
use std::alloc::Global;

fn add_texts<'a>(tokens: &'a [Token<'a>], texts: &mut Vec<&'a [u8]>) -> Result<(), NoMemory>
    ensures { OnOk result (map (λ text. text.now) texts.new.items
        ≡ map (λ text. text.now) texts.old.items ++ map (λ token. token.text) (plain_form tokens.now)) }
{
    for token in tokens {
        texts.push(token.text.as_bytes())?;
    }
    Ok(())
}

fn add_listed<'a>(portion: &Portion<'a>, texts: &mut Vec<&'a [u8]>) -> Result<(), NoMemory>
    ensures { OnOk result (map (λ text. text.now) texts.new.items
        ≡ map (λ text. text.now) texts.old.items ++ listed_in (plain_portion (portion_view portion.now))) }
{
    match portion {
        Portion::Terminals { items, .. } => add_texts(items, texts),
        _ => Ok(()),
    }
}

/// The listed terminals, in text order.
pub fn listed<'a>(alloc: Global, portions: &[Portion<'a>]) -> Result<Vec<&'a [u8]>, NoMemory>
    ensures { IfOk result (λ texts. map (λ text. text.now) texts.items ≡ listed (plains portions.now)) }
{
    let mut texts = Vec::new(alloc);
    for portion in portions {
        add_listed(portion, &mut texts)?;
    }
    Ok(texts)
}
