// The items for which the tokens of a judgment's form stand.
ghost use Rattle.std.specs.Prelude.{◌≡◌, ◌↔◌, ◌⊎◌, ◌∷◌, [], IsTrue, IfOk, MatchOption, List, map, ◌==◌};
ghost use Rattle.std.specs.List.{AllZip};
ghost use Rattle.binding_terms.specs.declared.grammar.Item.{Item};
ghost use Rattle.proof_lexer.specs.View.{token_view, kind_number};
ghost use Rattle.binding_terms.specs.declared.grammar.Item.TheVariants.{Slot};
ghost use Rattle.outline_reader.specs.Views.{portion_view};
ghost use Rattle.outline_reader.specs.Plain.{plain_portion, outlined};
ghost use Rattle.judgments.specs.Spellings.{IsNoSpelling};
ghost use Rattle.user_grammar.specs.File.{listed_in, listed};
ghost use Rattle.user_grammar.specs.Names.{IsAmong};
ghost use Rattle.judgments.specs.Theory.{IsTerminalToken, IsItemOf};

use crate::words::spelled;
use binding_terms::{CatId, Item, NoMemory, Sig, Text};
use outline_reader::{Outline, Portion};
use proof_lexer::{Kind, Token, is_numeral};
use rule_schemes::same_text;
use sqlite_items::Items;
use std::alloc::Global;

fn has_text(items: &[Token<'_>], text: &[u8]) -> bool
    ensures { IsTrue result ↔ IsAmong (map (λ item. item.text) (map token_view items.now)) text.now }
{
    for item in items {
        if same_text(item.text.as_bytes(), text) {
            return true;
        }
    }
    false
}

/// Whether the portion lists the text as a terminal.
fn lists_text(portion: &Portion<'_>, text: &[u8]) -> bool
    ensures { IsTrue result ↔ IsAmong (listed_in (plain_portion (portion_view portion.now))) text.now }
{
    match portion {
        Portion::Terminals { items, .. } => has_text(items, text),
        _ => false,
    }
}

/// Whether a terminals part lists the text.
fn is_listed(outline: &Outline<'_>, text: &[u8]) -> bool
    ensures { IsTrue result ↔ IsAmong (listed (outlined outline.now)) text.now }
{
    for portion in outline.parts.as_slice() {
        if lists_text(portion, text) {
            return true;
        }
    }
    false
}

fn is_parenthesis(text: &[u8]) -> bool
    ensures { IsTrue result ↔ ((text.now ≡ 40 ∷ []) ⊎ (text.now ≡ 41 ∷ [])) }
{
    same_text(text, b"(".as_slice()) || same_text(text, b")".as_slice())
}

fn is_square(text: &[u8]) -> bool
    ensures { IsTrue result ↔ ((text.now ≡ 91 ∷ []) ⊎ (text.now ≡ 93 ∷ [])) }
{
    same_text(text, b"[".as_slice()) || same_text(text, b"]".as_slice())
}

/// Whether the token, which is no word that is a spelling of a category, is a terminal of a judgment's form.
fn is_terminal(sig: &Sig, outline: &Outline<'_>, token: &Token<'_>) -> bool
    requires { kind_number token.now.kind ≡ 0 → IsNoSpelling sig.now.cats token.now.text.now }
    ensures { IsTrue result ↔ IsTerminalToken sig.now (outlined outline.now) (token_view token.now) }
{
    let text = token.text.as_bytes();
    match token.kind {
        Kind::Word => is_numeral(token.text) || is_listed(outline, text),
        Kind::Symbol => !same_text(text, b"|".as_slice()),
        Kind::Punct => !is_parenthesis(text) && !is_square(text),
        Kind::Bar => false,
        Kind::Quoted => !is_parenthesis(text),
    }
}

pub fn is_word(kind: Kind) -> bool
    ensures { IsTrue result ↔ (kind_number kind ≡ 0) }
{
    match kind {
        Kind::Word => true,
        Kind::Symbol => false,
        Kind::Punct => false,
        Kind::Bar => false,
        Kind::Quoted => false,
    }
}

fn is_quoted(kind: Kind) -> bool
    ensures { result ≡ (kind_number kind == 4) }
{
    match kind {
        Kind::Word => false,
        Kind::Symbol => false,
        Kind::Punct => false,
        Kind::Bar => false,
        Kind::Quoted => true,
    }
}

/// The terminal, where the token, which is no word that is a spelling of a category, is one.
fn terminal_of(
    alloc: Global,
    sig: &Sig,
    outline: &Outline<'_>,
    token: &Token<'_>,
) -> Result<Option<Item>, NoMemory>
    requires { kind_number token.now.kind ≡ 0 → IsNoSpelling sig.now.cats token.now.text.now }
    ensures { IfOk result (λ found. MatchOption found
        ((item : Item) → IsItemOf sig.now (outlined outline.now) (token_view token.now) item → ⊥)
        (λ item. IsItemOf sig.now (outlined outline.now) (token_view token.now) item)) }
{
    if !is_terminal(sig, outline, token) {
        return Ok(None);
    }
    let text = Text::of(alloc, token.text.as_bytes())?;
    Ok(Some(Item::Word {
        text,
        quoted: is_quoted(token.kind),
    }))
}

/// The slot of the category, without brackets.
fn slot(alloc: Global, cat: CatId) -> Item
    ensures { result ≡ Slot cat [] }
{
    Item::Slot {
        cat,
        binds: Items::new(alloc),
    }
}

/// The item for which the token stands: a slot for a word that is a spelling of a category, else a terminal.
pub fn item_of(
    alloc: Global,
    sig: &Sig,
    outline: &Outline<'_>,
    token: &Token<'_>,
) -> Result<Option<Item>, NoMemory>
    ensures { IfOk result (λ found. MatchOption found
        ((item : Item) → IsItemOf sig.now (outlined outline.now) (token_view token.now) item → ⊥)
        (λ item. IsItemOf sig.now (outlined outline.now) (token_view token.now) item)) }
{
    if !is_word(token.kind) {
        return terminal_of(alloc, sig, outline, token);
    }
    match spelled(sig.cats().as_slice(), token.text.as_bytes())? {
        Some(cat) => Ok(Some(slot(alloc, cat))),
        None => terminal_of(alloc, sig, outline, token),
    }
}

/// The items for which the tokens of a form stand.
pub fn items_of(
    alloc: Global,
    sig: &Sig,
    outline: &Outline<'_>,
    form: &[Token<'_>],
) -> Result<Option<Items<Item>>, NoMemory>
    ensures { IfOk result (λ found. MatchOption found
        ((items : List Item) → AllZip (IsItemOf sig.now (outlined outline.now)) (map token_view form.now) items → ⊥)
        (λ items. AllZip (IsItemOf sig.now (outlined outline.now)) (map token_view form.now) items)) }
{
    let mut all = Items::new(alloc);
    for token in form {
        match item_of(alloc, sig, outline, token)? {
            Some(item) => all.push(item)?,
            None => return Ok(None),
        }
    }
    Ok(Some(all))
}
