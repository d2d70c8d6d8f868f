// The items for which the tokens of a production stand, with binders and brackets.
ghost use Rattle.std.specs.Prelude.{◌≡◌, ◌==◌, ◌≤◌, ◌<◌, ◌^◌, ◌∷◌, ◌++◌, [], ℕ, List, IfOk, OnOk, Some, drop, length, map, slice_get, MatchOption};
ghost use Rattle.binding_terms.specs.declared.grammar.Item.{Item};
ghost use Rattle.sy_base.specs.Tokens.{PlainToken};
ghost use Rattle.proof_lexer.specs.View.{kind_number, token_view};
ghost use Rattle.outline_reader.specs.Plain.{plain_form};
ghost use Rattle.binding_terms.specs.declared.grammar.Prod.{Prod};
ghost use Rattle.user_grammar.specs.Indexed.{names_in};
ghost use Rattle.user_grammar.specs.MadeItems.{AreBracketsFrom, IsNotOpened, taken_words};
ghost use Rattle.user_grammar.specs.Names.{AllApart, AllDiffer, names};
ghost use Rattle.user_grammar.specs.Production.{AreBrackets, AreItems, AreNumbers, IsProduction};

use crate::made_tokens::{Meaning, Spot, is_mark, meaning_of};
use crate::name_index::{NameIndex, indexed, place_of};
use binding_terms::{Cat, CatId, Item, NoMemory, Prod, Text};
use outline_reader::Form;
use proof_lexer::{Kind, Token};
use sqlite_items::Items;
use std::alloc::Global;

/// The words in the brackets behind a slot, and how many tokens the brackets are.
#[derive(Drop)]
pub struct Brackets<'a> {
    pub words: Vec<&'a [u8]>,
    pub count: usize,
}

/// Where the next token stands; none where no bracket opens.
fn next_spot(spot: Spot, token: &Token<'_>) -> Option<Spot>
    ensures { (words : List (List ℕ)) → (tokens rest : List PlainToken)
        → AreBracketsFrom spot words (token_view token.now ∷ tokens) rest → IsNotOpened rest
        → MatchOption result ((words ≡ []) × (rest ≡ token_view token.now ∷ tokens))
        (λ next. (left : List (List ℕ)) × (words ≡ taken_words spot (token_view token.now) ++ left)
        × AreBracketsFrom next left tokens rest) }
{
    match spot {
        Spot::Outside => {
            if is_mark(b'[', token) {
                return Some(Spot::BeforeWord);
            }
            None
        }
        Spot::BeforeWord => Some(Spot::BehindWord),
        Spot::BehindWord => {
            if is_mark(b']', token) {
                return Some(Spot::Outside);
            }
            Some(Spot::BeforeWord)
        }
    }
}

fn take_word<'a>(
    spot: Spot,
    token: &'a Token<'a>,
    words: &mut Vec<&'a [u8]>,
) -> Result<(), NoMemory>
    ensures { OnOk result (map (λ word. word.now) words.new.items
        ≡ map (λ word. word.now) words.old.items ++ taken_words spot (token_view token.now)) }
{
    if spot == Spot::BeforeWord {
        words.push(token.text.as_bytes())?;
    }
    Ok(())
}

/// The brackets at the front of the tokens behind a slot.
fn read_brackets<'a>(alloc: Global, tokens: Form<'a>) -> Result<Brackets<'a>, NoMemory>
    ensures within { IfOk result (λ found. found.count ≤ length tokens.now) }
    ensures found { IfOk result (λ found. (words : List (List ℕ)) → (rest : List PlainToken)
        → AreBrackets words (plain_form tokens.now) rest → IsNotOpened rest
        → (map (λ word. word.now) found.words.items ≡ words) × (plain_form (drop found.count tokens.now) ≡ rest)) }
{
    let mut words = Vec::new(alloc);
    let mut count = 0;
    let mut spot = Spot::Outside;
    for token in tokens {
        match next_spot(spot, token) {
            Some(next) => {
                take_word(spot, token, &mut words)?;
                spot = next;
                count += 1;
            }
            None => return Ok(Brackets { words, count }),
        }
    }
    Ok(Brackets { words, count })
}

/// How many tokens behind the first one belong to its item, whose word is put at the end if it is a binder.
fn add_word<'a>(
    alloc: Global,
    cats: &[Cat],
    token: &'a Token<'a>,
    rest: Form<'a>,
    all: &mut Vec<&'a [u8]>,
) -> Result<usize, NoMemory>
    requires few { length cats.now < 2 ^ 32 }
    requires apart { AllApart (names cats.now) }
    ensures within { IfOk result (λ count. count ≤ length rest.now) }
    ensures added { IfOk result (λ count. (listed own : List (List ℕ)) → (items : List Item) → (words : List (List ℕ))
        → AreItems cats.now listed own (token_view token.now ∷ plain_form rest.now) items words
        → (left_items : List Item) × (left : List (List ℕ)) × AreItems cats.now listed own (plain_form (drop count rest.now)) left_items left
        × (map (λ word. word.now) all.new.items ++ left ≡ map (λ word. word.now) all.old.items ++ words)) }
{
    match meaning_of(cats, token) {
        Meaning::Slot(_) => Ok(read_brackets(alloc, rest)?.count),
        Meaning::Binder(_) => {
            all.push(token.text.as_bytes())?;
            Ok(0)
        }
        Meaning::Other => Ok(0),
    }
}

/// The words of the binders of a production.
fn binder_words<'a>(alloc: Global, cats: &[Cat], form: Form<'a>) -> Result<Vec<&'a [u8]>, NoMemory>
    requires few { length cats.now < 2 ^ 32 }
    requires apart { AllApart (names cats.now) }
    ensures { IfOk result (λ all. (listed own : List (List ℕ)) → (items : List Item) → (words : List (List ℕ))
        → AreItems cats.now listed own (plain_form form.now) items words → map (λ word. word.now) all.items ≡ words) }
{
    let mut all = Vec::new(alloc);
    let mut left = form;
    while let [token, rest @ ..] = left {
        let count = add_word(alloc, cats, token, rest, &mut all)?;
        left = &rest[count..];
    }
    Ok(all)
}

/// Puts the number of a word among the words of the binders at the end.
fn add_number(own: &NameIndex<'_>, word: &[u8], numbers: &mut Items<u32>) -> Result<(), NoMemory>
    ensures { OnOk result (AllDiffer (names_in own.now) → (n : ℕ) → slice_get (names_in own.now) n ≡ Some word.now
        → numbers.new ≡ numbers.old ++ n ∷ []) }
{
    match place_of(own, word) {
        Some(place) => {
            if place > u32::MAX as usize {
                return Err(NoMemory);
            }
            numbers.push(place as u32)?;
            Ok(())
        }
        None => Ok(()),
    }
}

/// The numbers of some words among the words of the binders.
fn numbers(alloc: Global, own: &NameIndex<'_>, words: &[&[u8]]) -> Result<Items<u32>, NoMemory>
    ensures { IfOk result (λ all. AllDiffer (names_in own.now) → (binds : List ℕ)
        → AreNumbers (names_in own.now) (map (λ word. word.now) words.now) binds → all ≡ binds) }
{
    let mut all = Items::new(alloc);
    for word in words {
        add_number(own, word, &mut all)?;
    }
    Ok(all)
}

fn terminal(alloc: Global, token: &Token<'_>) -> Result<Item, NoMemory>
    ensures { IfOk result (λ item. item ≡ Item.Word token.now.text.now (kind_number token.now.kind == 4)) }
{
    Ok(Item::Word {
        text: Text::of(alloc, token.text.as_bytes())?,
        quoted: token.kind == Kind::Quoted,
    })
}

/// Puts the slot before some tokens at the end, and tells how many of these are its brackets.
fn add_slot(
    alloc: Global,
    own: &NameIndex<'_>,
    cat: CatId,
    rest: Form<'_>,
    all: &mut Items<Item>,
) -> Result<usize, NoMemory>
    ensures within { IfOk result (λ count. count ≤ length rest.now) }
    ensures added { IfOk result (λ count. AllDiffer (names_in own.now)
        → (bound : List (List ℕ)) → (binds : List ℕ) → (left : List PlainToken)
        → AreBrackets bound (plain_form rest.now) left → IsNotOpened left
        → AreNumbers (names_in own.now) bound binds
        → (plain_form (drop count rest.now) ≡ left) × (all.new ≡ all.old ++ Item.Slot cat binds ∷ [])) }
{
    let found = read_brackets(alloc, rest)?;
    let binds = numbers(alloc, own, found.words.as_slice())?;
    all.push(Item::Slot { cat, binds })?;
    Ok(found.count)
}

/// Puts the item at the front at the end, and tells how many tokens behind its first belong to it.
fn add_item(
    alloc: Global,
    cats: &[Cat],
    own: &NameIndex<'_>,
    token: &Token<'_>,
    rest: Form<'_>,
    all: &mut Items<Item>,
) -> Result<usize, NoMemory>
    requires few { length cats.now < 2 ^ 32 }
    requires apart { AllApart (names cats.now) }
    ensures within { IfOk result (λ count. count ≤ length rest.now) }
    ensures added { IfOk result (λ count. AllDiffer (names_in own.now)
        → (listed : List (List ℕ)) → (items : List Item) → (words : List (List ℕ))
        → AreItems cats.now listed (names_in own.now) (token_view token.now ∷ plain_form rest.now) items words
        → (left : List Item) × (left_words : List (List ℕ))
        × AreItems cats.now listed (names_in own.now) (plain_form (drop count rest.now)) left left_words
        × (all.new ++ left ≡ all.old ++ items)) }
{
    match meaning_of(cats, token) {
        Meaning::Slot(cat) => Ok(add_slot(alloc, own, cat, rest, all)?),
        Meaning::Binder(cat) => {
            all.push(Item::Binder(cat))?;
            Ok(0)
        }
        Meaning::Other => {
            all.push(terminal(alloc, token)?)?;
            Ok(0)
        }
    }
}

/// The items of a production, the words of whose binders are these.
fn items(
    alloc: Global,
    cats: &[Cat],
    own: &NameIndex<'_>,
    form: Form<'_>,
) -> Result<Items<Item>, NoMemory>
    requires few { length cats.now < 2 ^ 32 }
    requires apart { AllApart (names cats.now) }
    ensures { IfOk result (λ all. AllDiffer (names_in own.now)
        → (listed : List (List ℕ)) → (items : List Item) → (words : List (List ℕ))
        → AreItems cats.now listed (names_in own.now) (plain_form form.now) items words → all ≡ items) }
{
    let mut all = Items::new(alloc);
    let mut left = form;
    while let [token, rest @ ..] = left {
        let count = add_item(alloc, cats, own, token, rest, &mut all)?;
        left = &rest[count..];
    }
    Ok(all)
}

/// The production of a category for which a form stands.
pub fn production(
    alloc: Global,
    cats: &[Cat],
    number: CatId,
    form: Form<'_>,
) -> Result<Prod, NoMemory>
    requires few { length cats.now < 2 ^ 32 }
    requires apart { AllApart (names cats.now) }
    ensures { IfOk result (λ made. (listed : List (List ℕ)) → (prod : Prod)
        → IsProduction cats.now listed number.0 (plain_form form.now) prod → made ≡ prod) }
{
    let words = binder_words(alloc, cats, form)?;
    let own = indexed(alloc, words.as_slice())?;
    Ok(Prod {
        cat: number,
        items: items(alloc, cats, &own, form)?,
    })
}
