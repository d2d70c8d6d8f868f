// Which ranges of a form's tokens may read as a term of which category. The ranges that end sooner come first, and of these the
// shorter ones, so that the parts of a range are known before it. For the ranges with one end it is also kept which items of a
// production, from one on, may take them: so no split of a range is tried twice.
ghost use Rattle.std.specs.Prelude.{◌≡◌, ◌≢◌, ◌↔◌, ◌⊎◌, ◌++◌, ◌<◌, ◌≤◌, ◌+◌, ◌-◌, ℕ, List, IsTrue, IfOk, OnOk, MatchOption, false, Some, length, map, slice_get};
ghost use Rattle.std.specs.List.{AllByRecursion};
ghost use Rattle.binding_terms.specs.Numbered.{AnyByRecursion};
ghost use Rattle.binding_terms.specs.Signature.{Fits};
ghost use Rattle.binding_terms.specs.declared.grammar.Prod.{Prod};
ghost use Rattle.rule_schemes.specs.Reading.{IsVariableWord, punctuation, word};
ghost use Rattle.term_reader.specs.Chart.{IsAmong, MayBeVariable, IsClosed, place, SaysNo, IsChart};
ghost use Rattle.term_reader.specs.Charting.{charted, CannotGroup, CannotName, CannotVary, CannotStand, CannotProduce, CannotGoOn, IsKnown, AreTailsKnown, IsReady};
ghost use Rattle.term_reader.specs.View.{token};

use crate::words::{is_punctuation, is_terminal, is_word};
use binding_terms::{CatId, Item, NoMemory, Sig, Text};
use proof_lexer::{Kind, Token};
use rule_schemes::is_spelling;
use scheme_terms::MetaDecl;
use sqlite_items::{Items, at};
use std::alloc::Global;

/// Boxes in layers, rows and columns, of which some are open.
#[derive(Drop)]
pub(crate) struct Boxes {
    layers: usize,
    rows: usize,
    columns: usize,
    marks: Items<bool>,
}

impl Boxes {
    /// Closed boxes.
    fn closed(alloc: Global, layers: usize, rows: usize, columns: usize) -> Result<Boxes, NoMemory>
        ensures columns { IfOk result (λ boxes. boxes.columns ≡ columns) }
    {
        let layer = rows.checked_mul(columns).ok_or(NoMemory)?;
        let count = layers.checked_mul(layer).ok_or(NoMemory)?;
        let marks = Vec::from_elem(alloc, false, count)?;
        Ok(Boxes {
            layers,
            rows,
            columns,
            marks: Items::from_vec(marks),
        })
    }

    /// The place of a box. It is below the number of marks, which does not wrap.
    fn place(&self, layer: usize, row: usize, column: usize) -> usize
        ensures { result ≡ place self.now layer row column }
    {
        let line = layer.wrapping_mul(self.rows).wrapping_add(row);
        line.wrapping_mul(self.columns).wrapping_add(column)
    }

    /// Whether the box is open, or not there.
    fn is_open(&self, layer: usize, row: usize, column: usize) -> bool
        ensures { (result ≡ false) → IsClosed self.now layer row column }
    {
        if layer >= self.layers || row >= self.rows || column >= self.columns {
            return true;
        }
        match at(self.marks.as_slice(), self.place(layer, row, column)) {
            Some(mark) => *mark,
            None => true,
        }
    }

    /// Opens the box.
    fn open(&mut self, layer: usize, row: usize, column: usize)
        ensures layers { self.new.layers ≡ self.old.layers }
        ensures columns { self.new.columns ≡ self.old.columns }
        ensures kept { (a b c : ℕ) → IsClosed self.new a b c → IsClosed self.old a b c }
        ensures opened { IsClosed self.new layer row column → ⊥ }
    {
        let place = self.place(layer, row, column);
        if place < self.marks.len() {
            self.marks.set(place, true);
        }
    }
}

/// Whether the word is a spelling of the category's variable.
fn is_variable_word(sig: &Sig, cat: usize, word: &[u8]) -> bool
    ensures { IsTrue result ↔ IsVariableWord sig.now cat word.now }
{
    match at(sig.cats().as_slice(), cat) {
        Some(found) => match &found.var {
            Some(name) => is_spelling(name.bytes(), word),
            None => false,
        },
        None => false,
    }
}

/// Whether the token may be a binder of the category.
pub(crate) fn is_binder(sig: &Sig, cat: usize, t: &Token<'_>) -> bool
    ensures { IsTrue result ↔ (((token t.now).0 ≡ 0) × IsVariableWord sig.now cat (token t.now).1) }
{
    t.kind == Kind::Word && is_variable_word(sig, cat, t.text.as_bytes())
}

fn is_one(one: &(Text, CatId), cat: usize, word: &[u8]) -> bool
    ensures { IsTrue result ↔ ((one.now.0 ≡ word.now) × (one.now.1.0 ≡ cat)) }
{
    one.0.bytes() == word && one.1.0 as usize == cat
}

/// Whether the word stands among these with the category.
fn is_among(words: &[(Text, CatId)], cat: usize, word: &[u8]) -> bool
    ensures { IsTrue result ↔ IsAmong words.now cat word.now }
{
    for one in words {
        if is_one(one, cat, word) {
            return true;
        }
    }
    false
}

/// Whether the token is the name of a metavariable of the category.
fn is_name(metas: &[MetaDecl], cat: usize, t: &Token<'_>) -> bool
    ensures { IsTrue result ↔ AnyByRecursion (λ m. (token t.now ≡ word m.name) × (m.cat.0 ≡ cat)) metas.now }
{
    for meta in metas {
        if is_word(meta.name.bytes(), t) && meta.cat.0 as usize == cat {
            return true;
        }
    }
    false
}

/// Whether items from one on, of so many, may go on at a token.
fn goes_on(tails: &Boxes, prod: usize, item: usize, count: usize, from: usize, to: usize) -> bool
    ensures { (result ≡ false)
        → ((from ≡ to) × (item ≢ count)) ⊎ ((from ≢ to) × ((item ≡ count) ⊎ IsClosed tails.now prod item from)) }
{
    if from == to {
        return item == count;
    }
    item != count && tails.is_open(prod, item, from)
}

/// Whether a slot of the category and then the items from one on may take the tokens.
fn splits(
    terms: &Boxes,
    tails: &Boxes,
    cat: usize,
    prod: usize,
    item: usize,
    from: usize,
    to: usize,
) -> bool
    requires { from < to }
    ensures { (result ≡ false) → (mid : ℕ) → from < mid → mid < to → IsClosed terms.now cat from mid ⊎ IsClosed tails.now prod item mid }
{
    for mid in from + 1..to {
        if tails.is_open(prod, item, mid) && terms.is_open(cat, from, mid) {
            return true;
        }
    }
    false
}

/// A form and the names that may stand in it.
#[derive(Clone, Copy, Drop)]
pub(crate) struct Form<'a, 'b> {
    sig: &'a Sig,
    metas: &'a [MetaDecl],
    words: &'a [(Text, CatId)],
    tokens: &'a [Token<'b>],
}

impl<'a, 'b> Form<'a, 'b> {
    /// Whether the token may be a variable of the category.
    fn is_variable(&self, cat: usize, t: &Token<'_>) -> bool
        ensures { IsTrue result
            ↔ (((token t.now).0 ≡ 0) × MayBeVariable self.now.sig.now self.now.words.now cat (token t.now).1) }
    {
        t.kind == Kind::Word
            && (is_among(self.words, cat, t.text.as_bytes())
                || is_variable_word(self.sig, cat, t.text.as_bytes()))
    }

    /// Whether the tokens may be a form of the category in parentheses.
    fn is_group(&self, terms: &Boxes, cat: usize, from: usize, to: usize) -> bool
        requires range { (from < to) × (to ≤ length self.now.tokens.now) }
        requires known { IsKnown (charted self.now) terms.now (from + 1) to }
        requires fits { Fits self.now.sig.now }
        ensures { (result ≡ false) → CannotGroup (charted self.now) cat from to }
    {
        if to <= from + 2 {
            return false;
        }
        if !is_punctuation(b'(', &self.tokens[from]) {
            return false;
        }
        if !is_punctuation(b')', &self.tokens[to - 1]) {
            return false;
        }
        terms.is_open(cat, from + 1, to - 1)
    }

    /// Whether nothing follows the first token, or what may be brackets.
    fn has_brackets(&self, from: usize, to: usize) -> bool
        requires { (from < to) × (to ≤ length self.now.tokens.now) }
        ensures { IsTrue result
            ↔ ((to ≡ from + 1)
            ⊎ ((slice_get (map token self.now.tokens.now) (from + 1) ≡ Some (punctuation 91))
            × (slice_get (map token self.now.tokens.now) (to - 1) ≡ Some (punctuation 93)))) }
    {
        to == from + 1
            || (is_punctuation(b'[', &self.tokens[from + 1])
                && is_punctuation(b']', &self.tokens[to - 1]))
    }

    /// Whether the tokens may be a metavariable of the category with its brackets.
    fn is_named(&self, cat: usize, from: usize, to: usize) -> bool
        requires { (from < to) × (to ≤ length self.now.tokens.now) }
        ensures { (result ≡ false) → CannotName (charted self.now) cat from to }
    {
        self.has_brackets(from, to) && is_name(self.metas, cat, &self.tokens[from])
    }

    /// Whether there is one token, which may be a variable of the category.
    fn is_alone(&self, cat: usize, from: usize, to: usize) -> bool
        requires { (from < to) × (to ≤ length self.now.tokens.now) }
        ensures { (result ≡ false) → CannotVary (charted self.now) cat from to }
    {
        if to != from + 1 {
            return false;
        }
        self.is_variable(cat, &self.tokens[from])
    }

    /// Whether the items of a production from one on may take the tokens.
    fn tail(
        &self,
        terms: &Boxes,
        tails: &Boxes,
        prod: usize,
        item: usize,
        from: usize,
        to: usize,
    ) -> bool
        requires range { (from < to) × (to ≤ length self.now.tokens.now) }
        requires prod { prod < length self.now.sig.now.prods }
        requires ready { IsReady (charted self.now) terms.now tails.now from to }
        requires here { 0 < item → IsKnown (charted self.now) terms.now from to }
        ensures { (result ≡ false) → CannotGoOn (charted self.now) prod item from to }
    {
        let items = self.sig.prods()[prod].items.as_slice();
        if item >= items.len() {
            return true;
        }
        let next = item + 1;
        let count = items.len();
        match &items[item] {
            Item::Word { text, quoted: _ } => {
                is_terminal(text.bytes(), &self.tokens[from])
                    && goes_on(tails, prod, next, count, from + 1, to)
            }
            Item::Binder(cat) => {
                is_binder(self.sig, cat.0 as usize, &self.tokens[from])
                    && goes_on(tails, prod, next, count, from + 1, to)
            }
            Item::Slot { cat, binds: _ } => {
                if next == count {
                    return terms.is_open(cat.0 as usize, from, to);
                }
                splits(terms, tails, cat.0 as usize, prod, next, from, to)
            }
        }
    }

    /// Whether the tokens may read as a term of the category without a production.
    fn is_simple(&self, terms: &Boxes, cat: usize, from: usize, to: usize) -> bool
        requires range { (from < to) × (to ≤ length self.now.tokens.now) }
        requires known { IsKnown (charted self.now) terms.now (from + 1) to }
        requires fits { Fits self.now.sig.now }
        ensures { (result ≡ false) → CannotStand (charted self.now) cat from to }
    {
        if self.is_group(terms, cat, from, to) {
            return true;
        }
        if self.is_named(cat, from, to) {
            return true;
        }
        self.is_alone(cat, from, to)
    }

    /// Opens the boxes of the categories as which the tokens may read without a production.
    fn open_simple(&self, terms: &mut Boxes, from: usize, to: usize)
        requires range { (from < to) × (to ≤ length self.now.tokens.now) }
        requires known { IsKnown (charted self.now) terms.old (from + 1) to }
        requires fits { Fits self.now.sig.now }
        ensures columns { terms.new.columns ≡ terms.old.columns }
        ensures known { IsKnown (charted self.now) terms.new (from + 1) to }
        ensures here { (cat : ℕ) → IsClosed terms.new cat from to → CannotStand (charted self.now) cat from to }
    {
        for cat in 0..terms.layers {
            if self.is_simple(terms, cat, from, to) {
                terms.open(cat, from, to);
            }
        }
    }

    fn cat_of(&self, prod: usize) -> usize
        requires { prod < length self.now.sig.now.prods }
        ensures { (found : Prod) → slice_get self.now.sig.now.prods prod ≡ Some found → found.cat.0 ≡ result }
    {
        self.sig.prods()[prod].cat.0 as usize
    }

    /// Opens the boxes of the categories of which a production may take the tokens.
    fn open_products(&self, terms: &mut Boxes, tails: &Boxes, from: usize, to: usize)
        requires range { (from < to) × (to ≤ length self.now.tokens.now) }
        requires ready { IsReady (charted self.now) terms.old tails.now from to }
        ensures columns { terms.new.columns ≡ terms.old.columns }
        ensures kept { (a b c : ℕ) → IsClosed terms.new a b c → IsClosed terms.old a b c }
        ensures here { (cat : ℕ) → IsClosed terms.new cat from to → CannotProduce (charted self.now) cat from to }
    {
        for prod in 0..self.sig.prods().len() {
            let cat = self.cat_of(prod);
            if self.tail(terms, tails, prod, 0, from, to) {
                terms.open(cat, from, to);
            }
        }
    }

    /// Opens the boxes of the categories as which the tokens may read.
    fn open_terms(&self, terms: &mut Boxes, tails: &Boxes, from: usize, to: usize)
        requires range { (from < to) × (to ≤ length self.now.tokens.now) }
        requires ready { IsReady (charted self.now) terms.old tails.now from to }
        ensures columns { terms.new.columns ≡ terms.old.columns }
        ensures known { IsKnown (charted self.now) terms.new from to }
    {
        self.open_simple(terms, from, to);
        self.open_products(terms, tails, from, to);
    }

    /// Opens the boxes of the items from which on the production may take the tokens.
    fn open_items(&self, terms: &Boxes, tails: &mut Boxes, prod: usize, from: usize, to: usize)
        requires range { (from < to) × (to ≤ length self.now.tokens.now) }
        requires prod { prod < length self.now.sig.now.prods }
        requires ready { IsReady (charted self.now) terms.now tails.old from to }
        requires here { IsKnown (charted self.now) terms.now from to }
        ensures kept { (a b c : ℕ) → IsClosed tails.new a b c → IsClosed tails.old a b c }
        ensures known { (item : ℕ) → 0 < item → IsClosed tails.new prod item from → CannotGoOn (charted self.now) prod item from to }
    {
        let count = self.sig.prods()[prod].items.len();
        for item in 1..count {
            if self.tail(terms, tails, prod, item, from, to) {
                tails.open(prod, item, from);
            }
        }
    }

    /// The same for all productions.
    fn open_tails(&self, terms: &Boxes, tails: &mut Boxes, from: usize, to: usize)
        requires range { (from < to) × (to ≤ length self.now.tokens.now) }
        requires ready { IsReady (charted self.now) terms.now tails.old from to }
        requires here { IsKnown (charted self.now) terms.now from to }
        ensures { AreTailsKnown (charted self.now) tails.new from to }
    {
        for prod in 0..self.sig.prods().len() {
            self.open_items(terms, tails, prod, from, to);
        }
    }

    /// Opens the boxes of the ranges that end at one place.
    fn open_ends(
        &self,
        alloc: Global,
        terms: &mut Boxes,
        longest: usize,
        to: usize,
    ) -> Result<(), NoMemory>
        requires range { (0 < to) × (to ≤ length self.now.tokens.now) }
        requires known { IsKnown (charted self.now) terms.old to to }
        ensures columns { OnOk result (terms.new.columns ≡ terms.old.columns) }
        ensures known { OnOk result (IsKnown (charted self.now) terms.new (to + 1) (to + 1)) }
    {
        let mut tails = Boxes::closed(alloc, self.sig.prods().len(), longest, to)?;
        for from in (0..to).rev() {
            self.open_terms(terms, &tails, from, to);
            self.open_tails(terms, &mut tails, from, to);
        }
        Ok(())
    }
}

/// The number of items of the longest production.
fn longest(sig: &Sig) -> usize {
    let mut most = 0;
    for prod in sig.prods() {
        if prod.items.len() > most {
            most = prod.items.len();
        }
    }
    most
}

/// Which ranges of a form's tokens may read as a term of which category. It is sure only where it says no.
#[derive(Drop)]
pub struct Chart {
    terms: Boxes,
}

impl Chart {
    /// The chart of the tokens, where these words may be variables of their categories, and so may all spellings of the categories'
    /// variables.
    pub fn new(
        alloc: Global,
        sig: &Sig,
        metas: &[MetaDecl],
        words: &[(Text, CatId)],
        tokens: &[Token<'_>],
    ) -> Result<Chart, NoMemory>
        ensures { IfOk result (λ chart. IsChart sig.now metas.now words.now (map token tokens.now) chart) }
    {
        let form = Form {
            sig,
            metas,
            words,
            tokens,
        };
        let count = tokens.len();
        let mut terms = Boxes::closed(alloc, sig.cats().len(), count, count + 1)?;
        let most = longest(sig);
        for to in 1..count + 1 {
            form.open_ends(alloc, &mut terms, most, to)?;
        }
        Ok(Chart { terms })
    }

    /// Whether the tokens from one place up to another may read as a term of the category.
    pub fn may(&self, cat: CatId, from: usize, to: usize) -> bool
        ensures { (result ≡ false) → SaysNo self.now cat.0 from to }
    {
        from >= to || self.terms.is_open(cat.0 as usize, from, to)
    }
}
