// What a form is read over.
ghost use Rattle.std.specs.Prelude.{◌≡◌, ◌↔◌, ◌<◌, IsTrue, Some, false, length, slice_get};
ghost use Rattle.rule_schemes.specs.Reading.{punctuation};
ghost use Rattle.term_reader.specs.Chart.{SaysNo};
ghost use Rattle.term_reader.specs.Splitting.{tokens_of};

use crate::chart::Chart;
use crate::words::is_punctuation;
use binding_terms::{CatId, Sig, Text};
use proof_lexer::Token;
use scheme_terms::MetaDecl;

/// The tokens of a form, with the grammar and the names by which they are read, and their chart. Slots of the category of
/// contexts that may be told are not asked of the chart, which tells only of terms.
#[derive(Clone, Copy, Drop)]
pub struct Sheet<'a> {
    pub sig: &'a Sig,
    pub metas: &'a [MetaDecl],
    pub words: &'a [(Text, CatId)],
    pub tokens: &'a [Token<'a>],
    pub chart: &'a Chart,
    pub contexts: Option<CatId>,
}

impl<'a> Sheet<'a> {
    /// Whether a slot of the category may take the tokens from one place up to another.
    pub fn may(&self, cat: CatId, from: usize, to: usize) -> bool
        ensures { (result ≡ false) → ((self.now.contexts ≡ Some cat) → ⊥) × SaysNo self.now.chart.now cat.0 from to }
    {
        self.contexts == Some(cat) || self.chart.may(cat, from, to)
    }

    /// Whether that punctuation stands at a place.
    pub fn has(&self, code: u8, place: usize) -> bool
        requires { place < length self.now.tokens.now }
        ensures { IsTrue result ↔ (slice_get (tokens_of self.now) place ≡ Some (punctuation code)) }
    {
        is_punctuation(code, &self.tokens[place])
    }
}
