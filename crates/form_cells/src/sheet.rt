// What a form is read over.
ghost use Rattle.std.specs.Prelude.{◌≡◌, ◌↔◌, ◌<◌, IsTrue, Some, length, slice_get};
ghost use Rattle.rule_schemes.specs.Reading.{punctuation};
ghost use Rattle.form_cells.specs.Cells.{tokens_of};

use crate::words::is_punctuation;
use binding_terms::Sig;
use proof_lexer::Token;
use scheme_terms::MetaDecl;

/// The tokens of a form, with the grammar and the metavariables by which they are read.
#[derive(Clone, Copy, Drop)]
pub struct Sheet<'a> {
    pub sig: &'a Sig,
    pub metas: &'a [MetaDecl],
    pub tokens: &'a [Token<'a>],
}

impl<'a> Sheet<'a> {
    /// Whether that punctuation stands at a place.
    pub fn has(&self, code: u8, place: usize) -> bool
        requires { place < length self.now.tokens.now }
        ensures { IsTrue result ↔ (slice_get (tokens_of self.now) place ≡ Some (punctuation code)) }
    {
        is_punctuation(code, &self.tokens[place])
    }
}
