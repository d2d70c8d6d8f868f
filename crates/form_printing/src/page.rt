ghost use Rattle.std.specs.Prelude.{◌≡◌, [], ◌∷◌, true, OnOk};
ghost use Rattle.rule_schemes.specs.Printing.{is_opening, is_closing};
ghost use Rattle.form_printing.specs.Page.{written};

use binding_terms::{NoMemory, Text};
use std::alloc::Global;

/// A text that is written token after token.
#[derive(Drop)]
pub struct Page {
    pub alloc: Global,
    pub text: Text,
    /// Whether the next token follows without a blank.
    pub joined: bool,
}

/// Whether the token is a bracket after which no blank stands.
fn is_opening(token: &[u8]) -> bool
    ensures { result ≡ is_opening token.now }
{
    token.len() == 1 && b"([".contains(&token[0])
}

/// Whether the token is a mark before which no blank stands.
fn is_closing(token: &[u8]) -> bool
    ensures { result ≡ is_closing token.now }
{
    token.len() == 1 && b")][,;.".contains(&token[0])
}

impl Page {
    pub fn new(alloc: Global) -> Page
        ensures text { result.text ≡ [] }
        ensures joined { result.joined ≡ true }
    {
        Page {
            alloc,
            text: Text::new(alloc),
            joined: true,
        }
    }

    /// Writes a token.
    #[tactic(auto, unfolding(crate::specs::Page::written))]
    pub fn token(&mut self, token: &[u8]) -> Result<(), NoMemory>
        ensures { OnOk result (self.new ≡ written self.old (token.now ∷ [])) }
    {
        if !self.joined && !is_closing(token) {
            self.text.push(b" ")?;
        }
        self.text.push(token)?;
        self.joined = is_opening(token);
        Ok(())
    }
}
