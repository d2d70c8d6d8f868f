// Where a scan of a text stands.
ghost use Rattle.std.specs.Prelude.{◌≡◌, ◌+◌, ◌-◌, ◌^◌, ◌<◌, ◌≤◌, length, chars};
ghost use Rattle.proof_lexer.specs.Front.{EndsWith, GoesPast, spot_of};

use crate::characters::{line_feeds, part_before};

// A place in a source, its line, and the text from there on.
#[derive(Clone, Copy)]
pub(crate) struct Cursor<'a> {
    pub place: usize,
    pub line: u32,
    pub rest: &'a str,
}

impl<'a> Cursor<'a> {
    // The cursor at a later rest.
    pub fn past(self, rest: &'a str) -> Cursor<'a>
        requires ends { EndsWith (chars self.rest.now) (chars rest.now) }
        requires room { self.place + length self.rest.now < 2 ^ 32 - 1 }
        requires line { self.line ≤ self.place + 1 }
        ensures goes { GoesPast (spot_of self.entry) (spot_of result) (length self.entry.rest.now) (length result.rest.now) }
        ensures rest { result.rest.now ≡ rest.now }
    {
        let taken = part_before(self.rest, rest);
        Cursor {
            place: self.place + taken.len(),
            line: self.line + line_feeds(taken),
            rest,
        }
    }
}
