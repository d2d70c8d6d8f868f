// The outline of a list of tokens.
ghost use Rattle.std.specs.Prelude.{◌≡◌, ◌≢◌, map};
ghost use Rattle.outline_reader.specs.Derives.{begins_line};
ghost use Rattle.outline_reader.specs.Reading as spec;
ghost use Rattle.outline_reader.specs.Outline.{Answers};
ghost use Rattle.outline_reader.specs.Reading.{Gives};
ghost use Rattle.outline_reader.specs.Views.{portion_view};

use crate::fault::{OutlineFault, Part};
use crate::limits::Counts;
use crate::machine::{Seen, missing, take, whole};
use crate::parts::Outline;
use crate::portions::portions;
use crate::sort::sort_of;
use crate::symbols::Role;
use proof_lexer::Token;
use std::alloc::Global;

/// Whether a token on the line begins it, where the token before it is on that other line.
fn begins_line(before: Option<u32>, line: u32) -> bool
    ensures { result ≡ begins_line before line }
{
    match before {
        Some(other) => line != other,
        None => true,
    }
}

/// The limit that was passed, but where that was at this line, the line's own fault.
fn first_fault(counts: Counts, line: u32, fault: OutlineFault) -> OutlineFault
    ensures { result ≡ spec.first_fault counts line fault }
{
    match counts.passed {
        Some((at, limit)) if at != line => OutlineFault::TooMany(at, limit),
        _ => fault,
    }
}

/// What each token is in the outline.
fn roles_of(alloc: Global, tokens: &[Token<'_>]) -> Result<Vec<Role>, OutlineFault>
    ensures { Gives (λ roles. roles.items) result (spec.roles tokens.now) }
{
    let mut stack = whole(alloc)?;
    let mut counts = Counts::new();
    let mut roles = Vec::new(alloc);
    let mut before = None;
    for token in tokens {
        let seen = Seen {
            sort: sort_of(token),
            begins: begins_line(before, token.line),
        };
        before = Some(token.line);
        let Some(role) = take(&mut stack, seen)? else {
            return Err(unexpected(counts, token.line, roles.len()));
        };
        counts = counts.count(role, token.line, &stack);
        roles.push(role)?;
    }
    at_end(counts, before, missing(stack), roles)
}

/// The fault of a text that no outline goes on at this token.
fn unexpected(counts: Counts, line: u32, place: usize) -> OutlineFault
    ensures { result ≢ OutlineFault.NoMemory → result ≡ spec.first_fault counts line (OutlineFault.Unexpected place) }
{
    match u32::try_from(place) {
        Ok(place) => first_fault(counts, line, OutlineFault::Unexpected(place)),
        Err(_) => OutlineFault::NoMemory,
    }
}

/// The answer at the end of the text.
fn at_end(
    counts: Counts,
    before: Option<u32>,
    missing: Option<Part>,
    roles: Vec<Role>,
) -> Result<Vec<Role>, OutlineFault>
    ensures { Gives (λ roles. roles.items) result (spec.with_roles roles.items (spec.at_end counts before missing)) }
{
    match (missing, before) {
        (Some(part), Some(line)) => Err(first_fault(
            counts,
            line,
            OutlineFault::MissingEnd(line, part),
        )),
        _ => match counts.passed {
            Some((line, limit)) => Err(OutlineFault::TooMany(line, limit)),
            None => Ok(roles),
        },
    }
}

/// The outline of the tokens, in text order. Each portion lends its tokens.
///
/// - `Unexpected`: no outline goes on at this token, counted from 0, and none does at an earlier one.
/// - `MissingEnd`: the text ended within this innermost part; the line is that of the last token.
/// - `TooMany`: the line at which the first limit was passed, where no other fault stands on that line or before.
/// - `NoMemory`: there was no memory for the answer, or a place or a line was past the numbers of its type.
pub fn outline<'a>(alloc: Global, tokens: &'a Vec<Token<'a>>) -> Result<Outline<'a>, OutlineFault>
    ensures { Answers (λ outline. map portion_view outline.parts.items) result tokens.now.items }
{
    let roles = roles_of(alloc, tokens)?;
    let parts = portions(alloc, &roles, tokens)?;
    Ok(Outline { parts })
}
