//! The relation of a term to a target.

ghost use Rattle.std.specs.Prelude.{◌≡◌, ◌↔◌, IsTrue};
ghost use Rattle.scheme_terms.specs.View.{scheme, scheme_part, scheme_parts};
ghost use Rattle.induction_order.specs.Binders.{count};
ghost use Rattle.induction_order.specs.Order.{IsRenamedPart, IsTermRelation};
ghost use Rattle.induction_order.specs.Renaming.{HasRenamed, HasRenamedAmong, HasRenamedIn};

use crate::binders::Binders;
use crate::relation::Rel;
use crate::renaming::is_renamed;
use scheme_terms::{SArg, Scheme, same_scheme};

/// Whether the scheme is a renamed part of the other at a rigid place, which stands under the binders.
#[cycle(part)]
fn has_renamed(whole: &Scheme, arg: &Scheme, outer: &Binders<'_>) -> bool
    ensures { IsTrue result ↔ HasRenamed (count outer.now) (scheme arg.now) (scheme whole.now) }
{
    match whole {
        Scheme::Con(_, parts) => has_renamed_among(parts.as_slice(), arg, outer),
        _ => false,
    }
}

#[cycle(part)]
fn has_renamed_among(parts: &[SArg], arg: &Scheme, outer: &Binders<'_>) -> bool
    ensures { IsTrue result ↔ HasRenamedAmong (count outer.now) (scheme arg.now) (scheme_parts parts.now) }
{
    for part in parts {
        if has_renamed_in(part, arg, outer) {
            return true;
        }
    }
    false
}

#[cycle(part)]
fn has_renamed_in(part: &SArg, arg: &Scheme, outer: &Binders<'_>) -> bool
    ensures { IsTrue result ↔ HasRenamedIn (count outer.now) (scheme arg.now) (scheme_part part.now) }
{
    let inner = Binders::Under {
        binds: part.binds,
        outer: &*outer,
    };
    is_renamed(arg, &part.body, &inner) || has_renamed(&part.body, arg, &inner)
}

fn is_renamed_part(arg: &Scheme, value: &Scheme) -> bool
    ensures { IsTrue result ↔ IsRenamedPart (scheme arg.now) (scheme value.now) }
{
    let outer = Binders::Outermost;
    has_renamed(value, arg, &outer)
}

/// The relation of a term to the value of a target: equal where they are the same, less where the one is a proper part of the other, with its
/// bound variables renamed to distinct ones, and else unknown.
pub fn term_rel(arg: &Scheme, value: &Scheme) -> Rel
    ensures { IsTermRelation (scheme arg.now) (scheme value.now) result }
{
    if same_scheme(arg, value) {
        Rel::Equal
    } else if is_renamed_part(arg, value) {
        Rel::Less
    } else {
        Rel::Unknown
    }
}
