// The readings of the slots around a context: those in front of it, the context, and those behind it, each for itself.
ghost use Rattle.std.specs.Prelude.{◌≡◌, ◌++◌, IfOk, [], ◌∷◌, map, length, take};
ghost use Rattle.std.specs.List.{AllByRecursion};
ghost use Rattle.scheme_terms.specs.View.{scheme, scheme_parts};
ghost use Rattle.rule_schemes.specs.Reading.{bare};
ghost use Rattle.term_reader.specs.Firsts.{listed, paired};
ghost use Rattle.term_reader.specs.Splitting.{IsSheet, AreKnown, AreWithin, slot_range, tokens_of};
ghost use Rattle.term_reader.specs.View.{in_scope};
ghost use Rattle.notation_parser.specs.Forms.{beside, judged_around, terms_around, HasFront, IsPlacedAs};
ghost use Rattle.notation_parser.specs.Fronts.{AreTold, placed};
ghost use Rattle.notation_parser.specs.Shapes.{written_context};
ghost use Rattle.notation_parser.specs.View.{outcome};

use crate::contexts::Context;
use crate::copies::{context_again, knowns_again};
use crate::merging::Placed;
use crate::outcomes::Outcome;
use binding_terms::NoMemory;
use rule_schemes::{JScheme, JudgId, Written};
use scheme_terms::{SArg, Scheme};
use sqlite_items::Items;
use std::alloc::Global;
use term_reader::{Firsts, Piece, Sheet, Var, bodies, places_of};

/// A context with the terms that stand around it.
#[derive(Drop)]
pub struct Around {
    pub front: Items<Scheme>,
    pub context: Context,
    pub behind: Items<Scheme>,
}

fn with_around(
    alloc: Global,
    front: &[SArg],
    context: &Context,
    behind: &[SArg],
) -> Result<Around, NoMemory>
    ensures { IfOk result
        (λ new. terms_around new ≡ (bare (scheme_parts front.now), (written_context context.now, bare (scheme_parts behind.now)))) }
{
    Ok(Around {
        front: bodies(alloc, front)?,
        context: Context {
            ctx: context_again(alloc, &context.ctx)?,
            knowns: knowns_again(alloc, context.knowns.as_slice())?,
        },
        behind: bodies(alloc, behind)?,
    })
}

/// Each of the contexts with each of the parts behind it, the first two of these, all behind that front.
fn behind_front(
    alloc: Global,
    front: &[SArg],
    contexts: &Firsts<Context>,
    found: &Firsts<Items<SArg>>,
) -> Result<Firsts<Around>, NoMemory>
    ensures { IfOk result
        (λ new. listed terms_around new
        ≡ paired beside (bare (scheme_parts front.now) ∷ []) (paired beside (listed written_context contexts.now) (map bare (listed scheme_parts found.now)))) }
{
    match (contexts, found) {
        (Firsts::Nothing, _) => Ok(Firsts::Nothing),
        (_, Firsts::Nothing) => Ok(Firsts::Nothing),
        (Firsts::One(x), Firsts::One(a)) => {
            Ok(Firsts::One(with_around(alloc, front, x, a.as_slice())?))
        }
        (Firsts::Two(x, y), Firsts::One(a)) => Ok(Firsts::Two(
            with_around(alloc, front, x, a.as_slice())?,
            with_around(alloc, front, y, a.as_slice())?,
        )),
        (Firsts::One(x), Firsts::Two(a, b)) => Ok(Firsts::Two(
            with_around(alloc, front, x, a.as_slice())?,
            with_around(alloc, front, x, b.as_slice())?,
        )),
        (Firsts::Two(x, _), Firsts::Two(a, b)) => Ok(Firsts::Two(
            with_around(alloc, front, x, a.as_slice())?,
            with_around(alloc, front, x, b.as_slice())?,
        )),
    }
}

fn first_two(first: Firsts<Around>, second: Firsts<Around>) -> Firsts<Around>
    ensures { listed terms_around result ≡ take 2 (listed terms_around first ++ listed terms_around second) }
{
    match (first, second) {
        (Firsts::Nothing, second) => second,
        (Firsts::One(a), Firsts::Nothing) => Firsts::One(a),
        (Firsts::One(a), Firsts::One(b)) => Firsts::Two(a, b),
        (Firsts::One(a), Firsts::Two(b, _)) => Firsts::Two(a, b),
        (Firsts::Two(a, b), _) => Firsts::Two(a, b),
    }
}

/// Each of the fronts with each of the contexts and each of the parts behind it, the first two of these, where the fronts count first
/// and the contexts next.
pub fn arounds(
    alloc: Global,
    fronts: &Firsts<Items<SArg>>,
    contexts: &Firsts<Context>,
    found: &Firsts<Items<SArg>>,
) -> Result<Firsts<Around>, NoMemory>
    ensures { IfOk result
        (λ new. listed terms_around new
        ≡ paired beside (map bare (listed scheme_parts fronts.now)) (paired beside (listed written_context contexts.now) (map bare (listed scheme_parts found.now)))) }
{
    match fronts {
        Firsts::Nothing => Ok(Firsts::Nothing),
        Firsts::One(a) => behind_front(alloc, a.as_slice(), contexts, found),
        Firsts::Two(a, b) => {
            let first = behind_front(alloc, a.as_slice(), contexts, found)?;
            let second = behind_front(alloc, b.as_slice(), contexts, found)?;
            Ok(first_two(first, second))
        }
    }
}

/// The judgment with that number over the context, with all the terms around it.
fn judgment(number: u32, found: Around) -> Result<Outcome, NoMemory>
    ensures { IfOk result (λ new. outcome new ≡ judged_around number (terms_around found)) }
{
    let mut args = found.front;
    args.append(found.behind)?;
    Ok(Outcome {
        written: Written::Judgment(JScheme {
            judgment: JudgId(number),
            ctx: found.context.ctx,
            args,
        }),
        knowns: found.context.knowns,
    })
}

/// The judgment with that number, with the first places at which the slots in front of its context read.
fn as_placed<'a>(
    alloc: Global,
    sheet: &Sheet<'a>,
    vars: &[Var<'a>],
    number: u32,
    slots: &[Piece<'a>],
    found: Around,
) -> Result<Placed, NoMemory>
    requires sheet { IsSheet sheet.now }
    requires vars { AreKnown sheet.now (in_scope vars.now) }
    requires within { AreWithin (length sheet.now.tokens.now) (map slot_range slots.now) }
    requires reads { HasFront sheet.now.sig.now sheet.now.metas.now (tokens_of sheet.now) (in_scope vars.now) (map slot_range slots.now) (terms_around found) }
    ensures { IfOk result
        (λ new. IsPlacedAs sheet.now.sig.now sheet.now.metas.now (tokens_of sheet.now) (in_scope vars.now) number (map slot_range slots.now) (terms_around found) (placed new)) }
{
    let places = places_of(alloc, sheet, vars, &[], slots, found.front.as_slice())?;
    let outcome = judgment(number, found)?;
    match places {
        Some(front) => Ok(Placed { outcome, front }),
        None => Ok(Placed {
            outcome,
            front: Items::new(alloc),
        }),
    }
}

/// Each of the judgments, with the first places of its front.
pub fn all_placed<'a>(
    alloc: Global,
    sheet: &Sheet<'a>,
    vars: &[Var<'a>],
    number: u32,
    slots: &[Piece<'a>],
    found: Firsts<Around>,
) -> Result<Firsts<Placed>, NoMemory>
    requires sheet { IsSheet sheet.now }
    requires vars { AreKnown sheet.now (in_scope vars.now) }
    requires within { AreWithin (length sheet.now.tokens.now) (map slot_range slots.now) }
    requires reads { AllByRecursion (HasFront sheet.now.sig.now sheet.now.metas.now (tokens_of sheet.now) (in_scope vars.now) (map slot_range slots.now)) (listed terms_around found) }
    ensures { IfOk result
        (λ new. AreTold (IsPlacedAs sheet.now.sig.now sheet.now.metas.now (tokens_of sheet.now) (in_scope vars.now) number (map slot_range slots.now))
        (listed terms_around found) (listed placed new)) }
{
    match found {
        Firsts::Nothing => Ok(Firsts::Nothing),
        Firsts::One(a) => Ok(Firsts::One(as_placed(alloc, sheet, vars, number, slots, a)?)),
        Firsts::Two(a, b) => Ok(Firsts::Two(
            as_placed(alloc, sheet, vars, number, slots, a)?,
            as_placed(alloc, sheet, vars, number, slots, b)?,
        )),
    }
}
