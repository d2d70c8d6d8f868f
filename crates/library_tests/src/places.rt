// The places at which sums are read, and their order.
ghost use Rattle.std.specs.Prelude.{◌≡◌};

use crate::sources::{LONGEST, signature};
use binding_terms::{CatId, NoMemory, ProdId, Sig};
use proof_lexer::{Token, lex};
use scheme_terms::{SArg, Scheme};
use sqlite_items::Items;
use std::alloc::{AllocError, Global};
use std::test::Fail;
use term_reader::{
    Chart, Piece, Place, Sheet, are_before, are_same, is_before, place_of, places_of,
};

/// The grammar of sums, whose alternatives are the sum (3) and `a` (4).
const SUMS: &str = "terminals a\nsyntax\ne ::= e + e | a\n";

fn leaf(alloc: Global) -> Scheme {
    Scheme::Con(ProdId(1), Items::new(alloc))
}

fn sum(alloc: Global, left: Scheme, right: Scheme) -> Result<Scheme, NoMemory> {
    let mut parts = Items::new(alloc);
    for body in [left, right] {
        parts.push(SArg { binds: 0, body })?;
    }
    Ok(Scheme::Con(ProdId(0), parts))
}

/// `a + (a + a)`, or `(a + a) + a`.
fn sum_of_three(alloc: Global, to_the_right: bool) -> Result<Scheme, NoMemory> {
    let inner = sum(alloc, leaf(alloc), leaf(alloc))?;
    if to_the_right {
        sum(alloc, leaf(alloc), inner)
    } else {
        sum(alloc, inner, leaf(alloc))
    }
}

#[cycle(shown)]
fn add_places(alloc: Global, out: &mut String, places: &[Place]) -> Result<(), AllocError> {
    for place in places {
        out.push_str("(")?;
        add_place(alloc, out, place)?;
        out.push_str(")")?;
    }
    Ok(())
}

/// A place: its alternative, the lengths of its slots behind points, and in parentheses the places of the slots' readings.
#[cycle(shown)]
fn add_place(alloc: Global, out: &mut String, place: &Place) -> Result<(), AllocError> {
    let alternative = place.alternative;
    let digits = format!(in alloc; "{alternative}")?;
    out.push_str(digits.as_str())?;
    for length in place.lengths.as_slice() {
        let behind = format!(in alloc; ".{length}")?;
        out.push_str(behind.as_str())?;
    }
    add_places(alloc, out, place.inner.as_slice())
}

/// A slot for a sum, over these tokens.
fn piece<'a>(from: usize, to: usize) -> Piece<'a>
    ensures { (result.from ≡ from) × (result.to ≡ to) }
{
    Piece {
        cat: CatId(0),
        binds: &[],
        from,
        to,
    }
}

/// The first place at which the tokens read as the term, and the first places at which the sides of their second `+` read as the first and the
/// last of these terms.
fn places_in<'a>(
    alloc: Global,
    sig: &'a Sig,
    tokens: &'a [Token<'a>],
    term: &Scheme,
    sides: &[Scheme],
) -> Result<(Option<Place>, Option<Items<Place>>), NoMemory> {
    let chart = Chart::new(alloc, sig, &[], &[], tokens)?;
    let sheet = Sheet {
        sig,
        metas: &[],
        words: &[],
        tokens,
        chart: &chart,
        contexts: None,
    };
    let whole = place_of(alloc, &sheet, &[], CatId(0), 0, tokens.len(), term)?;
    if tokens.len() <= 3 {
        return Ok((whole, None));
    }
    let slots = [piece(0, 3), piece(4, tokens.len())];
    let found = places_of(alloc, &sheet, &[], &[], &slots, sides)?;
    Ok((whole, found))
}

/// The same of a form.
fn places(
    alloc: Global,
    form: &str,
    to_the_right: bool,
) -> Result<(Option<Place>, Option<Items<Place>>), Fail> {
    let term = sum_of_three(alloc, to_the_right)?;
    let mut sides = Vec::new(alloc);
    sides.push(sum(alloc, leaf(alloc), leaf(alloc))?)?;
    sides.push(leaf(alloc))?;
    let Some(sig) = signature(alloc, SUMS) else {
        return Err(Fail::from("no signature"));
    };
    if LONGEST < form.len() {
        return Err(Fail::from("a long form"));
    }
    match lex(alloc, form.as_bytes()) {
        Ok(tokens) => Ok(places_in(alloc, &sig, tokens.as_slice(), &term, sides.as_slice())?),
        Err(_) => Err(Fail::from("no tokens")),
    }
}

/// The whole form's place, as a text.
fn told(alloc: Global, form: &str, to_the_right: bool) -> Result<String, Fail> {
    let mut out = String::new(alloc);
    let (whole, _) = places(alloc, form, to_the_right)?;
    match whole {
        Some(place) => add_place(alloc, &mut out, &place)?,
        None => out.push_str("none")?,
    }
    Ok(out)
}

#[test]
fn sums_stand_at_their_places(rt: HostRuntime) -> Result<(), Fail> {
    for (form, to_the_right, expected) in [
        ("a + a + a", true, "3.1.3(4)(3.1.1(4)(4))"),
        ("a + a + a", false, "3.3.1(3.1.1(4)(4))(4)"),
        ("(a + a) + a", false, "3.5.1(0(3.1.1(4)(4)))(4)"),
        ("(a + a) + a", true, "none"),
    ] {
        let answer = told(rt.alloc(), form, to_the_right)?;
        assert_eq!(rt; answer.as_str(), expected, "of {form}");
    }
    Ok(())
}

#[test]
fn the_shorter_first_slot_stands_before(rt: HostRuntime) -> Result<(), Fail> {
    let alloc = rt.alloc();
    let (right, _) = places(alloc, "a + a + a", true)?;
    let (left, split) = places(alloc, "a + a + a", false)?;
    let Some(first) = right else {
        return Err(Fail::from("to the right"));
    };
    let Some(second) = left else {
        return Err(Fail::from("to the left"));
    };
    let Some(sides) = split else {
        return Err(Fail::from("the sides"));
    };
    assert!(rt; is_before(&first, &second));
    assert!(rt; !is_before(&second, &first));
    assert!(rt; are_before(sides.as_slice(), first.inner.as_slice()));
    assert!(rt; !are_before(first.inner.as_slice(), sides.as_slice()));
    assert!(rt; are_same(second.inner.as_slice(), sides.as_slice()));
    assert!(rt; !are_same(first.inner.as_slice(), sides.as_slice()));
    Ok(())
}
