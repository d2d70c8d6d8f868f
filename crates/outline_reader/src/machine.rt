// Reads tokens by the grammar, one after another.
ghost use Rattle.std.specs.Prelude.{◌≡◌, ◌∷◌, [], map, reverse, IfOk, IfErr, OnOk, ◌++◌};
ghost use Rattle.outline_reader.specs.Derives.{is_formed, has, fits, await, is_level, level, whole};
ghost use Rattle.outline_reader.specs.Machine as spec;
ghost use Rattle.outline_reader.specs.Machine.{Takes};

use crate::fault::{OutlineFault, Part};
use crate::grammar::{alternatives, symbols, times};
use crate::sort::Sort;
use crate::symbols::{Alternative, Class, Item, Phrase, Place, Rest, Role, Symbol, Times};
use std::alloc::Global;

/// What the grammar sees of a token: its sort, and whether it begins its line.
#[derive(Clone, Copy)]
pub struct Seen {
    pub sort: Sort,
    pub begins: bool,
}

/// A symbol that is still to come, and the part in which it stands.
#[derive(Clone, Copy)]
pub struct Awaited {
    pub within: Part,
    pub symbol: Symbol,
}

/// Whether the sort is one of a form's: all but those of the reserved words.
fn is_formed(sort: Sort) -> bool
    ensures { result ≡ is_formed sort }
{
    match sort {
        Sort::Name
        | Sort::Colon
        | Sort::Define
        | Sort::Or
        | Sort::Dot
        | Sort::Comma
        | Sort::Open
        | Sort::Close
        | Sort::Mark
        | Sort::Bar
        | Sort::Other => true,
        _ => false,
    }
}

/// Whether the class has tokens of the sort.
fn has(class: Class, sort: Sort) -> bool
    ensures { result ≡ has class sort }
{
    match class {
        Class::Is(one) => sort == one,
        Class::Listed => match sort {
            Sort::Name | Sort::Colon | Sort::Define | Sort::Or | Sort::Other => true,
            _ => false,
        },
        Class::Formed => is_formed(sort),
        Class::ButBar => is_formed(sort) && sort != Sort::Bar,
        Class::ButDot => is_formed(sort) && sort != Sort::Dot,
        Class::ButParenthesis => is_formed(sort) && sort != Sort::Open && sort != Sort::Close,
        Class::ButOr => is_formed(sort) && sort != Sort::Or,
        Class::ButOrDefine => is_formed(sort) && sort != Sort::Or && sort != Sort::Define,
        Class::ButOrName => is_formed(sort) && sort != Sort::Or && sort != Sort::Name,
    }
}

/// Whether the token may stand at the place and is of the class.
fn fits(place: Place, class: Class, seen: Seen) -> bool
    ensures { result ≡ fits place class seen }
{
    let stands = match place {
        Place::First => seen.begins,
        Place::Next => !seen.begins,
        Place::Anywhere => true,
    };
    stands && has(class, seen.sort)
}

/// The first alternative that the token begins.
fn chosen(alternatives: &[Alternative], seen: Seen) -> Option<(Role, Rest)>
    ensures { result ≡ spec.chosen alternatives.now seen }
{
    for (place, class, role, rest) in alternatives {
        if fits(*place, *class, seen) {
            return Some((*role, *rest));
        }
    }
    None
}

/// The symbol that an item stands for, where it is written within this part.
fn written(within: Part, item: Item) -> Awaited
    ensures { result ≡ await within item }
{
    match item {
        Item::Here(symbol) => Awaited { within, symbol },
        Item::In(part, symbol) => Awaited {
            within: part,
            symbol,
        },
    }
}

/// Puts symbols on the stack, the first on top.
#[tactic(auto, using(crate::proofs::StackLemmas::reverse_push))]
fn open(stack: &mut Vec<Awaited>, within: Part, items: &[Item]) -> Result<(), OutlineFault>
    ensures ok { OnOk result (reverse stack.new.items ≡ map (await within) items.now ++ reverse stack.old.items) }
    ensures err { IfErr result (λ e. e ≡ OutlineFault.NoMemory) }
{
    for item in items.iter().rev() {
        stack.push(written(within, *item))?;
    }
    Ok(())
}

/// Takes one token: what it is in the outline, or nothing where no outline goes on at it. The next symbol is on top of the stack.
#[tactic(auto, using(crate::proofs::StackLemmas::reverse_push))]
pub fn take(stack: &mut Vec<Awaited>, seen: Seen) -> Result<Option<Role>, OutlineFault>
    ensures ok { IfOk result (Takes (reverse stack.old.items) seen (reverse stack.new.items)) }
    ensures err { IfErr result (λ e. e ≡ OutlineFault.NoMemory) }
{
    while let Some(next) = stack.pop() {
        match next.symbol {
            Symbol::One(place, class, role) => {
                return Ok(if fits(place, class, seen) {
                    Some(role)
                } else {
                    None
                });
            }
            Symbol::Choice(phrase) => {
                if let Some((role, rest)) = chosen(alternatives(phrase), seen) {
                    if times(phrase) == Times::Any {
                        stack.push(next)?;
                    }
                    open(stack, next.within, symbols(rest))?;
                    return Ok(Some(role));
                }
                if times(phrase) == Times::Once {
                    return Ok(None);
                }
            }
        }
    }
    Ok(None)
}

/// Whether nothing need come for the symbol.
fn may_be_left_out(symbol: Symbol) -> bool
    ensures { result ≡ spec.may_be_left_out symbol }
{
    match symbol {
        Symbol::One(..) => false,
        Symbol::Choice(phrase) => times(phrase) != Times::Once,
    }
}

/// The part of the first symbol that must still come.
#[tactic(auto, using(crate::proofs::StackLemmas::reverse_push))]
pub fn missing(mut stack: Vec<Awaited>) -> Option<Part>
    ensures { result ≡ spec.missing (reverse stack.items) }
{
    while let Some(next) = stack.pop() {
        if !may_be_left_out(next.symbol) {
            return Some(next.within);
        }
    }
    None
}

/// Whether the symbol stands for a block or an inversion that is open.
fn is_level(symbol: Symbol) -> bool
    ensures { result ≡ is_level symbol }
{
    match symbol {
        Symbol::Choice(Phrase::CaseList) | Symbol::Choice(Phrase::Inverted) => true,
        _ => false,
    }
}

/// How many blocks and inversions are open.
#[tactic(auto, using(crate::proofs::StackLemmas::level_reverse))]
pub fn level(stack: &[Awaited]) -> usize
    ensures { result ≡ level (reverse stack.now) }
{
    let mut levels = 0;
    for awaited in stack {
        if is_level(awaited.symbol) {
            levels += 1;
        }
    }
    levels
}

/// What a file is. Its first symbol is on top.
#[tactic(auto, using(crate::proofs::StackLemmas::reverse_push))]
pub fn whole(alloc: Global) -> Result<Vec<Awaited>, OutlineFault>
    ensures ok { IfOk result (λ stack. reverse stack.items ≡ whole) }
    ensures err { IfErr result (λ e. e ≡ OutlineFault.NoMemory) }
{
    let mut stack = Vec::new(alloc);
    stack.push(Awaited {
        within: Part::Terminals,
        symbol: Symbol::Choice(Phrase::FirstTheorem),
    })?;
    stack.push(Awaited {
        within: Part::Terminals,
        symbol: Symbol::Choice(Phrase::Parts),
    })?;
    Ok(stack)
}
