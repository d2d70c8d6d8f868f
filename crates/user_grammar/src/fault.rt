// The first fault of the grammar of a file.
ghost use Rattle.std.specs.Prelude.{◌≡◌, IfOk, MatchOption, map};
ghost use Rattle.user_grammar.specs.File.{categories, listed};
ghost use Rattle.user_grammar.specs.Fault.{HasNoFault, IsFault, IsFirstFault, category_texts};
ghost use Rattle.user_grammar.specs.Finding.{AreLists, AreNames, IsLeast, portions_of, written_view};
ghost use Rattle.user_grammar.specs.Indexed.{HaveSame, names_in};
ghost use Rattle.user_grammar.specs.Made.{plains};
ghost use Rattle.user_grammar.specs.FindingPlaces.{ButContexts, IsTold};

use crate::fault_assumed::first_unknown_context;
use crate::fault_declared::first_duplicate;
use crate::fault_form::first_short;
use crate::fault_found::Found;
use crate::fault_front::first_bad_context;
use crate::fault_lists::{Lists, Written, lent_categories};
use crate::fault_names::{Names, all_variables};
use crate::fault_tokens::first_at_token;
use crate::name_index::NameIndex;
use crate::name_lists::{category_index, listed_index};
use binding_terms::NoMemory;
use outline_reader::Portion;
use std::alloc::Global;
use sy_base::{Fault, earlier, fault_of};

/// The fault with its line and its detail.
fn told(alloc: Global, found: Option<Found<'_>>) -> Result<Option<Fault>, NoMemory>
    ensures { IfOk result (λ fault. IsTold found.entry fault) }
{
    let Some(one) = found else {
        return Ok(None);
    };
    Ok(Some(fault_of(alloc, one.place.line, one.code, one.detail.as_bytes())?))
}

/// The first fault but those of context categories.
fn first_but_contexts<'a>(alloc: Global, names: &Names<'a>) -> Result<Option<Found<'a>>, NoMemory>
    requires { AreNames names.now }
    ensures { IfOk result (IsLeast (ButContexts (portions_of names.now.lists))) }
{
    let duplicate = first_duplicate(alloc, &names.lists)?;
    let short = first_short(&names.lists);
    let token = first_at_token(alloc, names)?;
    let unknown = first_unknown_context(&names.lists);
    let later = earlier(token, unknown);
    let rest = earlier(short, later);
    Ok(earlier(duplicate, rest))
}

/// The least fault.
fn least_fault<'a>(alloc: Global, names: &Names<'a>) -> Result<Option<Found<'a>>, NoMemory>
    requires { AreNames names.now }
    ensures { IfOk result (IsLeast (IsFault (portions_of names.now.lists))) }
{
    let those = first_but_contexts(alloc, names)?;
    let contexts = first_bad_context(alloc, names)?;
    Ok(earlier(those, contexts))
}

/// The first fault by its lists, with its line and its detail.
fn first_by_lists(alloc: Global, lists: &Lists<'_>) -> Result<Option<Fault>, NoMemory>
    requires { AreLists lists.now }
    ensures { IfOk result (λ found. MatchOption found (HasNoFault (portions_of lists.now))
        (λ fault. IsFirstFault (portions_of lists.now) fault.line fault.code fault.detail)) }
{
    let variables = all_variables(alloc, lists)?;
    let names = Names {
        lists: *lists,
        variables: variables.as_slice(),
    };
    let found = least_fault(alloc, &names)?;
    let fault = told(alloc, found)?;
    Ok(fault)
}

/// The first fault by the categories, their names and the listed terminals of the portions.
fn first_by_parts(
    alloc: Global,
    portions: &[Portion<'_>],
    written: &[Written<'_>],
    names: &NameIndex<'_>,
    terminals: &NameIndex<'_>,
) -> Result<Option<Fault>, NoMemory>
    requires written { map written_view written.now ≡ categories (plains portions.now) }
    requires names { HaveSame (names_in names.now) (category_texts (plains portions.now)) }
    requires terminals { HaveSame (names_in terminals.now) (listed (plains portions.now)) }
    ensures { IfOk result (λ found. MatchOption found (HasNoFault (plains portions.now))
        (λ fault. IsFirstFault (plains portions.now) fault.line fault.code fault.detail)) }
{
    let lists = Lists {
        portions,
        categories: written,
        names,
        listed: terminals,
    };
    first_by_lists(alloc, &lists)
}

/// The first fault of the grammar of these portions, or none where it has none.
pub fn first_fault(alloc: Global, portions: &[Portion<'_>]) -> Result<Option<Fault>, NoMemory>
    ensures { IfOk result (λ found. MatchOption found (HasNoFault (plains portions.now))
        (λ fault. IsFirstFault (plains portions.now) fault.line fault.code fault.detail)) }
{
    let written = lent_categories(alloc, portions)?;
    let names = category_index(alloc, portions)?;
    let terminals = listed_index(alloc, portions)?;
    first_by_parts(alloc, portions, written.as_slice(), &names, &terminals)
}
