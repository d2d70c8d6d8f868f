// Readings that need no others: of variables, of rows with no slot left, and in parentheses.
ghost use Rattle.std.specs.Prelude.{◌≡◌, ◌≤◌, IfOk, [], ◌∷◌, map, length, if◌then◌else◌};
ghost use Rattle.scheme_terms.specs.SchemeTree.{no_parts};
ghost use Rattle.rule_schemes.specs.Said.{IsBefore, way, no_ways};
ghost use Rattle.ordered_readings.specs.NodeView.{reading, made};
ghost use Rattle.ordered_readings.specs.FirstTwo.{AreFirst};
ghost use Rattle.ordered_readings.specs.AnswerView.{answers};
ghost use Rattle.form_cells.specs.Cells.{range_of, IsVariable, around};
ghost use Rattle.form_cells.specs.View.{in_scope};

use crate::sheet::Sheet;
use crate::variables::{Var, innermost};
use crate::words::is_any_word;
use binding_terms::{CatId, NoMemory};
use ordered_readings::{Answers, Head, Node, Row};
use std::alloc::Global;
use std::rc::Rc;

/// The reading in parentheses of what stands in them.
fn in_parentheses(alloc: Global, inside: Node) -> Result<Node, NoMemory>
    ensures { IfOk result (λ new. reading new ≡ around (reading inside)) }
{
    Ok(Node::Group(Rc::new(alloc, inside)?))
}

/// The readings in parentheses of what stands in them.
pub fn all_in_parentheses(alloc: Global, found: Answers) -> Result<Answers, NoMemory>
    ensures { IfOk result (λ new. answers new ≡ map around (answers found)) }
{
    match found {
        Answers::Nothing => Ok(Answers::Nothing),
        Answers::One(a) => Ok(Answers::One(in_parentheses(alloc, a)?)),
        Answers::Two(a, b) => {
            let first = in_parentheses(alloc, a)?;
            let second = in_parentheses(alloc, b)?;
            Ok(Answers::Two(first, second))
        }
    }
}

/// The reading with no slot left, where the tokens are all taken.
pub fn at_end(alternative: usize, head: Head, all_taken: bool) -> Answers
    ensures { answers result ≡ (if all_taken then (way alternative [] no_ways, made head no_parts) ∷ [] else []) }
{
    if all_taken {
        return Answers::One(Node::Made(alternative, head, Row::End));
    }
    Answers::Nothing
}

/// The reading as a variable of the category that is in scope.
pub fn bound_variable(
    sheet: &Sheet<'_>,
    vars: &[Var<'_>],
    cat: CatId,
    from: usize,
    to: usize,
) -> Answers
    requires range { (from ≤ to) × (to ≤ length sheet.now.tokens.now) }
    ensures { AreFirst IsBefore (IsVariable sheet.now.sig.now sheet.now.metas.now (in_scope vars.now) cat.0 (range_of sheet.now from to)) (answers result) }
{
    if to - from != 1 {
        return Answers::Nothing;
    }
    if !is_any_word(&sheet.tokens[from]) {
        return Answers::Nothing;
    }
    match innermost(vars, cat, sheet.tokens[from].text.as_bytes()) {
        Some(head) => Answers::One(Node::Made(2, head, Row::End)),
        None => Answers::Nothing,
    }
}
