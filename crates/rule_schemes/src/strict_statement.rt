// Whether the names of a statement have the strict occurrences that are asked of them.
ghost use Rattle.std.specs.Prelude.{◌↔◌, ◌<◌, ◌^◌, IsTrue, map, length, IfSome, IfNone};
ghost use Rattle.binding_terms.specs.Numbered.{AnyByRecursion};
ghost use Rattle.rule_schemes.specs.View.{judgment_scheme, statement_input, statement};
ghost use Rattle.rule_schemes.specs.Statement.{OccursInJudgment, StrictInInput, StrictInStatement};
ghost use Rattle.rule_schemes.specs.Strict.{IsFirstUnstrictName, AllNamesStrict};

use crate::occurrences::{is_of_inputs, occurs_in_judgment};
use crate::rule::{Input, JScheme, Statement};
use crate::strict::{strict_in_judgment, strict_in_judgments};
use scheme_terms::MetaId;

fn strict_in_input(m: MetaId, input: &Input) -> bool
    ensures { IsTrue result ↔ StrictInInput m.0 (statement_input input.now) }
{
    match input {
        Input::Given(j) => strict_in_judgment(m, j),
        Input::Syntax(n) => n.0 == m.0,
    }
}

fn strict_in_inputs(m: MetaId, inputs: &[Input]) -> bool
    ensures { IsTrue result ↔ AnyByRecursion (StrictInInput m.0) (map statement_input inputs.now) }
{
    for input in inputs {
        if strict_in_input(m, input) {
            return true;
        }
    }
    false
}

fn occurs_in_outputs(m: MetaId, outputs: &[JScheme]) -> bool
    ensures { IsTrue result ↔ AnyByRecursion (OccursInJudgment m.0) (map judgment_scheme outputs.now) }
{
    for output in outputs {
        if occurs_in_judgment(m, output) {
            return true;
        }
    }
    false
}

/// Whether the metavariable has the strict occurrence in the statement that is asked of it.
fn strict_in_statement(m: MetaId, of: &Statement) -> bool
    ensures { IsTrue result ↔ StrictInStatement (statement of.now) m.0 }
{
    if is_of_inputs(m, of) {
        return strict_in_inputs(m, of.inputs.as_slice());
    }
    if occurs_in_outputs(m, of.outputs.as_slice()) {
        return strict_in_judgments(m, of.outputs.as_slice());
    }
    true
}

/// The first metavariable of the statement without the strict occurrence that is asked of it: one of the inputs without one there, a
/// further one of the conclusions without one there.
pub fn first_unstrict_name(of: &Statement) -> Option<MetaId>
    requires { length of.now.scope.metas < 2 ^ 32 }
    ensures some { IfSome result (λ m. IsFirstUnstrictName (statement of.now) m.0) }
    ensures none { IfNone result (AllNamesStrict (statement of.now)) }
{
    for i in 0..of.scope.metas.len() {
        let m = MetaId(i as u32);
        if !strict_in_statement(m, of) {
            return Some(m);
        }
    }
    None
}
