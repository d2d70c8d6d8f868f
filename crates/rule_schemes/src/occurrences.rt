// Where metavariables stand in judgments and statements.
ghost use Rattle.std.specs.Prelude.{◌↔◌, IsTrue, map};
ghost use Rattle.binding_terms.specs.Numbered.{AnyByRecursion};
ghost use Rattle.scheme_terms.specs.SchemeTree.{OccursIn};
ghost use Rattle.scheme_terms.specs.View.{scheme, scheme_entry};
ghost use Rattle.rule_schemes.specs.Said.{OccursInEntries};
ghost use Rattle.rule_schemes.specs.Statement.{OccursInJudgment, OccursInInput, IsOfInputs};
ghost use Rattle.rule_schemes.specs.View.{judgment_scheme, statement_input, statement};

use crate::rule::{Input, JScheme, Statement};
use scheme_terms::{MetaId, SEntry, Scheme, occurs_in};

/// Whether the metavariable stands in one of the schemes.
pub fn occurs_in_any(m: MetaId, schemes: &[Scheme]) -> bool
    ensures { IsTrue result ↔ AnyByRecursion (OccursIn m.0) (map scheme schemes.now) }
{
    for s in schemes {
        if occurs_in(m, s) {
            return true;
        }
    }
    false
}

/// Whether it stands in one of the entries.
pub fn occurs_in_entries(m: MetaId, entries: &[SEntry]) -> bool
    ensures { IsTrue result ↔ OccursInEntries m.0 (map scheme_entry entries.now) }
{
    for entry in entries {
        if occurs_in_any(m, entry.args.as_slice()) {
            return true;
        }
    }
    false
}

/// Whether it stands in the judgment.
pub fn occurs_in_judgment(m: MetaId, j: &JScheme) -> bool
    ensures { IsTrue result ↔ OccursInJudgment m.0 (judgment_scheme j.now) }
{
    occurs_in_entries(m, j.ctx.entries.as_slice()) || occurs_in_any(m, j.args.as_slice())
}

fn occurs_in_input(m: MetaId, input: &Input) -> bool
    ensures { IsTrue result ↔ OccursInInput m.0 (statement_input input.now) }
{
    match input {
        Input::Given(j) => occurs_in_judgment(m, j),
        Input::Syntax(n) => n.0 == m.0,
    }
}

fn occurs_in_inputs(m: MetaId, inputs: &[Input]) -> bool
    ensures { IsTrue result ↔ AnyByRecursion (OccursInInput m.0) (map statement_input inputs.now) }
{
    for input in inputs {
        if occurs_in_input(m, input) {
            return true;
        }
    }
    false
}

/// Whether it stands in an input of the statement.
pub fn is_of_inputs(m: MetaId, of: &Statement) -> bool
    ensures { IsTrue result ↔ IsOfInputs (statement of.now) m.0 }
{
    occurs_in_inputs(m, of.inputs.as_slice())
}
