// Where the metavariables of a statement stand.
ghost use Rattle.std.specs.Prelude.{◌↔◌, IsTrue, IfOk};
ghost use Rattle.rule_schemes.specs.Statement.{OccursInJudgment, IsOfInputs};
ghost use Rattle.rule_schemes.specs.View.{judgment_scheme, statement as plain};
ghost use Rattle.proof_check.specs.Written.{HasNoGoalName};

use binding_terms::{NoMemory, number};
use rule_schemes::{JScheme, Statement, is_of_inputs, occurs_in_judgment};
use scheme_terms::MetaId;

/// Whether the metavariable stands in an input of the statement, where it stands in the goal.
fn is_no_goal_name(m: MetaId, statement: &Statement, goal: &JScheme) -> bool
    ensures { IsTrue result ↔ (OccursInJudgment m.0 (judgment_scheme goal.now) → IsOfInputs (plain statement.now) m.0) }
{
    if occurs_in_judgment(m, goal) {
        return is_of_inputs(m, statement);
    }
    true
}

/// Whether no goal name stands in the goal.
pub fn has_no_goal_name(statement: &Statement, goal: &JScheme) -> Result<bool, NoMemory>
    ensures { IfOk result (λ is. IsTrue is ↔ HasNoGoalName (plain statement.now) (judgment_scheme goal.now)) }
{
    for i in 0..statement.scope.metas.len() {
        if !is_no_goal_name(MetaId(number(i)?), statement, goal) {
            return Ok(false);
        }
    }
    Ok(true)
}
