// The forms of steps.
ghost use Rattle.std.specs.Prelude.{IfOk, map, option_map};
ghost use Rattle.scheme_terms.specs.View.{names};
ghost use Rattle.rule_schemes.specs.Said.{want_judgment};
ghost use Rattle.rule_schemes.specs.View.{judgment_scheme, statement as plain, theory};
ghost use Rattle.notation_parser.specs.Plain.{IsPlain};
ghost use Rattle.notation_parser.specs.View.{reading_scope};
ghost use Rattle.proof_lexer.specs.View.{token_view};
ghost use Rattle.proof_check.specs.Finding.{Finds};
ghost use Rattle.proof_check.specs.Written.{IsGoal, IsFormOf};

use crate::occurrences::has_no_goal_name;
use binding_terms::NoMemory;
use proof_lexer::Token;
use rule_schemes::{JScheme, ReadScope, Statement, System, copy_judgment};
use std::alloc::Global;

/// The goal, where it is one form in which no goal name stands.
pub fn goal(alloc: Global, statement: &Statement) -> Result<Option<JScheme>, NoMemory>
    ensures { IfOk result (λ found. Finds (IsGoal (plain statement.now)) (option_map judgment_scheme found)) }
{
    let outputs = statement.outputs.as_slice();
    if outputs.len() != 1 {
        return Ok(None);
    }
    if !has_no_goal_name(statement, &outputs[0])? {
        return Ok(None);
    }
    Ok(Some(copy_judgment(alloc, &outputs[0])?))
}

/// The one reading of the tokens as a judgment over the scope.
pub fn read_form(
    alloc: Global,
    sys: &System,
    scope: &ReadScope,
    tokens: &[Token<'_>],
) -> Result<Option<JScheme>, NoMemory>
    requires plain { IsPlain sys.now.sig sys.now.judgments (reading_scope scope.now) want_judgment }
    ensures { IfOk result (λ found. Finds
        (IsFormOf (theory sys.now) (names scope.now.scope) (map token_view tokens.now)) (option_map judgment_scheme found)) }
{
    let found = judgments::read_form(alloc, sys.sig(), sys.judgments(), scope, tokens)?;
    Ok(found)
}
