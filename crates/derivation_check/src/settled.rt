// Which metavariables inputs settle.
ghost use Rattle.std.specs.Prelude.{◌↔◌, IsTrue, map};
ghost use Rattle.scheme_terms.specs.SchemeTree.{values};
ghost use Rattle.scheme_terms.specs.View.{scheme, scheme_parts};
ghost use Rattle.rule_schemes.specs.View.{statement_input};
ghost use Rattle.rule_schemes.specs.Statement.{StrictInInput};
ghost use Rattle.derivation_check.specs.Fitting.{IsSettled, AreSettled, ValuesSettled, PartsSettled};

use rule_schemes::{Input, strict_in_judgment};
use scheme_terms::{MetaId, SArg, Scheme};

fn strict_in_input(m: MetaId, input: &Input) -> bool
    ensures { IsTrue result ↔ StrictInInput m.0 (statement_input input.now) }
{
    match input {
        Input::Given(form) => strict_in_judgment(m, form),
        Input::Syntax(n) => n.0 == m.0,
    }
}

/// Whether the inputs settle the metavariable.
pub fn is_settled(inputs: &[Input], m: MetaId) -> bool
    ensures { IsTrue result ↔ IsSettled (map statement_input inputs.now) m.0 }
{
    for input in inputs {
        if strict_in_input(m, input) {
            return true;
        }
    }
    false
}

/// Whether they settle each metavariable in the scheme.
#[cycle(settled)]
pub fn are_settled(inputs: &[Input], s: &Scheme) -> bool
    ensures { IsTrue result ↔ AreSettled (map statement_input inputs.now) (scheme s.now) }
{
    match s {
        Scheme::Meta(m, args) => is_settled(inputs, *m) && values_settled(inputs, args.as_slice()),
        Scheme::Known(_) | Scheme::Local(_) => true,
        Scheme::Con(_, parts) => parts_settled(inputs, parts.as_slice()),
    }
}

#[cycle(settled)]
fn values_settled(inputs: &[Input], args: &[Scheme]) -> bool
    ensures { IsTrue result ↔ ValuesSettled (map statement_input inputs.now) (values (map scheme args.now)) }
{
    for arg in args {
        if !are_settled(inputs, arg) {
            return false;
        }
    }
    true
}

#[cycle(settled)]
fn parts_settled(inputs: &[Input], parts: &[SArg]) -> bool
    ensures { IsTrue result ↔ PartsSettled (map statement_input inputs.now) (scheme_parts parts.now) }
{
    for part in parts {
        if !are_settled(inputs, &part.body) {
            return false;
        }
    }
    true
}
