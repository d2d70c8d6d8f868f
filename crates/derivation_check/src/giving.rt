// Whether judgments and terms fit the inputs of a statement.
ghost use Rattle.std.specs.Prelude.{◌≡◌, ◌↔◌, ◌<◌, ◌^◌, IsTrue, IfOk, MatchOption, map, take, option_map, length};
ghost use Rattle.std.specs.List.{AllByRecursion};
ghost use Rattle.binding_terms.specs.View.{tree};
ghost use Rattle.scheme_terms.specs.Demands.{IsDemanded};
ghost use Rattle.scheme_terms.specs.Embedding.{embedded};
ghost use Rattle.scheme_terms.specs.SchemeTree.{meta, no_values};
ghost use Rattle.scheme_terms.specs.View.{scheme, context_value, instance as view};
ghost use Rattle.rule_schemes.specs.Statement.{IsStatement, HasNoFault};
ghost use Rattle.rule_schemes.specs.View.{theory, statement as theorem, statement_input};
ghost use Rattle.derivation_check.specs.Fitting.{PieceMatches, MakesInputs, FitSoFar, IsFit};
ghost use Rattle.derivation_check.specs.Pieces.{piece, given_form};
ghost use Rattle.derivation_check.specs.Settling.{PieceDemands, PiecesDemand, HasNoValue, IsValueFor, AreValuesFor, AreFormsOf};

use crate::inputs::{Fit, InputForm};
use crate::judged::is_value;
use crate::matching::matches;
use crate::node::always_so_far;
use crate::pieces::{Piece, all_pieces, are_inputs_alike};
use crate::settled::is_settled;
use binding_terms::{NoMemory, Term, number};
use rule_schemes::{Input, Statement, System};
use scheme_match::copy_context;
use scheme_terms::{CtxValue, Inst, MetaId, Scheme, demanded_term};
use sqlite_items::Items;
use std::alloc::Global;

/// The metavariable alone.
fn alone(alloc: Global, m: MetaId) -> Scheme
    ensures { scheme result ≡ meta m.0 no_values }
{
    Scheme::Meta(m, Items::new(alloc))
}

/// What the piece asks the metavariable to be.
fn asked_by(alloc: Global, m: MetaId, one: &Piece<'_>) -> Result<Option<Term>, NoMemory>
    ensures { IfOk result (λ o. IsDemanded (λ v. PieceDemands m.0 v (piece one.now)) (option_map (λ v. embedded (tree v)) o)) }
{
    match one {
        Piece::Part(locals, pattern, target) => {
            let asked = demanded_term(alloc, m, *locals, pattern, target)?;
            Ok(asked)
        }
        Piece::Own(n, target) => {
            let asked = demanded_term(alloc, m, 0, &alone(alloc, *n), target)?;
            Ok(asked)
        }
    }
}

/// What the pieces ask it to be.
fn asked(alloc: Global, m: MetaId, pieces: &[Piece<'_>]) -> Result<Option<Term>, NoMemory>
    ensures { IfOk result (λ o. IsDemanded (PiecesDemand m.0 (map piece pieces.now)) (option_map (λ v. embedded (tree v)) o)) }
{
    for one in pieces {
        match asked_by(alloc, m, one)? {
            Some(value) => return Ok(Some(value)),
            None => {}
        }
    }
    Ok(None)
}

/// The value that the pieces ask for where the metavariable is settled, or no value for another; none where a settled one is asked
/// for nothing.
fn value_for(
    alloc: Global,
    m: MetaId,
    inputs: &[Input],
    pieces: &[Piece<'_>],
) -> Result<Option<Option<Term>>, NoMemory>
    ensures { IfOk result (λ found. MatchOption found (HasNoValue (map statement_input inputs.now) (map piece pieces.now) m.0)
        (λ o. IsValueFor (map statement_input inputs.now) (map piece pieces.now) m.0 (option_map tree o))) }
{
    if !is_settled(inputs, m) {
        return Ok(Some(None));
    }
    match asked(alloc, m, pieces)? {
        Some(value) => Ok(Some(Some(value))),
        None => Ok(None),
    }
}

/// What the pieces ask the settled ones of so many metavariables to be, or none where one of them is asked for nothing.
fn settled_values(
    alloc: Global,
    count: usize,
    inputs: &[Input],
    pieces: &[Piece<'_>],
) -> Result<Option<Items<Option<Term>>>, NoMemory>
    ensures { IfOk result (λ o. AreValuesFor (map statement_input inputs.now) (map piece pieces.now) count (option_map (λ all. map (option_map tree) all) o)) }
{
    let mut all = Items::new(alloc);
    for i in 0..count {
        match value_for(alloc, MetaId(number(i)?), inputs, pieces)? {
            Some(value) => all.push(value)?,
            None => return Ok(None),
        }
    }
    Ok(Some(all))
}

fn piece_matches(
    alloc: Global,
    inputs: &[Input],
    inst: &Inst,
    one: &Piece<'_>,
) -> Result<bool, NoMemory>
    ensures { IfOk result (λ is. IsTrue is ↔ PieceMatches (map statement_input inputs.now) (view inst.now) (piece one.now)) }
{
    match one {
        Piece::Part(locals, pattern, target) => {
            let is = matches(alloc, inputs, inst, *locals, pattern, target)?;
            Ok(is)
        }
        Piece::Own(n, target) => {
            let is = matches(alloc, inputs, inst, 0, &alone(alloc, *n), target)?;
            Ok(is)
        }
    }
}

fn all_match(
    alloc: Global,
    inputs: &[Input],
    inst: &Inst,
    pieces: &[Piece<'_>],
) -> Result<bool, NoMemory>
    ensures { IfOk result (λ are. IsTrue are ↔ AllByRecursion (PieceMatches (map statement_input inputs.now) (view inst.now)) (map piece pieces.now)) }
{
    for one in pieces {
        if !piece_matches(alloc, inputs, inst, one)? {
            return Ok(false);
        }
    }
    Ok(true)
}

/// Whether one ground instance over the context makes these inputs what is given.
fn makes_inputs(
    alloc: Global,
    sys: &System,
    statement: &Statement,
    ctx: &CtxValue,
    inputs: &[Input],
    forms: &[InputForm],
) -> Result<bool, NoMemory>
    requires { AreFormsOf (theory sys.now) (theorem statement.now) (map statement_input inputs.now) }
    ensures { IfOk result (λ fit. IsTrue fit ↔ MakesInputs (theory sys.now) statement.now.scope.metas (context_value ctx.now) (map statement_input inputs.now) (map given_form forms.now)) }
{
    always_so_far(sys);
    let metas = statement.scope.metas.as_slice();
    if !are_inputs_alike(alloc, sys, metas, ctx, inputs, forms)? {
        return Ok(false);
    }
    let pieces = all_pieces(alloc, ctx, inputs, forms)?;
    let values = match settled_values(alloc, metas.len(), inputs, pieces.as_slice())? {
        Some(values) => values,
        None => return Ok(false),
    };
    let inst = Inst {
        metas: values,
        knowns: Items::new(alloc),
        root: copy_context(alloc, ctx)?,
    };
    let all = all_match(alloc, inputs, &inst, pieces.as_slice())?;
    Ok(all)
}

fn first_inputs(inputs: &[Input], count: usize) -> &[Input]
    ensures { result.now ≡ take count inputs.now }
{
    if inputs.len() < count {
        return inputs;
    }
    &inputs[..count]
}

fn first_forms(forms: &[InputForm], count: usize) -> &[InputForm]
    ensures { result.now ≡ take count forms.now }
{
    if forms.len() < count {
        return forms;
    }
    &forms[..count]
}

/// Whether the first so many inputs are there, are of the kinds that are given, and one ground instance makes them these.
fn fit_so_far(
    alloc: Global,
    sys: &System,
    statement: &Statement,
    ctx: &CtxValue,
    forms: &[InputForm],
    count: usize,
) -> Result<bool, NoMemory>
    requires { IsStatement (theory sys.now) (theorem statement.now) }
    ensures { IfOk result (λ fit. IsTrue fit ↔ FitSoFar (theory sys.now) (theorem statement.now) (context_value ctx.now) (map given_form forms.now) count) }
{
    let inputs = first_inputs(statement.inputs.as_slice(), count);
    let given = first_forms(forms, count);
    let fit = makes_inputs(alloc, sys, statement, ctx, inputs, given)?;
    Ok(fit)
}

/// Whether what is given fits the inputs of the statement, and if not, which the first is that does not.
pub fn fits(
    alloc: Global,
    sys: &System,
    statement: &Statement,
    ctx: &CtxValue,
    forms: &Vec<InputForm>,
) -> Result<Fit, NoMemory>
    requires forms { IsStatement (theory sys.now) (theorem statement.now) }
    requires fault { HasNoFault (theory sys.now) (theorem statement.now) }
    ensures { IfOk result (λ fit. IsFit (theory sys.now) (theorem statement.now) (context_value ctx.now) (map given_form forms.now.items) fit) }
{
    if !is_value(alloc, sys.sig(), statement.scope.root, ctx)? {
        return Ok(Fit::Wrong(0));
    }
    let given = forms.as_slice();
    let count = statement.inputs.len().max(given.len());
    for i in 0..count {
        if !fit_so_far(alloc, sys, statement, ctx, given, i + 1)? {
            return Ok(Fit::Wrong(number(i + 1)?));
        }
    }
    Ok(Fit::Fits)
}
