// The statements of the theorems of a file.
ghost use Rattle.std.specs.Prelude.{◌≡◌, ◌↔◌, ◌++◌, ◌∷◌, [], IsTrue, IfOk, OnOk, MatchOption, List, map, flat_map};
ghost use Rattle.std.specs.List.{AllZip, AllByRecursion};
ghost use Rattle.scheme_terms.specs.View.{names};
ghost use Rattle.scheme_terms.specs.declared.scheme.Root.TheVariants.{Closed};
ghost use Rattle.proof_lexer.specs.View.{kind_and_text};
ghost use Rattle.outline_reader.specs.Views.{portion_view};
ghost use Rattle.outline_reader.specs.Plain.{plain_portion, outlined};
ghost use Rattle.rule_schemes.specs.Rules.{JudgmentScheme};
ghost use Rattle.rule_schemes.specs.Said.{want_judgment};
ghost use Rattle.rule_schemes.specs.Statement.{Theorem, given};
ghost use Rattle.rule_schemes.specs.View.{theory, judgment_scheme, statement_input, statement as plain_statement};
ghost use Rattle.scheme_terms.specs.declared.scheme.MetaDecl.{MetaDecl};
ghost use Rattle.notation_parser.specs.Plain.{IsPlain};
ghost use Rattle.notation_parser.specs.View.{reading_scope};
ghost use Rattle.user_grammar.specs.Bare.{IsBareSignature};
ghost use Rattle.judgments.specs.Bare.{IsBareTheory, IsBareStatement};
ghost use Rattle.judgments.specs.Built.{IsBuiltTheorem, bare_text};
ghost use Rattle.judgments.specs.Collected.{AreCollected};
ghost use Rattle.judgments.specs.Standing.{AreReadOf, AreUnreadOf};
ghost use Rattle.judgments.specs.Statements.{AreStatementsOf, IsNamedFreely, AreNamedDifferently};
ghost use Rattle.judgments.specs.Texts.{target_in, first_target, theorem_in, theorems_in, group_of, groups_after};
ghost use Rattle.judgments.specs.Views.{given_text, input_text};
ghost use Rattle.judgments.specs.Written.{settled, ReadsOnlyAs};

use crate::inputs::{all_named_freely, given_of, named_differently};
use crate::names::{take_all_names, take_given_names};
use crate::naming::{Declares, named_apart};
use crate::readings::{metas_of, read_form, read_forms, scope_of};
use crate::standing::{read_of, unread_of, with_more};
use binding_terms::{NoMemory, Sig, Text, number};
use outline_reader::{Form, InputText, Just, Name, NamedForm, Outline, Portion};
use rule_schemes::{Input, JScheme, ReadScope, Statement, System};
use scheme_terms::{MetaDecl, Root, Scope};
use sqlite_items::Items;
use std::alloc::Global;

/// The metavariables of the forms of inputs, as they are collected.
fn input_names(
    alloc: Global,
    sig: &Sig,
    inputs: &[NamedForm<'_>],
) -> Result<Items<MetaDecl>, NoMemory>
    ensures { IfOk result (λ metas. AreCollected sig.now.cats (flat_map (λ named. map kind_and_text named.form.now) inputs.now) metas) }
{
    let mut metas = Items::new(alloc);
    take_given_names(alloc, sig, &mut metas, inputs)?;
    Ok(metas)
}

/// The metavariables of the conclusions.
fn output_names(alloc: Global, sig: &Sig, outputs: &[Form<'_>]) -> Result<Items<MetaDecl>, NoMemory>
    ensures { IfOk result (λ metas. AreCollected sig.now.cats (flat_map (λ form. map kind_and_text form.now) outputs.now) metas) }
{
    let mut metas = Items::new(alloc);
    take_all_names(alloc, sig, &mut metas, outputs)?;
    Ok(metas)
}

/// The metavariables of both.
fn names_of(
    alloc: Global,
    sig: &Sig,
    inputs: &[NamedForm<'_>],
    outputs: &[Form<'_>],
) -> Result<Items<MetaDecl>, NoMemory>
    ensures { IfOk result (λ metas. AreCollected sig.now.cats (flat_map (λ named. map kind_and_text named.form.now) inputs.now
        ++ flat_map (λ form. map kind_and_text form.now) outputs.now) metas) }
{
    let mut metas = input_names(alloc, sig, inputs)?;
    take_all_names(alloc, sig, &mut metas, outputs)?;
    Ok(metas)
}

/// The judgments that are the one readings of the inputs' forms.
fn read_inputs(
    alloc: Global,
    sys: &System,
    scope: &ReadScope,
    inputs: &[NamedForm<'_>],
) -> Result<Option<Vec<JScheme>>, NoMemory>
    requires { IsPlain sys.now.sig sys.now.judgments (reading_scope scope.now) want_judgment }
    ensures { IfOk result (λ found. MatchOption found
        ((js : List JudgmentScheme) → AllZip (ReadsOnlyAs sys.now.sig sys.now.judgments (names scope.now.scope))
        (map (λ named. map kind_and_text named.form.now) inputs.now) js → ⊥)
        (λ all. AllZip (ReadsOnlyAs sys.now.sig sys.now.judgments (names scope.now.scope)) (map (λ named. map kind_and_text named.form.now) inputs.now) (map judgment_scheme all.items))) }
{
    let mut all = Vec::new(alloc);
    for named in inputs {
        match read_form(alloc, sys.sig(), sys.judgments(), scope, named.form)? {
            Some(j) => all.push(j)?,
            None => return Ok(None),
        }
    }
    Ok(Some(all))
}

/// The forms of a theorem as they read.
#[derive(Drop)]
struct Parts {
    inputs: Vec<JScheme>,
    outputs: Items<JScheme>,
}

/// The forms of a theorem, where each has one reading.
fn parts_of(
    alloc: Global,
    sys: &System,
    scope: &ReadScope,
    inputs: &[NamedForm<'_>],
    outputs: &[Form<'_>],
) -> Result<Option<Parts>, NoMemory>
    requires { IsPlain sys.now.sig sys.now.judgments (reading_scope scope.now) want_judgment }
    ensures { IfOk result (λ found. MatchOption found
        ((js : List JudgmentScheme) (zs : List JudgmentScheme)
        → AllZip (ReadsOnlyAs sys.now.sig sys.now.judgments (names scope.now.scope)) (map (λ named. map kind_and_text named.form.now) inputs.now) js
        → AllZip (ReadsOnlyAs sys.now.sig sys.now.judgments (names scope.now.scope)) (map (λ form. map kind_and_text form.now) outputs.now) zs → ⊥)
        (λ parts. AllZip (ReadsOnlyAs sys.now.sig sys.now.judgments (names scope.now.scope)) (map (λ named. map kind_and_text named.form.now) inputs.now) (map judgment_scheme parts.inputs.items)
        × AllZip (ReadsOnlyAs sys.now.sig sys.now.judgments (names scope.now.scope)) (map (λ form. map kind_and_text form.now) outputs.now) (map judgment_scheme parts.outputs))) }
{
    match read_inputs(alloc, sys, scope, inputs)? {
        Some(inputs) => match read_forms(alloc, sys.sig(), sys.judgments(), scope, outputs)? {
            Some(outputs) => Ok(Some(Parts { inputs, outputs })),
            None => Ok(None),
        },
        None => Ok(None),
    }
}

/// The metavariables that stand in the inputs' readings, the further ones that stand in the conclusions', and those that stand in none.
#[derive(Drop)]
struct Sorted {
    of_inputs: Items<MetaDecl>,
    further: Items<MetaDecl>,
    unread: Items<MetaDecl>,
}

/// The further metavariables of the conclusions.
fn further_of(
    alloc: Global,
    metas: &[MetaDecl],
    parts: &Parts,
    listed: &[MetaDecl],
) -> Result<Items<MetaDecl>, NoMemory>
    ensures { IfOk result (λ those. (read : List MetaDecl) × AreReadOf metas.now (map judgment_scheme parts.now.outputs) listed.now read
        × AreUnreadOf metas.now (map judgment_scheme parts.now.inputs.items) read those) }
{
    let read = read_of(alloc, metas, parts.outputs.as_slice(), listed)?;
    unread_of(alloc, metas, parts.inputs.as_slice(), read.as_slice())
}

/// The metavariables that stand in no form.
fn unread_in(alloc: Global, metas: &[MetaDecl], parts: &Parts) -> Result<Items<MetaDecl>, NoMemory>
    ensures { IfOk result (λ those. (others : List MetaDecl) × AreUnreadOf metas.now (map judgment_scheme parts.now.inputs.items) metas.now others
        × AreUnreadOf metas.now (map judgment_scheme parts.now.outputs) others those) }
{
    let others = unread_of(alloc, metas, parts.inputs.as_slice(), metas)?;
    unread_of(alloc, metas, parts.outputs.as_slice(), others.as_slice())
}

/// The metavariables over which the forms were read, sorted by where they stand. Each kind is in the order of its forms' tokens.
fn sort_names(
    alloc: Global,
    sig: &Sig,
    metas: &[MetaDecl],
    parts: &Parts,
    inputs: &[NamedForm<'_>],
    outputs: &[Form<'_>],
) -> Result<Sorted, NoMemory>
    ensures of_inputs { IfOk result (λ s. (own : List MetaDecl) × AreCollected sig.now.cats (flat_map (λ named. map kind_and_text named.form.now) inputs.now) own
        × AreReadOf metas.now (map judgment_scheme parts.now.inputs.items) own s.of_inputs) }
    ensures further { IfOk result (λ s. (own : List MetaDecl) × (read : List MetaDecl) × AreCollected sig.now.cats (flat_map (λ form. map kind_and_text form.now) outputs.now) own
        × AreReadOf metas.now (map judgment_scheme parts.now.outputs) own read
        × AreUnreadOf metas.now (map judgment_scheme parts.now.inputs.items) read s.further) }
    ensures unread { IfOk result (λ s. (others : List MetaDecl) × AreUnreadOf metas.now (map judgment_scheme parts.now.inputs.items) metas.now others
        × AreUnreadOf metas.now (map judgment_scheme parts.now.outputs) others s.unread) }
{
    let own = input_names(alloc, sig, inputs)?;
    let of_inputs = read_of(alloc, metas, parts.inputs.as_slice(), own.as_slice())?;
    let listed = output_names(alloc, sig, outputs)?;
    let further = further_of(alloc, metas, parts, listed.as_slice())?;
    let unread = unread_in(alloc, metas, parts)?;
    Ok(Sorted {
        of_inputs,
        further,
        unread,
    })
}

/// The judgments as inputs.
fn given_inputs(alloc: Global, judgments: Vec<JScheme>) -> Result<Items<Input>, NoMemory>
    ensures { IfOk result (λ all. map statement_input all ≡ map given (map judgment_scheme judgments.items)) }
{
    let mut all = Items::new(alloc);
    for j in judgments {
        all.push(Input::Given(j))?;
    }
    Ok(all)
}

/// The statement of this name and group with these metavariables and forms.
fn made(
    alloc: Global,
    group: usize,
    name: Name<'_>,
    metas: Items<MetaDecl>,
    parts: Parts,
) -> Result<Statement, NoMemory>
    ensures { IfOk result (λ st. plain_statement st ≡ record {
      name = name.now.text.now;
      scope = record { root = Closed; metas = metas; knowns = [] };
      inputs = map given (map judgment_scheme parts.inputs.items);
      outputs = map judgment_scheme parts.outputs;
      targets = [];
      group = group;
    }) }
{
    let group = number(group)?;
    let name = Text::of(alloc, name.text.as_bytes())?;
    let Parts { inputs, outputs } = parts;
    Ok(Statement {
        name,
        scope: Scope {
            root: Root::Closed,
            metas,
            knowns: Items::new(alloc),
        },
        inputs: given_inputs(alloc, inputs)?,
        outputs,
        targets: Items::new(alloc),
        group,
    })
}

/// Whether the names of the inputs may be given, and none twice.
fn names_fit(sig: &Sig, inputs: &[NamedForm<'_>]) -> bool
    requires { IsBareSignature sig.now }
    ensures { IsTrue result ↔ (AllByRecursion (IsNamedFreely sig.now) (map given_text inputs.now) × AreNamedDifferently (map given_text inputs.now)) }
{
    all_named_freely(sig, inputs) && named_differently(inputs)
}

/// The statement of the metavariables that stand in forms, which are read again: those that stand in none have the last numbers.
fn statement_over(
    alloc: Global,
    sys: &System,
    group: usize,
    name: Name<'_>,
    inputs: &[NamedForm<'_>],
    outputs: &[Form<'_>],
    sorted: Sorted,
) -> Result<Option<Statement>, NoMemory>
    requires { IsPlain sys.now.sig sys.now.judgments (settled (record { root = Closed; metas = (sorted.of_inputs ++ sorted.further) ++ sorted.unread; knowns = [] })) want_judgment }
    ensures { IfOk result (λ found. MatchOption found
        ((js : List JudgmentScheme) (zs : List JudgmentScheme)
        → AllZip (ReadsOnlyAs sys.now.sig sys.now.judgments (record { root = Closed; metas = (sorted.of_inputs ++ sorted.further) ++ sorted.unread; knowns = [] })) (map (λ named. map kind_and_text named.form.now) inputs.now) js
        → AllZip (ReadsOnlyAs sys.now.sig sys.now.judgments (record { root = Closed; metas = (sorted.of_inputs ++ sorted.further) ++ sorted.unread; knowns = [] })) (map (λ form. map kind_and_text form.now) outputs.now) zs → ⊥)
        (λ st. (js : List JudgmentScheme) × (zs : List JudgmentScheme)
        × (plain_statement st ≡ record {
          name = name.now.text.now;
          scope = record { root = Closed; metas = sorted.of_inputs ++ sorted.further; knowns = [] };
          inputs = map given js;
          outputs = zs;
          targets = [];
          group = group;
        })
        × AllZip (ReadsOnlyAs sys.now.sig sys.now.judgments (record { root = Closed; metas = (sorted.of_inputs ++ sorted.further) ++ sorted.unread; knowns = [] })) (map (λ named. map kind_and_text named.form.now) inputs.now) js
        × AllZip (ReadsOnlyAs sys.now.sig sys.now.judgments (record { root = Closed; metas = (sorted.of_inputs ++ sorted.further) ++ sorted.unread; knowns = [] })) (map (λ form. map kind_and_text form.now) outputs.now) zs)) }
{
    let Sorted {
        of_inputs,
        further,
        unread,
    } = sorted;
    let used = with_more(alloc, of_inputs.as_slice(), further)?;
    let scope = scope_of(alloc, with_more(alloc, used.as_slice(), unread)?);
    match parts_of(alloc, sys, &scope, inputs, outputs)? {
        Some(parts) => Ok(Some(made(alloc, group, name, used, parts)?)),
        None => Ok(None),
    }
}

/// The statement of a theorem on derivations alone, which has no root and no targets.
fn statement_of(
    alloc: Global,
    sys: &System,
    group: usize,
    name: Name<'_>,
    inputs: &[NamedForm<'_>],
    outputs: &[Form<'_>],
) -> Result<Option<Statement>, NoMemory>
    requires { IsBareTheory (theory sys.now) }
    ensures { IfOk result (λ found. MatchOption found
        ((st : Theorem) → IsBuiltTheorem (theory sys.now) (bare_text group name.now.text.now (map given_text inputs.now) (map (λ form. map kind_and_text form.now) outputs.now)) st → ⊥)
        (λ st. IsBuiltTheorem (theory sys.now) (bare_text group name.now.text.now (map given_text inputs.now) (map (λ form. map kind_and_text form.now) outputs.now)) (plain_statement st))) }
{
    if !names_fit(sys.sig(), inputs) {
        return Ok(None);
    }
    let metas = names_of(alloc, sys.sig(), inputs, outputs)?;
    let scope = scope_of(alloc, metas);
    match parts_of(alloc, sys, &scope, inputs, outputs)? {
        Some(parts) => {
            let metas = metas_of(scope);
            let sorted = sort_names(alloc, sys.sig(), metas.as_slice(), &parts, inputs, outputs)?;
            statement_over(alloc, sys, group, name, inputs, outputs, sorted)
        }
        None => Ok(None),
    }
}

/// The statement of a theorem without a root and targets. One with an input that is a term is not built yet.
fn theorem_of(
    alloc: Global,
    sys: &System,
    group: usize,
    name: Name<'_>,
    inputs: &[InputText<'_>],
    outputs: &[Form<'_>],
) -> Result<Option<Statement>, NoMemory>
    requires { IsBareTheory (theory sys.now) }
    ensures { IfOk result (λ found. MatchOption found
        ((st : Theorem) → IsBuiltTheorem (theory sys.now) (bare_text group name.now.text.now (map input_text inputs.now) (map (λ form. map kind_and_text form.now) outputs.now)) st → ⊥)
        (λ st. IsBuiltTheorem (theory sys.now) (bare_text group name.now.text.now (map input_text inputs.now) (map (λ form. map kind_and_text form.now) outputs.now)) (plain_statement st))) }
{
    match given_of(alloc, inputs)? {
        Some(given) => statement_of(alloc, sys, group, name, given.as_slice(), outputs),
        None => Ok(None),
    }
}

/// The number of the theorem's group, where so many groups stand before it.
fn group_of(groups: usize, joined: bool) -> usize
    ensures { result ≡ group_of groups joined }
{
    if joined {
        groups.saturating_sub(1)
    } else {
        groups
    }
}

/// The number of groups up to a portion.
fn groups_after(groups: usize, portion: &Portion<'_>) -> Result<usize, NoMemory>
    ensures { IfOk result (λ n. n ≡ groups_after groups (plain_portion (portion_view portion.now))) }
{
    match portion {
        Portion::Theorem { joined, .. } => match group_of(groups, *joined).checked_add(1) {
            Some(next) => Ok(next),
            None => Err(NoMemory),
        },
        _ => Ok(groups),
    }
}

fn alone(alloc: Global, statement: Statement) -> Result<Vec<Statement>, NoMemory>
    ensures { IfOk result (λ all. all.items ≡ statement ∷ []) }
{
    let mut all = Vec::new(alloc);
    all.push(statement)?;
    Ok(all)
}

/// Whether the portion is no step by induction, which makes its subject a target.
fn names_no_target(portion: &Portion<'_>) -> bool
    ensures { IsTrue result ↔ (target_in (plain_portion (portion_view portion.now)) ≡ []) }
{
    match portion {
        Portion::Step { just, .. } => match just {
            Just::Induction(_) => false,
            _ => true,
        },
        _ => true,
    }
}

/// Whether the proof at the front of the portions does not begin with a step by induction.
fn begins_without_target(rest: &[Portion<'_>]) -> bool
    ensures { IsTrue result ↔ (first_target (map (λ portion. plain_portion (portion_view portion)) rest.now) ≡ []) }
{
    if rest.len() == 0 {
        return true;
    }
    names_no_target(&rest[0])
}

/// The statement of the portion, alone, or none where it is no theorem. A theorem with a root or targets is not built yet.
fn stated(
    alloc: Global,
    sys: &System,
    groups: usize,
    portion: &Portion<'_>,
    rest: &[Portion<'_>],
) -> Result<Option<Vec<Statement>>, NoMemory>
    requires { IsBareTheory (theory sys.now) }
    ensures { IfOk result (λ found. MatchOption found
        ((sts : List Theorem) → AllZip (IsBuiltTheorem (theory sys.now)) (theorem_in groups (plain_portion (portion_view portion.now))
        (map (λ portion. plain_portion (portion_view portion)) rest.now)) sts → ⊥)
        (λ sts. AllZip (IsBuiltTheorem (theory sys.now)) (theorem_in groups (plain_portion (portion_view portion.now))
        (map (λ portion. plain_portion (portion_view portion)) rest.now)) (map plain_statement sts.items))) }
{
    match portion {
        Portion::Theorem {
            joined,
            name,
            assumes,
            inputs,
            outputs,
            targets,
            ..
        } => {
            if assumes.is_some() {
                return Ok(None);
            }
            if targets.len() != 0 {
                return Ok(None);
            }
            if !begins_without_target(rest) {
                return Ok(None);
            }
            let group = group_of(groups, *joined);
            match theorem_of(
                alloc,
                sys,
                group,
                name,
                inputs.as_slice(),
                outputs.as_slice(),
            )? {
                Some(statement) => Ok(Some(alone(alloc, statement)?)),
                None => Ok(None),
            }
        }
        _ => Ok(Some(Vec::new(alloc))),
    }
}

fn join(all: &mut Vec<Statement>, mut more: Vec<Statement>) -> Result<(), NoMemory>
    ensures { OnOk result (all.new.items ≡ all.old.items ++ more.items) }
{
    all.append(&mut more)?;
    Ok(())
}

/// The statements of the portions.
fn all_stated(
    alloc: Global,
    outline: &Outline<'_>,
    sys: &System,
) -> Result<Option<Vec<Statement>>, NoMemory>
    requires { IsBareTheory (theory sys.now) }
    ensures { IfOk result (λ found. MatchOption found
        ((sts : List Theorem) → AllZip (IsBuiltTheorem (theory sys.now)) (theorems_in 0 (outlined outline.now)) sts → ⊥)
        (λ sts. AllZip (IsBuiltTheorem (theory sys.now)) (theorems_in 0 (outlined outline.now)) (map plain_statement sts.items))) }
{
    let mut all = Vec::new(alloc);
    let mut groups = 0;
    let portions = outline.parts.as_slice();
    for i in 0..portions.len() {
        let portion = &portions[i];
        match stated(alloc, sys, groups, portion, &portions[i + 1..])? {
            Some(more) => join(&mut all, more)?,
            None => return Ok(None),
        }
        groups = groups_after(groups, portion)?;
    }
    Ok(Some(all))
}

/// The statements for which the theorems of the outline stand over the system of its judgments and rules, as far as is built. `None`
/// where there are none: the statement of a theorem is faulty, or not built yet.
pub fn statements_of(
    alloc: Global,
    outline: &Outline<'_>,
    sys: &System,
) -> Result<Option<Vec<Statement>>, NoMemory>
    requires { IsBareTheory (theory sys.now) }
    ensures { IfOk result (λ found. MatchOption found
        ((sts : List Theorem) → AreStatementsOf (outlined outline.now) (theory sys.now) sts → AllByRecursion IsBareStatement sts → ⊥)
        (λ sts. AreStatementsOf (outlined outline.now) (theory sys.now) (map plain_statement sts.items)
        × AllByRecursion IsBareStatement (map plain_statement sts.items)
        × ((others : List Theorem) → AreStatementsOf (outlined outline.now) (theory sys.now) others
        → AllByRecursion IsBareStatement others → others ≡ map plain_statement sts.items))) }
{
    if !named_apart(Declares::Theorem, outline.parts.as_slice()) {
        return Ok(None);
    }
    all_stated(alloc, outline, sys)
}
