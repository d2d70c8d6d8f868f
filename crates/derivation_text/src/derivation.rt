ghost use Rattle.std.specs.Prelude.{◌≡◌, ◌+◌, ◌++◌, IfOk, OnOk, Some};
ghost use Rattle.std.specs.Option.{option_copied};
ghost use Rattle.rule_schemes.specs.Derivation.{judgment, size};
ghost use Rattle.rule_schemes.specs.View.{theory};
ghost use Rattle.derivation_check.specs.Parts.{rule_of, subtrees_of};
ghost use Rattle.derivation_text.specs.Text.{all_lines, context_line, derivations_text, further_names, line, line_name, lines, names_after, numbers, rule_name};
ghost use Rattle.scheme_terms.specs.View.{context_value};
ghost use Rattle.derivation_text.specs.View.{root_value};

use crate::context::write_value;
use crate::judgment::judgment_text;
use crate::page::Page;
use binding_terms::{NoMemory, Sig, Text};
use derivation_check::Deriv;
use itoa::Buffer;
use rule_schemes::{RuleId, System};
use scheme_terms::CtxValue;
use sqlite_items::at;
use std::alloc::Global;

/// Appends the name of the line with that number, which counts from 1.
fn push_name(text: &mut Text, number: u64) -> Result<(), NoMemory>
    ensures { OnOk result (text.new ≡ text.old ++ line_name number) }
{
    let mut digits = Buffer::new();
    text.push(b"d")?;
    text.push(digits.format(number).as_bytes())?;
    Ok(())
}

/// Appends the names of lines with commas after a word, or nothing where there is no line.
fn push_names(text: &mut Text, word: &[u8], lines: &[u64]) -> Result<(), NoMemory>
    ensures { OnOk result (text.new ≡ text.old ++ names_after word.now lines.now) }
{
    if lines.len() == 0 {
        return Ok(());
    }
    text.push(word)?;
    push_name(text, lines[0])?;
    push_further(text, &lines[1..])?;
    Ok(())
}

/// Appends the names of further lines, each after a comma.
fn push_further(text: &mut Text, lines: &[u64]) -> Result<(), NoMemory>
    ensures { OnOk result (text.new ≡ text.old ++ further_names lines.now) }
{
    for line in lines {
        text.push(b", ")?;
        push_name(text, *line)?;
    }
    Ok(())
}

/// The name of a rule, empty where it is out of range.
fn rule_name(sys: &System, rule: RuleId) -> &[u8]
    ensures { result.now ≡ rule_name (theory sys.now) rule.0 }
{
    match at(sys.rules().as_slice(), rule.0 as usize) {
        Some(rule) => rule.name.bytes(),
        None => b"",
    }
}

/// Appends the line of a tree's root, with that number, over the lines of its premises.
fn push_line(
    alloc: Global,
    text: &mut Text,
    sys: &System,
    root: Option<&CtxValue>,
    number: u64,
    tree: &Deriv,
    premises: &[u64],
) -> Result<(), NoMemory>
    ensures { OnOk result (text.new ≡ text.old
        ++ line (theory sys.now) (root_value (option_copied root.entry)) number (judgment tree.now) (rule_of tree.now) premises.now) }
{
    let judgment = judgment_text(alloc, sys, root, tree.conclusion())?;
    push_name(text, number)?;
    text.push(b": ")?;
    text.push(judgment.bytes())?;
    text.push(b" by rule ")?;
    text.push(rule_name(sys, tree.rule()))?;
    push_names(text, b" on ", premises)?;
    text.push(b"\n")?;
    Ok(())
}

/// One more than the number.
fn next(number: u64) -> Result<u64, NoMemory>
    ensures { IfOk result (λ n. n ≡ number + 1) }
{
    number.checked_add(1).ok_or(NoMemory)
}

/// Appends the lines of a tree after so many lines, and answers the number of its last line.
#[cycle(push_tree)]
fn push_tree(
    alloc: Global,
    text: &mut Text,
    sys: &System,
    root: Option<&CtxValue>,
    before: u64,
    tree: &Deriv,
) -> Result<u64, NoMemory>
    ensures number { IfOk result (λ n. n ≡ before + size tree.now) }
    ensures text { OnOk result (text.new ≡ text.old
        ++ lines (theory sys.now) (root_value (option_copied root.entry)) before tree.now) }
{
    let mut last = before;
    let mut premises = Vec::new(alloc);
    for i in 0..tree.premises() {
        last = push_tree(alloc, text, sys, root, last, tree.premise(i))?;
        premises.push(last)?;
    }
    let number = next(last)?;
    push_line(alloc, text, sys, root, number, tree, premises.as_slice())?;
    Ok(number)
}

/// Appends the lines of trees one after another, and answers the numbers of their last lines.
fn push_trees(
    alloc: Global,
    text: &mut Text,
    sys: &System,
    root: Option<&CtxValue>,
    trees: &[Deriv],
) -> Result<Vec<u64>, NoMemory>
    ensures numbers { IfOk result (λ ns. ns.items ≡ numbers 0 (subtrees_of trees.now)) }
    ensures text { OnOk result (text.new ≡ text.old
        ++ all_lines (theory sys.now) (root_value (option_copied root.entry)) 0 (subtrees_of trees.now)) }
{
    let mut last = 0;
    let mut numbers = Vec::new(alloc);
    for tree in trees {
        last = push_tree(alloc, text, sys, root, last, tree)?;
        numbers.push(last)?;
    }
    Ok(numbers)
}

/// The line with the value of the context, empty where there is none.
fn context_line(alloc: Global, sig: &Sig, root: Option<&CtxValue>) -> Result<Text, NoMemory>
    ensures { IfOk result (λ text. text ≡ context_line sig.now (root_value (option_copied root.entry))) }
{
    match root {
        Some(value) => value_line(alloc, sig, value),
        None => Ok(Text::new(alloc)),
    }
}

/// The line with the value of the context.
fn value_line(alloc: Global, sig: &Sig, value: &CtxValue) -> Result<Text, NoMemory>
    ensures { IfOk result (λ text. text ≡ context_line sig.now (Some (context_value value.now))) }
{
    let mut page = Page::new(alloc);
    write_value(&mut page, sig, value)?;
    let mut text = Text::new(alloc);
    text.push(b"context ")?;
    text.push(page.text.bytes())?;
    text.push(b"\n")?;
    Ok(text)
}

/// The text of derivations: the value of the context where there is one, a line for each node in post-order with the premises from the
/// first, and last the names of the derivations. A subtree that stands in several places is written at each.
pub fn print_derivs(
    alloc: Global,
    sys: &System,
    ctx: Option<&CtxValue>,
    derivs: &Vec<Deriv>,
) -> Result<Text, NoMemory>
    ensures { IfOk result (λ text. text ≡ derivations_text (theory sys.now) (root_value (option_copied ctx.entry)) derivs.now.items) }
{
    let mut text = context_line(alloc, sys.sig(), ctx)?;
    let numbers = push_trees(alloc, &mut text, sys, ctx, derivs.as_slice())?;
    text.push(b"gives")?;
    push_names(&mut text, b" ", numbers.as_slice())?;
    text.push(b"\n")?;
    Ok(text)
}
