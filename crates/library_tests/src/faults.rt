// Faults that no run of the program shows yet, since a form that is not built stands before them.
use crate::sources::LONGEST;
use outline_reader::{
    Limit, Outline, OutlineFault, Part, fields_are_found, outline, portions_are_filled,
    portions_are_unique,
};
use proof_lexer::{Token, lex};
use std::alloc::Global;
use std::test::Fail;
use sy_base::{Fault, Refusal};
use user_grammar::{faulty_files_have_no_signature, grammar, signatures_are_unique};

fn tokens_fault(alloc: Global, tokens: &Vec<Token<'_>>) -> Option<OutlineFault> {
    match outline(alloc, tokens) {
        Ok(_) => None,
        Err(fault) => Some(fault),
    }
}

/// The first fault of the outline of a text, or none.
fn outline_fault(alloc: Global, source: &str) -> Option<OutlineFault> {
    if LONGEST < source.len() {
        return None;
    }
    match lex(alloc, source.as_bytes()) {
        Ok(tokens) => tokens_fault(alloc, &tokens),
        Err(_) => None,
    }
}

const OUTLINES: [(&str, Option<OutlineFault>); 10] = [
    (
        "judgment j: a assumes\nG",
        Some(OutlineFault::Unexpected(5)),
    ),
    (
        "theorem t: exists a.\nd: a by induction on d:\nend induction\ne: a by induction on",
        Some(OutlineFault::Unexpected(21)),
    ),
    (
        "theorem t: exists a.\nuse induction on d\nd: a by induction on",
        Some(OutlineFault::Unexpected(15)),
    ),
    (
        "theorem t: exists a.\nproof by case analysis on d:\nend case",
        Some(OutlineFault::MissingEnd(3, Part::CaseAnalysis)),
    ),
    (
        "theorem t: exists a.\nproof by case analysis on d:\ncase x is\nend",
        Some(OutlineFault::MissingEnd(4, Part::Case)),
    ),
    (
        "theorem t: exists a.\nproof by case analysis on d:\ncase x is y",
        Some(OutlineFault::Unexpected(16)),
    ),
    (
        "theorem t: exists a.\ninversion on d\n---- r\nx: c",
        Some(OutlineFault::MissingEnd(4, Part::Inversion)),
    ),
    (
        "theorem t: exists a.\ninversion on d\n---- r\nx: c\nis",
        Some(OutlineFault::MissingEnd(5, Part::Theorem)),
    ),
    (
        "theorem t: exists a.\ninversion on d\n---- r\nx: c\nis x",
        Some(OutlineFault::Unexpected(15)),
    ),
    (
        "theorem t: assumes G forall n exists a.\nproof by case analysis on d:\ncase x assumes G is\nend case\nend case analysis\nend theorem",
        None,
    ),
];

#[test]
fn outlines_have_their_first_faults(rt: HostRuntime) -> Result<(), Fail> {
    for (source, fault) in OUTLINES {
        assert_eq!(rt; outline_fault(rt.alloc(), source), fault, "of {source}");
    }
    Ok(())
}

#[test]
fn cases_nest_64_levels(rt: HostRuntime) -> Result<(), Fail> {
    let alloc = rt.alloc();
    let mut source = String::from_str(alloc, "theorem t: exists a.\n")?;
    for _ in 0..64 {
        source.push_str("proof by case analysis on d:\ncase x is\n")?;
    }
    let ended = Some(OutlineFault::MissingEnd(129, Part::Case));
    assert_eq!(rt; outline_fault(alloc, source.as_str()), ended);
    source.push_str("proof by case analysis on d:\ncase x is\n")?;
    let passed = Some(OutlineFault::TooMany(130, Limit::Levels));
    assert_eq!(rt; outline_fault(alloc, source.as_str()), passed);
    Ok(())
}

fn outline_grammar_fault(alloc: Global, outline: &Outline<'_>) -> Option<Fault> {
    match grammar(alloc, outline) {
        Err(Refusal::Refused(fault)) => Some(fault),
        _ => None,
    }
}

fn tokens_grammar_fault(alloc: Global, tokens: &Vec<Token<'_>>) -> Option<Fault> {
    match outline(alloc, tokens) {
        Ok(outline) => outline_grammar_fault(alloc, &outline),
        Err(_) => None,
    }
}

/// The first fault of the grammar of a text that has an outline, or none.
fn grammar_fault(alloc: Global, source: &str) -> Option<Fault> {
    if LONGEST < source.len() {
        return None;
    }
    match lex(alloc, source.as_bytes()) {
        Ok(tokens) => tokens_grammar_fault(alloc, &tokens),
        Err(_) => None,
    }
}

/// Texts with a fault of a context category, or behind `assumes`: the line, the code and the detail.
const GRAMMARS: [(&str, u32, &str, &str); 11] = [
    ("judgment j: a assumes G", 1, "UnknownWord", "G"),
    (
        "syntax\nG ::= +\njudgment j: a\nassumes G1",
        4,
        "UnknownWord",
        "G1",
    ),
    (
        "syntax\nt ::= x\nG ::= * | G, x | g\njudgment j: G assumes G",
        3,
        "BadContext",
        "G",
    ),
    (
        "syntax\nt ::= x\nG ::= * | + | G, x\njudgment j: G assumes G",
        3,
        "BadContext",
        "G",
    ),
    (
        "syntax\nt ::= x\nG ::= G, x\njudgment j: G assumes G",
        3,
        "BadContext",
        "G",
    ),
    (
        "syntax\nt ::= x\nG ::= * | G, x, x1\njudgment j: G assumes G",
        3,
        "BadContext",
        "G",
    ),
    (
        "syntax\nt ::= x\nG ::= * | x, G\njudgment j: G assumes G",
        3,
        "BadContext",
        "G",
    ),
    (
        "syntax\nt ::= x\nG ::= * | G, x : t[x]\njudgment j: G assumes G",
        3,
        "BadContext",
        "G",
    ),
    (
        "syntax\nt ::= x | + G\nG ::= * | G, x\njudgment j: G assumes G",
        3,
        "BadContext",
        "G",
    ),
    (
        "syntax\nG\n::= G, x\nt ::= x\njudgment j: G assumes G",
        3,
        "BadContext",
        "G",
    ),
    (
        "syntax\nG\n::= | G, x\nt ::= x\njudgment j: G assumes G",
        2,
        "EmptyProduction",
        "G",
    ),
];

#[test]
fn contexts_have_their_first_faults(rt: HostRuntime) -> Result<(), Fail> {
    for (source, line, code, detail) in GRAMMARS {
        let Some(fault) = grammar_fault(rt.alloc(), source) else {
            return Err(Fail::from("a grammar without a fault"));
        };
        assert_eq!(rt; fault.line, line, "of {source}");
        assert_eq!(rt; fault.code.name(), code, "of {source}");
        assert_eq!(rt; fault.detail.bytes(), detail.as_bytes(), "of {source}");
    }
    Ok(())
}

#[test]
fn laws_are_called() {
    portions_are_unique();
    portions_are_filled();
    fields_are_found();
    signatures_are_unique();
    faulty_files_have_no_signature();
}
