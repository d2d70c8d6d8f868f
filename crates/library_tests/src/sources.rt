// Grammars as signatures.
use binding_terms::Sig;
use outline_reader::{Outline, outline};
use proof_lexer::{Token, lex};
use std::alloc::Global;
use user_grammar::grammar;

/// The longest text that is read.
pub(crate) const LONGEST: usize = 1 << 20;

fn outline_signature(alloc: Global, outline: &Outline<'_>) -> Option<Sig> {
    match grammar(alloc, outline) {
        Ok(sig) => Some(sig),
        Err(_) => None,
    }
}

fn tokens_signature(alloc: Global, tokens: &Vec<Token<'_>>) -> Option<Sig> {
    match outline(alloc, tokens) {
        Ok(outline) => outline_signature(alloc, &outline),
        Err(_) => None,
    }
}

/// The signature of a grammar.
pub(crate) fn signature(alloc: Global, source: &str) -> Option<Sig> {
    if LONGEST < source.len() {
        return None;
    }
    match lex(alloc, source.as_bytes()) {
        Ok(tokens) => tokens_signature(alloc, &tokens),
        Err(_) => None,
    }
}
