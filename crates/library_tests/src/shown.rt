// What a form reads as, as a text.
use notation_parser::{Reading, Said, Written};
use rule_schemes::JScheme;
use scheme_terms::{KnownDecl, MetaDecl, Root, SArg, SCtx, SEntry, Scheme};
use std::alloc::{AllocError, Global};

fn add_number(
    alloc: Global,
    out: &mut String,
    sign: &str,
    number: usize,
) -> Result<(), AllocError> {
    let digits = format!(in alloc; "{sign}{number}")?;
    out.push_str(digits.as_str())
}

#[cycle(shown)]
fn add_parts(alloc: Global, out: &mut String, parts: &[SArg]) -> Result<(), AllocError> {
    for part in parts {
        add_number(alloc, out, "(", part.binds)?;
        out.push_str(" ")?;
        add_scheme(alloc, out, &part.body)?;
        out.push_str(")")?;
    }
    Ok(())
}

#[cycle(shown)]
fn add_schemes(alloc: Global, out: &mut String, schemes: &[Scheme]) -> Result<(), AllocError> {
    for scheme in schemes {
        out.push_str("[")?;
        add_scheme(alloc, out, scheme)?;
        out.push_str("]")?;
    }
    Ok(())
}

/// A scheme: `m` and a number is a metavariable with its arguments in brackets, `l` a local, `k` a known variable, and `c` a production
/// with its parts, each behind the number of variables that it binds.
#[cycle(shown)]
fn add_scheme(alloc: Global, out: &mut String, scheme: &Scheme) -> Result<(), AllocError> {
    match scheme {
        Scheme::Meta(id, args) => {
            add_number(alloc, out, "m", id.0 as usize)?;
            add_schemes(alloc, out, args.as_slice())
        }
        Scheme::Known(number) => add_number(alloc, out, "k", *number as usize),
        Scheme::Local(number) => add_number(alloc, out, "l", *number),
        Scheme::Con(id, parts) => {
            add_number(alloc, out, "c", id.0 as usize)?;
            add_parts(alloc, out, parts.as_slice())
        }
    }
}

fn add_entry(alloc: Global, out: &mut String, entry: &SEntry) -> Result<(), AllocError> {
    add_number(alloc, out, ", p", entry.prod.0 as usize)?;
    add_schemes(alloc, out, entry.args.as_slice())
}

fn add_context(alloc: Global, out: &mut String, ctx: &SCtx) -> Result<(), AllocError> {
    out.push_str(match ctx.root {
        Root::Closed => "closed",
        Root::Empty(_) => "empty",
        Root::Whole(_) => "whole",
    })?;
    for entry in ctx.entries.as_slice() {
        add_entry(alloc, out, entry)?;
    }
    Ok(())
}

fn add_judgment(alloc: Global, out: &mut String, judgment: &JScheme) -> Result<(), AllocError> {
    add_number(alloc, out, "j", judgment.judgment.0 as usize)?;
    out.push_str(" ")?;
    add_context(alloc, out, &judgment.ctx)?;
    out.push_str(" ")?;
    add_schemes(alloc, out, judgment.args.as_slice())
}

fn add_written(alloc: Global, out: &mut String, written: &Written) -> Result<(), AllocError> {
    match written {
        Written::Term(scheme) => add_scheme(alloc, out, scheme),
        Written::Judgment(judgment) => add_judgment(alloc, out, judgment),
        Written::Context(ctx) => add_context(alloc, out, ctx),
    }
}

/// A name, its category and in brackets the categories of its parameters.
fn add_meta(alloc: Global, out: &mut String, meta: &MetaDecl) -> Result<(), AllocError> {
    let name = String::from_utf8_lossy(alloc, meta.name.bytes())?;
    out.push_str("; ")?;
    out.push_str(name.as_str())?;
    add_number(alloc, out, "/", meta.cat.0 as usize)?;
    for cat in meta.params.as_slice() {
        add_number(alloc, out, "[", cat.0 as usize)?;
        out.push_str("]")?;
    }
    Ok(())
}

/// The new metavariables, and the known variables with their entries.
fn add_names(
    alloc: Global,
    out: &mut String,
    metas: &[MetaDecl],
    knowns: &[KnownDecl],
) -> Result<(), AllocError> {
    for meta in metas {
        add_meta(alloc, out, meta)?;
    }
    for known in knowns {
        let name = String::from_utf8_lossy(alloc, known.name.bytes())?;
        out.push_str("; ")?;
        out.push_str(name.as_str())?;
        add_entry(alloc, out, &known.entry)?;
    }
    Ok(())
}

fn add_said(alloc: Global, out: &mut String, said: &Said) -> Result<(), AllocError> {
    add_written(alloc, out, &said.written)?;
    add_names(alloc, out, said.metas.as_slice(), said.knowns.as_slice())
}

/// A reading: `none`, what was read with the names that it brings, or the first two.
pub(crate) fn reading_told(alloc: Global, reading: &Reading) -> Result<String, AllocError> {
    let mut out = String::new(alloc);
    match reading {
        Reading::One(written, metas, knowns) => {
            add_written(alloc, &mut out, written)?;
            add_names(alloc, &mut out, metas.as_slice(), knowns.as_slice())?;
        }
        Reading::NoReading => out.push_str("none")?,
        Reading::Ambiguous(one, other) => {
            add_said(alloc, &mut out, one)?;
            out.push_str(" / ")?;
            add_said(alloc, &mut out, other)?;
        }
        Reading::TooLong(count) => add_number(alloc, &mut out, "too long: ", *count)?,
    }
    Ok(out)
}
