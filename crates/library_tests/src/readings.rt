// The readings of forms with binders, contexts, known variables and new names, as texts.
use crate::shown::reading_told;
use crate::sources::{LONGEST, signature};
use binding_terms::{CatId, Item, NoMemory, ProdId, Sig, Text};
use notation_parser::{Fresh, ReadScope, Want, is_readable, read};
use proof_lexer::{Token, lex};
use rule_schemes::Judgment;
use scheme_terms::{KnownDecl, MetaDecl, MetaId, Root, SEntry, Scheme, Scope};
use sqlite_items::Items;
use std::alloc::{AllocError, Global};
use std::test::Fail;

/// Functions over types, with contexts: the categories are T, t and Gamma, and the productions `unit` (0) and `T -> T` (1),
/// `fn x : T => t[x]` (2), `t t` (3) and `unit` (4), `*` (5) and `Gamma, x : T` (6).
const FUNCTIONS: &str = "terminals fn unit
syntax
T ::= unit | T -> T
t ::= fn x : T => t[x] | t t | x | unit
Gamma ::= * | Gamma, x : T
";

/// Functions over types and over terms, with contexts: the categories are T, t and Gamma, and the productions `T -> T` (0),
/// `fn x : T => t[x]` (1), `poly X => t[X]` (2), `*` (3) and `Gamma, x : T` (4).
const POLYMORPHIC: &str = "terminals fn poly
syntax
T ::= X | T -> T
t ::= x | fn x : T => t[x] | poly X => t[X]
Gamma ::= * | Gamma, x : T
";

/// Contexts whose entries may be told apart in two ways: the categories are T, t and Gamma, and the productions `!` (0), `"x8"` (1),
/// `"x9"` (2), `*` (3), `Gamma, x t` (4) and `Gamma, t x` (5).
const TWO_WAYS: &str = "syntax
T ::= !
t ::= x | \"x8\" | \"x9\"
Gamma ::= * | Gamma, x t | Gamma, t x
";

/// The names before a form: metavariables with their category and how many parameters they have, each of t; variables with their
/// category; and whether there is a known variable `x` with the entry `x : T`, of the metavariable 0.
type Names = (
    &'static [(&'static str, u32, usize)],
    &'static [(&'static str, u32)],
    bool,
);

const NO_NAMES: Names = (&[], &[], false);

/// The metavariables T, `t` with two parameters and `x9` (0 to 2), and the variable `x9`.
const OLD: Names = (
    &[("T", 0, 0), ("t", 1, 2), ("x9", 1, 0)],
    &[("x9", 1)],
    false,
);

/// The metavariables T and T1 (0 and 1), and the known variable (0).
const KNOWN: Names = (&[("T", 0, 0), ("T1", 0, 0)], &[], true);

/// The metavariable T (0), and the variables `t9` of t and `t8` of T, which stand for the locals 1 and 0.
const NEW: Names = (&[("T", 0, 0)], &[("t9", 1), ("t8", 0)], false);

fn metas_of(
    alloc: Global,
    names: &[(&'static str, u32, usize)],
) -> Result<Items<MetaDecl>, NoMemory> {
    let mut metas = Items::new(alloc);
    for (name, cat, params) in names {
        let mut cats = Items::new(alloc);
        for _ in 0..*params {
            cats.push(CatId(1))?;
        }
        metas.push(MetaDecl {
            name: Text::of(alloc, name.as_bytes())?,
            cat: CatId(*cat),
            params: cats,
        })?;
    }
    Ok(metas)
}

fn knowns_of(alloc: Global, is_known: bool) -> Result<Items<KnownDecl>, NoMemory> {
    let mut knowns = Items::new(alloc);
    if is_known {
        let mut args = Items::new(alloc);
        args.push(Scheme::Meta(MetaId(0), Items::new(alloc)))?;
        knowns.push(KnownDecl {
            name: Text::of(alloc, b"x")?,
            entry: SEntry {
                prod: ProdId(6),
                args,
            },
        })?;
    }
    Ok(knowns)
}

/// A scope with these names, and the root Gamma.
fn scope(alloc: Global, names: &Names, fresh: Fresh) -> Result<ReadScope, NoMemory> {
    let (metas, variables, is_known) = names;
    let mut vars = Items::new(alloc);
    for (name, cat) in *variables {
        vars.push((Text::of(alloc, name.as_bytes())?, CatId(*cat)))?;
    }
    Ok(ReadScope {
        scope: Scope {
            root: Root::Whole(CatId(2)),
            metas: metas_of(alloc, metas)?,
            knowns: knowns_of(alloc, *is_known)?,
        },
        vars,
        fresh,
    })
}

/// The form of a judgment: `T`, `t` and `Gamma` are slots, any other word is a terminal.
fn items(alloc: Global, words: &[&str]) -> Result<Items<Item>, NoMemory> {
    let mut items = Items::new(alloc);
    for word in words {
        let slot = match *word {
            "T" => Some(0),
            "t" => Some(1),
            "Gamma" => Some(2),
            _ => None,
        };
        items.push(match slot {
            Some(cat) => Item::Slot {
                cat: CatId(cat),
                binds: Items::new(alloc),
            },
            None => Item::Word {
                text: Text::of(alloc, word.as_bytes())?,
                quoted: false,
            },
        })?;
    }
    Ok(items)
}

/// The judgments `Gamma |- t : T`, `t value`, `t : T in Gamma` and `t in Gamma` (0 to 3).
fn judgments(alloc: Global) -> Result<Vec<Judgment>, NoMemory> {
    let forms: [(&[&str], Option<CatId>); 4] = [
        (&["Gamma", "|-", "t", ":", "T"], Some(CatId(2))),
        (&["t", "value"], None),
        (&["t", ":", "T", "in", "Gamma"], Some(CatId(2))),
        (&["t", "in", "Gamma"], Some(CatId(2))),
    ];
    let mut all = Vec::new(alloc);
    for (words, ctx) in forms {
        all.push(Judgment {
            name: Text::of(alloc, b"judgment")?,
            ctx,
            items: items(alloc, words)?,
        })?;
    }
    Ok(all)
}

/// How the tokens read over these judgments and names, as a text.
fn over_told(
    alloc: Global,
    sig: &Sig,
    judgments: &Vec<Judgment>,
    scope: &ReadScope,
    want: Want,
    tokens: &[Token<'_>],
) -> Result<String, AllocError> {
    if is_readable(scope) {
        return match read(alloc, sig, judgments, scope, want, tokens) {
            Ok(reading) => reading_told(alloc, &reading),
            Err(_) => String::from_str(alloc, "no memory"),
        };
    }
    String::from_str(alloc, "not readable")
}

/// How a form reads over a grammar, the judgments and a scope, as a text.
fn told(
    alloc: Global,
    grammar: &str,
    scope: &ReadScope,
    want: Want,
    form: &str,
) -> Result<String, Fail> {
    let Some(sig) = signature(alloc, grammar) else {
        return Err(Fail::from("no signature"));
    };
    if LONGEST < form.len() {
        return Err(Fail::from("a long form"));
    }
    let all = judgments(alloc)?;
    match lex(alloc, form.as_bytes()) {
        Ok(tokens) => Ok(over_told(alloc, &sig, &all, scope, want, tokens.as_slice())?),
        Err(_) => Err(Fail::from("no tokens")),
    }
}

/// Forms of one grammar, and beside each what it reads as.
type Row = (&'static str, &'static str);

/// Forms with one scope: the grammar, the names, which names may be new, what the forms are to be, and the forms, each with what it reads as.
type Group = (&'static str, Names, Fresh, Want, &'static [Row]);

/// The first form that does not read as told and what it reads as, or nothing.
fn first_wrong(alloc: Global, group: &Group) -> Result<String, Fail> {
    let (grammar, names, fresh, want, rows) = group;
    let scope = scope(alloc, names, *fresh)?;
    for (form, expected) in *rows {
        let answer = told(alloc, grammar, &scope, *want, form)?;
        if answer.as_str() != *expected {
            return Ok(format!(in alloc; "{form} reads as {answer}")?);
        }
    }
    Ok(String::new(alloc))
}

const TERM: Want = Want::Term(CatId(1));

const CONTEXT: Want = Want::Context(CatId(2));

const TERMS: &[Row] = &[
    (
        "fn x : unit => fn x' : unit => t[x, x']",
        "c2(0 c0)(1 c2(0 c0)(1 m1[l1][l0]))",
    ),
    (
        "fn x : unit => fn x' : unit => t[x'][x]",
        "c2(0 c0)(1 c2(0 c0)(1 m1[l0][l1]))",
    ),
    ("fn x' : T => fn x' : T => x'", "c2(0 m0)(1 c2(0 m0)(1 l0))"),
    ("x9", "m2 / l0"),
    (
        "unit unit unit",
        "c3(0 c4)(0 c3(0 c4)(0 c4)) / c3(0 c3(0 c4)(0 c4))(0 c4)",
    ),
    ("t[x'][unit]", "none"),
];

const CONTEXTS: &[Row] = &[
    ("*", "empty"),
    ("Gamma, x : T, x' : T", "whole, p6[m0], p6[m0]"),
    ("Gamma, t : T", "none"),
    ("*, Gamma", "none"),
    ("Gamma', x : T", "none"),
];

const JUDGMENTS: &[Row] = &[
    ("Gamma |- x' : T", "none"),
    ("*, x' : T |- x' : T", "j0 empty, p6[m0] [l0][m0]"),
    (
        "Gamma, x' : unit, x'' : T |- t[x'', x'] : unit",
        "j0 whole, p6[c0], p6[m0] [m1[l0][l1]][c0]",
    ),
    ("Gamma |- x9 : T", "j0 whole [m2][m0] / j0 whole [l0][m0]"),
    ("fn x' : T => x' value", "j1 closed [c2(0 m0)(1 l0)]"),
];

const WITH_A_KNOWN_VARIABLE: &[Row] = &[
    ("Gamma', x : T |- x : T", "j0 whole [k0][m0]; x, p6[m0]"),
    ("Gamma', x : T1 |- x : T1", "none"),
    (
        "Gamma', x : T, x : T1 |- x : T1",
        "j0 whole, p6[m1] [l0][m1]; x, p6[m0]",
    ),
    ("*, x' : T1 |- x : T", "j0 empty, p6[m1] [k0][m0]"),
    ("x value", "j1 closed [k0]"),
    // The context stands behind.
    ("x' : T1 in Gamma, x' : T1", "j2 whole, p6[m1] [l0][m1]"),
    ("x' : T1 in Gamma, x'' : T1", "none"),
    ("x : T in Gamma', x : T", "j2 whole [k0][m0]; x, p6[m0]"),
    ("unit : T in *", "j2 empty [c4][m0]"),
];

const NEW_BESIDE_A_KNOWN_VARIABLE: &[Row] = &[
    (
        "Gamma', x : T |- t[x] : T2",
        "j0 whole [m2[k0]][m3]; t/1[1]; T2/0; x, p6[m0]",
    ),
    ("Gamma', x : T2 |- x : T2", "none"),
];

const HEADS_WITH_A_KNOWN_VARIABLE: &[Row] = &[
    ("Gamma', x : T1 |- x : T1", "j0 whole [k0][m1]; x, p6[m1]"),
    ("Gamma', x' : T |- x' : T", "j0 whole [k1][m0]; x', p6[m0]"),
    ("Gamma', x' : T |- x : T", "j0 whole [k0][m0]; x', p6[m0]"),
];

/// The slots before a context come first in the reading order.
const CONTEXTS_BEHIND: &[Row] = &[
    (
        "x8 in Gamma, x9 x8",
        "j3 whole, p5[c2] [l0] / j3 whole, p4[c1] [c1]",
    ),
    (
        "x9 in Gamma, x9 x8",
        "j3 whole, p4[c1] [l0] / j3 whole, p4[c1] [c2]",
    ),
];

const NEW_NAMES: &[Row] = &[
    ("t2 t1", "c3(0 m1)(0 m2); t2/1; t1/1"),
    (
        "t1 t2 t1",
        "c3(0 m1)(0 c3(0 m2)(0 m1)); t1/1; t2/1 / c3(0 c3(0 m1)(0 m2))(0 m1); t1/1; t2/1",
    ),
    (
        "fn x : T1 => fn x' : T => t[x, x']",
        "c2(0 m1)(1 c2(0 m0)(1 m2[l1][l0])); T1/0; t/1[1][1]",
    ),
    (
        "fn x : T => fn x' : T => t[x'][x]",
        "c2(0 m0)(1 c2(0 m0)(1 m1[l0][l1])); t/1[1][1]",
    ),
    (
        "fn x : T => t[unit] t[x]",
        "c2(0 m0)(1 c3(0 m1[c4])(0 m1[l0])); t/1[1]",
    ),
    ("fn x : T => x", "c2(0 m0)(1 l0)"),
    // An occurrence that tells nothing.
    ("t[]", "none"),
    ("fn x : T => t[x, x]", "none"),
    ("fn x : T => t[x x]", "none"),
    ("fn x : T => t t[x]", "none"),
    // A variable and a new name.
    ("t9", "m1; t9/1 / l1"),
    ("t9 t1", "c3(0 m1)(0 m2); t9/1; t1/1 / c3(0 l1)(0 m1); t1/1"),
    ("t8", "m1; t8/1"),
];

/// Parameters are of the categories of the arguments.
const PARAMETERS: &[Row] = &[
    (
        "poly X => fn x : X => t[X, x]",
        "c2(1 c1(0 l0)(1 m0[l1][l0])); t/1[0][1]",
    ),
    (
        "poly X => fn x : X => t[x][X]",
        "c2(1 c1(0 l0)(1 m0[l0][l1])); t/1[1][0]",
    ),
    (
        "fn x : T => poly X => t[X][x]",
        "c1(0 m0)(1 c2(1 m1[l0][l1])); T/0; t/1[0][1]",
    ),
];

/// No name is new where none may stand.
const NOTHING_NEW: &[Row] = &[
    ("poly X => fn x : X => t[X, x]", "none"),
    ("fn x : T => poly X => t[X][x]", "none"),
];

const HEADS: &[Row] = &[
    (
        "Gamma1, x' : T1 |- x' : T1",
        "j0 whole [k0][m1]; T1/0; x', p6[m1]",
    ),
    (
        "Gamma', x : T |- t[x] : T",
        "j0 whole [m1[k0]][m0]; t/1[1]; x, p6[m0]",
    ),
    (
        "Gamma', x : T, x' : T |- x : T",
        "j0 whole, p6[m0] [k0][m0]; x, p6[m0]",
    ),
    ("Gamma', x : T |- x' : T", "none"),
    ("Gamma' |- t : T", "none"),
    ("Gamma |- t : T", "j0 whole [m1][m0]; t/1"),
];

const CONTEXTS_OF_HEADS: &[Row] = &[
    ("Gamma', x : T -> T1", "whole; T1/0; x, p6[c1(0 m0)(0 m1)]"),
    ("Gamma', x : T, x : T", "whole, p6[m0]; x, p6[m0]"),
    (
        "Gamma, x : T2, x' : T1 -> T2",
        "whole, p6[m1], p6[c1(0 m2)(0 m1)]; T2/0; T1/0",
    ),
];

const OVER_NAMES: [Group; 5] = [
    (FUNCTIONS, OLD, Fresh::No, TERM, TERMS),
    (FUNCTIONS, OLD, Fresh::No, CONTEXT, CONTEXTS),
    (FUNCTIONS, OLD, Fresh::No, Want::Judgment, JUDGMENTS),
    (
        FUNCTIONS,
        KNOWN,
        Fresh::No,
        Want::Judgment,
        WITH_A_KNOWN_VARIABLE,
    ),
    (
        TWO_WAYS,
        NO_NAMES,
        Fresh::No,
        Want::Judgment,
        CONTEXTS_BEHIND,
    ),
];

#[test]
fn forms_read_over_their_names(rt: HostRuntime) -> Result<(), Fail> {
    for group in OVER_NAMES {
        let wrong = first_wrong(rt.alloc(), &group)?;
        assert_eq!(rt; wrong.as_str(), "");
    }
    Ok(())
}

const WITH_NEW_NAMES: [Group; 4] = [
    (
        FUNCTIONS,
        KNOWN,
        Fresh::Names,
        Want::Judgment,
        NEW_BESIDE_A_KNOWN_VARIABLE,
    ),
    (FUNCTIONS, NEW, Fresh::Names, TERM, NEW_NAMES),
    (POLYMORPHIC, NO_NAMES, Fresh::Names, TERM, PARAMETERS),
    (POLYMORPHIC, NO_NAMES, Fresh::No, TERM, NOTHING_NEW),
];

#[test]
fn forms_bring_new_names(rt: HostRuntime) -> Result<(), Fail> {
    for group in WITH_NEW_NAMES {
        let wrong = first_wrong(rt.alloc(), &group)?;
        assert_eq!(rt; wrong.as_str(), "");
    }
    Ok(())
}

const IN_HEADS: [Group; 3] = [
    (
        FUNCTIONS,
        KNOWN,
        Fresh::Head,
        Want::Judgment,
        HEADS_WITH_A_KNOWN_VARIABLE,
    ),
    (FUNCTIONS, NEW, Fresh::Head, Want::Judgment, HEADS),
    (FUNCTIONS, NEW, Fresh::Head, CONTEXT, CONTEXTS_OF_HEADS),
];

#[test]
fn heads_bring_known_variables(rt: HostRuntime) -> Result<(), Fail> {
    for group in IN_HEADS {
        let wrong = first_wrong(rt.alloc(), &group)?;
        assert_eq!(rt; wrong.as_str(), "");
    }
    Ok(())
}
