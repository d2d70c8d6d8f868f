// The schemes of inputs with the terms that stand in their places.
ghost use Rattle.std.specs.Prelude.{◌≡◌, ◌≢◌, ◌↔◌, ◌++◌, ◌∷◌, [], IsTrue, IfOk, MatchOption, if◌then◌else◌, map, length, take, drop, option_map, slice_get};
ghost use Rattle.std.specs.List.{AllZip};
ghost use Rattle.binding_terms.specs.View.{tree};
ghost use Rattle.scheme_terms.specs.SchemeTree.{meta, no_values};
ghost use Rattle.binding_terms.specs.Scope.{IsTerm};
ghost use Rattle.scheme_terms.specs.Context.{scope_of};
ghost use Rattle.scheme_terms.specs.Instance.{root_cat};
ghost use Rattle.scheme_terms.specs.View.{scheme, scheme_entry, ground_entry, context_value};
ghost use Rattle.rule_schemes.specs.View.{theory, judgment_scheme, judgment_value, statement_input};
ghost use Rattle.derivation_check.specs.Fitting.{arg_pieces, entry_pieces, entries_below, explicit_of, judgment_pieces, EntriesAlike, AreAlike, InputAlike, input_pieces, all_pieces};
ghost use Rattle.derivation_check.specs.Pieces.{piece, given_form};

use crate::inputs::InputForm;
use crate::judged::{is_judgment, scope_of};
use binding_terms::{CatId, NoMemory, Term, in_scope};
use rule_schemes::{Input, JScheme, JudgInst, System};
use scheme_match::same_entries;
use scheme_terms::{CtxValue, Entry, MetaDecl, MetaId, Root, SEntry, Scheme};
use std::alloc::Global;

/// A scheme and the term in its place.
#[derive(Drop)]
pub enum Piece<'a> {
    /// A scheme of a form, under so many locals.
    Part(usize, &'a Scheme, &'a Term),
    /// The metavariable of a syntax input, alone.
    Own(MetaId, &'a Term),
}

fn add_args<'a>(
    pieces: &mut Vec<Piece<'a>>,
    locals: usize,
    schemes: &'a [Scheme],
    terms: &'a [Term],
) -> Result<(), NoMemory>
    ensures { IfOk result (λ _. map piece pieces.new.items ≡ map piece pieces.old.items ++ arg_pieces locals (map scheme schemes.now) (map tree terms.now)) }
{
    let count = schemes.len().min(terms.len());
    for i in 0..count {
        pieces.push(Piece::Part(locals, &schemes[i], &terms[i]))?;
    }
    Ok(())
}

fn add_entries<'a>(
    pieces: &mut Vec<Piece<'a>>,
    patterns: &'a [SEntry],
    targets: &'a [Entry],
) -> Result<(), NoMemory>
    ensures { IfOk result (λ _. map piece pieces.new.items ≡ map piece pieces.old.items ++ entry_pieces 0 (map scheme_entry patterns.now) (map ground_entry targets.now)) }
{
    let count = patterns.len().min(targets.len());
    for i in 0..count {
        let args = patterns[i].args.as_slice();
        add_args(pieces, i, args, targets[i].args.as_slice())?;
    }
    Ok(())
}

/// The entries of the context over which a form stands.
fn entries_below<'a>(ctx: &'a CtxValue, form: Root) -> &'a [Entry]
    ensures { map ground_entry result.now ≡ entries_below (context_value ctx.now) form }
{
    match form {
        Root::Whole(_) => ctx.entries.as_slice(),
        _ => &[],
    }
}

fn after_first_of(entries: &[Entry], count: usize) -> &[Entry]
    ensures { result.now ≡ drop count entries.now }
{
    if entries.len() < count {
        return &[];
    }
    &entries[count..]
}

/// The explicit entries of a judgment's context, where a form with that root stands over the context.
fn explicit_of<'a>(ctx: &CtxValue, form: Root, value: &'a CtxValue) -> &'a [Entry]
    ensures { map ground_entry result.now ≡ explicit_of (context_value ctx.now) form (context_value value.now) }
{
    after_first_of(value.entries.as_slice(), entries_below(ctx, form).len())
}

fn add_judgment<'a>(
    pieces: &mut Vec<Piece<'a>>,
    ctx: &CtxValue,
    form: &'a JScheme,
    value: &'a JudgInst,
) -> Result<(), NoMemory>
    ensures { IfOk result (λ _. map piece pieces.new.items ≡ map piece pieces.old.items ++ judgment_pieces (context_value ctx.now) (judgment_scheme form.now) (judgment_value value.now)) }
{
    let entries = form.ctx.entries.as_slice();
    add_entries(pieces, entries, explicit_of(ctx, form.ctx.root, &value.ctx))?;
    add_args(
        pieces,
        entries.len(),
        form.args.as_slice(),
        value.args.as_slice(),
    )
}

/// Whether the entry is of the same production, with as many arguments.
fn is_entry_alike(pattern: &SEntry, target: &Entry) -> bool
    ensures { IsTrue result ↔ (((scheme_entry pattern.now).prod ≡ (ground_entry target.now).prod) × (length (scheme_entry pattern.now).args ≡ length (ground_entry target.now).args)) }
{
    pattern.prod.0 == target.prod.0 && pattern.args.len() == target.args.len()
}

/// Whether the entries are so, place by place.
fn entries_alike(patterns: &[SEntry], targets: &[Entry]) -> bool
    ensures { IsTrue result ↔ EntriesAlike (map scheme_entry patterns.now) (map ground_entry targets.now) }
{
    if patterns.len() != targets.len() {
        return false;
    }
    for i in 0..patterns.len() {
        if !is_entry_alike(&patterns[i], &targets[i]) {
            return false;
        }
    }
    true
}

/// Whether a context begins with these entries.
fn begins_with(entries: &[Entry], first: &[Entry]) -> bool
    ensures { IsTrue result ↔ (take (length first.now) (map ground_entry entries.now) ≡ map ground_entry first.now) }
{
    if entries.len() < first.len() {
        return false;
    }
    same_entries(&entries[..first.len()], first)
}

fn is_category(form: Root, cat: Option<CatId>) -> bool
    ensures { IsTrue result ↔ (root_cat form ≡ option_map (λ c. c.0) cat) }
{
    match (form, cat) {
        (Root::Closed, None) => true,
        (Root::Empty(one), Some(other)) => one.0 == other.0,
        (Root::Whole(one), Some(other)) => one.0 == other.0,
        _ => false,
    }
}

/// Whether the form and the judgment are alike over the context.
fn are_alike(ctx: &CtxValue, form: &JScheme, value: &JudgInst) -> bool
    ensures { IsTrue result ↔ AreAlike (context_value ctx.now) (judgment_scheme form.now) (judgment_value value.now) }
{
    let root = form.ctx.root;
    if form.judgment.0 != value.judgment.0 {
        return false;
    }
    if !is_category(root, value.ctx.cat) {
        return false;
    }
    if form.args.len() != value.args.len() {
        return false;
    }
    if !begins_with(value.ctx.entries.as_slice(), entries_below(ctx, root)) {
        return false;
    }
    entries_alike(
        form.ctx.entries.as_slice(),
        explicit_of(ctx, root, &value.ctx),
    )
}

/// Whether it is a term for the metavariable in the scope of the context.
fn is_term_for(
    alloc: Global,
    sys: &System,
    metas: &[MetaDecl],
    ctx: &CtxValue,
    m: MetaId,
    term: &Term,
) -> Result<bool, NoMemory>
    ensures { IfOk result (λ is. IsTrue is ↔ MatchOption (slice_get metas.now m.0) ⊥ (λ decl. IsTerm (theory sys.now).sig (scope_of (theory sys.now).sig (context_value ctx.now)) decl.cat.0 (tree term.now))) }
{
    let scope = scope_of(alloc, sys.sig(), ctx)?;
    match metas.get(m.0 as usize) {
        Some(decl) => Ok(in_scope(sys.sig(), scope.as_slice(), decl.cat, term)),
        None => Ok(false),
    }
}

fn is_input_alike(
    alloc: Global,
    sys: &System,
    metas: &[MetaDecl],
    ctx: &CtxValue,
    input: &Input,
    form: &InputForm,
) -> Result<bool, NoMemory>
    ensures { IfOk result (λ are. IsTrue are ↔ InputAlike (theory sys.now) metas.now (context_value ctx.now) (statement_input input.now) (given_form form.now)) }
{
    match (input, form) {
        (Input::Given(pattern), InputForm::Tree(value)) => {
            if !is_judgment(alloc, sys, value)? {
                return Ok(false);
            }
            Ok(are_alike(ctx, pattern, value))
        }
        (Input::Syntax(m), InputForm::Syntax(term)) => {
            let is = is_term_for(alloc, sys, metas, ctx, *m, term)?;
            Ok(is)
        }
        _ => Ok(false),
    }
}

fn add_input<'a>(
    pieces: &mut Vec<Piece<'a>>,
    ctx: &CtxValue,
    input: &'a Input,
    form: &'a InputForm,
) -> Result<(), NoMemory>
    ensures { IfOk result (λ _. map piece pieces.new.items ≡ map piece pieces.old.items ++ input_pieces (context_value ctx.now) (statement_input input.now) (given_form form.now)) }
{
    match (input, form) {
        (Input::Given(pattern), InputForm::Tree(value)) => {
            add_judgment(pieces, ctx, pattern, value)
        }
        (Input::Syntax(meta), InputForm::Syntax(term)) => {
            pieces.push(Piece::Own(*meta, term))?;
            Ok(())
        }
        _ => Ok(()),
    }
}

/// Whether what is given is alike, input by input.
pub fn are_inputs_alike(
    alloc: Global,
    sys: &System,
    metas: &[MetaDecl],
    ctx: &CtxValue,
    inputs: &[Input],
    forms: &[InputForm],
) -> Result<bool, NoMemory>
    ensures { IfOk result (λ are. IsTrue are ↔ AllZip (InputAlike (theory sys.now) metas.now (context_value ctx.now)) (map statement_input inputs.now) (map given_form forms.now)) }
{
    if inputs.len() != forms.len() {
        return Ok(false);
    }
    for i in 0..inputs.len() {
        if !is_input_alike(alloc, sys, metas, ctx, &inputs[i], &forms[i])? {
            return Ok(false);
        }
    }
    Ok(true)
}

/// The pieces of all inputs.
pub fn all_pieces<'a>(
    alloc: Global,
    ctx: &CtxValue,
    inputs: &'a [Input],
    forms: &'a [InputForm],
) -> Result<Vec<Piece<'a>>, NoMemory>
    ensures { IfOk result (λ pieces. map piece pieces.items ≡ all_pieces (context_value ctx.now) (map statement_input inputs.now) (map given_form forms.now)) }
{
    let mut pieces = Vec::new(alloc);
    let count = inputs.len().min(forms.len());
    for i in 0..count {
        add_input(&mut pieces, ctx, &inputs[i], &forms[i])?;
    }
    Ok(pieces)
}
