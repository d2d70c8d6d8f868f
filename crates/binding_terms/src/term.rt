ghost use Rattle.std.specs.Prelude.{◌≡◌, ◌↔◌, ◌^◌, ◌-◌, ◌≤◌, IsTrue, IfOk, min};
ghost use Rattle.binding_terms.specs.View.{tree, arg_tree, args_tree};
ghost use Rattle.binding_terms.specs.Tree.{nodes, arg_nodes, shifted, shifted_args, put_in, put_in_args, free, free_args, Bounds};

use crate::grammar::ProdId;
use crate::text::NoMemory;
use std::alloc::Global;
use std::marker::Model;
use std::mem::ManuallyDrop;
use std::rc::Rc;

/// A term by index: `Var(0)` is the innermost variable.
#[cycle(term)]
#[derive(Drop)]
pub enum Term {
    Var(usize),
    Con(ProdId, ArgList),
}

/// Arguments that several terms may share, with a bound of their free variables and their size.
#[cycle(term)]
pub struct ArgList {
    bound: usize,
    size: u64,
    pub(crate) items: Rc<Vec<Arg>>,
}

/// A part of a term, under so many binders.
#[cycle(term)]
#[derive(Drop)]
pub struct Arg {
    pub binds: usize,
    pub body: Term,
}

impl Model for ArgList {
    ghost use Rattle.binding_terms.specs.Tree.{Args, free_args, Bounds, arg_nodes};
    ghost use Rattle.binding_terms.specs.Coding.{coded_args};

    ghost Value = { Args };

    ghost coded = { coded_args };

    ghost use Rattle.binding_terms.specs.View.{args_tree};

    ghost view = { λ a. args_tree a.items.value.items };

    ghost use Rattle.std.specs.Prelude.{◌≡◌, ◌-◌, ◌^◌, min};

    ghost invariant = { λ a. Bounds a.bound (free_args (args_tree a.items.value.items))
        × (a.size ≡ min (arg_nodes (args_tree a.items.value.items)) (2 ^ 64 - 1)) };

    ghost size = { arg_nodes };

    ghost use Rattle.std.proofs.Common.{arith};
    ghost use Rattle.binding_terms.specs.Falls.{most_le-arg_nodes};

    ghost size_decreases = { λ a h. Prim.omega (arith, most_le-arg_nodes a.items.value.items) };
}

// A loop, so that a deep term does not run out of stack.
impl Drop for ArgList {
    fn drop(self) {
        if let Some(items) = Rc::into_inner(self.open()) {
            drop_all(items);
        }
    }
}

#[tactic(auto, using(crate::proofs::Drops::nodes_append))]
fn drop_all(items: Vec<Arg>) {
    let mut left = items;
    while let Some(arg) = left.pop() {
        let Arg { binds: _, body } = arg;
        if let Term::Con(_, list) = body {
            if let Some(mut more) = Rc::into_inner(list.open()) {
                match left.append(&mut more) {
                    Ok(()) => more.destroy_empty(),
                    Err(_) => {
                        let _kept = unsafe { ManuallyDrop::new_unchecked(more) };
                    }
                }
            }
        }
    }
    left.destroy_empty();
}

/// The number of nodes, or `u64::MAX` where it is larger.
pub fn size(t: &Term) -> u64
    ensures { result ≡ min (nodes (tree t.now)) (2 ^ 64 - 1) }
{
    match t {
        Term::Var(_) => 1,
        Term::Con(_, args) => args.size().saturating_add(1),
    }
}

#[tactic(auto, using(crate::proofs::Args::done_nodes))]
fn size_all(args: &[Arg]) -> u64
    ensures { result ≡ min (arg_nodes (args_tree args.now)) (2 ^ 64 - 1) }
{
    let mut total = 0u64;
    for arg in args {
        total = total.saturating_add(size(&arg.body));
    }
    total
}

/// The same term again, which shares its arguments with the first.
pub fn copy(_alloc: Global, t: &Term) -> Result<Term, NoMemory>
    ensures { IfOk result (λ new. tree new ≡ tree t.now) }
{
    match t {
        Term::Var(i) => Ok(Term::Var(*i)),
        Term::Con(p, args) => Ok(Term::Con(*p, args.share()?)),
    }
}

impl ArgList {
    /// The arguments as a list that may be shared.
    pub fn make(alloc: Global, items: Vec<Arg>) -> Result<ArgList, NoMemory>
        ensures { IfOk result (λ new. new ≡ args_tree items.items) }
    {
        let bound = bound_all(items.as_slice());
        let size = size_all(items.as_slice());
        let items = Rc::new(alloc, items)?;
        Ok(ArgList { bound, size, items })
    }

    pub fn items(&self) -> &[Arg]
        ensures { args_tree result.now ≡ self.now }
    {
        self.items.as_slice()
    }

    fn open(self) -> Rc<Vec<Arg>>
        ensures { args_tree result.value.items ≡ self }
    {
        let ArgList {
            bound: _,
            size: _,
            items,
        } = self;
        items
    }

    /// The same list again.
    pub fn share(&self) -> Result<ArgList, NoMemory>
        ensures { IfOk result (λ new. new ≡ self.now) }
    {
        let items = self.items.clone()?;
        Ok(ArgList {
            bound: self.bound,
            size: self.size,
            items,
        })
    }

    /// The number of nodes, or `u64::MAX` where it is larger.
    fn size(&self) -> u64
        ensures { result ≡ min (arg_nodes self.now) (2 ^ 64 - 1) }
    {
        self.size
    }

    /// A bound of the free variables, or `usize::MAX`.
    fn bound(&self) -> usize
        ensures { Bounds result (free_args self.now) }
    {
        self.bound
    }

    /// Whether each free variable is known to be below `cut`.
    fn is_below(&self, cut: usize) -> bool
        ensures { IsTrue result → free_args self.now ≤ cut }
    {
        self.bound < usize::MAX && self.bound <= cut
    }
}

fn bound(t: &Term) -> usize
    ensures { Bounds result (free (tree t.now)) }
{
    match t {
        Term::Var(i) => i.saturating_add(1),
        Term::Con(_, args) => args.bound(),
    }
}

fn arg_bound(arg: &Arg) -> usize
    ensures { Bounds result (free (tree arg.now.body) - arg.now.binds) }
{
    let inner = bound(&arg.body);
    if inner < usize::MAX {
        inner.saturating_sub(arg.binds)
    } else {
        inner
    }
}

#[tactic(auto, using(crate::proofs::Args::done_free))]
fn bound_all(args: &[Arg]) -> usize
    ensures { Bounds result (free_args (args_tree args.now)) }
{
    let mut most = 0usize;
    for arg in args {
        most = most.max(arg_bound(arg));
    }
    most
}

/// Whether two terms are the same.
#[cycle(same)]
pub fn same(a: &Term, b: &Term) -> bool
    ensures { IsTrue result ↔ (tree a.now ≡ tree b.now) }
{
    match (a, b) {
        (Term::Var(i), Term::Var(j)) => *i == *j,
        (Term::Con(p, xs), Term::Con(q, ys)) => p.0 == q.0
            && same_all(xs.items.as_slice(), ys.items.as_slice()),
        _ => false,
    }
}

#[cycle(same)]
fn same_arg(x: &Arg, y: &Arg) -> bool
    ensures { IsTrue result ↔ (arg_tree x.now ≡ arg_tree y.now) }
{
    x.binds == y.binds && same(&x.body, &y.body)
}

#[cycle(same)]
fn same_all(xs: &[Arg], ys: &[Arg]) -> bool
    ensures { IsTrue result ↔ (args_tree xs.now ≡ args_tree ys.now) }
{
    if xs.len() != ys.len() {
        return false;
    }
    for i in 0..xs.len() {
        if !same_arg(&xs[i], &ys[i]) {
            return false;
        }
    }
    true
}

/// Raises by `by` each variable at or above `cut`.
#[cycle(shift)]
#[tactic(auto, using(crate::proofs::Kept::shifted_args_kept))]
pub fn shift(alloc: Global, t: &Term, cut: usize, by: usize) -> Result<Term, NoMemory>
    ensures { IfOk result (λ new. tree new ≡ shifted cut by (tree t.now)) }
{
    match t {
        Term::Var(i) => {
            if *i < cut {
                Ok(Term::Var(*i))
            } else {
                Ok(Term::Var(i.checked_add(by).ok_or(NoMemory)?))
            }
        }
        Term::Con(p, args) => {
            if args.is_below(cut) {
                return Ok(Term::Con(*p, args.share()?));
            }
            Ok(Term::Con(*p, shift_all(alloc, args.items.as_slice(), cut, by)?))
        }
    }
}

#[cycle(shift)]
#[tactic(auto, using(crate::proofs::Args::done_shifted))]
fn shift_all(alloc: Global, args: &[Arg], cut: usize, by: usize) -> Result<ArgList, NoMemory>
    ensures { IfOk result (λ new. new ≡ shifted_args cut by (args_tree args.now)) }
{
    let mut all = Vec::new(alloc);
    for arg in args {
        let inner = cut.checked_add(arg.binds).ok_or(NoMemory)?;
        let body = shift(alloc, &arg.body, inner, by)?;
        all.push(Arg {
            binds: arg.binds,
            body,
        })?;
    }
    ArgList::make(alloc, all)
}

/// Puts `with` in for the variable `at`, and lowers those above it.
#[cycle(put)]
#[tactic(auto, using(crate::proofs::Kept::put_args_kept))]
pub fn put(alloc: Global, t: &Term, at: usize, with: &Term) -> Result<Term, NoMemory>
    ensures { IfOk result (λ new. tree new ≡ put_in at (tree with.now) (tree t.now)) }
{
    match t {
        Term::Var(i) => {
            if *i < at {
                Ok(Term::Var(*i))
            } else if *i == at {
                copy(alloc, with)
            } else {
                Ok(Term::Var(*i - 1))
            }
        }
        Term::Con(p, args) => {
            if args.is_below(at) {
                return Ok(Term::Con(*p, args.share()?));
            }
            Ok(Term::Con(*p, put_all(alloc, args.items.as_slice(), at, with)?))
        }
    }
}

#[cycle(put)]
#[tactic(auto, using(crate::proofs::Args::done_put_in))]
fn put_all(alloc: Global, args: &[Arg], at: usize, with: &Term) -> Result<ArgList, NoMemory>
    ensures { IfOk result (λ new. new ≡ put_in_args at (tree with.now) (args_tree args.now)) }
{
    let mut all = Vec::new(alloc);
    for arg in args {
        let inner = at.checked_add(arg.binds).ok_or(NoMemory)?;
        let raised = shift(alloc, with, 0, arg.binds)?;
        let body = put(alloc, &arg.body, inner, &raised)?;
        all.push(Arg {
            binds: arg.binds,
            body,
        })?;
    }
    ArgList::make(alloc, all)
}
