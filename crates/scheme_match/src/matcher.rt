ghost use Rattle.std.specs.Prelude.{◌≡◌, [], ◌∷◌, ◌++◌, IfOk, OnOk, OnErr, Some, map, option_map};
ghost use Rattle.binding_terms.specs.View.{tree};
ghost use Rattle.scheme_terms.specs.View.{scheme, context_value, instance};
ghost use Rattle.rule_schemes.specs.View.{judgment_scheme, judgment_value};
ghost use Rattle.scheme_match.specs.Matching.{Matched, judgments, terms, Matching, JudgmentsFit, TermsFit, AreStrict, IsOnlyMatch};

use crate::asked::asked_values;
use crate::context::copy_context;
use crate::equal::all_become;
use crate::pair::Pair;
use binding_terms::{NoMemory, Sig, Term};
use rule_schemes::{JScheme, JudgInst};
use scheme_terms::{CtxValue, Inst, MetaDecl, Scheme};
use sqlite_items::Items;
use std::alloc::Global;
use std::marker::Model;

/// Patterns with the judgments and terms that they are to become, all lent.
#[derive(Drop)]
pub struct Matcher<'a> {
    alloc: Global,
    sig: &'a Sig,
    metas: &'a [MetaDecl],
    knowns: &'a [usize],
    root: &'a CtxValue,
    pairs: Vec<Pair<'a>>,
}

impl<'a> Model for Matcher<'a> {
    ghost use Rattle.std.specs.Prelude.{map};
    ghost use Rattle.scheme_match.specs.Matching.{Matching, IsMatching};
    ghost use Rattle.std.specs.Coded.{codes};
    ghost use Rattle.binding_terms.specs.Coding.{coded_tree};
    ghost use Rattle.scheme_match.specs.Coding.{coded_scheme};

    ghost Value = { Matching };

    ghost coded = { Prim.hlevel (codes, coded_tree, coded_scheme) };

    ghost use Rattle.scheme_terms.specs.View.{context_value};
    ghost use Rattle.scheme_match.specs.Pairs.{matched};

    ghost view = { λ m. record { sig = m.sig.now; metas = m.metas.now; knowns = m.knowns.now; root = context_value m.root.now; pairs = map matched m.pairs.items } };

    ghost invariant = { λ m. IsMatching (record { sig = m.sig.now; metas = m.metas.now; knowns = m.knowns.now; root = context_value m.root.now; pairs = map matched m.pairs.items }) };
}

impl<'a> Matcher<'a> {
    /// A matcher without pairs.
    pub fn new(
        alloc: Global,
        sig: &'a Sig,
        metas: &'a [MetaDecl],
        knowns: &'a [usize],
        root: &'a CtxValue,
    ) -> Result<Matcher<'a>, NoMemory>
        ensures { IfOk result (λ new. new ≡ record { sig = sig.now; metas = metas.now; knowns = knowns.now; root = context_value root.now; pairs = [] }) }
    {
        // The categories of a signature fit with its productions.
        let _fit = sig.prods();
        Ok(Matcher {
            alloc,
            sig,
            metas,
            knowns,
            root,
            pairs: Vec::new(alloc),
        })
    }

    /// Adds a pattern and the judgment that it is to become. A refusal leaves the matcher unchanged.
    pub fn add(&mut self, pattern: &'a JScheme, target: &'a JudgInst) -> Result<(), NoMemory>
        requires { (judgment_scheme pattern.now).judgment ≡ (judgment_value target.now).judgment
            → JudgmentsFit self.old.sig self.old.metas (judgment_scheme pattern.now) (judgment_value target.now) }
        ensures ok { OnOk result (self.new ≡ record self.old { pairs = self.old.pairs ++ judgments (judgment_scheme pattern.now) (judgment_value target.now) ∷ [] }) }
        ensures err { OnErr result (self.new ≡ self.old) }
    {
        self.pairs.push(Pair::Judgments(pattern, target))?;
        Ok(())
    }

    /// Adds a pattern and the term that it is to become, under so many locals. A refusal leaves the matcher unchanged.
    pub fn add_term(
        &mut self,
        locals: usize,
        pattern: &'a Scheme,
        target: &'a Term,
    ) -> Result<(), NoMemory>
        requires { TermsFit self.old.sig self.old.metas self.old.root locals (scheme pattern.now) (tree target.now) }
        ensures ok { OnOk result (self.new ≡ record self.old { pairs = self.old.pairs ++ terms locals (scheme pattern.now) (tree target.now) ∷ [] }) }
        ensures err { OnErr result (self.new ≡ self.old) }
    {
        self.pairs.push(Pair::Terms(locals, pattern, target))?;
        Ok(())
    }

    /// The one ground instance over the root, with these places, that makes all pairs equal, or none where there is none.
    pub fn finish(self) -> Result<Option<Inst>, NoMemory>
        requires { AreStrict self }
        ensures { IfOk result (λ answer. IsOnlyMatch self.entry (option_map instance answer)) }
    {
        let pairs = self.pairs.as_slice();
        let metas = match asked_values(self.alloc, self.root, self.metas, pairs)? {
            Some(metas) => metas,
            None => return Ok(None),
        };
        let inst = Inst {
            metas,
            knowns: places(self.alloc, self.knowns)?,
            root: copy_context(self.alloc, self.root)?,
        };
        if !all_become(self.alloc, &inst, pairs)? {
            return Ok(None);
        }
        Ok(Some(inst))
    }
}

/// The places of the known variables.
fn places(alloc: Global, knowns: &[usize]) -> Result<Items<Option<usize>>, NoMemory>
    ensures { IfOk result (λ all. all ≡ map Some knowns.now) }
{
    let mut all = Items::new(alloc);
    for place in knowns {
        all.push(Some(*place))?;
    }
    Ok(all)
}
