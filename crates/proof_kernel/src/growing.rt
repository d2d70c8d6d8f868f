// What is in scope grows by several derivations at once.
ghost use Rattle.std.specs.Prelude.{◌≡◌, ◌++◌, ◌∷◌, Some, OnOk, OnErr, map, take};
ghost use Rattle.rule_schemes.specs.View.{judgment_scheme};
ghost use Rattle.proof_trees.specs.Here.{holding, nones, unrelated};
ghost use Rattle.proof_kernel.specs.Growth.{HasGrown};
ghost use Rattle.proof_kernel.specs.View.{here as plain_here};

use crate::here::Here;
use binding_terms::NoMemory;
use rule_schemes::{JScheme, copy_judgment};
use std::alloc::Global;

impl Here {
    /// Takes off what is held from this number on.
    fn shorten(&mut self, count: usize)
        ensures { self.new ≡ record self.old { held = take count self.old.held } }
    {
        while self.held.len() > count {
            self.held.pop();
        }
    }

    fn push_forms(&mut self, alloc: Global, forms: &[JScheme]) -> Result<(), NoMemory>
        ensures ok { OnOk result (plain_here self.new
            ≡ holding (plain_here self.old) (map (λ j. Some (unrelated (plain_here self.old) j)) (map judgment_scheme forms.now))) }
        ensures err { OnErr result (HasGrown (plain_here self.old) (plain_here self.new)) }
    {
        for form in forms {
            let again = copy_judgment(alloc, form)?;
            self.add_unrelated(alloc, again)?;
        }
        Ok(())
    }

    fn push_nothing(&mut self, count: usize) -> Result<(), NoMemory>
        ensures ok { OnOk result (plain_here self.new ≡ holding (plain_here self.old) (nones count)) }
        ensures err { OnErr result (HasGrown (plain_here self.old) (plain_here self.new)) }
    {
        for _i in 0..count {
            self.held.push(None)?;
        }
        Ok(())
    }

    fn push_all(&mut self, alloc: Global, forms: &[JScheme], nothing: usize) -> Result<(), NoMemory>
        ensures ok { OnOk result (plain_here self.new ≡ holding (plain_here self.old)
            (map (λ j. Some (unrelated (plain_here self.old) j)) (map judgment_scheme forms.now) ++ nones nothing)) }
        ensures err { OnErr result (HasGrown (plain_here self.old) (plain_here self.new)) }
    {
        self.push_forms(alloc, forms)?;
        self.push_nothing(nothing)
    }

    /// Puts derivations of the forms at the end, of which nothing is known, and after them so many numbers of nothing. Want of memory
    /// changes nothing.
    pub(crate) fn add_all_unrelated(
        &mut self,
        alloc: Global,
        forms: &[JScheme],
        nothing: usize,
    ) -> Result<(), NoMemory>
        ensures ok { OnOk result (plain_here self.new ≡ holding (plain_here self.old)
            (map (λ j. Some (unrelated (plain_here self.old) j)) (map judgment_scheme forms.now) ++ nones nothing)) }
        ensures err { OnErr result (plain_here self.new ≡ plain_here self.old) }
    {
        let count = self.held.len();
        match self.push_all(alloc, forms, nothing) {
            Ok(()) => Ok(()),
            Err(wanting) => {
                self.shorten(count);
                Err(wanting)
            }
        }
    }
}
