// Why a step by names is refused.
ghost use Rattle.std.specs.Prelude.{◌≡◌, ◌≢◌, ◌↔◌, Some, None, length, map};
ghost use Rattle.rule_schemes.specs.View.{judgment_scheme};
ghost use Rattle.proof_trees.specs.Right.{AreCited};
ghost use Rattle.proof_kernel.specs.View.{here as plain_here};
ghost use Rattle.sy_base.specs.declared.fault.Code.TheVariants.{WrongCount, ResultMismatch};

use crate::here::Here;
use crate::step::StepId;
use rule_schemes::JScheme;
use sy_base::Code;

/// The code of a step by names whose forms can stand here and whose numbers are in scope, or `None` exactly where the forms are those of
/// the cited steps: `WrongCount` before `ResultMismatch`.
pub fn again_code(here: &Here, of: &[StepId], forms: &[JScheme]) -> Option<Code>
    ensures right { (result ≡ None) ↔ AreCited (plain_here here.now) (map (λ id. id.0) of.now) (map judgment_scheme forms.now) }
    ensures count { (result ≡ Some WrongCount) ↔ (length forms.now ≢ length of.now) }
    ensures differs { (result ≡ Some ResultMismatch) ↔ ((length forms.now ≡ length of.now)
        × (AreCited (plain_here here.now) (map (λ id. id.0) of.now) (map judgment_scheme forms.now) → ⊥)) }
{
    if forms.len() != of.len() {
        return Some(Code::WrongCount);
    }
    if here.are_cited(of, forms) {
        return None;
    }
    Some(Code::ResultMismatch)
}
