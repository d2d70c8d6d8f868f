use binding_terms::Term;
use rule_schemes::{JScheme, JudgInst};
use scheme_terms::Scheme;

/// A pattern and what it is to become. The second kind stands under so many locals.
#[derive(Drop)]
pub enum Pair<'a> {
    Judgments(&'a JScheme, &'a JudgInst),
    Terms(usize, &'a Scheme, &'a Term),
}
