// The limits on what a file may have.
ghost use Rattle.std.specs.Prelude.{◌≡◌, reverse};
ghost use Rattle.outline_reader.specs.Derives.{level};
ghost use Rattle.outline_reader.specs.Limits as spec;

use crate::fault::Limit;
use crate::machine::{Awaited, level};
use crate::symbols::Role;

pub const CATEGORIES: usize = 64;

pub const PRODUCTIONS: usize = 64;

pub const RULES: usize = 1024;

pub const THEOREMS: usize = 1024;
/// Premises of a rule, and inputs of a theorem.
pub const PREMISES: usize = 16;

pub const TARGETS: usize = 4;

pub const LEVELS: usize = 64;

/// What was counted so far: in the file, in its last category, in its last rule, in its last theorem.
#[derive(Clone, Copy)]
pub struct Counts {
    pub categories: usize,
    pub productions: usize,
    pub rules: usize,
    pub premises: usize,
    pub theorems: usize,
    pub inputs: usize,
    pub targets: usize,
    /// The line of the last step's first token.
    pub step_line: u32,
    /// The first limit that was passed, and the line at which.
    pub passed: Option<(u32, Limit)>,
}

/// One more, and where that is too many the limit that is passed.
fn one_more(count: usize, most: usize, line: u32, limit: Limit) -> (usize, Option<(u32, Limit)>)
    ensures { result ≡ spec.one_more count most line limit }
{
    if count < most {
        (count + 1, None)
    } else {
        (count, Some((line, limit)))
    }
}

/// The limit on levels, where it is passed.
fn too_deep(stack: &[Awaited], line: u32) -> Option<(u32, Limit)>
    ensures { result ≡ spec.too_deep (level (reverse stack.now)) line }
{
    if LEVELS < level(stack) {
        Some((line, Limit::Levels))
    } else {
        None
    }
}

impl Counts {
    pub fn new() -> Counts
        ensures { result ≡ spec.nothing_counted }
    {
        Counts {
            categories: 0,
            productions: 0,
            rules: 0,
            premises: 0,
            theorems: 0,
            inputs: 0,
            targets: 0,
            step_line: 0,
            passed: None,
        }
    }

    #[tactic(auto, unfolding(crate::specs::Limits::counted))]
    /// Counts a token by what it is in the outline, when it was taken. After a limit was passed nothing more is counted.
    pub fn count(self, role: Role, line: u32, stack: &[Awaited]) -> Counts
        ensures { result ≡ spec.counted self role line (level (reverse stack.now)) }
    {
        if self.passed.is_some() {
            return self;
        }
        match role {
            Role::CategoryName | Role::NewCategory => {
                let (categories, passed) = one_more(
                    self.categories,
                    CATEGORIES,
                    line,
                    Limit::Categories,
                );
                Counts {
                    categories,
                    productions: 1,
                    passed,
                    ..self
                }
            }
            Role::Or => {
                let (productions, passed) = one_more(
                    self.productions,
                    PRODUCTIONS,
                    line,
                    Limit::Productions,
                );
                Counts {
                    productions,
                    passed,
                    ..self
                }
            }
            Role::RulePremise => Counts {
                premises: 1,
                ..self
            },
            Role::Premise => {
                let (premises, passed) = one_more(self.premises, PREMISES, line, Limit::Premises);
                Counts {
                    premises,
                    passed,
                    ..self
                }
            }
            Role::RuleBar | Role::Bar => {
                let (rules, passed) = one_more(self.rules, RULES, line, Limit::Rules);
                Counts {
                    rules,
                    passed,
                    ..self
                }
            }
            Role::AndWord | Role::TheoremWord => {
                let (theorems, passed) = one_more(self.theorems, THEOREMS, line, Limit::Theorems);
                Counts {
                    theorems,
                    inputs: 0,
                    targets: 0,
                    passed,
                    ..self
                }
            }
            Role::ForallWord => {
                let (inputs, passed) = one_more(self.inputs, PREMISES, line, Limit::Premises);
                Counts {
                    inputs,
                    passed,
                    ..self
                }
            }
            Role::Target => {
                let (targets, passed) = one_more(self.targets, TARGETS, line, Limit::Targets);
                Counts {
                    targets,
                    passed,
                    ..self
                }
            }
            Role::StepName | Role::ProofWord => Counts {
                step_line: line,
                ..self
            },
            Role::Cases | Role::Induction => {
                let passed = too_deep(stack, self.step_line);
                Counts { passed, ..self }
            }
            Role::InversionWord => {
                let passed = too_deep(stack, line);
                Counts { passed, ..self }
            }
            _ => self,
        }
    }
}
