// The shapes of contexts that write a new known variable, as in the head of a case.
ghost use Rattle.std.specs.Prelude.{◌≡◌, ◌↔◌, ◌<◌, IfOk, IsTrue, map, length};
ghost use Rattle.std.specs.List.{AllByRecursion};
ghost use Rattle.scheme_terms.specs.View.{known_variable};
ghost use Rattle.rule_schemes.specs.Reading.{fresh_head};
ghost use Rattle.term_reader.specs.Splitting.{split};
ghost use Rattle.notation_parser.specs.Shapes.{context_shape};
ghost use Rattle.notation_parser.specs.ContextCases.{IsNewShape, AreNewShapes};
ghost use Rattle.notation_parser.specs.View.{freshness_of};

use crate::knowns::known_number;
use crate::shaping::{Entered, Shape, Start, entry_of};
use binding_terms::{NoMemory, ProdId, number};
use rule_schemes::{Fresh, ReadScope};
use sqlite_items::Items;
use std::alloc::Global;
use term_reader::{Meaning, Split, Var};

/// Whether a known variable that is written may be a new one.
pub fn is_head(fresh: Fresh) -> bool
    ensures { IsTrue result ↔ (freshness_of fresh ≡ fresh_head) }
{
    match fresh {
        Fresh::No => false,
        Fresh::Names => false,
        Fresh::Head => true,
    }
}

/// The shape of a split, as a new known variable's entry of the production.
fn new_shape<'a>(
    alloc: Global,
    scope: &ReadScope,
    prod: ProdId,
    found: &Split<'a>,
) -> Result<Shape<'a>, NoMemory>
    requires { 0 < length found.now.own }
    ensures { IfOk result
        (λ new. IsNewShape (map known_variable scope.now.scope.knowns) prod.0 (split found.now) (context_shape new)) }
{
    let entry = entry_of(alloc, prod, 1, found)?;
    let known = known_number(scope.scope.knowns.as_slice(), entry.variable.word);
    let variable = Var {
        word: entry.variable.word,
        cat: entry.variable.cat,
        means: Meaning::Entry(number(known)?),
    };
    let start = Start::New(Entered {
        prod: entry.prod,
        before: entry.before,
        variable,
        slots: entry.slots,
    });
    Ok(Shape {
        start,
        entries: Items::new(alloc),
    })
}

/// The shape of each split.
pub fn new_of_each<'a>(
    alloc: Global,
    scope: &ReadScope,
    prod: ProdId,
    found: &[Split<'a>],
) -> Result<Items<Shape<'a>>, NoMemory>
    requires { AllByRecursion (λ d. 0 < length d.0) (map split found.now) }
    ensures { IfOk result
        (λ all. AreNewShapes (map known_variable scope.now.scope.knowns) prod.0 (map split found.now) (map context_shape all)) }
{
    let mut all = Items::new(alloc);
    for one in found {
        all.push(new_shape(alloc, scope, prod, one)?)?;
    }
    Ok(all)
}
