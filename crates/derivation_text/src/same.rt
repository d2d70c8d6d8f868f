ghost use Rattle.std.specs.Prelude.{◌≡◌, map};
ghost use Rattle.binding_terms.specs.View.{tree};
ghost use Rattle.scheme_terms.specs.View.{context_value, ground_entry};
ghost use Rattle.derivation_text.specs.Text.{are_first, begins_with, same_entry, same_tree, same_trees};

use binding_terms::{Term, same};
use scheme_terms::{CtxValue, Entry};

/// Whether two terms are the same.
#[tactic(auto, using(crate::proofs::Sameness::same_tree_is))]
fn is_same(a: &Term, b: &Term) -> bool
    ensures { result ≡ same_tree (tree a.now) (tree b.now) }
{
    same(a, b)
}

/// Whether two lists have the same terms.
fn are_same(a: &[Term], b: &[Term]) -> bool
    ensures { result ≡ same_trees (map tree a.now) (map tree b.now) }
{
    if a.len() != b.len() {
        return false;
    }
    for i in 0..a.len() {
        if !is_same(&a[i], &b[i]) {
            return false;
        }
    }
    true
}

/// Whether entries begin with the first ones.
fn are_first(first: &[Entry], entries: &[Entry]) -> bool
    ensures { result ≡ are_first (map ground_entry first.now) (map ground_entry entries.now) }
{
    if first.len() > entries.len() {
        return false;
    }
    for i in 0..first.len() {
        if !is_same_entry(&first[i], &entries[i]) {
            return false;
        }
    }
    true
}

/// Whether two entries are the same.
fn is_same_entry(a: &Entry, b: &Entry) -> bool
    ensures { result ≡ same_entry (ground_entry a.now) (ground_entry b.now) }
{
    a.prod.0 == b.prod.0 && are_same(a.args.as_slice(), b.args.as_slice())
}

/// Whether the context is of the root's category and begins with its entries.
pub fn begins_with(root: &CtxValue, value: &CtxValue) -> bool
    ensures { result ≡ begins_with (context_value root.now) (context_value value.now) }
{
    match (root.cat, value.cat) {
        (Some(c), Some(d)) => {
            c.0 == d.0 && are_first(root.entries.as_slice(), value.entries.as_slice())
        }
        _ => false,
    }
}
