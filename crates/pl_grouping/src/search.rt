//! Trees that are sought in lists.

ghost use Rattle.std.specs.Prelude.{◌≡◌};
ghost use Rattle.pl_grouping.specs.Search as spec;

use crate::same::{same_aggregate, same_tree};
use pl_resolved::{RAggregate, RExpr};

/// The place of the first of the list that equals the tree, counted from 0. None where none does.
pub fn place_of(tree: &RExpr, list: &[RExpr]) -> Option<usize>
    ensures { result ≡ spec.place_of tree.now 0 list.now }
{
    let mut at = 0;
    let mut rest = list;
    while let [first, more @ ..] = rest {
        if same_tree(first, tree) {
            return Some(at);
        }
        at += 1;
        rest = more;
    }
    None
}

/// The place of the first of the list that equals the aggregate, counted from 0. None where none
/// does.
pub fn aggregate_place(aggregate: &RAggregate, list: &[RAggregate]) -> Option<usize>
    ensures { result ≡ spec.aggregate_place aggregate.now 0 list.now }
{
    let mut at = 0;
    let mut rest = list;
    while let [first, more @ ..] = rest {
        if same_aggregate(first, aggregate) {
            return Some(at);
        }
        at += 1;
        rest = more;
    }
    None
}
