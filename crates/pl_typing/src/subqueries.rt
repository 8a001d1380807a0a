//! Queries inside expressions: PostgreSQL manual, "Scalar Subqueries", "Subquery Expressions". They
//! are named by number.

ghost use Rattle.std.specs.Prelude.{◌≡◌, IfOk};
ghost use Rattle.pl_typing.specs.Resolved.{Gives};
ghost use Rattle.pl_typing.specs.Subqueries as spec;

use crate::headings::exists_heading;
use crate::operators::turned;
use crate::unions::{compared_type, united_with};
use crate::{ScopeFail, Typed, headed, truth_of};
use pl_base::{State, Ty};
use pl_resolved::{Head, RExpr};
use std::alloc::{AllocError, Global};

// The one column of a query. 42601 where it has another number of them.
fn only_column(heads: &[Head]) -> Result<Head, State>
    ensures { result ≡ spec.only_column heads.now }
{
    match heads {
        [head] => Ok(*head),
        _ => Err(State::SYNTAX_ERROR),
    }
}

/// The one value of the query, under the heading of its column. 42601 where it has another number
/// of columns.
#[tactic(auto, unfolding(crate::specs::Subqueries::scalar))]
pub fn scalar(alloc: Global, query: usize, heads: &[Head]) -> Result<Typed, ScopeFail>
    ensures { Gives result (spec.scalar query heads.now) }
{
    match only_column(heads) {
        Ok(head) => Ok(headed(alloc, RExpr::Scalar(query), head.ty, head.name)?),
        Err(state) => Err(ScopeFail::State(state)),
    }
}

/// EXISTS
pub fn exists(alloc: Global, query: usize) -> Result<Typed, AllocError>
    ensures { IfOk result (λ made. made ≡ spec.exists query) }
{
    headed(alloc, RExpr::Exists(query), Ty::Bool, exists_heading())
}

/// IN, or NOT IN, with a query. 42601 where the query has another number of columns than one, 42883
/// where the operand and its values have no type together or can't be compared.
#[tactic(auto, unfolding(crate::specs::Subqueries::in_query))]
pub fn in_query(
    alloc: Global,
    is_negated: bool,
    operand: Typed,
    query: usize,
    heads: &[Head],
) -> Result<Typed, ScopeFail>
    ensures { Gives result (spec.in_query is_negated operand query heads.now) }
{
    match only_column(heads) {
        Ok(head) => in_column(alloc, is_negated, operand, query, &head),
        Err(state) => Err(ScopeFail::State(state)),
    }
}

fn in_column(
    alloc: Global,
    is_negated: bool,
    operand: Typed,
    query: usize,
    head: &Head,
) -> Result<Typed, ScopeFail>
    ensures { Gives result (spec.in_column is_negated operand query head.now) }
{
    match compared_type(&united_with(&Some(operand.ty), &head.ty)) {
        Ok(to) => {
            let tree = RExpr::InQuery {
                operand: operand.tree,
                query,
                to,
            };
            let plain = truth_of(alloc, tree)?;
            Ok(turned(alloc, is_negated, plain)?)
        }
        Err(state) => Err(ScopeFail::State(state)),
    }
}
