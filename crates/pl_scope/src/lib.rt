//! Names and types of expressions and queries are resolved: the tree with places in place of names,
//! or the SQLSTATE of the first node that fails in reading order.
#![tactic(auto)]

mod casting;
mod closing;
mod collecting;
mod entering;
mod expressions;
mod forms;
mod gathering;
mod made;
mod operands;
mod ordering;
mod queries;
mod resolve;
mod written;

pub use closing::{Arranged, Clauses, Selected};
pub use entering::{behind, entered, inside};
pub use expressions::{expr, maybe_condition};
pub use made::{Current, Inner, Made};
pub use ordering::Ordered;
pub use queries::{items_on, query};
pub use resolve::{ResolvedExpr, resolve_expr, resolve_query};
pub use written::Written;
