//! What statements have their expressions asked.

use pl_bodies::Declaration;
use pl_tree::Expr;

/// What a statement asks. The answer is an outcome: an error is `Fail`, and a value `Return`.
#[derive(Clone, Copy)]
pub enum Ask<'a> {
    /// Whether a condition is true: a truth, never null.
    Test(&'a Expr),
    /// The bound of a loop: an integer, never null.
    Bound(&'a Expr),
    /// A variable is declared. `Next` follows.
    Declare(&'a Declaration),
}
