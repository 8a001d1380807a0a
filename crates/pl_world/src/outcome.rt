//! How a statement ends.

use pl_base::{Fail, Name, Value};

/// How a statement ends, a list of statements, a block or a body.
#[derive(Drop)]
pub enum Outcome {
    /// The next statement runs.
    Next,
    /// EXIT: behind the loop or the block of this label, or behind the innermost loop.
    Exit(Option<Name>),
    /// CONTINUE: to the next turn of the loop of this label, or of the innermost one.
    Continue(Option<Name>),
    /// RETURN, with the value as it was read; null where none is given.
    Return(Value),
    /// An error that is not handled yet.
    Fail(Fail),
}
