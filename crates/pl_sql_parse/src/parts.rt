//! What is read before the tree that it becomes a part of is known.

use pl_base::Txt;

/// A clause of CREATE FUNCTION or CREATE PROCEDURE.
#[derive(Drop)]
pub enum Clause {
    /// LANGUAGE
    Language(Txt),
    /// AS
    Body(Txt),
    /// IMMUTABLE, STABLE or VOLATILE
    Volatility,
}
