//! What a command needs for each of its rows.

use pl_targets::RChange;
use pl_value::Lent;

/// A command while it runs.
#[derive(Clone, Copy)]
pub struct Command<'c> {
    pub change: &'c RChange,
    /// The rows around the command, and the empty one behind them.
    pub around: &'c [Lent<'c>],
}
