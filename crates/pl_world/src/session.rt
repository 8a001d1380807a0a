//! What a session is in, and what it answers.

use pl_base::Fail;
use pl_print::{Grid, Tag};

/// Where a session stands between two commands.
#[derive(Clone, Copy)]
pub enum Mode {
    /// In no transaction block: each command is a transaction of its own.
    Idle,
    /// In a transaction block.
    Block,
    /// In a transaction block that an error has made void: it waits for its end, or for
    /// ROLLBACK TO.
    Failed,
}

/// What a command answers, once what it does is committed.
#[derive(Drop)]
pub struct Reply {
    /// None where the rows or the failure are all that is printed.
    pub tag: Option<Tag>,
    /// The rows of a query, or of RETURNING.
    pub grid: Option<Grid>,
    /// The command failed; then there is nothing else.
    pub fail: Option<Fail>,
}
