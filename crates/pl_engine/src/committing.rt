//! Whether a transaction may end within a body: PostgreSQL manual, "PL/pgSQL", "Transaction
//! Management".

ghost use Rattle.std.specs.Prelude.{◌≡◌, ◌&&◌, ◌∷◌};
ghost use Rattle.std.specs.List.{list_all};
ghost use Rattle.pl_engine.specs.Engines.{is_command, world};
ghost use Rattle.pl_world.specs.Transactions as spec;

use crate::call::Call;
use crate::engine::Engine;
use pl_variables::Frame;

// Each of these calls is a CALL or a DO.
fn all_commands(calls: &[Frame<Call>]) -> bool
    ensures { result ≡ list_all is_command calls.now }
{
    calls.iter().all(|frame| frame.call.is_command)
}

// So are the newest call and those below it.
fn both_commands(newest: &Frame<Call>, below: &[Frame<Call>]) -> bool
    ensures { result ≡ (is_command newest.now && list_all is_command below.now) }
{
    newest.call.is_command && all_commands(below)
}

impl Engine {
    // Each call that runs is a CALL or a DO.
    fn are_commands(&self) -> bool
        ensures { result ≡ spec.are_commands ((world self.now).frame ∷ (world self.now).below) }
    {
        both_commands(self.frames.newest(), self.frames.below())
    }

    /// Whether COMMIT and ROLLBACK may be done here: each call that runs is a CALL or a DO, no
    /// block with handlers runs its statements, and the session is in no transaction block.
    pub fn may_commit(&self) -> bool
        ensures { result ≡ spec.may_commit (world self.now) }
    {
        !self.in_block && self.depth() == 0 && self.are_commands()
    }
}
