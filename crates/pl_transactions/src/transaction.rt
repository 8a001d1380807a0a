//! Where a session stands between two commands.

ghost use Rattle.std.specs.Prelude.{◌≡◌, []};
ghost use Rattle.pl_transactions.specs.State as spec;
ghost use Rattle.pl_command.specs.pl_world.Sessions.{after_error};
ghost use Rattle.pl_command.specs.pl_world.declared.session.Mode.TheVariants as modes;

use pl_base::Name;
use pl_command::pl_world::{Mode, Reply};
use std::alloc::Global;

/// What a session keeps between two commands beside its engine.
#[derive(Drop)]
pub struct Transaction {
    pub(crate) mode: Mode,
    /// The names of the savepoints, the oldest first. Each has its mark in the engine.
    pub(crate) names: Vec<Name>,
}

impl Transaction {
    /// That of a new session, which is in no block.
    pub fn new(alloc: Global) -> Transaction
        ensures mode { result.mode ≡ modes.Idle }
        ensures names { result.names.items ≡ [] }
    {
        Transaction {
            mode: Mode::Idle,
            names: Vec::new(alloc),
        }
    }

    /// Whether the session is in no transaction block.
    pub fn is_idle(&self) -> bool
        ensures { result ≡ spec.is_idle self.now.mode }
    {
        match self.mode {
            Mode::Idle => true,
            Mode::Block => false,
            Mode::Failed => false,
        }
    }

    // An error makes a block void.
    pub(crate) fn fail(&mut self)
        ensures mode { self.new.mode ≡ after_error self.old.mode }
        ensures names { self.new.names.items ≡ self.old.names.items }
    {
        self.mode = match self.mode {
            Mode::Idle => Mode::Idle,
            Mode::Block => Mode::Failed,
            Mode::Failed => Mode::Failed,
        };
    }

    // What was answered makes a block void if it is an error.
    pub(crate) fn note(&mut self, reply: &Reply)
        ensures mode { self.new.mode ≡ spec.mode_behind reply.now.fail self.old.mode }
        ensures names { self.new.names.items ≡ self.old.names.items }
    {
        match &reply.fail {
            Some(_) => self.fail(),
            None => {}
        }
    }

    // The block ends.
    pub(crate) fn end(&mut self)
        ensures mode { self.new.mode ≡ modes.Idle }
        ensures names { self.new.names.items ≡ [] }
    {
        self.mode = Mode::Idle;
        self.names.clear();
    }
}
