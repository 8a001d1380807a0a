//! What statements work on.

ghost use Rattle.std.specs.Prelude.{◌≡◌, [], false, true};
ghost use Rattle.pl_engine.specs.Engines.{Took, kept, world};
ghost use Rattle.pl_world.specs.Sessions.{new_world, with_steps};

use crate::call::Call;
use pl_base::Name;
use pl_planned::PlannedJournal;
use pl_variables::Frames;
use pl_world::pl_journal::Journal;
use std::alloc::Global;

/// What statements work on. It stands for a world.
#[derive(Drop)]
pub struct Engine {
    pub(crate) alloc: Global,
    /// It has a mark for each block with handlers that runs its statements, and for each savepoint.
    pub(crate) journal: PlannedJournal,
    pub(crate) frames: Frames<Call>,
    /// The steps that are left.
    pub(crate) steps: u64,
    /// The session is in a transaction block.
    pub(crate) in_block: bool,
    /// The tables that running changes write, the newest last.
    pub(crate) changing: Vec<Name>,
}

impl Engine {
    /// No call runs, and no step is left.
    pub fn new(alloc: Global, journal: Journal) -> Engine
        requires at_rest { journal.last ≡ journal.now }
        requires unmarked { journal.marks ≡ [] }
        ensures { world result ≡ new_world journal.now }
    {
        Engine {
            alloc,
            journal: PlannedJournal::new(alloc, journal),
            frames: Frames::new(alloc, Call::none(alloc)),
            steps: 0,
            in_block: false,
            changing: Vec::new(alloc),
        }
    }

    /// Where memory comes from.
    pub fn alloc(&self) -> Global {
        self.alloc
    }

    /// The database, and that of the last commit.
    pub fn journal(&self) -> &Journal
        ensures now { result.now.now ≡ (world self.now).database }
        ensures last { result.now.last ≡ (world self.now).last }
    {
        self.journal.journal()
    }

    /// The steps that are left.
    pub fn steps(&self) -> u64
        ensures { result ≡ (world self.now).steps }
    {
        self.steps
    }

    /// A new command begins, which may take so many steps.
    pub fn give_steps(&mut self, budget: u64)
        ensures world { world self.new ≡ with_steps budget (world self.old) }
        ensures keeps { kept self.new ≡ kept self.old }
    {
        self.steps = budget;
    }

    /// Takes a step, if one is left.
    pub fn take_step(&mut self) -> bool
        ensures took { Took result self.old self.new }
        ensures keeps { kept self.new ≡ kept self.old }
    {
        if self.steps == 0 {
            return false;
        }
        self.steps -= 1;
        true
    }

    /// A transaction block of the session begins.
    pub fn begin_block(&mut self)
        ensures world { world self.new ≡ record (world self.old) { in_block = true } }
        ensures keeps { kept self.new ≡ record (kept self.old) { in_block = true } }
    {
        self.in_block = true;
    }

    /// The transaction block of the session ends.
    pub fn end_block(&mut self)
        ensures world { world self.new ≡ record (world self.old) { in_block = false } }
        ensures keeps { kept self.new ≡ record (kept self.old) { in_block = false } }
    {
        self.in_block = false;
    }

    /// Goes back to the last commit. No block is protected then, and no savepoint stands.
    pub fn reset(&mut self)
        ensures world { world self.new
            ≡ record (world self.old) { database = (world self.old).last; depth = 0 } }
        ensures keeps { kept self.new ≡ record (kept self.old) { marks = [] } }
    {
        self.journal.reset();
    }
}
