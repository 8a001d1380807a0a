//! Marks: places to go back to, for handlers and for savepoints. PostgreSQL manual, "PL/pgSQL",
//! "Trapping Errors"; "SAVEPOINT".

ghost use Rattle.std.specs.Prelude.{◌≡◌, ◌<◌, ◌≤◌, ◌+◌, [], ◌∷◌, ◌++◌, length, slice_get, take};
ghost use Rattle.std.specs.Prelude.{Some, OnOk};

use crate::PlannedJournal;
use pl_undo::Mark;
use std::alloc::AllocError;

impl PlannedJournal {
    /// How many marks are live.
    pub fn depth(&self) -> usize
        ensures { result ≡ length self.now.marks }
    {
        self.journal.depth()
    }

    /// As `Journal::reserve_mark`.
    pub fn reserve_mark(&mut self) -> Result<(), AllocError>
        ensures now { self.new.now ≡ self.old.now }
        ensures last { self.new.last ≡ self.old.last }
        ensures marks { self.new.marks ≡ self.old.marks }
        ensures spare { OnOk result (1 ≤ self.new.spare) }
    {
        self.journal.reserve_mark()
    }

    /// As `Journal::mark`.
    pub fn mark(&mut self) -> Mark
        requires room { 1 ≤ self.old.spare }
        ensures now { self.new.now ≡ self.old.now }
        ensures last { self.new.last ≡ self.old.last }
        ensures marks { self.new.marks ≡ self.old.marks ++ self.old.now ∷ [] }
        ensures at { result.at ≡ length self.old.marks }
    {
        self.journal.mark()
    }

    /// As `Journal::roll_back`. What was resolved stays, where the objects have been the same since
    /// the mark; what is resolved from now on stays when it is gone back to again.
    pub fn roll_back(&mut self, mark: &Mark)
        requires live { mark.now.at < length self.old.marks }
        ensures now { slice_get self.old.marks mark.now.at ≡ Some self.new.now }
        ensures last { self.new.last ≡ self.old.last }
        ensures marks { self.new.marks ≡ take (mark.now.at + 1) self.old.marks }
    {
        self.journal.roll_back(mark);
        if mark.at < self.since {
            self.plans.clear();
            self.since = mark.at;
        }
    }

    /// As `Journal::release`. That `since` is lowered serves time alone: more of the marks to come
    /// are known to have the objects now.
    pub fn release(&mut self, mark: Mark)
        requires live { mark.at < length self.old.marks }
        ensures now { self.new.now ≡ self.old.now }
        ensures last { self.new.last ≡ self.old.last }
        ensures marks { self.new.marks ≡ take mark.at self.old.marks }
    {
        let at = mark.at;
        self.journal.release(mark);
        if at < self.since {
            self.since = at;
        }
    }
}
