//! Marks: places to go back to, for handlers and for savepoints. PostgreSQL manual, "PL/pgSQL",
//! "Trapping Errors"; "SAVEPOINT". Whoever goes back wants no memory.

ghost use Rattle.std.specs.Prelude.{◌≡◌, ◌<◌, ◌≤◌, ◌+◌, [], ◌∷◌, ◌++◌, length, slice_get, take};
ghost use Rattle.std.specs.Prelude.{Some, OnOk};

use crate::Journal;
use pl_undo::Mark;
use std::alloc::AllocError;

impl Journal {
    /// How many marks are live.
    pub fn depth(&self) -> usize
        ensures { result ≡ length self.now.marks }
    {
        self.store.depth()
    }

    /// Takes the room for one more mark.
    pub fn reserve_mark(&mut self) -> Result<(), AllocError>
        ensures now { self.new.now ≡ self.old.now }
        ensures last { self.new.last ≡ self.old.last }
        ensures marks { self.new.marks ≡ self.old.marks }
        ensures spare { OnOk result (1 ≤ self.new.spare) }
    {
        self.sizes.reserve(1)?;
        self.store.reserve_mark()
    }

    /// Sets a mark at the database now.
    pub fn mark(&mut self) -> Mark
        requires room { 1 ≤ self.old.spare }
        ensures now { self.new.now ≡ self.old.now }
        ensures last { self.new.last ≡ self.old.last }
        ensures marks { self.new.marks ≡ self.old.marks ++ self.old.now ∷ [] }
        ensures at { result.at ≡ length self.old.marks }
    {
        self.sizes.push_reserved(self.payload.len());
        self.store.mark()
    }

    /// Goes back to the mark. Destroys later marks, and keeps this one.
    pub fn roll_back(&mut self, mark: &Mark)
        requires live { mark.now.at < length self.old.marks }
        ensures now { slice_get self.old.marks mark.now.at ≡ Some self.new.now }
        ensures last { self.new.last ≡ self.old.last }
        ensures marks { self.new.marks ≡ take (mark.now.at + 1) self.old.marks }
    {
        let size = self.sizes[mark.at];
        self.payload.truncate(size);
        self.sizes.truncate(mark.at + 1);
        self.store.roll_back(mark);
    }

    /// Destroys this mark and later ones.
    pub fn release(&mut self, mark: Mark)
        requires live { mark.at < length self.old.marks }
        ensures now { self.new.now ≡ self.old.now }
        ensures last { self.new.last ≡ self.old.last }
        ensures marks { self.new.marks ≡ take mark.at self.old.marks }
    {
        self.sizes.truncate(mark.at);
        self.store.release(mark);
    }
}
