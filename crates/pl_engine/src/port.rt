//! Where what is printed and committed goes.

ghost use Rattle.std.specs.Prelude.{◌≤◌, ◌++◌, ◌∷◌, [], ℕ, List, OnOk, OnErr, IsErrOf};
ghost use Rattle.pl_engine.specs.Faults.{Rose};
ghost use Rattle.pl_engine.specs.declared.port.PortFail.TheVariants.{Memory};
ghost use Rattle.pl_world.specs.Trace.{Event, Said, Committed, last_commit};
ghost use Rattle.pl_undo.specs.Database.{Database};

use pl_world::pl_journal::Journal;

/// Why a port didn't take an event wholly.
#[derive(Clone, Copy, Debug, PartialEq, Eq)]
pub enum PortFail {
    /// Its device failed.
    Device,
    /// There was no memory. Nothing of the event was taken.
    Memory,
}

/// Where what is printed and committed goes. No port need keep what it took.
pub trait Port {
    /// It may be used, and what it stores is this database.
    ghost fits: { Database → Self → Type 0 };

    /// From a store of this database on, these events, each of them wholly, led from the one state
    /// to the other.
    ghost took: { Database → List Event → Self → Self → Type 0 };

    /// A call that failed may have done this event in part, over a store of this database.
    ghost tried: { Database → Event → Self → Self → Type 0 };

    /// How often storing failed.
    ghost disk_faults: { Self → ℕ };

    /// How often printing failed.
    ghost say_faults: { Self → ℕ };

    /// Prints these lines.
    fn say(&mut self, lines: &[u8]) -> Result<(), PortFail>
        ensures ok { (db : Database) → fits db self.old → OnOk result
            (took db (Said lines.now ∷ []) self.old self.new × fits db self.new) }
        ensures err { (db : Database) → fits db self.old → OnErr result
            (tried db (Said lines.now) self.old self.new) }
        ensures memory { (db : Database) → fits db self.old → IsErrOf result Memory
            → took db [] self.old self.new }
        ensures fault { Rose result (say_faults self.old) (say_faults self.new) };

    /// Stores what was done to the database of this journal since its last commit.
    fn commit(&mut self, journal: &Journal) -> Result<(), PortFail>
        requires fits { fits journal.now.last self.old }
        ensures ok { OnOk result
            (took journal.now.last (Committed journal.now.now ∷ []) self.old self.new) }
        ensures stored { OnOk result (fits journal.now.now self.new) }
        ensures err { OnErr result
            (tried journal.now.last (Committed journal.now.now) self.old self.new) }
        ensures memory { IsErrOf result Memory → took journal.now.last [] self.old self.new }
        ensures fault { Rose result (disk_faults self.old) (disk_faults self.new) };

    /// No event is taken by doing nothing.
    ghost none: { (db : Database) (p : Self) → took db [] p p };

    /// Events that follow one another join.
    ghost joins: { (db : Database) (es fs : List Event) (p q r : Self) → took db es p q
        → took (last_commit es db) fs q r → took db (es ++ fs) p r };

    /// The counts never fall.
    ghost rises: { (db : Database) (es : List Event) (p q : Self) → took db es p q
        → (disk_faults p ≤ disk_faults q) × (say_faults p ≤ say_faults q) };
}
