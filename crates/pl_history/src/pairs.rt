//! Numbers at places, and the undoing of changes.

ghost use Rattle.std.specs.Prelude.{◌≡◌, ◌<◌, ◌+◌, ◌∷◌, ◌++◌, ◌↔◌, [], Some, length};
ghost use Rattle.std.specs.Prelude.{slice_get, slice_set, OnOk, OnErr};
ghost use Rattle.std.specs.Option.{ForSome};
ghost use Rattle.pl_history.specs.History.{back, changed, settled};
ghost use Rattle.pl_history.specs.Pairs.{IsFree, IsFreeBeside};

use crate::cells::{drop_last, put};
use crate::links::Link;
use std::alloc::{AllocError, Global};
use std::marker::Model;

// How a change is undone.
#[derive(Clone, Copy)]
pub enum Change {
    /// The last place goes.
    Pushed,
    /// The place has this number, or none.
    Set { at: usize, number: Option<usize> },
}

/// Numbers at places, each at one place at most. Both count from 0.
#[derive(Drop)]
pub struct Pairs {
    numbers: Vec<Link>,
    /// Where each number is.
    places: Vec<Link>,
    changes: Vec<Change>,
}

impl Model for Pairs {
    ghost use Rattle.std.specs.Prelude.{length};
    ghost use Rattle.std.specs.List.{AllByRecursion};
    ghost use Rattle.pl_history.specs.History.{history, past_of};
    ghost use Rattle.pl_history.specs.Pairs.{Paired, Inverse, Fits};
    ghost use Rattle.pl_history.specs.Undo.{undo_one};

    ghost Value = { Paired };

    ghost view = { λ p. record {
      numbers = history undo_one p.changes.items p.numbers.items;
      count = length p.places.items;
    } };

    ghost invariant = { λ p. Inverse p.numbers.items p.places.items
        × AllByRecursion (Fits (length p.places.items))
        (past_of undo_one p.changes.items p.numbers.items) };
}

impl Pairs {
    /// No places and no numbers.
    pub fn new(alloc: Global) -> Pairs
        ensures numbers { result.numbers.current ≡ [] }
        ensures past { result.numbers.past ≡ [] }
        ensures count { result.count ≡ 0 }
    {
        Pairs {
            numbers: Vec::new(alloc),
            places: Vec::new(alloc),
            changes: Vec::new(alloc),
        }
    }

    /// How many numbers there are; the greatest is one less.
    pub fn count(&self) -> usize
        ensures { result ≡ self.now.count }
    {
        self.places.len()
    }

    /// How many places there are.
    pub fn len(&self) -> usize
        ensures { result ≡ length self.now.numbers.current }
    {
        self.numbers.len()
    }

    /// The place that has this number. None where no place has it.
    pub fn place_of(&self, number: usize) -> Option<usize>
        ensures { (at : _) → (result ≡ Some at)
            ↔ (slice_get self.now.numbers.current at ≡ Some (Some number)) }
    {
        if number < self.places.len() {
            self.places[number].get()
        } else {
            None
        }
    }

    /// One number more, which no place has.
    pub fn widen(&mut self) -> Result<(), AllocError>
        ensures numbers { self.new.numbers ≡ self.old.numbers }
        ensures ok { OnOk result (self.new.count ≡ self.old.count + 1) }
        ensures err { OnErr result (self.new.count ≡ self.old.count) }
    {
        self.places.push(Link::NONE)?;
        Ok(())
    }

    /// A place more, behind the others.
    pub fn push(&mut self, number: Option<usize>) -> Result<(), AllocError>
        requires known { ForSome number (λ n. n < self.old.count) }
        requires free { ForSome number (λ n. IsFree n self.old.numbers.current) }
        ensures ok { OnOk result (self.new.numbers
            ≡ changed (self.old.numbers.current ++ number ∷ []) self.old.numbers) }
        ensures count { self.new.count ≡ self.old.count }
        ensures err { OnErr result (self.new ≡ self.old) }
    {
        self.changes.reserve(1)?;
        self.numbers.push(Link::NONE)?;
        let at = self.numbers.len() - 1;
        put(&mut self.numbers, &mut self.places, at, number);
        self.changes.push_reserved(Change::Pushed);
        Ok(())
    }

    /// Gives the place another number, or none.
    pub fn set(&mut self, at: usize, number: Option<usize>) -> Result<(), AllocError>
        requires there { at < length self.old.numbers.current }
        requires known { ForSome number (λ n. n < self.old.count) }
        requires free { ForSome number (λ n. IsFreeBeside at n self.old.numbers.current) }
        ensures ok { OnOk result (self.new.numbers
            ≡ changed (slice_set self.old.numbers.current at number) self.old.numbers) }
        ensures count { self.new.count ≡ self.old.count }
        ensures err { OnErr result (self.new ≡ self.old) }
    {
        self.changes.reserve(1)?;
        let old = self.numbers[at].get();
        put(&mut self.numbers, &mut self.places, at, number);
        self.changes.push_reserved(Change::Set { at, number: old });
        Ok(())
    }

    /// Undoes the newest change, if there is one.
    pub fn undo(&mut self)
        ensures back { self.new.numbers ≡ back self.old.numbers }
        ensures count { self.new.count ≡ self.old.count }
    {
        match self.changes.pop() {
            Some(Change::Pushed) => drop_last(&mut self.numbers, &mut self.places),
            Some(Change::Set { at, number }) => {
                if at < self.numbers.len() {
                    put(&mut self.numbers, &mut self.places, at, number);
                }
            }
            None => {}
        }
    }

    /// No change can be undone from now on.
    pub fn forget(&mut self)
        ensures settled { self.new.numbers ≡ settled self.old.numbers }
        ensures count { self.new.count ≡ self.old.count }
    {
        self.changes.clear();
    }
}
