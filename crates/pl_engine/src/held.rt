//! What is printed while an expression is evaluated.

ghost use Rattle.std.specs.Prelude.{◌≡◌, []};

use crate::port::{Port, PortFail};
use pl_base::Txt;
use pl_world::pl_journal::Journal;
use std::alloc::Global;
use std::marker::Model;

/// A port that holds what is printed, piece by piece, until it is told to another. It takes no
/// commit: a routine that an expression calls makes none.
#[derive(Drop)]
pub struct Held {
    alloc: Global,
    pieces: Vec<Txt>,
}

impl Model for Held {
    ghost use Rattle.std.specs.Prelude.{List, ℕ};

    ghost Value = { List (List ℕ) };

    ghost view = { λ h. h.pieces.items };
}

impl Held {
    /// Nothing is held.
    pub fn new(alloc: Global) -> Held
        ensures { result ≡ [] }
    {
        Held {
            alloc,
            pieces: Vec::new(alloc),
        }
    }

    /// What is held, in the order in which it came.
    pub fn pieces(&self) -> &[Txt]
        ensures { result.now ≡ self.now }
    {
        self.pieces.as_slice()
    }
}

impl Port for Held {
    ghost use Rattle.std.specs.Prelude.{◌≡◌};
    ghost use Rattle.std.proofs.Common.{arith};
    ghost use Rattle.pl_engine.specs.Holding.{HoldsMore, holds_join, holds_none};

    ghost fits = { λ db h. Unit {0} };

    ghost took = { λ db es p q. HoldsMore es p q };

    ghost tried = { λ db e p q. q ≡ p };

    ghost disk_faults = { λ h. 0 };

    ghost say_faults = { λ h. 0 };

    ghost none = { λ db p. holds_none p };

    ghost joins = { λ db es fs p q r one two. holds_join es fs p q r one two };

    ghost rises = { λ db es p q took. (omega arith, omega arith) };

    fn say(&mut self, lines: &[u8]) -> Result<(), PortFail> {
        let Ok(piece) = Txt::from_slice(self.alloc, lines) else {
            return Err(PortFail::Memory);
        };
        match self.pieces.push(piece) {
            Ok(()) => Ok(()),
            Err(_) => Err(PortFail::Memory),
        }
    }

    fn commit(&mut self, _: &Journal) -> Result<(), PortFail> {
        Err(PortFail::Memory)
    }
}
