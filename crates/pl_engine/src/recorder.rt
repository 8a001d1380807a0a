//! A port in memory.

ghost use Rattle.std.specs.Prelude.{◌≡◌, [], IsErrOf, OnOk};
ghost use Rattle.pl_engine.specs.Faults.{Rose};
ghost use Rattle.pl_engine.specs.Recorded.{taken};
ghost use Rattle.pl_engine.specs.declared.port.PortFail.TheVariants.{Memory};

use crate::port::{Port, PortFail};
use pl_base::Txt;
use pl_world::pl_journal::Journal;
use std::alloc::Global;

/// A port that keeps what it took, and whose device fails from some call on.
#[derive(Drop)]
pub struct Recorder {
    alloc: Global,
    printed: Vec<u8>,
    /// The payload of each commit.
    payloads: Vec<Txt>,
    /// How many calls succeed from now on.
    left: u64,
    faults: u64,
}

impl Recorder {
    /// Nothing is taken yet, what is stored is the empty database, and so many calls succeed.
    pub fn new(alloc: Global, left: u64) -> Recorder
        ensures printed { (taken result).printed ≡ [] }
        ensures payloads { (taken result).payloads ≡ [] }
    {
        Recorder {
            alloc,
            printed: Vec::new(alloc),
            payloads: Vec::new(alloc),
            left,
            faults: 0,
        }
    }

    /// What was printed.
    pub fn printed(&self) -> &[u8]
        ensures { result.now ≡ (taken self.now).printed }
    {
        self.printed.as_slice()
    }

    /// The payloads of the commits, in order.
    pub fn payloads(&self) -> &[Txt]
        ensures { result.now ≡ (taken self.now).payloads }
    {
        self.payloads.as_slice()
    }

    // The device works once more, or it fails.
    fn works(&mut self) -> Result<(), PortFail>
        ensures taken { taken self.new ≡ taken self.old }
        ensures faults { OnOk result (self.new.faults ≡ self.old.faults) }
        ensures memory { IsErrOf result Memory → self.new.faults ≡ self.old.faults }
        ensures fault { Rose result self.old.faults self.new.faults }
    {
        if self.left > 0 {
            self.left -= 1;
            return Ok(());
        }
        self.faults = self.faults.saturating_add(1);
        Err(PortFail::Device)
    }
}

impl Port for Recorder {
    ghost use Rattle.std.specs.Prelude.{◌≡◌};
    ghost use Rattle.std.proofs.Common.{refl};
    ghost use Rattle.pl_engine.specs.Recorded.{Lead, Takes, taken};
    ghost use Rattle.pl_engine.specs.RecordedLaws.{counts_join, counts_rise, takes_join};
    ghost use Rattle.pl_world.specs.pl_journal.Operation.{empty};

    ghost fits = { λ db r. Lead r.payloads.items empty db };

    ghost took = { λ db es p q. Takes es db (taken p) (taken q) × (q.faults ≡ p.faults) };

    ghost tried = { λ db e p q. taken q ≡ taken p };

    ghost disk_faults = { λ r. r.faults };

    ghost say_faults = { λ r. r.faults };

    ghost none = { λ db p. (refl, refl) };

    ghost joins = { λ db es fs p q r one two. (
      takes_join es fs db (taken p) (taken q) (taken r) one.0 two.0,
      counts_join one.1 two.1,
    ) };

    ghost rises = { λ db es p q took. counts_rise took.1 };

    fn say(&mut self, lines: &[u8]) -> Result<(), PortFail> {
        self.works()?;
        match self.printed.extend_from_slice(lines) {
            Ok(()) => Ok(()),
            Err(_) => Err(PortFail::Memory),
        }
    }

    fn commit(&mut self, journal: &Journal) -> Result<(), PortFail> {
        self.works()?;
        let Ok(payload) = Txt::from_slice(self.alloc, journal.payload()) else {
            return Err(PortFail::Memory);
        };
        let Ok(()) = self.payloads.push(payload) else {
            return Err(PortFail::Memory);
        };
        Ok(())
    }
}
