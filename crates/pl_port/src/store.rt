//! The port over a keeper and its host.

ghost use Rattle.std.specs.Prelude.{◌≡◌};

use pl_disk::Host;
use pl_engine::pl_journal::Journal;
use pl_engine::{Port, PortFail};
use pl_frames::FrameFail;
use pl_keeper::Keeper;
use std::alloc::Global;

/// The port over a keeper and its host. Both are its borrower's again once it is let go.
#[derive(Drop)]
pub struct StorePort<'h, H> {
    alloc: Global,
    keeper: &'h mut Keeper,
    host: &'h mut H,
}

impl<'h, H: Host> StorePort<'h, H> {
    /// Nothing is printed and nothing stored yet.
    pub fn new(alloc: Global, keeper: &'h mut Keeper, host: &'h mut H) -> StorePort<'h, H>
        ensures same_keeper { result.keeper.ghost_name ≡ keeper.entry.ghost_name }
        ensures same_host { result.host.ghost_name ≡ host.entry.ghost_name }
        ensures keeper { result.keeper.now ≡ keeper.entry.now }
        ensures host { result.host.now ≡ host.entry.now }
    {
        StorePort {
            alloc,
            keeper,
            host,
        }
    }
}

impl<'h, H: Host> Port for StorePort<'h, H> {
    ghost use Rattle.std.specs.Prelude.{◌≡◌};
    ghost use Rattle.std.proofs.Common.{refl, ◌∙◌};
    ghost use Rattle.pl_port.specs.Ports.{Fits, Takes, Tries};
    ghost use Rattle.pl_port.specs.PortLaws.{counts_rise, takes_join, takes_none};

    ghost fits = { λ db p. Fits (H.view p.host.now) p.keeper.now db };

    ghost took = { λ db es p q. (q.host.ghost_name ≡ p.host.ghost_name)
        × ((q.keeper.ghost_name ≡ p.keeper.ghost_name)
        × Takes es db (H.view p.host.now) (H.view q.host.now) p.keeper.now q.keeper.now) };

    ghost tried = { λ db e p q. (q.host.ghost_name ≡ p.host.ghost_name)
        × ((q.keeper.ghost_name ≡ p.keeper.ghost_name)
        × Tries e db (H.view p.host.now) (H.view q.host.now)) };

    ghost disk_faults = { λ p. (H.view p.host.now).disk_faults };

    ghost say_faults = { λ p. (H.view p.host.now).say_faults };

    ghost none = { λ db p. (refl, (refl, takes_none db (H.view p.host.now) p.keeper.now)) };

    ghost joins = { λ db es fs p q r one two. (
      two.0 ∙ one.0,
      (
        two.1.0 ∙ one.1.0,
        takes_join db es fs (H.view p.host.now) (H.view q.host.now) (H.view r.host.now)
            p.keeper.now q.keeper.now r.keeper.now one.1.1 two.1.1,
      ),
    ) };

    ghost rises = { λ db es p q took. counts_rise took.1.1 };

    fn say(&mut self, lines: &[u8]) -> Result<(), PortFail> {
        match self.host.say(lines) {
            Ok(()) => Ok(()),
            Err(_) => Err(PortFail::Device),
        }
    }

    fn commit(&mut self, journal: &Journal) -> Result<(), PortFail> {
        let payload = journal.payload();
        if payload.is_empty() {
            return Ok(());
        }
        match self
            .keeper
            .commit_payload(self.alloc, &mut *self.host, payload)
        {
            Ok(()) => Ok(()),
            Err(FrameFail::Fault) => Err(PortFail::Device),
            Err(FrameFail::Memory) => Err(PortFail::Memory),
            Err(FrameFail::Damaged { .. }) => unreachable!(),
        }
    }
}
