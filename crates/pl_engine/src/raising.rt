//! Errors that arise.

ghost use Rattle.std.specs.Prelude.{◌≡◌, reverse};
ghost use Rattle.pl_engine.specs.Engines.{Quiet, world};
ghost use Rattle.pl_world.specs.Errors.{failure, place, raised, raises};
ghost use Rattle.pl_world.specs.Raising.{raised_fail};
ghost use Rattle.pl_world.specs.declared.outcome.Outcome.TheVariants as outcome;

use crate::engine::Engine;
use crate::spot::Spot;
use pl_base::{Fail, Message, Origin, Place, State, Txt};
use pl_world::Outcome;

impl Engine {
    // Where a statement stands in the newest call.
    fn place(&self, at: Spot) -> Place
        ensures { result ≡ place at (world self.now) }
    {
        Place {
            routine: self.frames.newest().call.routine,
            line: at.line,
            ordinal: at.ordinal,
        }
    }

    /// What an error of the engine is that arises here. It says the name of its condition.
    pub fn failure(&self, state: State, at: Spot) -> Fail
        ensures { result ≡ failure state at (world self.now) }
    {
        Fail {
            state,
            message: Message::Standard,
            detail: None,
            hint: None,
            origin: Origin::Engine,
            place: self.place(at),
        }
    }

    /// An error of the engine arises here.
    pub fn raise(&self, state: State, at: Spot) -> Outcome
        ensures { Quiet (raised state at (world self.now)) result self.now self.now }
    {
        Outcome::Fail(self.failure(state, at))
    }

    /// An error that RAISE or ASSERT raises here, with its own text.
    pub fn raise_text(
        &self,
        state: State,
        text: Txt,
        detail: Option<Txt>,
        hint: Option<Txt>,
        at: Spot,
    ) -> Outcome
        ensures { Quiet (raises outcome.Fail (raised_fail state text detail hint at
            (world self.now)) (world self.now)) result self.now self.now }
    {
        Outcome::Fail(Fail {
            state,
            message: Message::Text(text),
            detail,
            hint,
            origin: Origin::Raise,
            place: self.place(at),
        })
    }

    /// The errors that the newest call handles, the newest last.
    pub fn handled(&self) -> &[Fail]
        ensures { reverse result.now ≡ (world self.now).frame.handled }
    {
        self.frames.newest().call.handled.as_slice()
    }
}
