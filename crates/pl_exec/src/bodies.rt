//! Bodies of the routines that expressions call.

use crate::holding::run_held;
use crate::tasks::body;
use pl_bodies::Body;
use pl_control::pl_engine::{BodyRunner, Engine, Held, Stop};
use pl_world::Outcome;

/// Runs the bodies of the routines that expressions call, with any room.
#[derive(Clone, Copy)]
pub struct Bodies;

impl BodyRunner for Bodies {
    ghost runs = { λ b room. Unit {0} };

    fn run_body(
        &self,
        room: u64,
        engine: &mut Engine,
        held: &mut Held,
        b: &Body,
    ) -> Result<Outcome, Stop> {
        body(room, run_held, engine, held, b)
    }
}
