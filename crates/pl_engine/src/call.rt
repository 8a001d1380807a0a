//! What is known of a call beside its variables.

ghost use Rattle.std.specs.Prelude.{◌≡◌, []};
ghost use Rattle.pl_engine.specs.Engines.{frame_of};
ghost use Rattle.pl_variables.specs.Frames.{frame};
ghost use Rattle.pl_world.specs.Sessions.{no_call};

use pl_base::{Fail, Name};
use pl_declared::Static;
use std::alloc::Global;

/// What is known of a call beside the values of its variables.
#[derive(Drop)]
pub struct Call {
    /// `Name::NONE` in a DO, and outside of all calls.
    pub routine: Name,
    /// It is a CALL or a DO.
    pub is_command: bool,
    /// What names are resolved against.
    pub declared: Static,
    /// The errors that are handled, the newest last.
    pub handled: Vec<Fail>,
}

impl Call {
    /// What stands for no call.
    pub fn none(alloc: Global) -> Call
        ensures { frame_of (frame result []) ≡ no_call }
    {
        Call {
            routine: Name::NONE,
            is_command: true,
            declared: Static::outside(alloc),
            handled: Vec::new(alloc),
        }
    }
}
