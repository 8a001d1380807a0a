//! Calls that are entered and left.

ghost use Rattle.std.specs.Prelude.{◌≡◌, ◌∷◌, drop, length, OnErr, OnOk};
ghost use Rattle.pl_engine.specs.Engines.{kept, with_call, world};
ghost use Rattle.pl_world.specs.Calls.{popped};

use crate::call::Call;
use crate::engine::Engine;
use pl_base::{List, Name, Value};
use pl_declared::Static;
use std::alloc::AllocError;

impl Engine {
    /// How many calls run.
    #[tactic(auto, using(crate::proofs::Popping::counted))]
    pub fn calls(&self) -> usize
        ensures { result ≡ length (world self.now).below }
    {
        self.frames.depth()
    }

    /// A call is entered, with these arguments. FOUND is false behind them.
    pub fn enter(
        &mut self,
        routine: Name,
        is_command: bool,
        declared: Static,
        arguments: List<Value>,
    ) -> Result<(), AllocError>
        ensures is { OnOk result (world self.new
            ≡ with_call routine is_command declared arguments (world self.old)) }
        ensures keeps { OnOk result (kept self.new
            ≡ record (kept self.old) { below = (world self.old).frame ∷ (world self.old).below }) }
        ensures not { OnErr result (world self.new ≡ world self.old) }
        ensures not_kept { OnErr result (kept self.new ≡ kept self.old) }
    {
        let call = Call {
            routine,
            is_command,
            declared,
            handled: Vec::new(self.alloc),
        };
        self.frames.enter(call, arguments)?;
        Ok(())
    }

    /// The newest call is left, if one runs. Its variables are gone.
    pub fn leave(&mut self)
        ensures is { world self.new ≡ popped (world self.old) }
        ensures keeps { kept self.new
            ≡ record (kept self.old) { below = drop 1 (world self.old).below } }
    {
        self.frames.leave();
    }
}
