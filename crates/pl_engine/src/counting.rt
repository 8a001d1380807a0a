//! FOUND and ROW_COUNT of the newest call: PostgreSQL manual, "PL/pgSQL", "Obtaining the Result
//! Status".

ghost use Rattle.std.specs.Prelude.{◌≡◌};
ghost use Rattle.pl_engine.specs.Engines.{kept, world};
ghost use Rattle.pl_world.specs.Variables as spec;

use crate::engine::Engine;

impl Engine {
    /// So many rows were found or changed. ROW_COUNT is their number, and FOUND says whether there
    /// was one.
    #[tactic(auto, unfolding(pl_world::specs::Variables::counted))]
    pub fn count(&mut self, rows: u64)
        ensures is { world self.new ≡ spec.counted rows (world self.old) }
        ensures keeps { kept self.new ≡ kept self.old }
    {
        let found = self.frames.newest().call.declared.scope().params.len();
        self.frames.count(found, rows);
    }
}
