//! The variables of the newest call, in the blocks that declare them.

ghost use Rattle.std.specs.Prelude.{◌≡◌, OnOk};
ghost use Rattle.pl_engine.specs.Engines.{kept, world};
ghost use Rattle.pl_world.specs.Variables as spec;

use crate::engine::Engine;
use pl_base::{List, Name, Ty, Value};
use pl_declared::Static;
use std::alloc::AllocError;

impl Engine {
    /// What names are resolved against in the newest call.
    pub fn declared(&self) -> &Static
        ensures { result.now ≡ (world self.now).frame.static }
    {
        &self.frames.newest().call.declared
    }

    /// The variables of the newest call, by their places.
    pub fn values(&self) -> &[Value]
        ensures { result.now ≡ spec.row_of (world self.now).frame }
    {
        self.frames.newest().values.as_slice()
    }

    /// ROW_COUNT of the newest call.
    pub fn row_count(&self) -> u64
        ensures { result ≡ (world self.now).frame.row_count }
    {
        self.frames.newest().row_count
    }

    /// A block is opened.
    #[tactic(auto, unfolding(pl_world::specs::Variables::opened))]
    pub fn open(&mut self, label: Option<Name>) -> Result<(), AllocError>
        ensures is { OnOk result (world self.new ≡ spec.opened label (world self.old)) }
        ensures keeps { kept self.new ≡ kept self.old }
    {
        self.frames.call_mut().declared.open(self.alloc, label)
    }

    /// A variable is declared in the newest block, with its value.
    #[tactic(auto, unfolding(pl_world::specs::Variables::declared))]
    pub fn declare(
        &mut self,
        name: Name,
        ty: Ty,
        is_required: bool,
        value: Value,
    ) -> Result<(), AllocError>
        ensures is { OnOk result
            (world self.new ≡ spec.declared name ty is_required value (world self.old)) }
        ensures keeps { kept self.new ≡ kept self.old }
    {
        self.frames.declare(value)?;
        self.frames
            .call_mut()
            .declared
            .declare(name, ty, is_required)
    }

    /// The newest block is closed. Its variables are gone.
    #[tactic(auto, unfolding(pl_world::specs::Variables::closed))]
    pub fn close(&mut self)
        ensures is { world self.new ≡ spec.closed (world self.old) }
        ensures keeps { kept self.new ≡ kept self.old }
    {
        self.frames.call_mut().declared.close();
        let count = self.frames.newest().call.declared.count();
        self.frames.close(count);
    }

    /// The place of the variable that was declared last.
    pub fn newest_place(&self) -> usize
        ensures { result ≡ spec.newest_place (world self.now) }
    {
        self.frames.newest().values.len().saturating_sub(1)
    }

    /// The variable of this place has this value.
    pub fn set(&mut self, at: usize, value: Value)
        ensures is { world self.new ≡ spec.with_value at value (world self.old) }
        ensures keeps { kept self.new ≡ kept self.old }
    {
        self.frames.set(at, value);
    }

    /// The variables of the newest call have these values, and what they had is handed out.
    pub fn exchange_values(&mut self, values: List<Value>) -> List<Value>
        ensures was { result ≡ (world self.old).frame.values }
        ensures is { world self.new
            ≡ spec.with_frame (record (world self.old).frame { values = values }) (world self.old) }
        ensures keeps { kept self.new ≡ kept self.old }
    {
        self.frames.exchange(values)
    }

    /// FOUND says so.
    pub fn set_found(&mut self, is: bool)
        ensures is { world self.new ≡ spec.with_found is (world self.old) }
        ensures keeps { kept self.new ≡ kept self.old }
    {
        let at = self.frames.newest().call.declared.scope().params.len();
        self.set(at, Value::Bool(is));
    }
}
