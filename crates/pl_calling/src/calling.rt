//! What makes calls while an expression is evaluated.

ghost use Rattle.std.specs.Prelude.{◌≡◌, ◌≤◌};
ghost use Rattle.pl_calling.specs.Standing.{fresh};
ghost use Rattle.pl_engine.specs.Engines.{kept, world};

use crate::bodies::{call_function, void};
use crate::start::Start;
use pl_base::{Fail, List, Name, Value};
use pl_engine::pl_journal::Journal;
use pl_engine::pl_world::Outcome;
use pl_engine::{BodyRunner, Calls, Engine, Held, Spot};
use pl_value::{Caller, Unsettled};
use std::alloc::Global;
use std::marker::{Model, PhantomData};
use std::mem;

/// What makes calls while an expression is evaluated: it has the engine. What is printed is held,
/// since of what follows nobody knows yet whether there is memory for it.
#[derive(Drop)]
pub struct Calling<'r, B: Start, R: BodyRunner> {
    pub(crate) engine: Engine,
    pub(crate) held: Held,
    bodies: &'r R,
    room: u64,
    at: Spot,
    /// The error of the newest call, if it failed.
    pub(crate) failure: Option<Fail>,
    /// A call stopped, so that the engine stands for no world.
    pub(crate) is_lost: bool,
    of: PhantomData<B>,
}

impl<'r, B: Start, R: BodyRunner> Model for Calling<'r, B, R> {
    ghost use Rattle.std.specs.Coded.{codes};
    ghost use Rattle.pl_base.specs.contracts.value.Value as value;
    ghost use Rattle.pl_catalog.specs.contracts.object.Object as object;
    ghost use Rattle.pl_calling.specs.Standing.{Sound, Standing, standing};
    ghost use Rattle.pl_engine.specs.Engines.{kept, world};

    ghost Value = { Standing };

    ghost coded = { Prim.hlevel (codes, value.the_row.coded, object.the_row.coded) };

    ghost view = { λ c. standing B.begin (world c.engine) c.held c.failure c.at c.room };

    ghost invariant = { λ c. Sound B.begin B.stays (R.runs c.bodies.now c.room) c.is_lost
        (world c.engine) (kept c.engine) c.room };
}

impl<'r, B: Start, R: BodyRunner> Calling<'r, B, R> {
    /// It takes the engine.
    pub fn begin(calls: &Calls<'r, R>, engine: &mut Engine, at: Spot) -> Calling<'r, B, R>
        requires begins { B.begin ≡ world engine.old }
        requires stays { B.stays ≡ kept engine.old }
        requires room { (world engine.old).steps ≤ calls.now.room }
        requires runs { R.runs calls.now.bodies.now calls.now.room }
        ensures { result ≡ fresh at calls.now.room (world engine.old) }
    {
        let alloc = engine.alloc();
        let empty = Engine::new(alloc, Journal::new(alloc));
        Calling {
            engine: mem::replace(engine, empty),
            held: Held::new(alloc),
            bodies: calls.bodies,
            room: calls.room,
            at,
            failure: None,
            is_lost: false,
            of: PhantomData,
        }
    }
}

impl<'r, B: Start, R: BodyRunner> Caller for Calling<'r, B, R> {
    ghost use Rattle.pl_calling.specs.Standing.{calls_kept};

    ghost calls = { calls_kept };

    fn call(&mut self, _: Global, name: Name, values: List<Value>) -> Result<Value, Unsettled> {
        if self.is_lost {
            return Err(Unsettled::Memory);
        }
        match call_function(
            self.bodies,
            self.room,
            &mut self.engine,
            &mut self.held,
            self.at,
            name,
            values,
        ) {
            Ok(Outcome::Return(v)) => {
                self.failure = None;
                Ok(v)
            }
            Ok(Outcome::Fail(f)) => {
                let state = f.state;
                self.failure = Some(f);
                Err(Unsettled::Fails(state))
            }
            Ok(Outcome::Next) => {
                self.failure = None;
                Ok(void(&self.engine))
            }
            Ok(Outcome::Exit(_)) => {
                self.failure = None;
                Ok(void(&self.engine))
            }
            Ok(Outcome::Continue(_)) => {
                self.failure = None;
                Ok(void(&self.engine))
            }
            Err(_) => {
                self.is_lost = true;
                Err(Unsettled::Memory)
            }
        }
    }
}
