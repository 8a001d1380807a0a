//! What is read where no call of a routine is reached. All of it is lent, since nothing can change
//! while it is read.

ghost use Rattle.std.specs.Prelude.{◌≡◌, ◌++◌};
ghost use Rattle.pl_calling.specs.Ends.{TriedAs};
ghost use Rattle.pl_engine.specs.Engines.{world};
ghost use Rattle.pl_engine.specs.Texts.{do_bodies};
ghost use Rattle.pl_engine.specs.pl_world.Expressions as spec;
ghost use Rattle.pl_engine.specs.pl_world.Statements.{runner_for};
ghost use Rattle.pl_engine.specs.pl_world.Transactions.{arguments_over};
ghost use Rattle.pl_engine.specs.pl_world.Variables.{row_of};

use crate::lending::{row_beside, rows_over, value_over, values_over};
use crate::start::Start;
use pl_base::{Cells, List, Name, Value};
use pl_engine::pl_scope::ResolvedExpr;
use pl_engine::{Engine, Spot};
use pl_resolved::{RExpr, RQuery};
use pl_value::{Caller, Unsettled};
use std::alloc::Global;
use std::marker::{Model, PhantomData};

/// What makes no call, and stops where one is reached.
#[derive(Drop)]
pub(crate) struct Trial<B: Start> {
    at: Spot,
    room: u64,
    /// A call was reached.
    is_reached: bool,
    of: PhantomData<B>,
}

impl<B: Start> Model for Trial<B> {
    ghost use Rattle.std.specs.Coded.{codes};
    ghost use Rattle.pl_base.specs.contracts.value.Value as value;
    ghost use Rattle.pl_catalog.specs.contracts.object.Object as object;
    ghost use Rattle.pl_calling.specs.Standing.{Standing, fresh};

    ghost Value = { Standing };

    ghost coded = { Prim.hlevel (codes, value.the_row.coded, object.the_row.coded) };

    ghost view = { λ t. fresh t.at t.room B.begin };
}

impl<B: Start> Caller for Trial<B> {
    ghost use Rattle.pl_calling.specs.Standing.{calls_kept};

    ghost calls = { calls_kept };

    fn call(&mut self, _: Global, _: Name, _: List<Value>) -> Result<Value, Unsettled> {
        self.is_reached = true;
        Err(Unsettled::Memory)
    }
}

/// What came of reading without calls.
#[derive(Drop)]
pub struct Tried<A> {
    pub answer: Result<A, Unsettled>,
    /// A call was reached, so that there is no answer.
    pub is_reached: bool,
}

// The value of an expression over this row.
fn try_over<B: Start>(
    room: u64,
    engine: &Engine,
    at: Spot,
    e: &ResolvedExpr,
    row: &[Value],
) -> Tried<Value>
    requires begins { B.begin ≡ world engine.now }
    ensures { TriedAs at room
        (spec.value_over (runner_for do_bodies room) at e.now row.now (world engine.now))
        (world engine.now) result }
{
    let mut trial: Trial<B> = Trial {
        at,
        room,
        is_reached: false,
        of: PhantomData,
    };
    let answer = value_over(engine.alloc(), e, engine.journal(), row, &mut trial);
    Tried {
        answer,
        is_reached: trial.is_reached,
    }
}

/// The value of an expression, with further values behind the variables.
pub(crate) fn try_value<B: Start>(
    room: u64,
    engine: &Engine,
    at: Spot,
    e: &ResolvedExpr,
    beside: &[Value],
) -> Tried<Value>
    requires begins { B.begin ≡ world engine.now }
    ensures { TriedAs at room
        (spec.value_over (runner_for do_bodies room) at e.now
        (row_of (world engine.now).frame ++ beside.now) (world engine.now))
        (world engine.now) result }
{
    if beside.is_empty() {
        return try_over::<B>(room, engine, at, e, engine.values());
    }
    match row_beside(engine, beside) {
        Ok(row) => try_over::<B>(room, engine, at, e, row.as_slice()),
        Err(_) => Tried {
            answer: Err(Unsettled::Memory),
            is_reached: false,
        },
    }
}

/// The rows of the last of these queries, if no call of a routine is reached. All that is read is
/// lent.
pub fn try_rows<B: Start>(
    room: u64,
    engine: &Engine,
    at: Spot,
    queries: &List<RQuery>,
) -> Tried<List<Cells>>
    requires begins { B.begin ≡ world engine.now }
    ensures { TriedAs at room
        (spec.rows_over (runner_for do_bodies room) at queries.now (world engine.now))
        (world engine.now) result }
{
    let mut trial: Trial<B> = Trial {
        at,
        room,
        is_reached: false,
        of: PhantomData,
    };
    let answer = rows_over(
        engine.alloc(),
        queries,
        engine.journal(),
        engine.values(),
        &mut trial,
    );
    Tried {
        answer,
        is_reached: trial.is_reached,
    }
}

/// The values of expressions in which no query stands.
pub(crate) fn try_values<B: Start>(
    room: u64,
    engine: &Engine,
    at: Spot,
    list: &[RExpr],
) -> Tried<List<Value>>
    requires begins { B.begin ≡ world engine.now }
    ensures { TriedAs at room
        (arguments_over (runner_for do_bodies room) at list.now (world engine.now))
        (world engine.now) result }
{
    let mut trial: Trial<B> = Trial {
        at,
        room,
        is_reached: false,
        of: PhantomData,
    };
    let answer = values_over(engine.alloc(), list, engine.values(), &mut trial);
    Tried {
        answer,
        is_reached: trial.is_reached,
    }
}
