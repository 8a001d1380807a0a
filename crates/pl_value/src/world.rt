//! What evaluation leaves to others: calls of routines, and the queries inside.

ghost use Rattle.std.specs.Prelude.{List, ℕ};
ghost use Rattle.pl_base.specs.declared.value.Value as base;
ghost use Rattle.pl_value.specs.Answers.{Reads};
ghost use Rattle.pl_value.specs.Frames.{rows_of};
ghost use Rattle.pl_value.specs.Meaning.{Sub, has_row};
ghost use Rattle.pl_value.specs.Reading.{Reading};

use crate::{Lent, Unsettled};
use pl_base::{Cells, List, Name, State, Value};
use std::alloc::Global;

/// What makes the calls of routines. A call may change it.
pub trait Caller {
    ghost calls: { List ℕ → List base.Value → Self → Reading Self base.Value };

    /// The result of the routine of this name.
    fn call(
        &mut self,
        alloc: Global,
        routine: Name,
        values: List<Value>,
    ) -> Result<Value, Unsettled>
        ensures { Reads (calls routine values self.old) result self.new };
}

/// What runs the queries inside of expressions.
pub trait Subqueries<C> {
    ghost sub: { Self → Sub C };

    /// What it needs of the function that it passes queries on to.
    ghost can: { Self → Type 0 };

    /// The rows of the query of this number, inside the rows that stand.
    fn rows(
        &self,
        alloc: Global,
        query: usize,
        frame: &[Lent<'_>],
        caller: &mut C,
    ) -> Result<List<Cells>, Unsettled>
        requires { can self.now }
        ensures { Reads (sub self.now query (rows_of frame.now) caller.old) result caller.new };

    /// Whether the query of this number has a row. It fails where the rows would.
    fn has_row(
        &self,
        alloc: Global,
        query: usize,
        frame: &[Lent<'_>],
        caller: &mut C,
    ) -> Result<bool, Unsettled>
        requires { can self.now }
        ensures { Reads (has_row (sub self.now) query (rows_of frame.now) caller.old)
            result caller.new };
}

/// Knows no routine: each call is 42883.
#[derive(Drop)]
pub struct NoRoutines;

impl Caller for NoRoutines {
    ghost use Rattle.pl_value.specs.NoRoutines.{unknown};

    ghost calls = { unknown };

    fn call(&mut self, _: Global, _: Name, _: List<Value>) -> Result<Value, Unsettled> {
        Err(Unsettled::Fails(State::UNDEFINED_FUNCTION))
    }
}

/// Runs no query: each has no rows.
#[derive(Drop)]
pub struct NoQueries;

impl<C> Subqueries<C> for NoQueries {
    ghost use Rattle.std.specs.Prelude.{[]};
    ghost use Rattle.pl_value.specs.Reading.{got};

    ghost sub = { λ _ query frame w. got [] w };

    ghost can = { λ _. Unit {0} };

    fn rows(
        &self,
        alloc: Global,
        _: usize,
        _: &[Lent<'_>],
        _: &mut C,
    ) -> Result<List<Cells>, Unsettled> {
        Ok(List::new(alloc))
    }

    fn has_row(&self, _: Global, _: usize, _: &[Lent<'_>], _: &mut C) -> Result<bool, Unsettled> {
        Ok(false)
    }
}
