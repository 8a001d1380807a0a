//! The calls that run and their variables, which are found by their places.

ghost use Rattle.std.specs.Prelude.{◌≡◌, length, reverse, take, OnOk, OnErr};
ghost use Rattle.std.specs.Borrow.{Lends, sem};
ghost use Rattle.pl_variables.specs.Frames as spec;
ghost use Rattle.pl_variables.specs.contracts.frames.Frames.{the_row};

use pl_base::{List, Value};
use std::alloc::{AllocError, Global};
use std::marker::Model;
use std::mem;

/// A call and its variables.
#[derive(Drop)]
pub struct Frame<C> {
    /// What else is known of the call.
    pub call: C,
    /// The arguments, FOUND, and the variables of the blocks that it is in, the outermost first.
    pub values: List<Value>,
    /// ROW_COUNT.
    pub row_count: u64,
}

/// The calls that run. The newest one is where statements run.
#[derive(Drop)]
pub struct Frames<C> {
    newest: Frame<C>,
    /// The newest last.
    below: Vec<Frame<C>>,
}

impl<C> Model for Frames<C> {
    ghost use Rattle.std.specs.Prelude.{reverse};
    ghost use Rattle.std.specs.Coded.{codes};
    ghost use Rattle.pl_base.specs.contracts.value.Value as value;
    ghost use Rattle.pl_variables.specs.Frames as spec;

    ghost Value = { spec.Frames C };

    ghost coded = { Prim.hlevel (codes, C.code, value.the_row.coded) };

    ghost view = { λ f. record { newest = f.newest; below = reverse f.below.items } };
}

impl<C> Frames<C> {
    /// No call runs. What stands for it has no variables.
    pub fn new(alloc: Global, call: C) -> Frames<C>
        ensures { result ≡ spec.no_call call }
    {
        Frames {
            newest: Frame {
                call,
                values: List::new(alloc),
                row_count: 0,
            },
            below: Vec::new(alloc),
        }
    }

    /// The newest call.
    pub fn newest(&self) -> &Frame<C>
        ensures { result.now ≡ self.now.newest }
    {
        &self.newest
    }

    /// What else is known of the newest call.
    pub fn call_mut(&mut self) -> &mut C
        ensures* writes_back { sem 𝓛 (Lends (the_row C.row) C.row self.entry result
            (λ call. spec.with_call call self.old)) }
        ensures value { result.now ≡ self.old.newest.call }
    {
        let newest = &mut self.newest;
        &mut newest.call
    }

    /// The calls below the newest one, the newest of them last. The first stands for no call.
    pub fn below(&self) -> &[Frame<C>]
        ensures { reverse result.now ≡ self.now.below }
    {
        self.below.as_slice()
    }

    /// How many calls run.
    pub fn depth(&self) -> usize
        ensures { result ≡ length self.now.below }
    {
        self.below.len()
    }
}

impl<C: Drop> Frames<C> {
    /// A call is entered, with these arguments. FOUND is false behind them.
    pub fn enter(&mut self, call: C, arguments: List<Value>) -> Result<(), AllocError>
        ensures ok { OnOk result (self.new ≡ spec.entered call arguments self.old) }
        ensures err { OnErr result (self.new ≡ self.old) }
    {
        let mut values = arguments;
        values.push(Value::Bool(false))?;
        self.below.reserve(1)?;
        let frame = Frame {
            call,
            values,
            row_count: 0,
        };
        self.below
            .push_reserved(mem::replace(&mut self.newest, frame));
        Ok(())
    }

    /// The newest call is left, if one runs. Its variables are gone.
    pub fn leave(&mut self)
        ensures { self.new ≡ spec.left self.old }
    {
        if let Some(caller) = self.below.pop() {
            self.newest = caller;
        }
    }

    /// A variable is declared, behind the others.
    pub fn declare(&mut self, value: Value) -> Result<(), AllocError>
        ensures ok { OnOk result (self.new ≡ spec.declared value self.old) }
        ensures err { OnErr result (self.new ≡ self.old) }
    {
        self.newest.values.push(value)
    }

    /// A block is closed: of the variables the first `count` are left.
    pub fn close(&mut self, count: usize)
        ensures { self.new ≡ spec.closed count self.old }
    {
        shorten(&mut self.newest.values, count);
    }

    /// The variable of this place has this value, if there is one.
    pub fn set(&mut self, at: usize, value: Value)
        ensures { self.new ≡ spec.with_value at value self.old }
    {
        if at < self.newest.values.len() {
            self.newest.values.set(at, value);
        }
    }

    /// The variables of the newest call have these values, and what they had is handed out.
    pub fn exchange(&mut self, values: List<Value>) -> List<Value>
        ensures was { result ≡ self.old.newest.values }
        ensures is { self.new ≡ spec.with_values values self.old }
    {
        mem::replace(&mut self.newest.values, values)
    }

    /// So many rows were found or changed. FOUND has the place `found`.
    pub fn count(&mut self, found: usize, rows: u64)
        ensures { self.new ≡ spec.counted found rows self.old }
    {
        self.newest.row_count = rows;
        self.set(found, Value::Bool(rows != 0));
    }
}

// The first `count` values are left.
fn shorten(values: &mut List<Value>, count: usize)
    ensures { values.new ≡ take count values.old }
{
    while values.len() > count {
        values.pop();
    }
}
