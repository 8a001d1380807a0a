//! Values that are lent or made, rows that are lent, and why there is no value.

ghost use Rattle.std.specs.Prelude.{◌≡◌, IfOk};

use pl_base::{State, Value};
use std::alloc::{AllocError, Global};
use std::marker::Model;

/// A value that stands elsewhere, or one that was made. Contracts see the value alone.
#[derive(Drop)]
pub struct Operand<'a> {
    inner: Inner<'a>,
}

#[derive(Drop)]
enum Inner<'a> {
    Lent(&'a Value),
    Made(Value),
}

impl<'a> Model for Operand<'a> {
    ghost use Rattle.pl_base.specs.declared.value.Value as base;
    ghost use Rattle.pl_base.specs.contracts.value.Value as row;
    ghost use Rattle.std.specs.Coded.{codes};

    ghost Value = { base.Value };

    ghost coded = { Prim.hlevel (codes, row.the_row.coded) };

    ghost use Rattle.pl_value.specs.Operand.{operand};

    ghost view = { λ o. operand o.inner };
}

impl<'a> Operand<'a> {
    /// A value that stands elsewhere.
    pub fn lent(value: &'a Value) -> Operand<'a>
        ensures { result ≡ value.now }
    {
        Operand {
            inner: Inner::Lent(value),
        }
    }

    /// A value that was made.
    pub fn made(value: Value) -> Operand<'a>
        ensures { result ≡ value }
    {
        Operand {
            inner: Inner::Made(value),
        }
    }

    /// The value itself, copied only if it stands elsewhere.
    pub fn take(self, alloc: Global) -> Result<Value, AllocError>
        ensures { IfOk result (λ v. v ≡ self.entry) }
    {
        match self.inner {
            Inner::Lent(value) => value.copy(alloc),
            Inner::Made(value) => Ok(value),
        }
    }

    pub fn get(&self) -> &Value
        ensures { result.now ≡ self.now }
    {
        match &self.inner {
            Inner::Lent(value) => *value,
            Inner::Made(value) => value,
        }
    }
}

/// A row that stands elsewhere.
#[derive(Clone, Copy)]
pub struct Lent<'a> {
    pub cells: &'a [Value],
}

/// Why there is no value.
#[derive(Clone, Copy)]
pub enum Unsettled {
    /// The evaluation fails with this SQLSTATE.
    Fails(State),
    /// There was no memory.
    Memory,
}

impl From<AllocError> for Unsettled {
    ghost use Rattle.std.specs.Prelude.{◌≡◌};
    ghost use Rattle.pl_value.specs.declared.operand.Unsettled.TheVariants.{Memory};

    ghost from_gives = { λ _ unsettled. unsettled ≡ Memory };

    fn from(_: AllocError) -> Self {
        Unsettled::Memory
    }
}
