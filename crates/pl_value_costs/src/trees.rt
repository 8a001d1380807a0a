//! The two expressions over a row of s and i.

use pl_base::{Arithmetic, Boxed, Comparison, List, Operator, Value};
use pl_resolved::{RChain, RExpr, RPair, RStep};
use std::alloc::{AllocError, Global};

fn variable(column: usize) -> RExpr {
    RExpr::Place { row: 0, column }
}

fn number(number: i32) -> RExpr {
    RExpr::Constant(Value::Int(number))
}

// An operator on two operands.
fn chain(
    alloc: Global,
    first: RExpr,
    operator: Arithmetic,
    operand: RExpr,
) -> Result<RExpr, AllocError> {
    let mut steps = List::new(alloc);
    steps.push(RStep {
        operator: Operator::Arithmetic(operator),
        operand,
    })?;
    Ok(RExpr::Chain(Boxed::new(alloc, RChain { first, steps })?))
}

/// `(s * 31 + i) % 1000003`
pub fn next(alloc: Global) -> Result<RExpr, AllocError> {
    let product = chain(alloc, variable(0), Arithmetic::Multiply, number(31))?;
    let sum = chain(alloc, product, Arithmetic::Add, variable(1))?;
    chain(alloc, sum, Arithmetic::Remainder, number(1_000_003))
}

/// `s % 2 = 0`
pub fn is_even(alloc: Global) -> Result<RExpr, AllocError> {
    let first = chain(alloc, variable(0), Arithmetic::Remainder, number(2))?;
    let operands = Boxed::new(
        alloc,
        RPair {
            first,
            second: number(0),
        },
    )?;
    Ok(RExpr::Binary {
        operator: Operator::Compare(Comparison::Equal),
        operands,
    })
}
