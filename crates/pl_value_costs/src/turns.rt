//! The turns of the loop.

use crate::trees::{is_even, next};
use pl_base::Value;
use pl_resolved::RExpr;
use pl_value::{Lent, NoQueries, NoRoutines, passes, value};
use std::alloc::{AllocError, Global};

// The number that the expression gives; 0 where it gives none.
fn number_of(alloc: Global, e: &RExpr, row: &[Value]) -> i64 {
    let frame = [Lent { cells: row }];
    match value(alloc, e, &NoQueries, &frame, &mut NoRoutines) {
        Ok(made) => match made.get() {
            Value::Int(number) => i64::from(*number),
            Value::Big(number) => *number,
            _ => 0,
        },
        Err(_) => 0,
    }
}

fn holds(alloc: Global, e: &RExpr, row: &[Value]) -> bool {
    let frame = [Lent { cells: row }];
    match passes(alloc, e, &NoQueries, &frame, &mut NoRoutines) {
        Ok(holds) => holds,
        Err(_) => false,
    }
}

// What s becomes in a turn, where it was so, and whether it is even then.
fn turn(alloc: Global, next: &RExpr, is_even: &RExpr, s: i64, i: i32) -> (i64, bool) {
    let row = [Value::Big(s), Value::Int(i)];
    let s = number_of(alloc, next, &row);
    let row = [Value::Big(s), Value::Int(i)];
    (s, holds(alloc, is_even, &row))
}

/// Makes so many turns, and counts those behind which s is even.
pub fn count_evens(alloc: Global, turns: i32) -> Result<i64, AllocError> {
    let next = next(alloc)?;
    let is_even = is_even(alloc)?;
    let mut s: i64 = 1;
    let mut evens: i64 = 0;
    for i in 0..turns {
        let (now, is_so) = turn(alloc, &next, &is_even, s, i);
        s = now;
        if is_so {
            evens = evens.saturating_add(1);
        }
    }
    Ok(evens)
}
