//! Expressions of most kinds, with the values that the manual gives them.

use pl_base::{Arithmetic, Boxed, Comparison, List, Operator, State, Ty, Value};
use pl_resolved::{Combination, RArm, RCase, RChain, RExpr, RPair, RStep};
use pl_value::{Lent, NoQueries, NoRoutines, Unsettled, passes, value};
use std::alloc::{AllocError, Global};
use std::test::Fail;

fn list(alloc: Global, values: &[Value]) -> Result<List<RExpr>, AllocError> {
    let mut list = List::new(alloc);
    for v in values {
        list.push(RExpr::Constant(v.copy(alloc)?))?;
    }
    Ok(list)
}

// `2 + 3 * 4` from the left, as one chain.
fn chain(alloc: Global) -> Result<Boxed<RChain>, AllocError> {
    let mut steps = List::new(alloc);
    steps.push(RStep {
        operator: Operator::Arithmetic(Arithmetic::Add),
        operand: RExpr::Constant(Value::Int(3)),
    })?;
    steps.push(RStep {
        operator: Operator::Arithmetic(Arithmetic::Multiply),
        operand: RExpr::Constant(Value::Big(4)),
    })?;
    Boxed::new(
        alloc,
        RChain {
            first: RExpr::Constant(Value::Int(2)),
            steps,
        },
    )
}

// `CASE 1 WHEN 2 THEN 10 WHEN 1 THEN 20 END`
fn case(alloc: Global) -> Result<Boxed<RCase>, AllocError> {
    let mut arms = List::new(alloc);
    arms.push(RArm {
        when: RExpr::Constant(Value::Int(2)),
        then: RExpr::Constant(Value::Int(10)),
    })?;
    arms.push(RArm {
        when: RExpr::Constant(Value::Int(1)),
        then: RExpr::Constant(Value::Int(20)),
    })?;
    let operand = Some(Boxed::new(alloc, RExpr::Constant(Value::Int(1)))?);
    Boxed::new(
        alloc,
        RCase {
            operand,
            arms,
            otherwise: None,
            to: Ty::Big,
        },
    )
}

// A number itself; 0 for null, -1 for false, -2 for true.
fn number_of(v: &Value) -> i64 {
    match v {
        Value::Int(n) => i64::from(*n),
        Value::Big(n) => *n,
        Value::Bool(false) => -1,
        Value::Bool(true) => -2,
        _ => 0,
    }
}

// The number that an expression gives over one row, of 5 and 7.
fn read(alloc: Global, e: Result<RExpr, AllocError>) -> Result<i64, Unsettled> {
    let e = e?;
    let cells = [Value::Int(5), Value::Int(7)];
    let frame = [Lent { cells: &cells }];
    let v = value(alloc, &e, &NoQueries, &frame, &mut NoRoutines)?;
    Ok(number_of(v.get()))
}

fn has_code(state: State, code: &[u8; 5]) -> bool {
    state.code == *code
}

// The same; of a failure -3 for 42804, -6 for 22003, -7 for 22012, -4 for another.
fn number(alloc: Global, e: Result<RExpr, AllocError>) -> i64 {
    match read(alloc, e) {
        Ok(number) => number,
        Err(unsettled) => number_of_failure(unsettled),
    }
}

fn number_of_failure(unsettled: Unsettled) -> i64 {
    match unsettled {
        Unsettled::Fails(state) if has_code(state, b"42804") => -3,
        Unsettled::Fails(state) if has_code(state, b"22003") => -6,
        Unsettled::Fails(state) if has_code(state, b"22012") => -7,
        Unsettled::Fails(_) => -4,
        Unsettled::Memory => -5,
    }
}

// Whether a condition passes over one row.
fn passes_over_one(alloc: Global, e: Result<RExpr, AllocError>) -> Result<bool, Unsettled> {
    let e = e?;
    let cells = [Value::Int(5), Value::Int(7)];
    let frame = [Lent { cells: &cells }];
    passes(alloc, &e, &NoQueries, &frame, &mut NoRoutines)
}

// The same, as 1 or 0, or as the number of its failure.
fn passed(alloc: Global, e: Result<RExpr, AllocError>) -> i64 {
    match passes_over_one(alloc, e) {
        Ok(passed) => i64::from(passed),
        Err(unsettled) => number_of_failure(unsettled),
    }
}

fn combined(
    alloc: Global,
    combination: Combination,
    values: &[Value],
) -> Result<RExpr, AllocError> {
    Ok(RExpr::Combined {
        combination,
        operands: list(alloc, values)?,
    })
}

#[test]
fn expressions_have_their_values(rt: HostRuntime) -> Result<(), Fail> {
    let alloc = rt.alloc();
    assert_eq!(rt; number(alloc, Ok(RExpr::Place { row: 0, column: 1 })), 7);
    assert_eq!(rt; number(alloc, Ok(RExpr::Place { row: 1, column: 1 })), 0);
    assert_eq!(rt; number(alloc, chain(alloc).map(RExpr::Chain)), 20);
    assert_eq!(rt; number(alloc, case(alloc).map(RExpr::Case)), 20);
    let one_null_two = [Value::Int(1), Value::Null, Value::Int(2)];
    assert_eq!(rt;
        number(
            alloc,
            combined(alloc, Combination::In(Ty::Int), &one_null_two)
        ),
        0
    );
    assert_eq!(rt;
        number(
            alloc,
            combined(alloc, Combination::Greatest(Ty::Big), &one_null_two)
        ),
        2
    );
    assert_eq!(rt;
        number(
            alloc,
            combined(alloc, Combination::Least(Ty::Big), &one_null_two)
        ),
        1
    );
    assert_eq!(rt;
        number(alloc, combined(alloc, Combination::Between, &one_null_two)),
        0
    );
    assert_eq!(rt; number(alloc, Ok(RExpr::Scalar(0))), 0);
    assert_eq!(rt; number(alloc, Ok(RExpr::Exists(0))), -1);
    Ok(())
}

#[test]
fn truths_stop_where_they_are_fixed(rt: HostRuntime) -> Result<(), Fail> {
    let alloc = rt.alloc();
    let false_then_one = [Value::Bool(false), Value::Int(1)];
    let true_then_one = [Value::Bool(true), Value::Int(1)];
    assert_eq!(rt;
        number(alloc, list(alloc, &false_then_one).map(RExpr::And)),
        -1
    );
    assert_eq!(rt;
        number(alloc, list(alloc, &true_then_one).map(RExpr::And)),
        -3
    );
    assert_eq!(rt;
        number(alloc, list(alloc, &true_then_one).map(RExpr::Or)),
        -2
    );
    assert_eq!(rt;
        number(alloc, list(alloc, &false_then_one).map(RExpr::Or)),
        -3
    );
    Ok(())
}

/// An integer, a bigint or null.
#[derive(Clone, Copy)]
enum Term {
    Int(i32),
    Big(i64),
    Null,
}

/// Operators on numbers, from the left, with the number that they give, and with 1 where it is
/// above zero. A failure is given as by `number_of_failure`, null as 0.
#[derive(Clone, Copy)]
struct Calculation {
    name: &'static str,
    first: Term,
    steps: &'static [(Arithmetic, Term)],
    number: i64,
    is_positive: i64,
}

const CALCULATIONS: [Calculation; 13] = [
    Calculation {
        name: "7 + 3 * 2, all from the left",
        first: Term::Int(7),
        steps: &[
            (Arithmetic::Add, Term::Int(3)),
            (Arithmetic::Multiply, Term::Int(2)),
        ],
        number: 20,
        is_positive: 1,
    },
    Calculation {
        name: "100 - 7 * 3 / 2 % 50, all from the left",
        first: Term::Int(100),
        steps: &[
            (Arithmetic::Subtract, Term::Int(7)),
            (Arithmetic::Multiply, Term::Big(3)),
            (Arithmetic::Divide, Term::Int(2)),
            (Arithmetic::Remainder, Term::Int(50)),
        ],
        number: 39,
        is_positive: 1,
    },
    Calculation {
        name: "the first step has no integer",
        first: Term::Int(i32::MAX),
        steps: &[
            (Arithmetic::Add, Term::Int(1)),
            (Arithmetic::Subtract, Term::Int(1)),
        ],
        number: -6,
        is_positive: -6,
    },
    Calculation {
        name: "the last step has no integer",
        first: Term::Int(65_536),
        steps: &[
            (Arithmetic::Subtract, Term::Int(1)),
            (Arithmetic::Multiply, Term::Int(65_536)),
        ],
        number: -6,
        is_positive: -6,
    },
    Calculation {
        name: "a bigint holds what an integer doesn't",
        first: Term::Int(i32::MAX),
        steps: &[
            (Arithmetic::Add, Term::Big(1)),
            (Arithmetic::Add, Term::Int(1)),
        ],
        number: 2_147_483_649,
        is_positive: 1,
    },
    Calculation {
        name: "a bigint behind a step that has no integer",
        first: Term::Int(i32::MAX),
        steps: &[
            (Arithmetic::Add, Term::Int(1)),
            (Arithmetic::Add, Term::Big(1)),
        ],
        number: -6,
        is_positive: -6,
    },
    Calculation {
        name: "no bigint",
        first: Term::Big(i64::MAX),
        steps: &[(Arithmetic::Add, Term::Int(1))],
        number: -6,
        is_positive: -6,
    },
    Calculation {
        name: "the least bigint by -1",
        first: Term::Big(i64::MIN),
        steps: &[(Arithmetic::Divide, Term::Int(-1))],
        number: -6,
        is_positive: -6,
    },
    Calculation {
        name: "the least integer by -1 leaves nothing over",
        first: Term::Int(i32::MIN),
        steps: &[(Arithmetic::Remainder, Term::Int(-1))],
        number: 0,
        is_positive: 0,
    },
    Calculation {
        name: "a quotient by zero",
        first: Term::Int(7),
        steps: &[
            (Arithmetic::Add, Term::Big(1)),
            (Arithmetic::Divide, Term::Int(0)),
        ],
        number: -7,
        is_positive: -7,
    },
    Calculation {
        name: "a remainder by zero",
        first: Term::Big(7),
        steps: &[(Arithmetic::Remainder, Term::Big(0))],
        number: -7,
        is_positive: -7,
    },
    Calculation {
        name: "a null in front of a zero divisor",
        first: Term::Null,
        steps: &[(Arithmetic::Divide, Term::Int(0))],
        number: 0,
        is_positive: 0,
    },
    Calculation {
        name: "a null behind a step that fails",
        first: Term::Int(7),
        steps: &[
            (Arithmetic::Divide, Term::Int(0)),
            (Arithmetic::Add, Term::Null),
        ],
        number: -7,
        is_positive: -7,
    },
];

fn constant(term: Term) -> RExpr {
    RExpr::Constant(match term {
        Term::Int(number) => Value::Int(number),
        Term::Big(number) => Value::Big(number),
        Term::Null => Value::Null,
    })
}

fn chain_of(alloc: Global, case: &Calculation) -> Result<RExpr, AllocError> {
    let mut steps = List::new(alloc);
    for (operator, operand) in case.steps {
        steps.push(RStep {
            operator: Operator::Arithmetic(*operator),
            operand: constant(*operand),
        })?;
    }
    let first = constant(case.first);
    Ok(RExpr::Chain(Boxed::new(alloc, RChain { first, steps })?))
}

fn step_of(
    alloc: Global,
    first: RExpr,
    operator: Arithmetic,
    operand: Term,
) -> Result<RExpr, AllocError> {
    let mut steps = List::new(alloc);
    steps.push(RStep {
        operator: Operator::Arithmetic(operator),
        operand: constant(operand),
    })?;
    Ok(RExpr::Chain(Boxed::new(alloc, RChain { first, steps })?))
}

// The same, each step of it in brackets.
fn nested_chain_of(alloc: Global, case: &Calculation) -> Result<RExpr, AllocError> {
    let mut so_far = constant(case.first);
    for (operator, operand) in case.steps {
        so_far = step_of(alloc, so_far, *operator, *operand)?;
    }
    Ok(so_far)
}

// Whether what is calculated is above zero.
fn is_positive(alloc: Global, first: RExpr) -> Result<RExpr, AllocError> {
    let second = constant(Term::Int(0));
    Ok(RExpr::Binary {
        operator: Operator::Compare(Comparison::Greater),
        operands: Boxed::new(alloc, RPair { first, second })?,
    })
}

fn has_number(alloc: Global, e: Result<RExpr, AllocError>, case: &Calculation) -> bool {
    number(alloc, e) == case.number
}

fn has_truth(alloc: Global, e: Result<RExpr, AllocError>, case: &Calculation) -> bool {
    match e {
        Ok(e) => passed(alloc, is_positive(alloc, e)) == case.is_positive,
        Err(_) => false,
    }
}

fn is_right(alloc: Global, case: &Calculation) -> bool {
    has_number(alloc, chain_of(alloc, case), case)
        && has_number(alloc, nested_chain_of(alloc, case), case)
        && has_truth(alloc, chain_of(alloc, case), case)
        && has_truth(alloc, nested_chain_of(alloc, case), case)
}

// The first calculation that gives another number.
fn other(alloc: Global) -> Option<&'static str> {
    for case in &CALCULATIONS {
        if !is_right(alloc, case) {
            return Some(case.name);
        }
    }
    None
}

#[test]
fn calculations_give_their_numbers(rt: HostRuntime) {
    assert_eq!(rt; other(rt.alloc()), None);
}
