//! Rows of two columns `a` and `b`, and the rule that each breaks first.

use pl_base::{Boxed, Cells, Comparison, List, Memory, Name, Operator, State, Txt, Ty, Value};
use pl_catalog::{Column, Rule, RuleKind, TableDef};
use pl_resolved::{RExpr, RPair};
use pl_rules::{RuleFail, check_row};
use std::alloc::Global;

fn word(text: &str) -> Result<Name, Memory> {
    Name::of(text).ok_or(Memory)
}

fn column(name: &str, is_not_null: bool) -> Result<Column, Memory> {
    Ok(Column {
        name: word(name)?,
        ty: Ty::Int,
        is_not_null,
        default: None,
    })
}

fn columns(alloc: Global, is_not_null: bool) -> Result<List<Column>, Memory> {
    let mut columns = List::new(alloc);
    columns.push(column("a", is_not_null)?)?;
    columns.push(column("b", is_not_null)?)?;
    Ok(columns)
}

// CHECK, under this name, that the column at the place is over this number.
fn check(alloc: Global, name: &str, column: usize, least: i32) -> Result<Rule, Memory> {
    let operands = Boxed::new(
        alloc,
        RPair {
            first: RExpr::Place { row: 0, column },
            second: RExpr::Constant(Value::Int(least)),
        },
    )?;
    Ok(Rule {
        name: word(name)?,
        kind: RuleKind::Check(RExpr::Binary {
            operator: Operator::Compare(Comparison::Greater),
            operands,
        }),
    })
}

// CHECK (a), which is no condition.
fn no_condition(name: &str) -> Result<Rule, Memory> {
    Ok(Rule {
        name: word(name)?,
        kind: RuleKind::Check(RExpr::Place { row: 0, column: 0 }),
    })
}

fn table(alloc: Global, is_not_null: bool, first: Rule, second: Rule) -> Result<TableDef, Memory> {
    let mut rules = List::new(alloc);
    rules.push(first)?;
    rules.push(second)?;
    Ok(TableDef {
        name: word("t")?,
        text: Txt::from_slice(alloc, b"")?,
        columns: columns(alloc, is_not_null)?,
        rules,
    })
}

// The CHECKs `z` and `k`: `a > 0` and `b > 0`.
fn checked(alloc: Global, is_not_null: bool) -> Result<TableDef, Memory> {
    table(
        alloc,
        is_not_null,
        check(alloc, "z", 0, 0)?,
        check(alloc, "k", 1, 0)?,
    )
}

// The CHECKs `z` and `k`: `a > 0` and `a`.
fn unsettled(alloc: Global) -> Result<TableDef, Memory> {
    table(alloc, false, check(alloc, "z", 0, 0)?, no_condition("k")?)
}

fn row(alloc: Global, a: Value, b: Value) -> Result<Cells, Memory> {
    let mut row = List::new(alloc);
    row.push(a)?;
    row.push(b)?;
    Ok(row)
}

// What the check of the row answers.
fn of_row(
    alloc: Global,
    table: Result<TableDef, Memory>,
    a: Value,
    b: Value,
) -> Result<(), RuleFail> {
    let table = table?;
    let row = row(alloc, a, b)?;
    check_row(alloc, &table, &row)
}

fn one_value(alloc: Global, a: Value) -> Result<Cells, Memory> {
    let mut row = List::new(alloc);
    row.push(a)?;
    Ok(row)
}

// The same of a row of one value, which is one too few.
fn of_one_value(alloc: Global, table: Result<TableDef, Memory>, a: Value) -> Result<(), RuleFail> {
    let table = table?;
    let row = one_value(alloc, a)?;
    check_row(alloc, &table, &row)
}

fn breaks(answer: Result<(), RuleFail>, state: State, rule: &str) -> bool {
    let Err(fail) = answer else {
        return false;
    };
    match fail {
        RuleFail::Broken {
            state: broken,
            rule: name,
        } => broken == state && name.as_bytes() == rule.as_bytes(),
        RuleFail::Evaluating(_) => false,
        RuleFail::Unfit => false,
        RuleFail::Memory => false,
    }
}

fn evaluates_to(answer: Result<(), RuleFail>, state: State) -> bool {
    let Err(fail) = answer else {
        return false;
    };
    match fail {
        RuleFail::Evaluating(failed) => failed == state,
        RuleFail::Broken { .. } => false,
        RuleFail::Unfit => false,
        RuleFail::Memory => false,
    }
}

fn is_unfit(answer: Result<(), RuleFail>) -> bool {
    let Err(fail) = answer else {
        return false;
    };
    match fail {
        RuleFail::Unfit => true,
        RuleFail::Broken { .. } => false,
        RuleFail::Evaluating(_) => false,
        RuleFail::Memory => false,
    }
}

#[test]
fn a_row_breaks_its_first_rule(rt: HostRuntime) {
    let alloc = rt.alloc();
    let null = State::NOT_NULL_VIOLATION;
    let broken = State::CHECK_VIOLATION;
    let both = of_row(alloc, checked(alloc, true), Value::Null, Value::Null);
    assert!(rt; breaks(both, null, "a"));
    let second = of_row(alloc, checked(alloc, true), Value::Int(0), Value::Null);
    assert!(rt; breaks(second, null, "b"));
    let checks = of_row(alloc, checked(alloc, false), Value::Int(0), Value::Int(0));
    assert!(rt; breaks(checks, broken, "k"));
    let last = of_row(alloc, checked(alloc, true), Value::Int(0), Value::Int(1));
    assert!(rt; breaks(last, broken, "z"));
    let unknown = of_row(alloc, checked(alloc, false), Value::Null, Value::Null);
    assert!(rt; unknown.is_ok());
    let whole = of_row(alloc, checked(alloc, true), Value::Int(1), Value::Int(1));
    assert!(rt; whole.is_ok());
    let failed = of_row(alloc, unsettled(alloc), Value::Int(0), Value::Null);
    assert!(rt; evaluates_to(failed, State::DATATYPE_MISMATCH));
    let wide = of_row(alloc, checked(alloc, true), Value::Big(1), Value::Null);
    assert!(rt; is_unfit(wide));
    let short = of_one_value(alloc, checked(alloc, true), Value::Int(1));
    assert!(rt; is_unfit(short));
}
