//! Expressions over a row of variables, with their values as worked out by hand, or none where they
//! are left to resolution.

use pl_base::{List, Memory, Name, Ty, Value};
use pl_catalog::Catalog;
use pl_direct::{Known, direct_value};
use pl_expr_parse::parse_expr;
use pl_lex::lex;
use pl_names::{Scope, Seen, Shape, Visible};
use std::alloc::Global;

type Case = (&'static str, Option<Known>);

fn int(number: i32) -> Option<Known> {
    Some(Known::Int(number))
}

fn big(number: i64) -> Option<Known> {
    Some(Known::Big(number))
}

fn truth(truth: bool) -> Option<Known> {
    Some(Known::Bool(truth))
}

fn variable(name: &str, ty: Ty) -> Result<Seen, Memory> {
    match Name::of(name) {
        Some(name) => Ok(Seen {
            name,
            ty,
            shape: Shape::Plain,
        }),
        None => Err(Memory),
    }
}

// The variables `i` of 7, `b` of 10000000000, `f` of false, `n`, an integer that is null, and `x`, a
// text that is null. The first is the one parameter.
fn scope(alloc: Global) -> Result<Scope, Memory> {
    let mut variables = List::new(alloc);
    variables.push(variable("i", Ty::Int)?)?;
    variables.push(variable("b", Ty::Big)?)?;
    variables.push(variable("f", Ty::Bool)?)?;
    variables.push(variable("n", Ty::Int)?)?;
    variables.push(variable("x", Ty::Text)?)?;
    let mut frames = List::new(alloc);
    frames.push(Visible {
        label: Name::NONE,
        variables,
    })?;
    let mut params = List::new(alloc);
    params.push(Ty::Int)?;
    Ok(Scope { frames, params })
}

fn value(alloc: Global, scope: &Scope, text: &str) -> Option<Known> {
    let row = [
        Value::Int(7),
        Value::Big(10_000_000_000),
        Value::Bool(false),
        Value::Null,
        Value::Null,
    ];
    let tokens = lex(alloc, text).ok()?;
    let e = parse_expr(alloc, tokens.as_slice()).ok()?;
    direct_value::<()>(&Catalog::new(alloc), scope, &e, &row)
}

// The first expression that has another value.
fn other_in(alloc: Global, cases: &[Case]) -> Option<&'static str> {
    let Ok(scope) = scope(alloc) else {
        return Some("no scope");
    };
    for case in cases {
        if value(alloc, &scope, case.0) != case.1 {
            return Some(case.0);
        }
    }
    None
}

#[test]
fn numbers_are_read(rt: HostRuntime) {
    let cases = [
        ("5", int(5)),
        ("2147483647", int(i32::MAX)),
        ("2147483648", big(2_147_483_648)),
        ("-2147483648", int(i32::MIN)),
        ("-9223372036854775808", big(i64::MIN)),
        ("9223372036854775808", None),
        ("i", int(7)),
        ("$1", int(7)),
        ("$2", None),
        ("n", None),
        ("x", None),
        ("missing", None),
        ("i + 1", int(8)),
        ("i + b", big(10_000_000_007)),
        ("(i * 31 + 2) % 100", int(19)),
        ("2147483647 + 1", None),
        ("2147483647 + 1 - 1", None),
        ("2147483647 + (b - b)", big(2_147_483_647)),
        ("9223372036854775807 + 1", None),
        ("-7 / 2", int(-3)),
        ("-i / 2", int(-3)),
        ("-7 % 3", int(-1)),
        ("7 % -3", int(1)),
        ("-i % 3", int(-1)),
        ("i / 0", None),
        ("i % 0", None),
        ("(-2147483648) / -1", None),
        ("(-2147483648) % -1", int(0)),
        ("(-9223372036854775808) / -1", None),
        ("-(-2147483648)", None),
        ("-b", big(-10_000_000_000)),
        ("- -i", None),
        ("+i", None),
        ("i + n", None),
        ("i + f", None),
        ("i + '1'", None),
        ("abs(i)", None),
    ];
    assert_eq!(rt; other_in(rt.alloc(), &cases), None);
}

#[test]
fn truths_are_read(rt: HostRuntime) {
    let cases = [
        ("true", truth(true)),
        ("f", truth(false)),
        ("i = 7", truth(true)),
        ("i = b", truth(false)),
        ("b > i", truth(true)),
        ("i <> 7", truth(false)),
        ("i <= 7", truth(true)),
        ("i >= 8", truth(false)),
        ("i < 8", truth(true)),
        ("f < true", truth(true)),
        ("f = i", None),
        ("i = n", None),
        ("x = 'a'", None),
        ("NOT f", truth(true)),
        ("NOT i", None),
        ("f AND i = 7", truth(false)),
        ("i = 7 AND b > 0 AND NOT f", truth(true)),
        ("f OR i = 7", truth(true)),
        ("f OR i = 8", truth(false)),
        ("f AND i", None),
        ("f AND i / 0 = 1", None),
        ("i IS NULL", truth(false)),
        ("n IS NULL", truth(true)),
        ("x IS NULL", truth(true)),
        ("n IS NOT NULL", truth(false)),
        ("i + 1 IS NOT NULL", truth(true)),
        ("n + 1 IS NULL", None),
        ("f IS TRUE", None),
    ];
    assert_eq!(rt; other_in(rt.alloc(), &cases), None);
}
