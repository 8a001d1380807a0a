//! Types, values and operators that are equal.

ghost use Rattle.std.specs.Prelude.{◌≡◌};
ghost use Rattle.pl_grouping.specs.Words as spec;

use pl_base::{Arithmetic, Comparison, Operator, Test, Ty, Value};
use pl_calc::Builtin;
use pl_resolved::{Aggregate, Combination};

fn same_arithmetic(a: Arithmetic, b: Arithmetic) -> bool
    ensures { result ≡ spec.same_arithmetic a b }
{
    match (a, b) {
        (Arithmetic::Add, Arithmetic::Add) => true,
        (Arithmetic::Subtract, Arithmetic::Subtract) => true,
        (Arithmetic::Multiply, Arithmetic::Multiply) => true,
        (Arithmetic::Divide, Arithmetic::Divide) => true,
        (Arithmetic::Remainder, Arithmetic::Remainder) => true,
        _ => false,
    }
}

fn same_comparison(a: Comparison, b: Comparison) -> bool
    ensures { result ≡ spec.same_comparison a b }
{
    match (a, b) {
        (Comparison::Equal, Comparison::Equal) => true,
        (Comparison::NotEqual, Comparison::NotEqual) => true,
        (Comparison::Less, Comparison::Less) => true,
        (Comparison::Greater, Comparison::Greater) => true,
        (Comparison::LessOrEqual, Comparison::LessOrEqual) => true,
        (Comparison::GreaterOrEqual, Comparison::GreaterOrEqual) => true,
        _ => false,
    }
}

fn same_test(a: Test, b: Test) -> bool
    ensures { result ≡ spec.same_test a b }
{
    match (a, b) {
        (Test::Null, Test::Null) => true,
        (Test::True, Test::True) => true,
        (Test::False, Test::False) => true,
        (Test::Unknown, Test::Unknown) => true,
        _ => false,
    }
}

/// Whether the operators are one.
pub(crate) fn same_operator(a: Operator, b: Operator) -> bool
    ensures { result ≡ spec.same_operator a b }
{
    match (a, b) {
        (Operator::Plus, Operator::Plus) => true,
        (Operator::Minus, Operator::Minus) => true,
        (Operator::Arithmetic(a), Operator::Arithmetic(b)) => same_arithmetic(a, b),
        (Operator::Compare(a), Operator::Compare(b)) => same_comparison(a, b),
        (Operator::Distinct, Operator::Distinct) => true,
        (Operator::NotDistinct, Operator::NotDistinct) => true,
        (Operator::Concatenate, Operator::Concatenate) => true,
        (Operator::Like, Operator::Like) => true,
        (Operator::And, Operator::And) => true,
        (Operator::Or, Operator::Or) => true,
        (Operator::Not, Operator::Not) => true,
        (Operator::Is(a), Operator::Is(b)) => same_test(a, b),
        (Operator::IsNot(a), Operator::IsNot(b)) => same_test(a, b),
        _ => false,
    }
}

/// Whether the types are one.
pub(crate) fn same_type(a: &Ty, b: &Ty) -> bool
    ensures { result ≡ spec.same_type a.now b.now }
{
    match (a, b) {
        (Ty::Unknown, Ty::Unknown) => true,
        (Ty::Int, Ty::Int) => true,
        (Ty::Big, Ty::Big) => true,
        (Ty::Text, Ty::Text) => true,
        (Ty::Bool, Ty::Bool) => true,
        (Ty::Row(a), Ty::Row(b)) => a == b,
        (Ty::Rec, Ty::Rec) => true,
        (Ty::Void, Ty::Void) => true,
        (Ty::Trigger, Ty::Trigger) => true,
        _ => false,
    }
}

/// Whether the types are the same, one for one.
pub(crate) fn same_types(a: &[Ty], b: &[Ty]) -> bool
    ensures { result ≡ spec.same_types a.entry.now b.entry.now }
{
    let mut a = a;
    let mut b = b;
    loop {
        let Some((first, more)) = a.split_first() else {
            return b.is_empty();
        };
        let Some((other, others)) = b.split_first() else {
            return false;
        };
        if !same_type(first, other) {
            return false;
        }
        a = more;
        b = others;
    }
}

fn same_function(a: Builtin, b: Builtin) -> bool
    ensures { result ≡ spec.same_function a b }
{
    match (a, b) {
        (Builtin::Abs, Builtin::Abs) => true,
        (Builtin::Mod, Builtin::Mod) => true,
        (Builtin::Length, Builtin::Length) => true,
        (Builtin::Upper, Builtin::Upper) => true,
        (Builtin::Lower, Builtin::Lower) => true,
        (Builtin::Btrim, Builtin::Btrim) => true,
        (Builtin::Substr, Builtin::Substr) => true,
        (Builtin::Strpos, Builtin::Strpos) => true,
        (Builtin::Replace, Builtin::Replace) => true,
        (Builtin::Repeat, Builtin::Repeat) => true,
        _ => false,
    }
}

/// Whether the aggregates are one, whatever their arguments.
pub(crate) fn same_kind(a: Aggregate, b: Aggregate) -> bool
    ensures { result ≡ spec.same_kind a b }
{
    match (a, b) {
        (Aggregate::CountRows, Aggregate::CountRows) => true,
        (Aggregate::Count, Aggregate::Count) => true,
        (Aggregate::Sum, Aggregate::Sum) => true,
        (Aggregate::Min, Aggregate::Min) => true,
        (Aggregate::Max, Aggregate::Max) => true,
        (Aggregate::BoolAnd, Aggregate::BoolAnd) => true,
        (Aggregate::BoolOr, Aggregate::BoolOr) => true,
        (Aggregate::StringAgg, Aggregate::StringAgg) => true,
        _ => false,
    }
}

/// Whether the same is made of operands.
pub(crate) fn same_combination(a: &Combination, b: &Combination) -> bool
    ensures { result ≡ spec.same_combination a.now b.now }
{
    match (a, b) {
        (Combination::Function(a), Combination::Function(b)) => same_function(*a, *b),
        (Combination::Greatest(a), Combination::Greatest(b)) => same_type(a, b),
        (Combination::Least(a), Combination::Least(b)) => same_type(a, b),
        (Combination::NullIf, Combination::NullIf) => true,
        (Combination::Between, Combination::Between) => true,
        (Combination::In(a), Combination::In(b)) => same_type(a, b),
        _ => false,
    }
}

fn same_truth(a: bool, b: bool) -> bool
    ensures { result ≡ spec.same_truth a b }
{
    match (a, b) {
        (true, true) | (false, false) => true,
        _ => false,
    }
}

/// Whether the values are the same, of one type too. No literal is a row, so none equals another.
pub(crate) fn same_value(a: &Value, b: &Value) -> bool
    ensures { result ≡ spec.same_value a.now b.now }
{
    match (a, b) {
        (Value::Null, Value::Null) => true,
        (Value::Int(a), Value::Int(b)) => a == b,
        (Value::Big(a), Value::Big(b)) => a == b,
        (Value::Text(a), Value::Text(b)) => a.as_bytes() == b.as_bytes(),
        (Value::Bool(a), Value::Bool(b)) => same_truth(*a, *b),
        _ => false,
    }
}
