//! The order of values, by which rows are sorted and told apart.

ghost use Rattle.std.specs.Prelude.{◌≡◌, slice_get, unwrap_or};
ghost use Rattle.std.specs.Cmp.Lexicographic.{slice_cmp};
ghost use Rattle.pl_keys.specs.Order.{field_order, kind, plain_order, turned, value_order};

use pl_base::{Field, Value};
use pl_calc::compare;
use std::cmp::Ordering;

/// The order of two values: false before true, numbers by size, texts by their bytes, rows by the
/// first of their fields that differ, and null behind all others.
#[cycle(order)]
#[tactic(auto, using(crate::proofs::Rows::order_of_rows))]
pub fn value_order(a: &Value, b: &Value) -> Ordering
    ensures { result ≡ value_order a.now b.now }
{
    match (a, b) {
        (Value::Row(fields), Value::Row(others)) => {
            fields_order(fields.as_slice(), others.as_slice())
        }
        _ => plain_order(a, b),
    }
}

/// The order of two values, turned round where it is descending.
pub fn turned(is_descending: bool, a: &Value, b: &Value) -> Ordering
    ensures { result ≡ turned is_descending a.now b.now }
{
    if is_descending {
        value_order(b, a)
    } else {
        value_order(a, b)
    }
}

/// The value at the place, from 0. `absent` where there is none.
pub fn value_or<'a>(values: &'a [Value], place: usize, absent: &'a Value) -> &'a Value
    ensures { result.now ≡ unwrap_or (slice_get values.now place) absent.now }
{
    match values.get(place) {
        Some(value) => value,
        None => absent,
    }
}

#[cycle(order)]
fn fields_order(fields: &[Field], others: &[Field]) -> Ordering
    ensures { result ≡ slice_cmp field_order fields.now others.now }
{
    let mut rest = others;
    for field in fields {
        let Some((other, more)) = rest.split_first() else {
            return Ordering::Greater;
        };
        let order = value_order(&field.value, &other.value);
        if order != Ordering::Equal {
            return order;
        }
        rest = more;
    }
    if rest.is_empty() {
        Ordering::Equal
    } else {
        Ordering::Less
    }
}

fn plain_order(a: &Value, b: &Value) -> Ordering
    ensures { result ≡ plain_order a.now b.now }
{
    match compare(a, b) {
        Some(order) => order,
        None => kind(a).cmp(&kind(b)),
    }
}

fn kind(v: &Value) -> u8
    ensures { result ≡ kind v.now }
{
    match v {
        Value::Bool(_) => 0,
        Value::Int(_) | Value::Big(_) => 1,
        Value::Text(_) => 2,
        Value::Row(_) => 3,
        Value::Null => 4,
    }
}
