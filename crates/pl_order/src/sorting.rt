//! ORDER BY: PostgreSQL manual, "Sorting Rows (ORDER BY)".

ghost use Rattle.std.specs.List.{list_all};
ghost use Rattle.std.specs.Prelude.{◌≡◌, ◌∷◌, [], true, IfSome, OnErr, OnOk};
ghost use Rattle.pl_keys.specs.Order.{value_at};
ghost use Rattle.pl_order.specs.Numbers.{has_number};
ghost use Rattle.pl_order.specs.Order.{key_order, null_place, order_by, sorted};

use crate::numbers::{have_numbers, sort_by_number};
use pl_base::{Cells, Value};
use pl_keys::{turned, value_or};
use pl_resolved::RKey;
use std::alloc::AllocError;
use std::cmp::Ordering;

/// Puts the rows in order, the first key counting most. Rows that tie stay as they came. An item
/// that a row doesn't have counts as null.
pub fn sort(rows: &mut Vec<Cells>, keys: &[RKey]) -> Result<(), AllocError>
    ensures ok { OnOk result (rows.new.items ≡ sorted (order_by keys.now) rows.old.items) }
    ensures err { OnErr result (rows.new.items ≡ rows.old.items) }
{
    match number_key(rows.as_slice(), keys) {
        Some(key) => sort_by_number(rows, key),
        None => sort_by_keys(rows, keys),
    }
}

// The only key, where its item is a number in each row.
fn number_key<'k>(rows: &[Cells], keys: &'k [RKey]) -> Option<&'k RKey>
    ensures only { IfSome result (λ key. keys.now ≡ key.now ∷ []) }
    ensures numbers { IfSome result (λ key.
        list_all (has_number key.now.item) rows.now ≡ true) }
{
    let (key, more) = keys.split_first()?;
    if more.is_empty() && have_numbers(rows, key.item) {
        Some(key)
    } else {
        None
    }
}

fn sort_by_keys(rows: &mut Vec<Cells>, keys: &[RKey]) -> Result<(), AllocError>
    ensures ok { OnOk result (rows.new.items ≡ sorted (order_by keys.now) rows.old.items) }
    ensures err { OnErr result (rows.new.items ≡ rows.old.items) }
{
    rows.sort_by(
        |a: &Cells, b: &Cells| -> Ordering
            ensures { result ≡ order_by keys.entry.now a.now b.now }
        { order_by(keys, a.as_slice(), b.as_slice()) },
    )
}

fn order_by(keys: &[RKey], a: &[Value], b: &[Value]) -> Ordering
    ensures { result ≡ order_by keys.now a.now b.now }
{
    for key in keys {
        let order = item_order(key, a, b);
        if order != Ordering::Equal {
            return order;
        }
    }
    Ordering::Equal
}

fn item_order(key: &RKey, a: &[Value], b: &[Value]) -> Ordering
    ensures { result ≡
        key_order key.now (value_at a.now key.now.item) (value_at b.now key.now.item) }
{
    let null = Value::Null;
    key_order(
        key,
        value_or(a, key.item, &null),
        value_or(b, key.item, &null),
    )
}

fn key_order(key: &RKey, a: &Value, b: &Value) -> Ordering
    ensures { result ≡ key_order key.now a.now b.now }
{
    let order = null_place(key, a).cmp(&null_place(key, b));
    if order != Ordering::Equal {
        order
    } else {
        turned(key.is_descending, a, b)
    }
}

fn null_place(key: &RKey, v: &Value) -> u8
    ensures { result ≡ null_place key.now v.now }
{
    match v {
        Value::Null => { if key.nulls_first { 0 } else { 2 } }
        _ => 1,
    }
}
