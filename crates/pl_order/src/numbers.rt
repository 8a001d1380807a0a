//! Rows sorted by an item that is a whole number in each of them. The numbers are sorted, with the
//! places of the rows, and no row is read meanwhile.

ghost use Rattle.std.specs.List.{list_all};
ghost use Rattle.std.specs.Prelude.{◌≡◌, ◌∷◌, [], true, OnErr, OnOk};
ghost use Rattle.pl_order.specs.Numbers.{falling, has_number, number, number_at, rising};
ghost use Rattle.pl_order.specs.Order.{order_by, sorted};

use pl_base::{Cells, Value};
use pl_keys::value_or;
use pl_resolved::RKey;
use std::alloc::AllocError;
use std::cmp::Reverse;

/// The item is a number in each row.
pub(crate) fn have_numbers(rows: &[Cells], item: usize) -> bool
    ensures { result ≡ list_all (has_number item) rows.now }
{
    for row in rows {
        if !has_number(row.as_slice(), item) {
            return false;
        }
    }
    true
}

/// Puts the rows in the order of the numbers.
pub(crate) fn sort_by_number(rows: &mut Vec<Cells>, key: &RKey) -> Result<(), AllocError>
    requires { list_all (has_number key.now.item) rows.old.items ≡ true }
    ensures ok { OnOk result (rows.new.items
        ≡ sorted (order_by (key.now ∷ [])) rows.old.items) }
    ensures err { OnErr result (rows.new.items ≡ rows.old.items) }
{
    if key.is_descending {
        sort_falling(rows, key.item)
    } else {
        sort_rising(rows, key.item)
    }
}

fn sort_rising(rows: &mut Vec<Cells>, item: usize) -> Result<(), AllocError>
    ensures ok { OnOk result (rows.new.items ≡ sorted (rising item) rows.old.items) }
    ensures err { OnErr result (rows.new.items ≡ rows.old.items) }
{
    rows.sort_by_cached_key(
        |row: &Cells| -> i64
            ensures { result ≡ number_at item row.now }
        { number_at(row.as_slice(), item) },
    )
}

fn sort_falling(rows: &mut Vec<Cells>, item: usize) -> Result<(), AllocError>
    ensures ok { OnOk result (rows.new.items ≡ sorted (falling item) rows.old.items) }
    ensures err { OnErr result (rows.new.items ≡ rows.old.items) }
{
    rows.sort_by_cached_key(
        |row: &Cells| -> Reverse<i64>
            ensures { result ≡ record { 0 = number_at item row.now } }
        { Reverse(number_at(row.as_slice(), item)) },
    )
}

fn has_number(row: &[Value], item: usize) -> bool
    ensures { result ≡ has_number item row.now }
{
    let null = Value::Null;
    number(value_or(row, item, &null)).is_some()
}

fn number_at(row: &[Value], item: usize) -> i64
    ensures { result ≡ number_at item row.now }
{
    let null = Value::Null;
    match number(value_or(row, item, &null)) {
        Some(number) => number,
        None => 0,
    }
}

fn number(v: &Value) -> Option<i64>
    ensures { result ≡ number v.now }
{
    match v {
        Value::Int(number) => Some(i64::from(*number)),
        Value::Big(number) => Some(*number),
        _ => None,
    }
}
