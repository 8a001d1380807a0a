//! Changes of rows that are the same.

ghost use Rattle.std.specs.Prelude.{◌≡◌, true};

use crate::expressions::is_same_expr;
use crate::lists::{Alike, all_alike};
use crate::parts::same_if_any;
use crate::queries::{is_same_query, same_items};
use crate::words::{same_alias, same_name};
use pl_tree::{Assignment, Delete, Insert, NewRow, NewRows, NewValue, Update};

/// Whether the INSERTs are the same.
pub fn is_same_insert(a: &Insert, b: &Insert) -> bool
    ensures { result ≡ true → a.now ≡ b.now }
{
    same_name(&a.table, &b.table)
        && same_alias(&a.alias, &b.alias)
        && all_alike(a.columns.as_slice(), b.columns.as_slice())
        && same_rows(&a.rows, &b.rows)
        && same_items(a.returning.as_slice(), b.returning.as_slice())
}

/// Whether the UPDATEs are the same.
pub fn is_same_update(a: &Update, b: &Update) -> bool
    ensures { result ≡ true → a.now ≡ b.now }
{
    same_name(&a.table, &b.table)
        && same_alias(&a.alias, &b.alias)
        && all_alike(a.assignments.as_slice(), b.assignments.as_slice())
        && same_if_any(&a.condition, &b.condition)
        && same_items(a.returning.as_slice(), b.returning.as_slice())
}

/// Whether the DELETEs are the same.
pub fn is_same_delete(a: &Delete, b: &Delete) -> bool
    ensures { result ≡ true → a.now ≡ b.now }
{
    same_name(&a.table, &b.table)
        && same_alias(&a.alias, &b.alias)
        && same_if_any(&a.condition, &b.condition)
        && same_items(a.returning.as_slice(), b.returning.as_slice())
}

fn same_rows(a: &NewRows, b: &NewRows) -> bool
    ensures { result ≡ true → a.now ≡ b.now }
{
    match (a, b) {
        (NewRows::Values(a), NewRows::Values(b)) => all_alike(a.as_slice(), b.as_slice()),
        (NewRows::Query(a), NewRows::Query(b)) => is_same_query(a, b),
        (NewRows::Defaults, NewRows::Defaults) => true,
        _ => false,
    }
}

impl Alike for NewRow {
    fn is_alike(&self, other: &NewRow) -> bool {
        all_alike(self.values.as_slice(), other.values.as_slice())
    }
}

impl Alike for NewValue {
    fn is_alike(&self, other: &NewValue) -> bool {
        match (self, other) {
            (NewValue::Value(a), NewValue::Value(b)) => is_same_expr(a, b),
            (NewValue::Default, NewValue::Default) => true,
            _ => false,
        }
    }
}

impl Alike for Assignment {
    fn is_alike(&self, other: &Assignment) -> bool {
        same_name(&self.column, &other.column) && self.value.is_alike(&other.value)
    }
}
