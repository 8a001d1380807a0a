//! Marks of rows.

ghost use Rattle.std.specs.Prelude.{◌≡◌, fold};
ghost use Rattle.pl_keys.specs.Marks.{mark_of, mark_of_number, mark_of_value, mixed, with_field};

use pl_base::{Field, Value};

fn mix(mark: u64, number: u64) -> u64
    ensures { result ≡ mixed mark number }
{
    mark.wrapping_mul(1_099_511_628_211).wrapping_add(number)
}

fn mark_of_number(number: i64) -> u64
    ensures { result ≡ mark_of_number number }
{
    mix(4, number.cast_unsigned())
}

fn mark_of_bytes(bytes: &[u8]) -> u64
    ensures { result ≡ fold mixed 5 bytes.now }
{
    let mut mark = 5;
    for byte in bytes {
        mark = mix(mark, u64::from(*byte));
    }
    mark
}

#[cycle(marks)]
#[tactic(auto, using(crate::proofs::Rows::mark_of_rows))]
fn mark_of_value(v: &Value) -> u64
    ensures { result ≡ mark_of_value v.now }
{
    match v {
        Value::Null => 1,
        Value::Bool(true) => 2,
        Value::Bool(false) => 3,
        Value::Int(number) => mark_of_number(i64::from(*number)),
        Value::Big(number) => mark_of_number(*number),
        Value::Text(text) => mark_of_bytes(text.as_bytes()),
        Value::Row(fields) => mark_of_fields(fields.as_slice()),
    }
}

#[cycle(marks)]
fn mark_of_fields(fields: &[Field]) -> u64
    ensures { result ≡ fold with_field 6 fields.now }
{
    let mut mark = 6;
    for field in fields {
        mark = mix(mark, mark_of_value(&field.value));
    }
    mark
}

/// The mark of a row.
pub(crate) fn mark_of(row: &[Value]) -> u64
    ensures { result ≡ mark_of row.now }
{
    let mut mark = 0;
    for v in row {
        mark = mix(mark, mark_of_value(v));
    }
    mark
}
