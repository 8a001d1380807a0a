//! LIMIT and OFFSET: PostgreSQL manual, "LIMIT and OFFSET".

ghost use Rattle.std.specs.Prelude.{◌≡◌};
ghost use Rattle.pl_order.specs.Cut.{count_of, cut, limited, natural, skipped};

use pl_base::{Cells, State, Value};

/// The number of rows that a value says, and None for null. `negative` for a negative number, 42804
/// for what is no number.
pub fn count_of(v: &Value, negative: State) -> Result<Option<usize>, State>
    ensures { result ≡ count_of negative v.now }
{
    match v {
        Value::Null => Ok(None),
        Value::Int(number) => natural(i64::from(*number), negative),
        Value::Big(number) => natural(*number, negative),
        _ => Err(State::DATATYPE_MISMATCH),
    }
}

fn natural(number: i64, negative: State) -> Result<Option<usize>, State>
    ensures { result ≡ natural negative number }
{
    match usize::try_from(number) {
        Ok(count) => Ok(Some(count)),
        Err(_) => Err(negative),
    }
}

/// Leaves out so many of the first rows as the offset says, and keeps at most so many of the others
/// as the limit says.
pub fn cut(rows: &mut Vec<Cells>, offset: Option<usize>, limit: Option<usize>)
    ensures { rows.new.items ≡ cut offset limit rows.old.items }
{
    skip(rows, offset);
    keep(rows, limit);
}

fn skip(rows: &mut Vec<Cells>, offset: Option<usize>)
    ensures { rows.new.items ≡ skipped offset rows.old.items }
{
    if let Some(count) = offset {
        if count < rows.len() {
            rows.drain(..count);
        } else {
            rows.clear();
        }
    }
}

fn keep(rows: &mut Vec<Cells>, limit: Option<usize>)
    ensures { rows.new.items ≡ limited limit rows.old.items }
{
    if let Some(count) = limit {
        rows.truncate(count);
    }
}
