//! The rows of queries as they are printed.

ghost use Rattle.std.specs.Prelude.{◌≡◌, map, IfOk};
ghost use Rattle.std.specs.List.{list_any};
ghost use Rattle.pl_world.specs.Selection as spec;

use pl_base::{Cells, List, Memory, Txt, Ty, Value};
use pl_calc::TEXT_LIMIT;
use pl_print::{Grid, text_of};
use pl_resolved::{Head, RQuery};
use std::alloc::{AllocError, Global};

/// The rows below their headings.
pub(crate) fn grid_of(alloc: Global, heads: &[Head], rows: List<Cells>) -> Result<Grid, Memory>
    ensures { IfOk result (λ grid. grid ≡ spec.grid_of heads.now rows) }
{
    Ok(Grid {
        heads: headings(alloc, heads)?,
        types: types(alloc, heads)?,
        rows,
    })
}

/// Whether a value of these rows is too long to be printed.
pub(crate) fn has_long(alloc: Global, mut rows: &[Cells]) -> Result<bool, Memory>
    ensures { IfOk result (λ found. found ≡ spec.has_long rows.entry.now) }
{
    while let [row, rest @ ..] = rows {
        if has_long_value(alloc, row.as_slice())? {
            return Ok(true);
        }
        rows = rest;
    }
    Ok(false)
}

fn has_long_value(alloc: Global, mut row: &[Value]) -> Result<bool, Memory>
    ensures { IfOk result (λ found. found ≡ list_any spec.is_too_long row.entry.now) }
{
    while let [value, rest @ ..] = row {
        if is_too_long(alloc, value)? {
            return Ok(true);
        }
        row = rest;
    }
    Ok(false)
}

fn is_too_long(alloc: Global, value: &Value) -> Result<bool, Memory>
    ensures { IfOk result (λ long. long ≡ spec.is_too_long value.now) }
{
    match value {
        Value::Text(text) => Ok(text.len() > TEXT_LIMIT),
        Value::Row(_) => Ok(text_of(alloc, value)?.len() > TEXT_LIMIT),
        Value::Null | Value::Int(_) | Value::Big(_) | Value::Bool(_) => Ok(false),
    }
}

// The headings of columns.
fn headings(alloc: Global, heads: &[Head]) -> Result<List<Txt>, AllocError>
    ensures { IfOk result (λ made. made ≡ map spec.heading heads.now) }
{
    let mut made = List::new(alloc);
    for head in heads {
        made.push(heading(alloc, head)?)?;
    }
    Ok(made)
}

// A column's name; `?column?` where it has none.
fn heading(alloc: Global, head: &Head) -> Result<Txt, AllocError>
    ensures { IfOk result (λ text. text ≡ spec.heading head.now) }
{
    let name = head.name.as_bytes();
    if name.is_empty() {
        return Txt::from_slice(alloc, b"?column?");
    }
    Txt::from_slice(alloc, name)
}

fn types(alloc: Global, heads: &[Head]) -> Result<List<Ty>, AllocError>
    ensures { IfOk result (λ made. made ≡ map spec.type_in heads.now) }
{
    let mut made = List::new(alloc);
    for head in heads {
        made.push(head.ty)?;
    }
    Ok(made)
}

// The number of the whole query, which stands behind those inside it.
fn last_of(queries: &List<RQuery>) -> usize
    ensures { result ≡ spec.last_of queries.now }
{
    queries.len().saturating_sub(1)
}

/// The columns of the whole query.
pub(crate) fn heads_of(queries: &List<RQuery>) -> &[Head]
    ensures { result.now ≡ spec.heads_of queries.now }
{
    match queries.get(last_of(queries)) {
        Some(query) => query.heads.as_slice(),
        None => &[],
    }
}
