//! Results: a line of headings, the rows, and how many there are.

ghost use Rattle.std.specs.Prelude.{◌≡◌, ◌++◌, codes, IfOk, OnOk};
ghost use Rattle.std.specs.List.{flat_map, join_by};
ghost use Rattle.pl_print.specs.Grids.{count_line, grid_bytes, row_line};
ghost use Rattle.pl_print.specs.TextForm.{output};

use crate::Grid;
use crate::forms::push_value;
use pl_base::{Bytes, Cells, Memory, Txt, Value};
use std::alloc::{AllocError, Global};

/// A line of headings, a line for each row, and `(1 row)` or `(n rows)`. Fields have `|` between.
pub fn grid(alloc: Global, grid: &Grid) -> Result<Bytes, Memory>
    ensures { IfOk result (λ bytes. bytes ≡ grid_bytes grid.now) }
{
    let mut out = Vec::new(alloc);
    push_headings(&mut out, grid.heads.as_slice())?;
    out.extend_from_slice(b"\n")?;
    push_rows(alloc, &mut out, grid.rows.as_slice())?;
    push_count(alloc, &mut out, grid.rows.len())?;
    Ok(Bytes::from_vec(out))
}

fn push_headings(out: &mut Vec<u8>, heads: &[Txt]) -> Result<(), AllocError>
    ensures { OnOk result
        (out.new.items ≡ out.old.items ++ join_by (λ head. head) (codes "|") heads.now) }
{
    let mut separator: &[u8] = b"";
    for head in heads {
        out.extend_from_slice(separator)?;
        out.extend_from_slice(head.as_bytes())?;
        separator = b"|";
    }
    Ok(())
}

fn push_rows(alloc: Global, out: &mut Vec<u8>, rows: &[Cells]) -> Result<(), AllocError>
    ensures { OnOk result (out.new.items ≡ out.old.items ++ flat_map row_line rows.now) }
{
    for row in rows {
        push_row(alloc, out, row.as_slice())?;
    }
    Ok(())
}

fn push_row(alloc: Global, out: &mut Vec<u8>, cells: &[Value]) -> Result<(), AllocError>
    ensures { OnOk result (out.new.items ≡ out.old.items ++ row_line cells.now) }
{
    push_cells(alloc, out, cells)?;
    out.extend_from_slice(b"\n")
}

fn push_cells(alloc: Global, out: &mut Vec<u8>, cells: &[Value]) -> Result<(), AllocError>
    ensures { OnOk result (out.new.items ≡ out.old.items ++ join_by output (codes "|") cells.now) }
{
    let mut separator: &[u8] = b"";
    for cell in cells {
        out.extend_from_slice(separator)?;
        push_value(alloc, out, cell)?;
        separator = b"|";
    }
    Ok(())
}

fn push_count(alloc: Global, out: &mut Vec<u8>, rows: usize) -> Result<(), AllocError>
    ensures { OnOk result (out.new.items ≡ out.old.items ++ count_line rows) }
{
    match rows {
        1 => out.extend_from_slice(b"(1 row)\n"),
        _ => out.extend_from_slice(format!(in alloc; "({rows} rows)\n")?.as_bytes()),
    }
}
