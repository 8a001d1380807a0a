//! The rows that a command or a query has to visit. Where WHERE asks for the columns of a key, by
//! equalities with values that are the same for all rows, the row of that key is found without
//! visiting the others, which WHERE turns down.

ghost use Rattle.std.specs.Prelude.{◌≡◌, ◌⊎◌, true, Some, slice_get, slice_set, IfOk, IfSome, OnOk};
ghost use Rattle.std.specs.Option.{option_copied};
ghost use Rattle.pl_base.specs.declared.value.Value as base;
ghost use Rattle.pl_journal.specs.ByKey as spec;
ghost use Rattle.pl_journal.specs.ByKey.{AreAsked, AreByKey, AreCompared, AreFound};
ghost use Rattle.pl_journal.specs.ByKey.{AreFoundFor, AreLeft, Asks, Begins, IsCompared};
ghost use Rattle.pl_journal.specs.ByKey.{IsEquality, IsFixed, IsTest};
ghost use Rattle.pl_journal.specs.Sound.{IsSound};
ghost use Rattle.pl_resolved.specs.declared.expression.RExpr.TheVariants as tree;
ghost use Rattle.pl_resolved.specs.declared.expression.RPair.{out-RPair};
ghost use Rattle.pl_undo.specs.Database.{key_columns, keys_in};
ghost use Rattle.pl_value.specs.Frames.{cell, rows_of};

use crate::Journal;
use pl_base::{Boxed, Comparison, Name, Operator, Ty, Value};
use pl_catalog::{Column, Rule, RuleKind, TableDef};
use pl_resolved::{RExpr, RPair};
use pl_tables::Table;
use pl_unique::key_of;
use pl_value::Lent;
use std::alloc::{AllocError, Global};

/// An equality of a column of the row that is visited with a value that is the same for all rows.
#[derive(Clone, Copy)]
struct Equality<'e> {
    /// Counted from 0.
    column: usize,
    value: &'e Value,
}

/// The rows of a table that WHERE may pass.
#[derive(Clone, Copy)]
pub enum Candidates {
    All,
    /// The row of this id alone, or none.
    Only(Option<u64>),
}

// ---- what WHERE asks

fn cell_in<'e>(around: &[Lent<'e>], row: usize, column: usize) -> Option<&'e Value>
    ensures { option_copied result ≡ cell (rows_of around.now) row column }
{
    match around.get(row) {
        Some(lent) => lent.cells.get(column),
        None => None,
    }
}

// The value of an operand, if it is the same for all rows.
fn fixed_value<'e>(e: &'e RExpr, around: &[Lent<'e>]) -> Option<&'e Value>
    ensures { IfSome result (λ v. IsFixed (rows_of around.now) e.now v.now) }
{
    match e {
        RExpr::Constant(value) => Some(value),
        RExpr::Place { row, column } => cell_in(around, *row, *column),
        _ => None,
    }
}

// The column of the row that is visited, behind so many others.
fn own_column(e: &RExpr, stands: usize) -> Option<usize>
    ensures { IfSome result (λ column. e.now ≡ tree.Place stands column) }
{
    match e {
        RExpr::Place { row, column } => { if *row == stands { Some(*column) } else { None } }
        _ => None,
    }
}

// The equality of a column and a value.
fn compared<'e>(own: &RExpr, other: &'e RExpr, around: &[Lent<'e>]) -> Option<Equality<'e>>
    ensures { IfSome result (λ q. IsCompared (rows_of around.now) q.column q.value.now own.now
        other.now) }
{
    let column = own_column(own, around.len())?;
    let value = fixed_value(other, around)?;
    Some(Equality { column, value })
}

// The same, whichever stands on the left.
fn either_compared<'e>(pair: &'e RPair, around: &[Lent<'e>]) -> Option<Equality<'e>>
    ensures { IfSome result (λ q. AreCompared (rows_of around.now) q.column q.value.now
        (out-RPair pair.now).first (out-RPair pair.now).second) }
{
    match compared(&pair.first, &pair.second, around) {
        Some(equality) => Some(equality),
        None => compared(&pair.second, &pair.first, around),
    }
}

// The equality that an operator on two operands is.
fn equality_of<'e>(operator: Operator, pair: &'e RPair, around: &[Lent<'e>]) -> Option<Equality<'e>>
    ensures { IfSome result (λ q. IsEquality (rows_of around.now) q.column q.value.now
        (tree.Binary operator pair.now)) }
{
    match operator {
        Operator::Compare(Comparison::Equal) => either_compared(pair, around),
        _ => None,
    }
}

// The equality that an expression is.
fn equality_in<'e>(e: &'e RExpr, around: &[Lent<'e>]) -> Option<Equality<'e>>
    ensures { IfSome result (λ q. IsEquality (rows_of around.now) q.column q.value.now e.now) }
{
    match e {
        RExpr::Binary { operator, operands } => equality_of(*operator, operands.get(), around),
        _ => None,
    }
}

// Whether values of this type can be compared with this one, which isn't null.
fn compares(ty: Ty, value: &Value) -> bool
    ensures { result ≡ spec.compares ty value.now }
{
    match value {
        Value::Int(_) | Value::Big(_) => matches!(ty, Ty::Int | Ty::Big),
        Value::Text(_) => matches!(ty, Ty::Text),
        Value::Bool(_) => matches!(ty, Ty::Bool),
        Value::Null | Value::Row(_) => false,
    }
}

// The equality that an expression is, if it can't fail, and can't be unknown unless it is the whole
// condition.
fn test_in<'e>(
    e: &'e RExpr,
    around: &[Lent<'e>],
    columns: &[Column],
    is_whole: bool,
) -> Option<Equality<'e>>
    ensures { IfSome result (λ q. IsTest is_whole (rows_of around.now) columns.now q.column
        q.value.now e.now) }
{
    let equality = equality_in(e, around)?;
    let column = columns.get(equality.column)?;
    if compares(column.ty, equality.value) && (is_whole || column.is_not_null) {
        Some(equality)
    } else {
        None
    }
}

// Notes the value that a column is asked for.
fn note(alloc: Global, equality: &Equality<'_>, asked: &mut Vec<Value>) -> Result<(), AllocError>
    ensures { OnOk result (asked.new.items
        ≡ slice_set asked.old.items equality.now.column equality.now.value.now) }
{
    let value = equality.value.copy(alloc)?;
    if equality.column < asked.len() {
        asked[equality.column] = value;
    }
    Ok(())
}

// Notes the values that the equalities ask for with which the parts of AND begin.
fn note_all<'e>(
    alloc: Global,
    parts: &'e [RExpr],
    around: &[Lent<'e>],
    columns: &[Column],
    asked: &mut Vec<Value>,
) -> Result<(), AllocError>
    ensures { OnOk result ((c : _) (v : _) → slice_get asked.new.items c ≡ Some v
        → Begins (rows_of around.now) columns.now c v parts.now
        ⊎ (slice_get asked.old.items c ≡ Some v)) }
{
    for part in parts {
        let Some(equality) = test_in(part, around, columns, false) else {
            return Ok(());
        };
        note(alloc, &equality, asked)?;
    }
    Ok(())
}

// Notes the value that a whole condition asks for.
fn note_whole<'e>(
    alloc: Global,
    condition: &'e RExpr,
    around: &[Lent<'e>],
    columns: &[Column],
    asked: &mut Vec<Value>,
) -> Result<(), AllocError>
    ensures { OnOk result ((c : _) (v : _) → slice_get asked.new.items c ≡ Some v
        → IsTest true (rows_of around.now) columns.now c v condition.now
        ⊎ (slice_get asked.old.items c ≡ Some v)) }
{
    match test_in(condition, around, columns, true) {
        Some(equality) => note(alloc, &equality, asked),
        None => Ok(()),
    }
}

fn nulls(alloc: Global, count: usize) -> Result<Vec<Value>, AllocError>
    ensures { IfOk result (λ made. (c : _) (v : _) → slice_get made.items c ≡ Some v
        → v ≡ base.Null) }
{
    let mut made = Vec::new(alloc);
    for _column in 0..count {
        made.push(Value::Null)?;
    }
    Ok(made)
}

// Notes the values that a condition asks for.
fn note_asked<'e>(
    alloc: Global,
    condition: &'e RExpr,
    around: &[Lent<'e>],
    columns: &[Column],
    asked: &mut Vec<Value>,
) -> Result<(), AllocError>
    ensures { OnOk result ((c : _) (v : _) → slice_get asked.new.items c ≡ Some v
        → Asks (rows_of around.now) columns.now condition.now c v
        ⊎ (slice_get asked.old.items c ≡ Some v)) }
{
    match condition {
        RExpr::And(parts) => note_all(alloc, parts.as_slice(), around, columns, asked),
        _ => note_whole(alloc, condition, around, columns, asked),
    }
}

// The values that a condition asks for, one for each column, null where it asks for none.
fn asked_by<'e>(
    alloc: Global,
    condition: &'e RExpr,
    around: &[Lent<'e>],
    columns: &[Column],
) -> Result<Vec<Value>, AllocError>
    ensures { IfOk result (λ asked. AreAsked (rows_of around.now) columns.now condition.now
        asked.items) }
{
    let mut asked = nulls(alloc, columns.len())?;
    note_asked(alloc, condition, around, columns, &mut asked)?;
    Ok(asked)
}

// ---- the rows

// The columns of the key that a rule asks for.
fn columns_of(kind: &RuleKind) -> Option<&[usize]>
    ensures { option_copied result ≡ key_columns kind.now }
{
    match kind {
        RuleKind::Primary(columns) | RuleKind::Unique(columns) => Some(columns.as_slice()),
        RuleKind::Check(_) | RuleKind::Foreign { .. } => None,
    }
}

// The row that has these values in the columns of the key of this number, if none of them is null.
fn found_by(
    alloc: Global,
    rows: &Table,
    number: usize,
    columns: &[usize],
    asked: &[Value],
) -> Result<Candidates, AllocError>
    requires { slice_get rows.now.current.keys number ≡ Some columns.now }
    ensures { IfOk result (λ found. AreByKey asked.now rows.now.current found) }
{
    match key_of(alloc, columns, asked)? {
        Some(parts) => Ok(Candidates::Only(rows.find_key(number, parts.as_slice()))),
        None => Ok(Candidates::All),
    }
}

// The row of the first key of which each column is asked for.
fn found_among(
    alloc: Global,
    rules: &[Rule],
    rows: &Table,
    asked: &[Value],
) -> Result<Candidates, AllocError>
    requires { rows.now.current.keys ≡ keys_in rules.now }
    ensures { IfOk result (λ found. AreByKey asked.now rows.now.current found) }
{
    let mut number = 0;
    for rule in rules {
        match columns_of(&rule.kind) {
            None => {}
            Some(columns) => match found_by(alloc, rows, number, columns, asked)? {
                Candidates::Only(found) => return Ok(Candidates::Only(found)),
                Candidates::All => number += 1,
            },
        }
    }
    Ok(Candidates::All)
}

// The rows of a table that a condition may pass.
fn left_in<'e>(
    alloc: Global,
    table: &TableDef,
    rows: &Table,
    condition: &'e RExpr,
    around: &[Lent<'e>],
) -> Result<Candidates, AllocError>
    requires { rows.now.current.keys ≡ keys_in table.now.rules }
    ensures { IfOk result (λ found. AreLeft table.now rows.now.current (rows_of around.now)
        condition.now found) }
{
    let asked = asked_by(alloc, condition, around, table.columns.as_slice())?;
    found_among(alloc, table.rules.as_slice(), rows, asked.as_slice())
}

/// The rows of the table of this name that a condition may pass.
pub(crate) fn candidates_of<'e>(
    alloc: Global,
    name: Name,
    condition: &'e RExpr,
    around: &[Lent<'e>],
    journal: &Journal,
) -> Result<Candidates, AllocError>
    requires { IsSound journal.now.now }
    ensures { IfOk result (λ found. AreFound name condition.now (rows_of around.now)
        journal.now.now.tables found) }
{
    let Some(table) = journal.catalog().table(name) else {
        return Ok(Candidates::All);
    };
    let Some(rows) = journal.tables().table(name) else {
        return Ok(Candidates::All);
    };
    left_in(alloc, table, rows, condition, around)
}

/// The rows that a command with this WHERE has to visit: one row, or none, where it asks for each
/// column of a key before it asks anything that may fail, and else all rows of the table. What it
/// compares the columns with are constants, or cells of the rows that stand around.
pub fn candidates_for<'a>(
    alloc: Global,
    name: Name,
    condition: &'a Option<Boxed<RExpr>>,
    around: &[Lent<'a>],
    journal: &Journal,
) -> Result<Candidates, AllocError>
    requires { IsSound journal.now.now }
    ensures { IfOk result (λ found. AreFoundFor name condition.now (rows_of around.now)
        journal.now.now.tables found) }
{
    match condition {
        None => Ok(Candidates::All),
        Some(condition) => candidates_of(alloc, name, condition.get(), around, journal),
    }
}
