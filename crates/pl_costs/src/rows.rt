//! What the measures do to a store.

ghost use Rattle.std.specs.Prelude.{◌≡◌, IsSome, true};
ghost use Rattle.pl_tables.specs.Named.{content_named};

use pl_base::{Cells, List, Name, Txt, Value};
use pl_catalog::{Object, Rule, RuleKind, TableDef};
use pl_tables::Table;
use pl_undo::{Mark, Store};
use pl_unique::Part;
use std::alloc::{AllocError, Global};

/// The first key of the rows that are added for a while. Those that stay are below it.
pub const FIRST_ADDED: i32 = 100_000_000;

/// So many columns with this number.
pub fn row(alloc: Global, number: i32, width: usize) -> Result<Cells, AllocError> {
    let mut row = List::from_vec(Vec::with_capacity(alloc, width)?);
    for _ in 0..width {
        row.push(Value::Int(number))?;
    }
    Ok(row)
}

// A table whose first column is its key.
fn table(alloc: Global, name: Name) -> Result<Object, AllocError> {
    let mut columns = List::new(alloc);
    columns.push(0)?;
    let mut rules = List::new(alloc);
    rules.push(Rule {
        name,
        kind: RuleKind::Primary(columns),
    })?;
    Ok(Object::Table(TableDef {
        name,
        text: Txt::from_slice(alloc, b"")?,
        columns: List::new(alloc),
        rules,
    }))
}

/// A store with one table, without rows.
pub fn new_store(alloc: Global, name: Name) -> Result<Store, AllocError> {
    let mut store = Store::new(alloc);
    match store.create(table(alloc, name)?) {
        Ok(()) => Ok(store),
        Err(_) => Err(AllocError),
    }
}

fn has_table(store: &Store, name: Name) -> bool
    ensures { result ≡ true → IsSome (content_named name store.now.now.tables) }
{
    store.tables().table(name).is_some()
}

fn is_inserted(store: &mut Store, name: Name, row: Cells) -> bool {
    has_table(store, name) && store.insert(name, row).is_ok()
}

/// Adds so many rows, and counts those that were added.
pub fn fill(
    alloc: Global,
    store: &mut Store,
    name: Name,
    rows: i32,
    width: usize,
) -> Result<i64, AllocError> {
    let mut count: i64 = 0;
    for number in 0..rows {
        let row = row(alloc, number, width)?;
        if is_inserted(store, name, row) {
            count = count.saturating_add(1);
        }
    }
    Ok(count)
}

/// Adds so many rows of two columns, with a commit behind every 1,000. Counts those that were
/// added.
pub fn fill_in_commits(
    alloc: Global,
    store: &mut Store,
    name: Name,
    rows: i32,
) -> Result<i64, AllocError> {
    let mut count: i64 = 0;
    for number in 0..rows {
        let row = row(alloc, number, 2)?;
        if is_inserted(store, name, row) {
            count = count.saturating_add(1);
        }
        if number % 1_000 == 999 {
            store.seal();
        }
    }
    Ok(count)
}

fn is_found(table: &Table, parts: &[Part]) -> bool {
    table.key_count() > 0 && table.find_key(0, parts).is_some()
}

/// Looks up each key in the table, and counts those that are found.
pub fn look(store: &Store, name: Name, rows: i32) -> i64 {
    let Some(table) = store.tables().table(name) else {
        return 0;
    };
    let mut count: i64 = 0;
    for number in 0..rows {
        if is_found(table, &[Part::Number(i64::from(number))]) {
            count = count.saturating_add(1);
        }
    }
    count
}

fn is_found_by_name(store: &Store, name: Name, parts: &[Part]) -> bool {
    match store.tables().table(name) {
        Some(table) => is_found(table, parts),
        None => false,
    }
}

/// Looks up the table by its name for each key, and the key. Counts the keys that are found.
pub fn look_by_name(store: &Store, name: Name, rows: i32) -> i64 {
    let mut count: i64 = 0;
    for number in 0..rows {
        if is_found_by_name(store, name, &[Part::Number(i64::from(number))]) {
            count = count.saturating_add(1);
        }
    }
    count
}

fn go_back(store: &mut Store, mark: Mark) {
    if mark.at < store.depth() {
        store.roll_back(&mark);
    }
    if mark.at < store.depth() {
        store.release(mark);
    }
}

// Sets a mark, adds the row and goes back. Says whether it was added.
fn add_for_a_while(store: &mut Store, name: Name, row: Cells) -> Result<bool, AllocError> {
    store.reserve_mark()?;
    let mark = store.mark();
    let is_added = is_inserted(store, name, row);
    go_back(store, mark);
    Ok(is_added)
}

/// So many times a mark, an insert and going back. Counts the rows that were added.
pub fn mark_often(
    alloc: Global,
    store: &mut Store,
    name: Name,
    rows: i32,
) -> Result<i64, AllocError> {
    let mut count: i64 = 0;
    for number in 0..rows {
        let row = row(alloc, number.saturating_add(FIRST_ADDED), 2)?;
        if add_for_a_while(store, name, row)? {
            count = count.saturating_add(1);
        }
    }
    Ok(count)
}

fn number_in(cell: &Value) -> i64 {
    match cell {
        Value::Int(number) => i64::from(*number),
        _ => 0,
    }
}

/// The sum of the row's numbers.
pub fn row_sum(row: &Cells) -> i64 {
    let mut sum: i64 = 0;
    for cell in row.as_slice() {
        sum = sum.wrapping_add(number_in(cell));
    }
    sum
}

/// The sum of all numbers.
pub fn scan(store: &Store, name: Name) -> i64 {
    let mut sum: i64 = 0;
    if let Some(table) = store.tables().table(name) {
        for slot in table.slots() {
            if let Some(row) = &slot.row {
                sum = sum.wrapping_add(row_sum(row));
            }
        }
    }
    sum
}
