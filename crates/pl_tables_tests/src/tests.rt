//! Each call once.

ghost use Rattle.std.specs.Prelude.{◌≡◌, IsSome, None, true, false};
ghost use Rattle.pl_tables.specs.Named.{content_named, row_named};

use pl_base::{Cells, List, Name, Value};
use pl_tables::{Table, TableFail, Tables};
use pl_unique::key_of;
use std::alloc::{AllocError, Global};
use std::test::Fail;

fn row(alloc: Global, number: i32) -> Result<Cells, AllocError> {
    let mut row = List::new(alloc);
    row.push(Value::Int(number))?;
    Ok(row)
}

// The number in the row of this id.
fn number_of(table: &Table, id: u64) -> Option<i32> {
    match table.row(id)?.get(0) {
        Some(Value::Int(number)) => Some(*number),
        _ => None,
    }
}

// The first column is a key.
fn first_column(alloc: Global) -> Result<Vec<List<usize>>, AllocError> {
    let mut columns = List::new(alloc);
    columns.push(0)?;
    let mut keys = Vec::new(alloc);
    keys.push(columns)?;
    Ok(keys)
}

fn filled(alloc: Global) -> Result<Table, Fail> {
    let keys = first_column(alloc)?;
    let mut table = Table::new(alloc, keys.as_slice())?;
    for number in [10, 20, 30] {
        if table.insert(row(alloc, number)?).is_err() {
            return Err(Fail::new("no row is added"));
        }
    }
    Ok(table)
}

#[test]
fn rows_are_replaced_and_removed(rt: HostRuntime) -> Result<(), Fail> {
    let alloc = rt.alloc();
    let mut table = filled(alloc)?;
    assert!(rt; !table.is_full());
    assert!(rt; table.row(2).is_some());
    assert!(rt; table.replace(2, row(alloc, 21)?).is_ok());
    assert_eq!(rt; number_of(&table, 2), Some(21));
    assert!(rt; table.row(1).is_some());
    table.remove(1)?;
    assert_eq!(rt; number_of(&table, 1), None);
    assert_eq!(rt; table.count(), 2);
    assert_eq!(rt;
        table
            .slots()
            .iter()
            .filter(|slot| slot.row.is_some())
            .count(),
        2
    );
    table.undo();
    table.undo();
    assert_eq!(rt; number_of(&table, 1), Some(10));
    assert_eq!(rt; number_of(&table, 2), Some(20));
    table.forget();
    table.undo();
    assert_eq!(rt; table.count(), 3);
    assert_eq!(rt; table.insert(row(alloc, 40)?).unwrap_or(0), 4);
    Ok(())
}

// The id of the row of this number.
fn found(alloc: Global, table: &Table, number: i32) -> Result<Option<u64>, AllocError> {
    let row = row(alloc, number)?;
    let columns = [0].as_slice();
    match key_of(alloc, columns, row.as_slice())? {
        Some(parts) if table.key_count() > 0 => Ok(table.find_key(0, parts.as_slice())),
        _ => Ok(None),
    }
}

fn is_taken<T: Drop>(answer: Result<T, TableFail>, holder: u64) -> bool {
    match answer {
        Err(TableFail::Taken(id)) => id == holder,
        _ => false,
    }
}

#[test]
fn keys_are_found_and_stand_once(rt: HostRuntime) -> Result<(), Fail> {
    let alloc = rt.alloc();
    let mut table = filled(alloc)?;
    assert_eq!(rt; found(alloc, &table, 20)?, Some(2));
    assert!(rt; is_taken(table.insert(row(alloc, 20)?), 2));
    if table.row(1).is_some() {
        assert!(rt; is_taken(table.replace(1, row(alloc, 30)?), 3));
    }
    if table.row(2).is_some() {
        table.remove(2)?;
    }
    assert_eq!(rt; found(alloc, &table, 20)?, None);
    table.undo();
    assert_eq!(rt; found(alloc, &table, 20)?, Some(2));
    assert!(rt; is_taken(table.insert(row(alloc, 20)?), 2));
    table.undo();
    assert_eq!(rt; found(alloc, &table, 30)?, None);
    assert_eq!(rt; table.insert(row(alloc, 30)?).unwrap_or(0), 3);
    table.forget();
    assert_eq!(rt; found(alloc, &table, 30)?, Some(3));
    Ok(())
}

fn has_table(tables: &Tables, name: Name) -> bool
    ensures there { result ≡ true → IsSome (content_named name tables.now.current) }
    ensures absent { result ≡ false → content_named name tables.now.current ≡ None }
{
    tables.table(name).is_some()
}

fn has_row(tables: &Tables, name: Name, id: u64) -> bool
    ensures there { result ≡ true → IsSome (row_named name id tables.now.current) }
{
    match tables.table(name) {
        Some(table) => table.row(id).is_some(),
        None => false,
    }
}

// Two rows in a new table. Says whether they are there.
fn fill(alloc: Global, tables: &mut Tables, name: Name) -> Result<bool, Fail> {
    if has_table(tables, name) {
        return Ok(false);
    }
    let keys = first_column(alloc)?;
    tables.create(name, keys.as_slice())?;
    for number in [10, 20] {
        if !has_table(tables, name) || tables.insert(name, row(alloc, number)?).is_err() {
            return Ok(false);
        }
    }
    Ok(true)
}

#[test]
fn tables_change_by_their_names(rt: HostRuntime) -> Result<(), Fail> {
    let alloc = rt.alloc();
    let Some(name) = Name::of("t") else {
        return Err(Fail::new("no name"));
    };
    let mut tables = Tables::new(alloc);
    assert!(rt; fill(alloc, &mut tables, name)?);
    assert!(rt; has_row(&tables, name, 1));
    assert!(rt; tables.replace(name, 1, row(alloc, 11)?).is_ok());
    assert!(rt; has_row(&tables, name, 2));
    tables.remove(name, 2)?;
    assert_eq!(rt; tables.changes(), 5);
    assert_eq!(rt;
        tables.table(name).and_then(|table| number_of(table, 1)),
        Some(11)
    );
    assert!(rt; !has_row(&tables, name, 2));
    tables.undo();
    assert!(rt; has_row(&tables, name, 2));
    assert!(rt; has_table(&tables, name));
    tables.drop_table(name)?;
    assert!(rt; !has_table(&tables, name));
    tables.undo();
    assert!(rt; has_row(&tables, name, 2));
    tables.forget();
    assert_eq!(rt; tables.changes(), 0);
    Ok(())
}

// Puts the number under this id, and says whether it stands there then.
fn put(alloc: Global, table: &mut Table, id: u64, number: i32) -> Result<bool, Fail> {
    if id >= 1 << 63 {
        return Ok(false);
    }
    match table.put_at(id, row(alloc, number)?) {
        Ok(()) => Ok(number_of(table, id) == Some(number)),
        Err(TableFail::Taken(_)) => Ok(false),
        Err(_) => Err(Fail::new("no row is put")),
    }
}

#[test]
fn rows_are_put_under_their_ids(rt: HostRuntime) -> Result<(), Fail> {
    let alloc = rt.alloc();
    let keys = first_column(alloc)?;
    let mut table = Table::new(alloc, keys.as_slice())?;
    assert!(rt; put(alloc, &mut table, 5, 50)?);
    assert!(rt; put(alloc, &mut table, 2, 20)?);
    assert!(rt; put(alloc, &mut table, 9, 90)?);
    assert!(rt; put(alloc, &mut table, 7, 70)?);
    assert!(rt; !put(alloc, &mut table, 3, 90)?);
    assert!(rt; put(alloc, &mut table, 3, 30)?);
    assert!(rt; put(alloc, &mut table, 5, 51)?);
    assert_eq!(rt; found(alloc, &table, 50)?, None);
    assert_eq!(rt; found(alloc, &table, 51)?, Some(5));
    assert_eq!(rt; found(alloc, &table, 70)?, Some(7));
    assert_eq!(rt; table.count(), 5);
    assert_eq!(rt; table.next_id(), 10);
    if table.next_id() <= 20 {
        table.raise_next(20);
    }
    table.undo();
    assert_eq!(rt; table.insert(row(alloc, 200)?).unwrap_or(0), 20);
    Ok(())
}
