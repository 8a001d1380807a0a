//! Sequences of changes and marks.

ghost use Rattle.std.specs.Prelude.{◌≡◌, ◌∷◌, [], IfOk, IsSome, true};
ghost use Rattle.pl_catalog.specs.Objects.{tables_in};
ghost use Rattle.pl_tables.specs.Named.{content_named, row_named};

mod random;

use pl_base::{Cells, List, Name, Txt, Value};
use pl_bodies::{Block, Body};
use pl_catalog::{Heading, Object, Routine, RoutineBody, Rule, RuleKind, TableDef, Which};
use pl_tables::TableFail;
use pl_tree::{ResultType, RoutineKind};
use pl_undo::{Mark, Store};
use std::alloc::{AllocError, Global};
use std::test::Fail;

#[derive(Clone, Copy)]
enum Step {
    // A table and a routine of its name.
    Create,
    // The routine.
    Exchange(u8),
    // Both.
    Drop,
    Insert(i32),
    Replace(u64, i32),
    Remove(u64),
    Mark,
    RollBack(usize),
    Release(usize),
    Seal,
    Reset,
}

fn row(alloc: Global, number: i32) -> Result<Cells, AllocError> {
    let mut row = List::new(alloc);
    row.push(Value::Int(number))?;
    Ok(row)
}

fn has_table(store: &Store, name: Name) -> bool
    ensures { result ≡ true → IsSome (content_named name store.now.now.tables) }
{
    store.tables().table(name).is_some()
}

fn has_row(store: &Store, name: Name, id: u64) -> bool
    ensures there { result ≡ true → IsSome (row_named name id store.now.now.tables) }
{
    match store.tables().table(name) {
        Some(table) => table.row(id).is_some(),
        None => false,
    }
}

// A table whose number is its key.
fn table(alloc: Global, name: Name) -> Result<Object, AllocError> {
    let mut columns = List::new(alloc);
    columns.push(0)?;
    let mut rules = List::new(alloc);
    rules.push(Rule {
        name,
        kind: RuleKind::Primary(columns),
    })?;
    Ok(Object::Table(TableDef {
        name,
        text: Txt::from_slice(alloc, b"a table")?,
        columns: List::new(alloc),
        rules,
    }))
}

// BEGIN END
fn empty_body(alloc: Global) -> Body {
    Body {
        line: 1,
        block: Block {
            label: None,
            declarations: List::new(alloc),
            statements: List::new(alloc),
            handlers: List::new(alloc),
            end_label: None,
        },
    }
}

// A routine made by a text of this byte.
fn routine(alloc: Global, name: Name, text: u8) -> Result<Object, AllocError>
    ensures { IfOk result (λ object. tables_in (object ∷ []) ≡ []) }
{
    Ok(Object::Routine(Routine {
        name,
        text: Txt::from_slice(alloc, [text].as_slice())?,
        heading: Heading {
            kind: RoutineKind::Function,
            params: List::new(alloc),
            result: ResultType::Absent,
        },
        body: RoutineBody::new(alloc, empty_body(alloc))?,
    }))
}

fn add(store: &mut Store, object: Object) -> Result<(), Fail> {
    match store.create(object) {
        Ok(()) => Ok(()),
        Err(_) => Err(Fail::new("no object is added")),
    }
}

fn create(alloc: Global, store: &mut Store, name: Name) -> Result<(), Fail> {
    add(store, table(alloc, name)?)?;
    add(store, routine(alloc, name, b'a')?)
}

fn exchange(alloc: Global, store: &mut Store, name: Name, text: u8) -> Result<(), Fail> {
    match store.replace_object(routine(alloc, name, text)?) {
        Ok(()) => Ok(()),
        Err(_) => Err(Fail::new("no routine is replaced")),
    }
}

fn drop_one(store: &mut Store, which: Which) -> Result<(), Fail> {
    match store.drop_object(which) {
        Ok(()) => Ok(()),
        Err(_) => Err(Fail::new("no object is dropped")),
    }
}

fn drop_both(store: &mut Store, name: Name) -> Result<(), Fail> {
    drop_one(store, Which::Table(name))?;
    drop_one(store, Which::Routine(name))
}

fn insert(store: &mut Store, name: Name, row: Cells) -> Result<(), Fail> {
    if !has_table(store, name) {
        return Err(Fail::new("no table"));
    }
    match store.insert(name, row) {
        Ok(_) | Err(TableFail::Taken(_)) => Ok(()),
        Err(_) => Err(Fail::new("no row is added")),
    }
}

fn replace(store: &mut Store, name: Name, id: u64, row: Cells) -> Result<(), Fail> {
    if !has_row(store, name, id) {
        return Err(Fail::new("no row"));
    }
    match store.replace(name, id, row) {
        Ok(()) | Err(TableFail::Taken(_)) => Ok(()),
        Err(_) => Err(Fail::new("no row is replaced")),
    }
}

fn remove(store: &mut Store, name: Name, id: u64) -> Result<(), Fail> {
    if !has_row(store, name, id) {
        return Err(Fail::new("no row"));
    }
    store.remove(name, id)?;
    Ok(())
}

fn mark(store: &mut Store) -> Result<(), Fail> {
    store.reserve_mark()?;
    let _mark = store.mark();
    Ok(())
}

fn roll_back(store: &mut Store, at: usize) -> Result<(), Fail> {
    if at >= store.depth() {
        return Err(Fail::new("no mark"));
    }
    store.roll_back(&Mark { at });
    Ok(())
}

fn release(store: &mut Store, at: usize) -> Result<(), Fail> {
    if at >= store.depth() {
        return Err(Fail::new("no mark"));
    }
    store.release(Mark { at });
    Ok(())
}

fn play(alloc: Global, store: &mut Store, name: Name, step: Step) -> Result<(), Fail> {
    match step {
        Step::Create => create(alloc, store, name),
        Step::Exchange(text) => exchange(alloc, store, name, text),
        Step::Drop => drop_both(store, name),
        Step::Insert(number) => insert(store, name, row(alloc, number)?),
        Step::Replace(id, number) => replace(store, name, id, row(alloc, number)?),
        Step::Remove(id) => remove(store, name, id),
        Step::Mark => mark(store),
        Step::RollBack(at) => roll_back(store, at),
        Step::Release(at) => release(store, at),
        Step::Seal => {
            store.seal();
            Ok(())
        }
        Step::Reset => {
            store.reset();
            Ok(())
        }
    }
}

// The ids of the rows and their numbers. None where there is no table.
fn rows_of(alloc: Global, store: &Store, name: Name) -> Result<Option<Vec<(u64, i32)>>, Fail> {
    let Some(table) = store.tables().table(name) else {
        return Ok(None);
    };
    if store.catalog().table(name).is_none() {
        return Err(Fail::new("no such object"));
    }
    let mut rows = Vec::new(alloc);
    for slot in table.slots() {
        if let Some(row) = &slot.row {
            if let Some(Value::Int(number)) = row.get(0) {
                rows.push((slot.id, *number))?;
            }
        }
    }
    Ok(Some(rows))
}

#[test]
fn a_roll_back_brings_back_what_was(rt: HostRuntime) -> Result<(), Fail> {
    let alloc = rt.alloc();
    let Some(name) = Name::of("t") else {
        return Err(Fail::new("no name"));
    };
    let mut store = Store::new(alloc);
    for (step, rows, depth) in [
        (Step::Create, Some([].as_slice()), 0),
        (Step::Insert(10), Some([(1, 10)].as_slice()), 0),
        (Step::Seal, Some([(1, 10)].as_slice()), 0),
        (Step::Mark, Some([(1, 10)].as_slice()), 1),
        (Step::Insert(20), Some([(1, 10), (2, 20)].as_slice()), 1),
        (Step::Insert(10), Some([(1, 10), (2, 20)].as_slice()), 1),
        (Step::Replace(2, 10), Some([(1, 10), (2, 20)].as_slice()), 1),
        (Step::Mark, Some([(1, 10), (2, 20)].as_slice()), 2),
        (Step::Remove(1), Some([(2, 20)].as_slice()), 2),
        (Step::Insert(20), Some([(2, 20)].as_slice()), 2),
        (Step::Exchange(b'b'), Some([(2, 20)].as_slice()), 2),
        (Step::Replace(2, 21), Some([(2, 21)].as_slice()), 2),
        (Step::Mark, Some([(2, 21)].as_slice()), 3),
        (Step::Insert(30), Some([(2, 21), (3, 30)].as_slice()), 3),
        (Step::RollBack(1), Some([(1, 10), (2, 20)].as_slice()), 2),
        (
            Step::Insert(31),
            Some([(1, 10), (2, 20), (3, 31)].as_slice()),
            2,
        ),
        (Step::RollBack(1), Some([(1, 10), (2, 20)].as_slice()), 2),
        (Step::Remove(2), Some([(1, 10)].as_slice()), 2),
        (Step::Release(1), Some([(1, 10)].as_slice()), 1),
        (Step::Drop, None, 1),
        (Step::Create, Some([].as_slice()), 1),
        (Step::Insert(40), Some([(1, 40)].as_slice()), 1),
        (Step::RollBack(0), Some([(1, 10)].as_slice()), 1),
        (Step::Insert(22), Some([(1, 10), (2, 22)].as_slice()), 1),
        (Step::Reset, Some([(1, 10)].as_slice()), 0),
        (Step::Insert(23), Some([(1, 10), (2, 23)].as_slice()), 0),
        (Step::Seal, Some([(1, 10), (2, 23)].as_slice()), 0),
        (Step::Reset, Some([(1, 10), (2, 23)].as_slice()), 0),
    ] {
        play(alloc, &mut store, name, step)?;
        let found = rows_of(alloc, &store, name)?;
        assert_eq!(rt; found.as_ref().map(|found| found.as_slice()), rows);
        assert_eq!(rt; store.depth(), depth);
    }
    Ok(())
}

// Puts a row under an id, as a stored operation says.
fn put_at(store: &mut Store, name: Name, id: u64, row: Cells) -> Result<bool, Fail> {
    if id >= 1 << 63 || store.depth() > 0 || !has_table(store, name) {
        return Err(Fail::new("no row can be put"));
    }
    match store.put_at(name, id, row) {
        Ok(()) => Ok(true),
        Err(TableFail::Taken(_)) => Ok(false),
        Err(_) => Err(Fail::new("no row is put")),
    }
}

#[test]
fn stored_rows_are_those_of_the_last_commit(rt: HostRuntime) -> Result<(), Fail> {
    let alloc = rt.alloc();
    let Some(name) = Name::of("t") else {
        return Err(Fail::new("no name"));
    };
    let mut store = Store::new(alloc);
    create(alloc, &mut store, name)?;
    for (id, number, is_put) in [
        (5, 50, true),
        (2, 20, true),
        (9, 20, false),
        (5, 51, true),
        (3, 50, true),
    ] {
        assert_eq!(rt; put_at(&mut store, name, id, row(alloc, number)?)?, is_put);
    }
    play(alloc, &mut store, name, Step::Insert(60))?;
    play(alloc, &mut store, name, Step::Reset)?;
    let found = rows_of(alloc, &store, name)?;
    assert_eq!(rt;
        found.as_ref().map(|found| found.as_slice()),
        Some([(2, 20), (3, 50), (5, 51)].as_slice())
    );
    Ok(())
}
