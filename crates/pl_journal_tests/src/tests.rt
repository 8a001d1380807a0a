//! A script of writes over one table, and the operations that it leaves.

ghost use Rattle.std.specs.Prelude.{◌≡◌, IsSome, true};
ghost use Rattle.pl_tables.specs.Named.{row_named};

use pl_base::{Bytes, Cells, Held, List, Memory, Name, State, Txt, Value};
use pl_codec::decode_all;
use pl_journal::Journal;
use pl_reading::read_definition;
use pl_value::Unsettled;
use std::alloc::{AllocError, Global};
use std::test::Fail;

const TABLE: &str = "CREATE TABLE t (a integer PRIMARY KEY, b integer CHECK (b > 0))";

#[derive(Clone, Copy)]
enum Step {
    Insert(i32, i32),
    /// A value that isn't of its column's type.
    InsertText,
    Replace(u64, i32, i32),
    Remove(u64),
    Seal,
    Reset,
}

fn row(alloc: Global, a: i32, b: i32) -> Result<Cells, AllocError> {
    let mut row = List::new(alloc);
    row.push(Value::Int(a))?;
    row.push(Value::Int(b))?;
    Ok(row)
}

fn text_row(alloc: Global) -> Result<Cells, AllocError> {
    let mut row = List::new(alloc);
    row.push(Value::Text(Txt::from_slice(alloc, b"7")?))?;
    row.push(Value::Null)?;
    Ok(row)
}

fn has_row(journal: &Journal, name: Name, id: u64) -> bool
    ensures there { result ≡ true → IsSome (row_named name id journal.now.now.tables) }
{
    match journal.tables().table(name) {
        Some(table) => table.row(id).is_some(),
        None => false,
    }
}

// The SQLSTATE of a write that is refused.
fn answer(written: Result<(), Unsettled>) -> Result<Option<State>, Fail> {
    match written {
        Ok(()) => Ok(None),
        Err(Unsettled::Fails(state)) => Ok(Some(state)),
        Err(Unsettled::Memory) => Err(Fail::new("no memory")),
    }
}

fn replace(journal: &mut Journal, name: Name, id: u64, row: Cells) -> Result<Option<State>, Fail> {
    if !has_row(journal, name, id) {
        return Err(Fail::new("no row"));
    }
    answer(journal.replace(name, id, row))
}

fn remove(journal: &mut Journal, name: Name, id: u64) -> Result<Option<State>, Fail> {
    if !has_row(journal, name, id) {
        return Err(Fail::new("no row"));
    }
    journal.remove(name, id)?;
    Ok(None)
}

fn play(
    alloc: Global,
    journal: &mut Journal,
    name: Name,
    step: Step,
) -> Result<Option<State>, Fail> {
    match step {
        Step::Insert(a, b) => answer(journal.insert(name, row(alloc, a, b)?)),
        Step::InsertText => answer(journal.insert(name, text_row(alloc)?)),
        Step::Replace(id, a, b) => replace(journal, name, id, row(alloc, a, b)?),
        Step::Remove(id) => remove(journal, name, id),
        Step::Seal => {
            journal.seal();
            Ok(None)
        }
        Step::Reset => {
            journal.reset();
            Ok(None)
        }
    }
}

// The ids of the rows and the numbers of their first column.
fn rows_of(alloc: Global, journal: &Journal, name: Name) -> Result<Vec<(u64, i32)>, Fail> {
    let mut rows = Vec::new(alloc);
    let Some(table) = journal.tables().table(name) else {
        return Ok(rows);
    };
    for slot in table.slots() {
        if let Some(row) = &slot.row {
            if let Some(Value::Int(number)) = row.get(0) {
                rows.push((slot.id, *number))?;
            }
        }
    }
    Ok(rows)
}

// Whether the definition of this text was carried out.
fn define(alloc: Global, journal: &mut Journal, text: Txt) -> Result<bool, Memory> {
    let Some(definition) = read_definition(alloc, text.as_bytes())? else {
        return Ok(false);
    };
    let definition = Held::new(definition);
    match journal.define(definition.get(), text) {
        Ok(None) => Ok(true),
        _ => Ok(false),
    }
}

fn create(alloc: Global, journal: &mut Journal) -> Result<(), Fail> {
    let text = Txt::from_slice(alloc, TABLE.as_bytes())?;
    match define(alloc, journal, text) {
        Ok(true) => Ok(()),
        _ => Err(Fail::new("no table is added")),
    }
}

// The database that the payload leads to from nothing.
fn opened(alloc: Global, payload: &[u8]) -> Result<Journal, Fail> {
    let Some(ops) = decode_all(alloc, payload)? else {
        return Err(Fail::new("no operations"));
    };
    let mut journal = Journal::new(alloc);
    match journal.apply_all(ops) {
        Ok(true) => Ok(journal),
        _ => Err(Fail::new("an operation doesn't apply")),
    }
}

// The rows of the database that the payload leads to.
fn rows_led_to(alloc: Global, payload: &[u8], name: Name) -> Result<Vec<(u64, i32)>, Fail> {
    let again = opened(alloc, payload)?;
    rows_of(alloc, &again, name)
}

// The write is answered so, and the rows are then these, also where the operations lead.
fn check_write(
    alloc: Global,
    journal: &mut Journal,
    name: Name,
    step: Step,
    state: Option<State>,
    rows: &[(u64, i32)],
) -> Result<(), Fail> {
    if play(alloc, journal, name, step)? != state {
        return Err(Fail::new("a write is answered otherwise"));
    }
    if rows_of(alloc, journal, name)?.as_slice() != rows {
        return Err(Fail::new("a write leaves other rows"));
    }
    if rows_led_to(alloc, journal.payload(), name)?.as_slice() != rows {
        return Err(Fail::new("the operations lead to other rows"));
    }
    Ok(())
}

// The rows are then these.
fn check_rows(
    alloc: Global,
    journal: &mut Journal,
    name: Name,
    step: Step,
    rows: &[(u64, i32)],
) -> Result<(), Fail> {
    play(alloc, journal, name, step)?;
    if rows_of(alloc, journal, name)?.as_slice() != rows {
        return Err(Fail::new("a step leaves other rows"));
    }
    Ok(())
}

const WRITES: [(Step, Option<State>, &[(u64, i32)]); 8] = [
    (Step::Insert(10, 1), None, &[(1, 10)]),
    (
        Step::Insert(10, 1),
        Some(State::UNIQUE_VIOLATION),
        &[(1, 10)],
    ),
    (
        Step::Insert(20, 0),
        Some(State::CHECK_VIOLATION),
        &[(1, 10)],
    ),
    (
        Step::InsertText,
        Some(State::PROGRAM_LIMIT_EXCEEDED),
        &[(1, 10)],
    ),
    (Step::Insert(20, 2), None, &[(1, 10), (2, 20)]),
    (
        Step::Replace(2, 10, 1),
        Some(State::UNIQUE_VIOLATION),
        &[(1, 10), (2, 20)],
    ),
    (Step::Replace(2, 21, 1), None, &[(1, 10), (2, 21)]),
    (Step::Remove(1), None, &[(2, 21)]),
];

const LATER: [(Step, &[(u64, i32)]); 4] = [
    (Step::Seal, &[(2, 21)]),
    (Step::Insert(30, 3), &[(2, 21), (3, 30)]),
    (Step::Reset, &[(2, 21)]),
    (Step::Insert(31, 3), &[(2, 21), (3, 31)]),
];

fn check_all(alloc: Global, journal: &mut Journal, name: Name) -> Result<(), Fail> {
    create(alloc, journal)?;
    for (step, state, rows) in WRITES {
        check_write(alloc, journal, name, step, state, rows)?;
    }
    for (step, rows) in LATER {
        check_rows(alloc, journal, name, step, rows)?;
    }
    Ok(())
}

#[test]
fn operations_lead_to_what_the_writes_left(rt: HostRuntime) -> Result<(), Fail> {
    let Some(name) = Name::of("t") else {
        return Err(Fail::new("no name"));
    };
    let alloc = rt.alloc();
    let mut journal = Journal::new(alloc);
    check_all(alloc, &mut journal, name)
}

const FUNCTION: &str = "CREATE FUNCTION f() RETURNS integer LANGUAGE plpgsql AS 'BEGIN END'";

const GONE: &str = "CREATE FUNCTION g() RETURNS integer LANGUAGE plpgsql AS 'BEGIN END'";

const ANOTHER: &str =
    "CREATE OR REPLACE FUNCTION f() RETURNS integer LANGUAGE plpgsql AS 'BEGIN RETURN 1; END'";

// Whether these are carried out, one after the other.
fn define_all(alloc: Global, journal: &mut Journal, texts: &[&str]) -> Result<bool, Fail> {
    for text in texts {
        let text = Txt::from_slice(alloc, text.as_bytes())?;
        if !matches!(define(alloc, journal, text), Ok(true)) {
            return Ok(false);
        }
    }
    Ok(true)
}

// Whether the function of this name is the one that this text makes.
fn is_made_by(journal: &Journal, name: Name, text: &str) -> bool {
    match journal.catalog().routine(name) {
        Some(routine) => routine.text.as_bytes() == text.as_bytes(),
        None => false,
    }
}

// The one function has the other's place, and the third is gone.
fn is_replaced(journal: &Journal, f: Name, g: Name) -> bool {
    is_made_by(journal, f, ANOTHER) && journal.catalog().routine(g).is_none()
}

fn whole_of(journal: &Journal) -> Result<Bytes, Fail> {
    match journal.whole() {
        Ok(payload) => Ok(payload),
        Err(_) => Err(Fail::new("no memory")),
    }
}

// Whether so it is where the payload leads.
fn is_led_to(alloc: Global, payload: &[u8], f: Name, g: Name) -> Result<bool, Fail> {
    let again = opened(alloc, payload)?;
    Ok(is_replaced(&again, f, g))
}

// The payload of the whole database that this payload leads to.
fn whole_led_to(alloc: Global, payload: &[u8]) -> Result<Bytes, Fail> {
    let again = opened(alloc, payload)?;
    whole_of(&again)
}

fn is_so_in_all(alloc: Global, journal: &mut Journal, f: Name, g: Name) -> Result<bool, Fail> {
    let texts = [FUNCTION, GONE, TABLE, ANOTHER, "DROP FUNCTION g"];
    if !define_all(alloc, journal, &texts)? || !is_made_by(journal, f, ANOTHER) {
        return Ok(false);
    }
    if !is_led_to(alloc, journal.payload(), f, g)? {
        return Ok(false);
    }
    let whole = whole_led_to(alloc, journal.payload())?;
    is_led_to(alloc, whole.as_slice(), f, g)
}

// The operations, and the whole that they lead to.
#[test]
fn a_function_takes_the_place_of_another(rt: HostRuntime) -> Result<(), Fail> {
    let (Some(f), Some(g)) = (Name::of("f"), Name::of("g")) else {
        return Err(Fail::new("no name"));
    };
    let alloc = rt.alloc();
    let mut journal = Journal::new(alloc);
    assert!(rt; is_so_in_all(alloc, &mut journal, f, g)?);
    Ok(())
}

fn play_three(alloc: Global, journal: &mut Journal, name: Name) -> Result<Bytes, Fail> {
    create(alloc, journal)?;
    for step in [Step::Insert(10, 1), Step::Insert(20, 2), Step::Remove(2)] {
        play(alloc, journal, name, step)?;
    }
    whole_of(journal)
}

fn whole_after_three(alloc: Global, name: Name) -> Result<Bytes, Fail> {
    let mut journal = Journal::new(alloc);
    play_three(alloc, &mut journal, name)
}

// The next id is more than that of the last row.
#[test]
fn the_whole_leads_to_the_same(rt: HostRuntime) -> Result<(), Fail> {
    let alloc = rt.alloc();
    let Some(name) = Name::of("t") else {
        return Err(Fail::new("no name"));
    };
    let payload = whole_after_three(alloc, name)?;
    let mut again = opened(alloc, payload.as_slice())?;
    check_rows(
        alloc,
        &mut again,
        name,
        Step::Insert(30, 3),
        &[(1, 10), (3, 30)],
    )
}
