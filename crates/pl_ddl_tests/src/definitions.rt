//! Definitions against the table.

use crate::cases::CASES;
use crate::routines::write_routine_definition;
use crate::words::{Words, write_table};
use pl_base::{Held, List, Memory, Name, State, Txt, Ty};
use pl_catalog::{Catalog, Column, Object, TableDef, Which};
use pl_ddl::{DefineFail, Defined, define};
use pl_lex::lex;
use pl_sql_parse::parse_command;
use pl_tree::{Command, Definition};
use std::alloc::Global;

pub(crate) fn word(text: &str) -> Result<Name, Memory> {
    Name::of(text).ok_or(Memory)
}

// The table `u` of the integer `k`.
pub(crate) fn catalog(alloc: Global) -> Result<Catalog, Memory> {
    let mut columns = List::new(alloc);
    columns.push(Column {
        name: word("k")?,
        ty: Ty::Int,
        is_not_null: false,
        default: None,
    })?;
    let mut catalog = Catalog::new(alloc);
    let table = Object::Table(TableDef {
        name: word("u")?,
        text: Txt::from_slice(alloc, b"")?,
        columns,
        rules: List::new(alloc),
    });
    match catalog.add(table) {
        Ok(_) => Ok(catalog),
        Err(_) => Err(Memory),
    }
}

pub(crate) fn write_state(out: &mut Words, state: &State) {
    out.push(&state.code);
}

fn write_done(out: &mut Words, done: &Defined) {
    match done {
        Defined::Add(Object::Table(table)) => write_table(out, table),
        Defined::Add(_) => out.push(b"another object"),
        Defined::Drop(Which::Table(name)) => {
            out.push(b"drop ");
            out.push(name.as_bytes());
        }
        Defined::Drop(_) => out.push(b"drop of another object"),
        Defined::Nothing(state) => {
            out.push(b"nothing ");
            write_state(out, state);
        }
    }
}

pub(crate) fn write_fail(out: &mut Words, fail: DefineFail) {
    match fail {
        DefineFail::State(state) => write_state(out, &state),
        DefineFail::Memory => out.push(b"no memory"),
    }
}

fn write_definition(
    out: &mut Words,
    alloc: Global,
    catalog: &Catalog,
    definition: &Definition,
    source: &Txt,
) {
    let Ok(text) = source.copy(alloc) else {
        out.push(b"no memory");
        return;
    };
    match define(alloc, catalog, definition, text).map(Held::new) {
        Ok(done) => write_done(out, done.get()),
        Err(fail) => write_fail(out, fail),
    }
}

fn write_command(out: &mut Words, alloc: Global, catalog: &Catalog, command: &Command) {
    match command {
        Command::Define { definition, source } => match definition {
            Definition::CreateRoutine(_) | Definition::DropRoutine { .. } => {
                write_routine_definition(out, alloc, catalog, definition, source);
            }
            _ => write_definition(out, alloc, catalog, definition, source),
        },
        _ => out.push(b"no definition"),
    }
}

fn command_of(alloc: Global, text: &str) -> Option<Held<Command>> {
    let Ok(tokens) = lex(alloc, text) else {
        return None;
    };
    parse_command(alloc, tokens.as_slice(), text)
        .map(Held::new)
        .ok()
}

// What the definition does, as the table writes it.
fn verdict(alloc: Global, catalog: &Catalog, text: &str) -> Words {
    let mut out = Words::new(alloc);
    match command_of(alloc, text) {
        Some(command) => write_command(&mut out, alloc, catalog, command.get()),
        None => out.push(b"no command"),
    }
    out
}

fn is_told(alloc: Global, catalog: &Catalog, line: &str) -> bool {
    let line = line.strip_prefix("! ").unwrap_or(line);
    match line.split_once("  ->  ") {
        Some((text, expected)) => verdict(alloc, catalog, text).text() == expected.as_bytes(),
        None => line.is_empty() || line.starts_with("--"),
    }
}

// The first line whose definition does something else.
pub(crate) fn other(
    alloc: Global,
    catalog: Result<Catalog, Memory>,
    table: &'static str,
) -> Option<&'static str> {
    let Ok(catalog) = catalog else {
        return Some("no catalogue");
    };
    for line in table.lines() {
        if !is_told(alloc, &catalog, line) {
            return Some(line);
        }
    }
    None
}

#[test]
fn definitions_do_what_the_table_says(rt: HostRuntime) {
    let alloc = rt.alloc();
    assert_eq!(rt; other(alloc, catalog(alloc), CASES), None);
}
