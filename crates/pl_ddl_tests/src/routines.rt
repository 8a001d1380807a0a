//! Definitions of functions against their table.

use crate::definitions::{catalog, other, word, write_fail, write_state};
use crate::routine_cases::ROUTINE_CASES;
use crate::words::{Words, write_routine};
use pl_base::{Held, List, Memory, Name, Txt, Ty};
use pl_bodies::{Block, Body};
use pl_catalog::{Catalog, Heading, Object, Routine, RoutineBody};
use pl_routine_ddl::{RoutineDefined, create_routine, drop_routine, form_refusal};
use pl_tree::{Definition, NewRoutine, Param, ResultType, RoutineKind, Way};
use pl_typing::ScopeFail;
use std::alloc::Global;

fn param(name: Option<Name>, ty: Ty) -> Param {
    Param {
        way: Way::In,
        name,
        ty,
    }
}

// BEGIN END
fn empty_body(alloc: Global) -> Body {
    Body {
        line: 1,
        block: Block {
            label: None,
            declarations: List::new(alloc),
            statements: List::new(alloc),
            handlers: List::new(alloc),
            end_label: None,
        },
    }
}

// The function `f(a integer, text)` of a bigint.
fn function(alloc: Global) -> Result<Object, Memory> {
    let mut params = List::new(alloc);
    params.push(param(Some(word("a")?), Ty::Int))?;
    params.push(param(None, Ty::Text))?;
    let body = RoutineBody::new(alloc, empty_body(alloc))?;
    Ok(Object::Routine(Routine {
        name: word("f")?,
        text: Txt::from_slice(alloc, b"")?,
        heading: Heading {
            kind: RoutineKind::Function,
            params,
            result: ResultType::One(Ty::Big),
        },
        body,
    }))
}

// The table `u`, and the function `f`.
fn with_function(alloc: Global) -> Result<Catalog, Memory> {
    let mut objects = catalog(alloc)?;
    match objects.add(function(alloc)?) {
        Ok(_) => Ok(objects),
        Err(_) => Err(Memory),
    }
}

fn write_done(out: &mut Words, done: &RoutineDefined) {
    match done {
        RoutineDefined::Add(routine) => write_routine(out, routine),
        RoutineDefined::Replace(routine) => {
            out.push(b"replace ");
            write_routine(out, routine);
        }
        RoutineDefined::Drop(name) => {
            out.push(b"drop ");
            out.push(name.as_bytes());
        }
        RoutineDefined::Nothing(state) => {
            out.push(b"nothing ");
            write_state(out, state);
        }
    }
}

fn write_outcome(out: &mut Words, done: Result<Held<RoutineDefined>, ScopeFail>) {
    match done {
        Ok(done) => write_done(out, done.get()),
        Err(fail) => write_fail(out, fail),
    }
}

fn created(
    alloc: Global,
    catalog: &Catalog,
    routine: &NewRoutine,
    source: &Txt,
) -> Result<Held<RoutineDefined>, ScopeFail> {
    match form_refusal(routine) {
        Some(state) => return Err(ScopeFail::State(state)),
        None => {}
    }
    let text = source.copy(alloc)?;
    let body = RoutineBody::new(alloc, empty_body(alloc))?;
    create_routine(alloc, catalog, routine, text, body).map(Held::new)
}

pub(crate) fn write_routine_definition(
    out: &mut Words,
    alloc: Global,
    catalog: &Catalog,
    definition: &Definition,
    source: &Txt,
) {
    match definition {
        Definition::CreateRoutine(routine) => {
            write_outcome(out, created(alloc, catalog, routine, source));
        }
        Definition::DropRoutine {
            kind,
            if_exists,
            name,
            types,
        } => {
            let done = drop_routine(catalog, *kind, *if_exists, *name, types).map(Held::new);
            write_outcome(out, done);
        }
        _ => out.push(b"no routine"),
    }
}

#[test]
fn definitions_of_functions_do_what_the_table_says(rt: HostRuntime) {
    let alloc = rt.alloc();
    assert_eq!(rt; other(alloc, with_function(alloc), ROUTINE_CASES), None);
}
