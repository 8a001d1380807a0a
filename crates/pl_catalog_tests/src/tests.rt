//! Each call once.

use pl_base::{List, Name, Txt};
use pl_bodies::{Block, Body};
use pl_catalog::{
    Catalog, CatalogFail, Events, Heading, Object, Objects, Routine, RoutineBody, TableDef,
    TriggerDef, Which,
};
use pl_tree::{ResultType, RoutineKind};
use std::alloc::{AllocError, Global};
use std::test::Fail;

fn table(alloc: Global, name: Name) -> Result<Object, AllocError> {
    Ok(Object::Table(TableDef {
        name,
        text: Txt::from_slice(alloc, b"a table")?,
        columns: List::new(alloc),
        rules: List::new(alloc),
    }))
}

fn routine(alloc: Global, name: Name) -> Result<Object, AllocError> {
    routine_of(alloc, name, b"a routine")
}

fn routine_of(alloc: Global, name: Name, text: &[u8]) -> Result<Object, AllocError> {
    Ok(Object::Routine(Routine {
        name,
        text: Txt::from_slice(alloc, text)?,
        heading: Heading {
            kind: RoutineKind::Function,
            params: List::new(alloc),
            result: ResultType::Absent,
        },
        body: RoutineBody::new(alloc, empty_body(alloc))?,
    }))
}

// BEGIN END
fn empty_body(alloc: Global) -> Body {
    Body {
        line: 1,
        block: Block {
            label: None,
            declarations: List::new(alloc),
            statements: List::new(alloc),
            handlers: List::new(alloc),
            end_label: None,
        },
    }
}

fn trigger(alloc: Global, name: Name, table: Name, routine: Name) -> Result<Object, AllocError> {
    Ok(Object::Trigger(TriggerDef {
        name,
        text: Txt::from_slice(alloc, b"a trigger")?,
        table,
        is_before: true,
        events: Events {
            insert: true,
            update: false,
            delete: false,
        },
        routine,
    }))
}

fn named(name: &str) -> Result<Name, Fail> {
    match Name::of(name) {
        Some(name) => Ok(name),
        None => Err(Fail::new("no name")),
    }
}

// The table t, the routine f, and the trigger g of t that calls f.
fn filled(alloc: Global) -> Result<Catalog, Fail> {
    let mut catalog = Catalog::new(alloc);
    add(&mut catalog, table(alloc, named("t")?)?)?;
    add(&mut catalog, routine(alloc, named("f")?)?)?;
    add(
        &mut catalog,
        trigger(alloc, named("g")?, named("t")?, named("f")?)?,
    )?;
    Ok(catalog)
}

fn add(catalog: &mut Catalog, object: Object) -> Result<(), Fail> {
    match catalog.add(object) {
        Ok(()) => Ok(()),
        Err(_) => Err(Fail::new("no object is added")),
    }
}

#[test]
fn objects_are_found_by_kind_and_name(rt: HostRuntime) -> Result<(), Fail> {
    let alloc = rt.alloc();
    let mut catalog = filled(alloc)?;
    let (t, f) = (named("t")?, named("f")?);
    assert!(rt; catalog.table(t).is_some_and(|table| table.name == t));
    assert!(rt; catalog.routine(f).is_some_and(|routine| routine.name == f));
    assert!(rt; catalog.table(f).is_none());
    assert!(rt; catalog.routine(t).is_none());
    assert!(rt; matches!(catalog.add(table(alloc, t)?), Err(CatalogFail::Taken)));
    Ok(())
}

// Why an object isn't dropped. None where it is.
fn refusal(catalog: &mut Catalog, which: Which) -> Option<CatalogFail> {
    match catalog.drop_object(which) {
        Ok(()) => None,
        Err(fail) => Some(fail),
    }
}

// The name of the object that needs the one that was to be dropped.
fn dependent(fail: CatalogFail) -> Option<Name> {
    match fail {
        CatalogFail::Dependent { name } => Some(name),
        CatalogFail::Taken | CatalogFail::Absent | CatalogFail::Memory => None,
    }
}

fn is_absent(fail: CatalogFail) -> bool {
    matches!(fail, CatalogFail::Absent)
}

#[test]
fn what_is_needed_is_not_dropped(rt: HostRuntime) -> Result<(), Fail> {
    let mut catalog = filled(rt.alloc())?;
    let f = Which::Routine(named("f")?);
    let g = named("g")?;
    let trigger = Which::Trigger {
        table: named("t")?,
        name: g,
    };
    let Some(needed) = refusal(&mut catalog, f) else {
        return Err(Fail::new("the routine is dropped"));
    };
    assert!(rt; dependent(needed) == Some(g));
    assert!(rt; refusal(&mut catalog, trigger).is_none());
    assert!(rt; refusal(&mut catalog, f).is_none());
    let Some(absent) = refusal(&mut catalog, f) else {
        return Err(Fail::new("the routine is dropped twice"));
    };
    assert!(rt; is_absent(absent));
    Ok(())
}

#[test]
fn an_object_is_called_by_what_finds_it(rt: HostRuntime) -> Result<(), Fail> {
    let alloc = rt.alloc();
    let (t, g) = (named("t")?, named("g")?);
    let object = trigger(alloc, g, t, named("f")?)?;
    assert!(rt; object.name() == g);
    assert!(rt; object.is_called(&object.which()));
    assert!(rt; object.is_called(&Which::Trigger { table: t, name: g }));
    assert!(rt; !object.is_called(&Which::Routine(g)));
    Ok(())
}

#[test]
fn dropped_objects_come_back(rt: HostRuntime) -> Result<(), Fail> {
    let mut catalog = filled(rt.alloc())?;
    let (t, f, g) = (named("t")?, named("f")?, named("g")?);
    let trigger = Which::Trigger { table: t, name: g };
    assert_eq!(rt; catalog.changes(), 3);
    assert!(rt; refusal(&mut catalog, trigger).is_none());
    assert!(rt; refusal(&mut catalog, Which::Routine(f)).is_none());
    catalog.undo();
    assert!(rt; catalog.routine(f).is_some());
    catalog.undo();
    assert!(rt; refusal(&mut catalog, Which::Routine(f)).is_some());
    assert_eq!(rt; catalog.changes(), 3);
    catalog.forget();
    assert_eq!(rt; catalog.changes(), 0);
    catalog.undo();
    assert!(rt; catalog.table(t).is_some());
    Ok(())
}

// Whether the next object that is lent has this name.
fn lends(objects: &mut Objects<'_>, name: Name) -> bool {
    match objects.lend() {
        Some(object) => object.name() == name,
        None => false,
    }
}

#[test]
fn objects_are_lent_in_order(rt: HostRuntime) -> Result<(), Fail> {
    let mut catalog = filled(rt.alloc())?;
    let (t, f, g) = (named("t")?, named("f")?, named("g")?);
    let trigger = Which::Trigger { table: t, name: g };
    assert!(rt; refusal(&mut catalog, trigger).is_none());
    let mut objects = catalog.objects();
    assert!(rt; lends(&mut objects, t));
    assert!(rt; lends(&mut objects, f));
    assert!(rt; objects.lend().is_none());
    Ok(())
}

// Whether the routine of this name was made by this text.
fn is_made_by(catalog: &Catalog, name: Name, text: &[u8]) -> bool {
    match catalog.routine(name) {
        Some(routine) => routine.text.as_bytes() == text,
        None => false,
    }
}

#[test]
fn a_replaced_object_keeps_its_place(rt: HostRuntime) -> Result<(), Fail> {
    let alloc = rt.alloc();
    let mut catalog = filled(alloc)?;
    let (t, f, g) = (named("t")?, named("f")?, named("g")?);
    assert!(rt; catalog.replace(routine_of(alloc, f, b"another")?).is_ok());
    assert!(rt; is_made_by(&catalog, f, b"another"));
    let mut objects = catalog.objects();
    assert!(rt; lends(&mut objects, t));
    assert!(rt; lends(&mut objects, f));
    assert!(rt; lends(&mut objects, g));
    catalog.undo();
    assert!(rt; is_made_by(&catalog, f, b"a routine"));
    assert!(rt; matches!(catalog.replace(table(alloc, f)?), Err(CatalogFail::Absent)));
    Ok(())
}
