//! The tables that queries are about.

use pl_base::{Boxed, List, Memory, Name, Txt, Ty, Value};
use pl_bodies::{Block, Body};
use pl_catalog::{Catalog, Column, Heading, Object, Routine, RoutineBody, TableDef};
use pl_names::{Scope, Seen, Shape, Visible};
use pl_resolved::RExpr;
use pl_tree::{Param, ResultType, RoutineKind, Way};
use pl_typing::ScopeFail;
use std::alloc::Global;

pub(crate) fn word(text: &str) -> Result<Name, Memory> {
    Name::of(text).ok_or(Memory)
}

fn table(alloc: Global, name: &str, columns: &[(&'static str, Ty)]) -> Result<Object, Memory> {
    let mut list = List::new(alloc);
    for (name, ty) in columns {
        list.push(Column {
            name: word(name)?,
            ty: *ty,
            is_not_null: false,
            default: None,
        })?;
    }
    Ok(Object::Table(TableDef {
        name: word(name)?,
        text: Txt::from_slice(alloc, b"")?,
        columns: list,
        rules: List::new(alloc),
    }))
}

fn with(mut catalog: Catalog, object: Object) -> Result<Catalog, Memory> {
    match catalog.add(object) {
        Ok(_) => Ok(catalog),
        Err(_) => Err(Memory),
    }
}

/// The tables of tools/resolution-cases.sql.
pub(crate) fn catalog(alloc: Global) -> Result<Catalog, Memory> {
    let t = [
        ("a", Ty::Int),
        ("b", Ty::Big),
        ("s", Ty::Text),
        ("f", Ty::Bool),
    ];
    let u = [("a", Ty::Int), ("c", Ty::Text), ("g", Ty::Bool)];
    let n = [("c", Ty::Int)];
    let catalog = with(Catalog::new(alloc), table(alloc, "t", &t)?)?;
    let catalog = with(catalog, table(alloc, "u", &u)?)?;
    with(catalog, table(alloc, "n", &n)?)
}

// An integer, and a text with a default.
fn table_of_defaults(alloc: Global) -> Result<Object, Memory> {
    let mut columns = List::new(alloc);
    columns.push(Column {
        name: word("k")?,
        ty: Ty::Int,
        is_not_null: false,
        default: None,
    })?;
    let default = RExpr::Constant(Value::Text(Txt::from_slice(alloc, b"d")?));
    columns.push(Column {
        name: word("v")?,
        ty: Ty::Text,
        is_not_null: false,
        default: Some(Boxed::new(alloc, default)?),
    })?;
    Ok(Object::Table(TableDef {
        name: word("d")?,
        text: Txt::from_slice(alloc, b"")?,
        columns,
        rules: List::new(alloc),
    }))
}

/// The same, and `d` with the integer `k` and the text `v`, whose default is 'd'.
pub(crate) fn catalog_with_defaults(alloc: Global) -> Result<Catalog, Memory> {
    let catalog = catalog(alloc)?;
    with(catalog, table_of_defaults(alloc)?)
}

fn params(alloc: Global, way: Way, types: &[Ty]) -> Result<List<Param>, Memory> {
    let mut list = List::new(alloc);
    for ty in types {
        list.push(Param {
            way,
            name: None,
            ty: *ty,
        })?;
    }
    Ok(list)
}

// BEGIN END
fn empty_body(alloc: Global) -> Body {
    Body {
        line: 1,
        block: Block {
            label: None,
            declarations: List::new(alloc),
            statements: List::new(alloc),
            handlers: List::new(alloc),
            end_label: None,
        },
    }
}

fn routine(alloc: Global, name: &str, heading: Heading) -> Result<Object, Memory> {
    let body = RoutineBody::new(alloc, empty_body(alloc))?;
    Ok(Object::Routine(Routine {
        name: word(name)?,
        text: Txt::from_slice(alloc, b"")?,
        heading,
        body,
    }))
}

fn function(alloc: Global, name: &str, types: &[Ty], gives: ResultType) -> Result<Object, Memory> {
    let heading = Heading {
        kind: RoutineKind::Function,
        params: params(alloc, Way::In, types)?,
        result: gives,
    };
    routine(alloc, name, heading)
}

fn procedure(alloc: Global, name: &str, types: &[Ty]) -> Result<Object, Memory> {
    let heading = Heading {
        kind: RoutineKind::Procedure,
        params: params(alloc, Way::In, types)?,
        result: ResultType::Absent,
    };
    routine(alloc, name, heading)
}

fn with_function(
    alloc: Global,
    catalog: Catalog,
    name: &str,
    types: &[Ty],
    gives: Ty,
) -> Result<Catalog, Memory> {
    let object = function(alloc, name, types, ResultType::One(gives))?;
    with(catalog, object)
}

fn with_functions(alloc: Global, catalog: Catalog) -> Result<Catalog, Memory> {
    let all = [Ty::Int, Ty::Big, Ty::Text, Ty::Bool];
    let catalog = with_function(alloc, catalog, "nil", &[], Ty::Int)?;
    let catalog = with_function(alloc, catalog, "one", &[Ty::Int], Ty::Int)?;
    let catalog = with_function(alloc, catalog, "big", &[Ty::Big], Ty::Big)?;
    let catalog = with_function(alloc, catalog, "said", &[Ty::Text], Ty::Text)?;
    let catalog = with_function(alloc, catalog, "holds", &[Ty::Bool], Ty::Bool)?;
    let catalog = with_function(alloc, catalog, "mixed", &all, Ty::Text)?;
    with_function(alloc, catalog, "nothing", &[Ty::Int], Ty::Void)
}

// A trigger's function, one that gives a set, one that gives rows, and one whose parameter goes out.
fn with_others(alloc: Global, catalog: Catalog) -> Result<Catalog, Memory> {
    let fires = function(alloc, "fires", &[], ResultType::One(Ty::Trigger))?;
    let many = function(alloc, "many", &[Ty::Int], ResultType::Set(Ty::Int))?;
    let columns = params(alloc, Way::Out, &[Ty::Int, Ty::Text])?;
    let pairs = function(alloc, "pairs", &[], ResultType::Columns(columns))?;
    let passes = Heading {
        kind: RoutineKind::Function,
        params: params(alloc, Way::InOut, &[Ty::Int])?,
        result: ResultType::Absent,
    };
    let catalog = with(with(catalog, fires)?, many)?;
    with(with(catalog, pairs)?, routine(alloc, "passes", passes)?)
}

/// The tables and the routines of tools/routine-cases.sql, and some that no call in an expression
/// may name: `fires()` of a trigger, the sets `many(integer)` and `pairs()`, and
/// `passes(INOUT integer)`.
pub(crate) fn catalog_with_routines(alloc: Global) -> Result<Catalog, Memory> {
    let catalog = with_functions(alloc, catalog(alloc)?)?;
    let catalog = with(catalog, procedure(alloc, "does", &[Ty::Int])?)?;
    with_others(alloc, catalog)
}

fn seen(name: &str, ty: Ty) -> Result<Seen, Memory> {
    Ok(Seen {
        name: word(name)?,
        ty,
        shape: Shape::Plain,
    })
}

// A block of this label with an integer and the text `y`.
fn block(alloc: Global, label: &str, integer: &str) -> Result<Visible, Memory> {
    let mut variables = List::new(alloc);
    variables.push(seen(integer, Ty::Int)?)?;
    variables.push(seen("y", Ty::Text)?)?;
    Ok(Visible {
        label: word(label)?,
        variables,
    })
}

/// Nothing but tables.
pub(crate) fn no_scope(alloc: Global) -> Scope {
    Scope {
        frames: List::new(alloc),
        params: List::new(alloc),
    }
}

/// Three blocks, each in the one before: `i` with `w` and `y`, `o` and a second `i`, both with `x`
/// and `y`. The first variable, `w`, is the one parameter.
pub(crate) fn three_blocks(alloc: Global) -> Result<Scope, Memory> {
    let mut scope = no_scope(alloc);
    scope.frames.push(block(alloc, "i", "w")?)?;
    scope.frames.push(block(alloc, "o", "x")?)?;
    scope.frames.push(block(alloc, "i", "x")?)?;
    scope.params.push(Ty::Int)?;
    Ok(scope)
}

/// The SQLSTATE.
pub(crate) fn state_of(alloc: Global, fail: ScopeFail) -> Result<Vec<u8>, Memory> {
    match fail {
        ScopeFail::State(state) => Ok(Vec::from_slice(alloc, &state.code)?),
        ScopeFail::Memory => Err(Memory),
    }
}
