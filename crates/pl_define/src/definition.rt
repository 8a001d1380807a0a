//! What a definition does to the catalogue.

ghost use Rattle.std.specs.Prelude.{◌≡◌, None};
ghost use Rattle.pl_routine_ddl.specs.pl_ddl.Definition as tables;
ghost use Rattle.pl_define.specs.Definition as spec;
ghost use Rattle.pl_routine_ddl.specs.Routines.{form_refusal};
ghost use Rattle.pl_routine_ddl.specs.pl_typing.Resolved.{Gives};

use crate::body::body_of;
use pl_base::{Held, List, Name, State, Txt, Ty};
use pl_bodies::Body;
use pl_routine_ddl::pl_catalog::{Catalog, Object, RoutineBody, Which};
use pl_routine_ddl::pl_ddl::Defined as TableDefined;
use pl_routine_ddl::pl_typing::ScopeFail;
use pl_routine_ddl::{RoutineDefined, drop_routine, form_refusal};
use pl_tree::{Definition, NewRoutine, RoutineKind};
use pl_waiting::waits;
use std::alloc::Global;

/// What a definition does.
#[derive(Drop)]
pub enum Defined {
    Add(Object),
    /// It takes the place of the one of its kind and name.
    Replace(Object),
    Drop(Which),
    /// The catalogue stays as it is, by IF EXISTS or IF NOT EXISTS; the SQLSTATE is that of the
    /// notice.
    Nothing(State),
}

/// What the definition of this text does to the catalogue: CREATE TABLE without foreign keys, DROP
/// TABLE, CREATE FUNCTION, and DROP of a routine; the others are 0A000. An object that others need
/// isn't kept from being dropped here: that is the catalogue's own refusal.
pub fn define(
    alloc: Global,
    catalog: &Catalog,
    definition: &Definition,
    text: Txt,
) -> Result<Defined, ScopeFail>
    ensures { Gives result (spec.defined catalog.now.objects definition.now text) }
{
    match definition {
        Definition::CreateTable(_) => define_table(alloc, catalog, definition, text),
        Definition::CreateRoutine(new) => create_routine(alloc, catalog, new, text),
        Definition::DropTable { .. } => define_table(alloc, catalog, definition, text),
        Definition::DropRoutine {
            kind,
            if_exists,
            name,
            types,
        } => drop_one(catalog, *kind, *if_exists, *name, types),
        Definition::CreateTrigger(_) | Definition::DropTrigger { .. } => {
            Err(ScopeFail::State(State::FEATURE_NOT_SUPPORTED))
        }
    }
}

// ---- tables

fn of_table(made: TableDefined) -> Defined
    ensures { result ≡ spec.of_table made }
{
    match made {
        TableDefined::Add(object) => Defined::Add(object),
        TableDefined::Drop(which) => Defined::Drop(which),
        TableDefined::Nothing(state) => Defined::Nothing(state),
    }
}

fn define_table(
    alloc: Global,
    catalog: &Catalog,
    definition: &Definition,
    text: Txt,
) -> Result<Defined, ScopeFail>
    ensures { Gives result
        (spec.of_tables (tables.defined catalog.now.objects definition.now text)) }
{
    match pl_routine_ddl::pl_ddl::define(alloc, catalog, definition, text) {
        Ok(made) => Ok(of_table(made)),
        Err(fail) => Err(fail),
    }
}

// ---- routines

fn of_routine(made: RoutineDefined) -> Defined
    ensures { result ≡ spec.of_routine made }
{
    match made {
        RoutineDefined::Add(routine) => Defined::Add(Object::Routine(routine)),
        RoutineDefined::Replace(routine) => Defined::Replace(Object::Routine(routine)),
        RoutineDefined::Drop(name) => Defined::Drop(Which::Routine(name)),
        RoutineDefined::Nothing(state) => Defined::Nothing(state),
    }
}

// The routine of this body, which is refused where the body has a form that can't be run yet.
fn with_body(
    alloc: Global,
    catalog: &Catalog,
    new: &NewRoutine,
    text: Txt,
    body: Held<Body>,
) -> Result<Defined, ScopeFail>
    requires formed { form_refusal new.now ≡ None }
    ensures { Gives result (spec.with_body catalog.now.objects new.now text body) }
{
    if waits(body.get()) {
        return Err(ScopeFail::State(State::FEATURE_NOT_SUPPORTED));
    }
    let body = RoutineBody::new(alloc, body.into_inner())?;
    match pl_routine_ddl::create_routine(alloc, catalog, new, text, body) {
        Ok(made) => Ok(of_routine(made)),
        Err(fail) => Err(fail),
    }
}

fn create_routine(
    alloc: Global,
    catalog: &Catalog,
    new: &NewRoutine,
    text: Txt,
) -> Result<Defined, ScopeFail>
    ensures { Gives result (spec.create_routine catalog.now.objects new.now text) }
{
    if let Some(state) = form_refusal(new) {
        return Err(ScopeFail::State(state));
    }
    let body = body_of(alloc, new)?;
    with_body(alloc, catalog, new, text, body)
}

fn drop_one(
    catalog: &Catalog,
    kind: RoutineKind,
    if_exists: bool,
    name: Name,
    types: &Option<List<Ty>>,
) -> Result<Defined, ScopeFail>
    ensures { Gives result
        (spec.drop_one catalog.now.objects kind if_exists name types.now) }
{
    match drop_routine(catalog, kind, if_exists, name, types) {
        Ok(made) => Ok(of_routine(made)),
        Err(fail) => Err(fail),
    }
}
