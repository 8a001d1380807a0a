//! What a definition does to the catalogue.

ghost use Rattle.pl_ddl.specs.Definition as spec;
ghost use Rattle.pl_assigning.specs.pl_typing.Resolved.{Gives};

use crate::making::new_table;
use pl_assigning::pl_typing::ScopeFail;
use pl_base::{Name, State, Txt};
use pl_catalog::{Catalog, Object, Which};
use pl_tree::{Definition, NewTable};
use std::alloc::Global;

/// What a definition does.
#[derive(Drop)]
pub enum Defined {
    Add(Object),
    Drop(Which),
    /// The catalogue stays as it is, by IF EXISTS or IF NOT EXISTS; the SQLSTATE is that of the
    /// notice.
    Nothing(State),
}

/// What the definition of this text does to the catalogue: CREATE TABLE without foreign keys, and
/// DROP TABLE; the others are 0A000. A table that others need isn't kept from being dropped here:
/// that is the catalogue's own refusal.
pub fn define(
    alloc: Global,
    catalog: &Catalog,
    definition: &Definition,
    text: Txt,
) -> Result<Defined, ScopeFail>
    ensures { Gives result (spec.defined catalog.now.objects definition.now text) }
{
    match definition {
        Definition::CreateTable(table) => create_table(alloc, catalog, table, text),
        Definition::DropTable { if_exists, name } => drop_table(catalog, *if_exists, *name),
        Definition::CreateRoutine(_)
        | Definition::CreateTrigger(_)
        | Definition::DropRoutine { .. }
        | Definition::DropTrigger { .. } => Err(ScopeFail::State(State::FEATURE_NOT_SUPPORTED)),
    }
}

fn create_table(
    alloc: Global,
    catalog: &Catalog,
    table: &NewTable,
    text: Txt,
) -> Result<Defined, ScopeFail>
    ensures { Gives result (spec.create_table catalog.now.objects table.now text) }
{
    match catalog.table(table.name) {
        Some(_) => if_allowed(table.if_not_exists, State::DUPLICATE_TABLE),
        None => new_table(alloc, catalog, table.name, text, table.elements.as_slice()),
    }
}

fn drop_table(catalog: &Catalog, if_exists: bool, name: Name) -> Result<Defined, ScopeFail>
    ensures { Gives result (spec.drop_table catalog.now.objects if_exists name) }
{
    match catalog.table(name) {
        Some(_) => Ok(Defined::Drop(Which::Table(name))),
        None => if_allowed(if_exists, State::UNDEFINED_TABLE),
    }
}

// No change where it is allowed, and the refusal where it isn't.
fn if_allowed(is_allowed: bool, state: State) -> Result<Defined, ScopeFail>
    ensures { Gives result (spec.if_allowed is_allowed state) }
{
    if is_allowed {
        Ok(Defined::Nothing(state))
    } else {
        Err(ScopeFail::State(state))
    }
}
