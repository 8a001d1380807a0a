//! Definitions that are carried out, each with its operation in the payload.

ghost use Rattle.std.specs.Prelude.{◌≡◌, ◌∷◌, [], None, Some, Ok, IsSome, OnErr};
ghost use Rattle.pl_catalog.specs.Objects.{object_called, tables_in, which_of};
ghost use Rattle.pl_catalog.specs.declared.object.Object.TheVariants as object;
ghost use Rattle.pl_define.specs.declared.definition.Defined.TheVariants.{Add, Drop, Replace};
ghost use Rattle.pl_journal.specs.Definitions as spec;
ghost use Rattle.pl_journal.specs.Definitions.{carried_out, redefined};
ghost use Rattle.pl_journal.specs.Journal.{IsKept, Redefines};
ghost use Rattle.pl_journal.specs.Steps.{Continues};
ghost use Rattle.pl_define.specs.pl_reading.Computed.{definition_in};

use crate::spelling::spell_define;
use pl_base::{State, Txt};
use pl_catalog::{CatalogFail, Object, TableDef, Which};
use pl_codec::is_table_name;
use pl_define::pl_typing::ScopeFail;
use pl_define::{Defined, define};
use pl_tree::Definition;
use pl_undo::Store;
use std::alloc::Global;

/// The most columns of a table, whose rows have the number of their values in a byte.
const MOST_COLUMNS: usize = 255;

fn is_stored_table(table: &TableDef) -> bool
    ensures { result ≡ spec.is_stored_object (object.Table table.now) }
{
    is_table_name(table.name.as_bytes()) && table.columns.len() <= MOST_COLUMNS
}

fn is_stored(object: &Object) -> bool
    ensures { result ≡ spec.is_stored_object object.now }
{
    match object {
        Object::Table(table) => is_stored_table(table),
        Object::Routine(_) | Object::Trigger(_) => true,
    }
}

// Adds the object, of a kind and a name that no other has.
fn add_object(store: &mut Store, object: Object) -> Result<Option<State>, ScopeFail>
    requires new { object_called (which_of object) store.old.now.objects ≡ None }
    ensures redefines { Redefines (carried_out (Ok (Add object)) store.old.now) result
        store.new.now }
    ensures err { OnErr result (store.new.now ≡ store.old.now) }
    ensures last { store.new.last ≡ store.old.last }
    ensures marks { store.new.marks ≡ store.old.marks }
{
    if !is_stored(&object) {
        return Err(ScopeFail::State(State::FEATURE_NOT_SUPPORTED));
    }
    match store.create(object) {
        Ok(()) => Ok(None),
        Err(CatalogFail::Taken | CatalogFail::Absent | CatalogFail::Dependent { .. }) => {
            unreachable!()
        }
        Err(CatalogFail::Memory) => Err(ScopeFail::Memory),
    }
}

// Puts the object, which is no table, in the place of the one of its kind and name, which is there.
fn replace_object(store: &mut Store, object: Object) -> Result<Option<State>, ScopeFail>
    requires there { IsSome (object_called (which_of object) store.old.now.objects) }
    requires plain { tables_in (object ∷ []) ≡ [] }
    ensures redefines { Redefines (carried_out (Ok (Replace object)) store.old.now) result
        store.new.now }
    ensures err { OnErr result (store.new.now ≡ store.old.now) }
    ensures last { store.new.last ≡ store.old.last }
    ensures marks { store.new.marks ≡ store.old.marks }
{
    match store.replace_object(object) {
        Ok(()) => Ok(None),
        Err(CatalogFail::Taken | CatalogFail::Absent | CatalogFail::Dependent { .. }) => {
            unreachable!()
        }
        Err(CatalogFail::Memory) => Err(ScopeFail::Memory),
    }
}

// Takes out this object, which is there, unless others need it.
fn drop_object(store: &mut Store, which: Which) -> Result<Option<State>, ScopeFail>
    requires there { IsSome (object_called which store.old.now.objects) }
    ensures redefines { Redefines (carried_out (Ok (Drop which)) store.old.now) result
        store.new.now }
    ensures err { OnErr result (store.new.now ≡ store.old.now) }
    ensures last { store.new.last ≡ store.old.last }
    ensures marks { store.new.marks ≡ store.old.marks }
{
    match store.drop_object(which) {
        Ok(()) => Ok(None),
        Err(CatalogFail::Dependent { .. }) => {
            Err(ScopeFail::State(State::DEPENDENT_OBJECTS_STILL_EXIST))
        }
        Err(CatalogFail::Taken | CatalogFail::Absent) => unreachable!(),
        Err(CatalogFail::Memory) => Err(ScopeFail::Memory),
    }
}

/// Carries out a definition of this text. The SQLSTATE of a notice where it leaves all as it is.
pub(crate) fn carry_out(
    alloc: Global,
    store: &mut Store,
    definition: &Definition,
    text: Txt,
) -> Result<Option<State>, ScopeFail>
    ensures redefines { Redefines (redefined definition.now text store.old.now) result
        store.new.now }
    ensures err { OnErr result (store.new.now ≡ store.old.now) }
    ensures last { store.new.last ≡ store.old.last }
    ensures marks { store.new.marks ≡ store.old.marks }
{
    match define(alloc, store.catalog(), definition, text) {
        Err(fail) => Err(fail),
        Ok(Defined::Nothing(notice)) => Ok(Some(notice)),
        Ok(Defined::Add(object)) => add_object(store, object),
        Ok(Defined::Replace(object)) => replace_object(store, object),
        Ok(Defined::Drop(which)) => drop_object(store, which),
    }
}

/// Carries out a definition, whose own text this is.
pub(crate) fn define_object(
    alloc: Global,
    store: &mut Store,
    payload: &mut Vec<u8>,
    definition: &Definition,
    text: Txt,
) -> Result<Option<State>, ScopeFail>
    requires kept { IsKept payload.old.items store.old }
    requires text { definition_in text ≡ Some definition.now }
    ensures kept { Continues payload.old.items payload.new.items store.old store.new }
    ensures redefines { Redefines (redefined definition.now text store.old.now) result
        store.new.now }
    ensures err { OnErr result (store.new.now ≡ store.old.now) }
    ensures last { store.new.last ≡ store.old.last }
    ensures marks { store.new.marks ≡ store.old.marks }
{
    let size = payload.len();
    spell_define(alloc, payload, text.as_bytes())?;
    match carry_out(alloc, store, definition, text) {
        Ok(None) => Ok(None),
        Ok(Some(notice)) => {
            payload.truncate(size);
            Ok(Some(notice))
        }
        Err(fail) => {
            payload.truncate(size);
            Err(fail)
        }
    }
}
