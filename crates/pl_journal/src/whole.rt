//! The whole database as a payload.

ghost use Rattle.std.specs.Prelude.{◌≡◌, ◌∷◌, [], true, Some, IfOk, OnOk};
ghost use Rattle.pl_base.specs.declared.operation.Op.TheVariants.{Define};
ghost use Rattle.pl_codec.specs.Spelling.{are_stored};
ghost use Rattle.pl_define.specs.Definition as made;
ghost use Rattle.pl_journal.specs.Journal.{LeadsTo};
ghost use Rattle.pl_journal.specs.Operation.{apply_all, empty};
ghost use Rattle.pl_journal.specs.Sound.{IsSound};
ghost use Rattle.pl_journal.specs.Whole.{content_ops, held_ops, row_ops, whole, whole_of};
ghost use Rattle.pl_journal.specs.Written.{Writes};
ghost use Rattle.pl_tables.specs.Named.{content_named};
ghost use Rattle.pl_tables.specs.Slots.{before, live};
ghost use Rattle.pl_undo.specs.Database.{Database};

use crate::Journal;
use pl_base::{Bytes, List, Memory, Name};
use pl_catalog::{Catalog, Object};
use pl_codec::{push_define, push_next, push_put};
use pl_tables::{Slot, Table, Tables};
use std::alloc::AllocError;

impl Journal {
    /// The payload of the whole database: of operations that lead from no object to it.
    pub fn whole(&self) -> Result<Bytes, Memory>
        ensures { IfOk result (λ payload. LeadsTo payload empty self.now.now) }
    {
        let mut bytes = Vec::new(self.alloc);
        push_objects(&mut bytes, self.store.catalog(), self.store.tables())?;
        Ok(List::from_vec(bytes))
    }
}

/// The operations of a whole database lead from no object to it, and each of them has a spelling.
pub fn whole_leads_to_itself()
    ensures leads { (d : Database) → IsSound d → apply_all (whole d) empty ≡ Some d }
    ensures stored { (d : Database) → IsSound d → are_stored (whole d) ≡ true }
{}

// The objects in their order, each with what it holds.
fn push_objects(bytes: &mut Vec<u8>, catalog: &Catalog, tables: &Tables) -> Result<(), AllocError>
    requires { are_stored (whole_of catalog.now.objects tables.now.current) ≡ true }
    ensures { OnOk result (Writes (whole_of catalog.now.objects tables.now.current)
        bytes.old.items bytes.new.items) }
{
    let mut objects = catalog.objects();
    while let Some(object) = objects.lend() {
        push_object(bytes, object, tables)?;
    }
    Ok(())
}

fn push_object(bytes: &mut Vec<u8>, object: &Object, tables: &Tables) -> Result<(), AllocError>
    requires { are_stored (Define (made.text_of object.now)
        ∷ held_ops object.now tables.now.current) ≡ true }
    ensures { OnOk result (Writes
        (Define (made.text_of object.now) ∷ held_ops object.now tables.now.current)
        bytes.old.items bytes.new.items) }
{
    push_define(bytes, text_of(object))?;
    push_held(bytes, object, tables)
}

// The text of the command that made it.
fn text_of(object: &Object) -> &[u8]
    ensures { result.now ≡ made.text_of object.now }
{
    match object {
        Object::Table(table) => table.text.as_bytes(),
        Object::Routine(routine) => routine.text.as_bytes(),
        Object::Trigger(trigger) => trigger.text.as_bytes(),
    }
}

// What the object holds.
fn push_held(bytes: &mut Vec<u8>, object: &Object, tables: &Tables) -> Result<(), AllocError>
    requires { are_stored (held_ops object.now tables.now.current) ≡ true }
    ensures { OnOk result (Writes (held_ops object.now tables.now.current)
        bytes.old.items bytes.new.items) }
{
    match object {
        Object::Table(table) => push_content(bytes, &table.name, tables),
        Object::Routine(_) | Object::Trigger(_) => Ok(()),
    }
}

// What the table of this name holds.
fn push_content(bytes: &mut Vec<u8>, name: &Name, tables: &Tables) -> Result<(), AllocError>
    requires { are_stored (content_ops name.now (content_named name.now tables.now.current))
        ≡ true }
    ensures { OnOk result (Writes
        (content_ops name.now (content_named name.now tables.now.current))
        bytes.old.items bytes.new.items) }
{
    match tables.table(*name) {
        None => Ok(()),
        Some(table) => push_table(bytes, name, table),
    }
}

// The rows, and the id of the next one.
fn push_table(bytes: &mut Vec<u8>, name: &Name, table: &Table) -> Result<(), AllocError>
    requires { are_stored (content_ops name.now (Some table.now.current)) ≡ true }
    ensures { OnOk result (Writes (content_ops name.now (Some table.now.current))
        bytes.old.items bytes.new.items) }
{
    push_rows(bytes, name, table.slots())?;
    push_next(bytes, name, table.next_id())
}

fn push_rows(bytes: &mut Vec<u8>, name: &Name, slots: &[Slot]) -> Result<(), AllocError>
    requires { are_stored (row_ops name.now (live slots.now)) ≡ true }
    ensures { OnOk result (Writes (row_ops name.now (live slots.now))
        bytes.old.items bytes.new.items) }
{
    for slot in slots {
        push_slot(bytes, name, slot)?;
    }
    Ok(())
}

// The row of the slot, if it holds one.
fn push_slot(bytes: &mut Vec<u8>, name: &Name, slot: &Slot) -> Result<(), AllocError>
    requires { are_stored (row_ops name.now (before slot.now.id slot.now.row [])) ≡ true }
    ensures { OnOk result (Writes (row_ops name.now (before slot.now.id slot.now.row []))
        bytes.old.items bytes.new.items) }
{
    match &slot.row {
        None => Ok(()),
        Some(row) => push_put(bytes, name, slot.id, row.as_slice()),
    }
}
