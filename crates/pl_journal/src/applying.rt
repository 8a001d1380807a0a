//! Operations that are done as a store is opened.

ghost use Rattle.std.specs.Prelude.{◌≡◌, [], None, true, is_some, IfOk};
ghost use Rattle.pl_base.specs.declared.operation.Op.TheVariants.{Define, Next, Put, Remove};
ghost use Rattle.pl_catalog.specs.Objects.{table_named, tables_in};
ghost use Rattle.pl_codec.specs.Spelling.{is_row_id};
ghost use Rattle.pl_journal.specs.Journal.{AllApply, Becomes};
ghost use Rattle.pl_journal.specs.Operation as spec;
ghost use Rattle.pl_journal.specs.Steps.{may_raise, refusal_by, IsAtRest};
ghost use Rattle.pl_tables.specs.Named.{next_named, row_named};

use crate::Journal;
use crate::defining::carry_out;
use crate::writing::judge;
use pl_base::{Cells, Held, Memory, Name, Op, Txt};
use pl_define::pl_reading::read_definition;
use pl_define::pl_typing::ScopeFail;
use pl_tables::TableFail;
use pl_undo::Store;
use pl_value::Unsettled;
use std::alloc::Global;

// Whether a definition of this text was carried out.
fn apply_define(alloc: Global, store: &mut Store, text: Txt) -> Result<bool, Memory>
    requires rest { IsAtRest store.old }
    ensures done { IfOk result (λ done. Becomes done store.old.now store.new.now
        (spec.apply (Define text) store.old.now)) }
    ensures rest { IsAtRest store.new }
{
    let Some(definition) = read_definition(alloc, text.as_bytes())? else {
        return Ok(false);
    };
    let definition = Held::new(definition);
    match carry_out(alloc, store, definition.get(), text) {
        Ok(_) => {
            store.seal();
            Ok(true)
        }
        Err(ScopeFail::State(_)) => Ok(false),
        Err(ScopeFail::Memory) => Err(Memory),
    }
}

// Whether a row that keeps its rules was put under this id.
fn put_row(store: &mut Store, name: Name, id: u64, row: Cells) -> Result<bool, Memory>
    requires rest { IsAtRest store.old }
    requires numbered { is_row_id id ≡ true }
    requires keeps { refusal_by (table_named name (tables_in store.old.now.objects)) row ≡ None }
    ensures done { IfOk result (λ done. Becomes done store.old.now store.new.now
        (spec.apply (Put name id row) store.old.now)) }
    ensures rest { IsAtRest store.new }
{
    match store.put_at(name, id, row) {
        Ok(()) => Ok(true),
        Err(TableFail::Full) => Ok(false),
        Err(TableFail::Taken(_)) => Ok(false),
        Err(TableFail::Memory) => Err(Memory),
    }
}

fn is_row_id(id: u64) -> bool
    ensures { result ≡ is_row_id id }
{
    0 < id && id < 1 << 63
}

// Whether the row was put under this id.
fn apply_put(
    alloc: Global,
    store: &mut Store,
    name: Name,
    id: u64,
    row: Cells,
) -> Result<bool, Memory>
    requires rest { IsAtRest store.old }
    ensures done { IfOk result (λ done. Becomes done store.old.now store.new.now
        (spec.apply (Put name id row) store.old.now)) }
    ensures rest { IsAtRest store.new }
{
    if !is_row_id(id) {
        return Ok(false);
    }
    match judge(alloc, &*store, name, &row) {
        Ok(()) => put_row(store, name, id, row),
        Err(Unsettled::Fails(_)) => Ok(false),
        Err(Unsettled::Memory) => Err(Memory),
    }
}

fn has_row(store: &Store, name: Name, id: u64) -> bool
    ensures { result ≡ is_some (row_named name id store.now.now.tables) }
{
    match store.tables().table(name) {
        None => false,
        Some(table) => table.row(id).is_some(),
    }
}

// Whether the row of this id was removed.
fn apply_remove(store: &mut Store, name: Name, id: u64) -> Result<bool, Memory>
    requires rest { IsAtRest store.old }
    ensures done { IfOk result (λ done. Becomes done store.old.now store.new.now
        (spec.apply (Remove name id) store.old.now)) }
    ensures rest { IsAtRest store.new }
{
    if !has_row(&*store, name, id) {
        return Ok(false);
    }
    store.remove(name, id)?;
    store.seal();
    Ok(true)
}

fn can_be_next(store: &Store, name: Name, next: u64) -> bool
    ensures { result ≡ may_raise (next_named name store.now.now.tables) next }
{
    match store.tables().table(name) {
        None => false,
        Some(table) => table.next_id() <= next && next <= 1 << 63,
    }
}

// Whether this became the id that the next new row gets.
fn apply_next(store: &mut Store, name: Name, next: u64) -> bool
    requires rest { IsAtRest store.old }
    ensures done { Becomes result store.old.now store.new.now
        (spec.apply (Next name next) store.old.now) }
    ensures rest { IsAtRest store.new }
{
    if !can_be_next(&*store, name, next) {
        return false;
    }
    store.raise_next(name, next);
    true
}

// Whether the operation was done.
fn apply_to(alloc: Global, store: &mut Store, op: Op) -> Result<bool, Memory>
    requires rest { IsAtRest store.old }
    ensures done { IfOk result (λ done. Becomes done store.old.now store.new.now
        (spec.apply op store.old.now)) }
    ensures rest { IsAtRest store.new }
{
    match op {
        Op::Define { text } => apply_define(alloc, store, text),
        Op::Put { table, id, row } => apply_put(alloc, store, table, id, row),
        Op::Remove { table, id } => apply_remove(store, table, id),
        Op::Next { table, next } => Ok(apply_next(store, table, next)),
    }
}

impl Journal {
    /// Does an operation of a store that is opened, if it applies, and says whether it does. The
    /// database now is then that of the last commit.
    pub fn apply(&mut self, op: Op) -> Result<bool, Memory>
        requires settled { self.old.last ≡ self.old.now }
        requires unmarked { self.old.marks ≡ [] }
        ensures done { IfOk result (λ done. Becomes done self.old.now self.new.now
            (spec.apply op self.old.now)) }
        ensures settled { self.new.last ≡ self.new.now }
        ensures unmarked { self.new.marks ≡ [] }
    {
        self.payload.clear();
        apply_to(self.alloc, &mut self.store, op)
    }

    /// Does these operations in order, if each applies, and says whether they all do. Where one
    /// doesn't, those before it are done.
    pub fn apply_all(&mut self, ops: Vec<Op>) -> Result<bool, Memory>
        requires settled { self.old.last ≡ self.old.now }
        requires unmarked { self.old.marks ≡ [] }
        ensures done { IfOk result (λ done. AllApply done self.new.now
            (spec.apply_all ops.items self.old.now)) }
        ensures settled { self.new.last ≡ self.new.now }
        ensures unmarked { self.new.marks ≡ [] }
    {
        for op in ops {
            if !self.apply(op)? {
                return Ok(false);
            }
        }
        Ok(true)
    }
}
