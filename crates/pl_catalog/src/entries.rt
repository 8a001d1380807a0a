//! The objects of a catalogue, with those that were dropped.

ghost use Rattle.std.specs.Prelude.{◌≡◌, ◌<◌, ◌-◌, ◌∷◌, [], length, take, true, false};
ghost use Rattle.std.specs.Prelude.{IfNone, IfSome};
ghost use Rattle.std.specs.List.{position};
ghost use Rattle.std.specs.Option.{option_copied};
ghost use Rattle.pl_catalog.specs.Entries.{gone, holding, is_at, there, with_entry};
ghost use Rattle.pl_catalog.specs.Objects.{routine_named, routines_in, table_named, tables_in};

use crate::{Object, Routine, TableDef, Which};
use pl_base::Name;
use std::mem;

/// An object, or where one was.
#[derive(Drop)]
pub struct Entry {
    pub(crate) object: Object,
    pub(crate) is_there: bool,
}

// How a change is undone.
#[derive(Drop)]
pub enum Step {
    /// The last entry goes.
    Added,
    /// The object of the entry at this place is there again.
    Dropped(usize),
    /// The entry at this place has this object again.
    Replaced { at: usize, old: Object },
}

/// The place of the object that is found by this. None where there is none.
pub(crate) fn place_of(entries: &[Entry], which: &Which) -> Option<usize>
    ensures { result ≡ position (is_at which.now) entries.now }
{
    entries
        .iter()
        .position(|entry| entry.is_there && entry.object.is_called(which))
}

/// The table of this name. None where there is none.
pub(crate) fn table_among(mut entries: &[Entry], name: Name) -> Option<&TableDef>
    ensures { option_copied result ≡ table_named name (tables_in (there entries.entry.now)) }
{
    while let [entry, rest @ ..] = entries {
        if entry.is_there {
            if let Object::Table(table) = &entry.object {
                if table.name == name {
                    return Some(table);
                }
            }
        }
        entries = rest;
    }
    None
}

/// The routine of this name. None where there is none.
pub(crate) fn routine_among(mut entries: &[Entry], name: Name) -> Option<&Routine>
    ensures { option_copied result
        ≡ routine_named name (routines_in (there entries.entry.now)) }
{
    while let [entry, rest @ ..] = entries {
        if entry.is_there {
            if let Object::Routine(routine) = &entry.object {
                if routine.name == name {
                    return Some(routine);
                }
            }
        }
        entries = rest;
    }
    None
}

/// The first object that is there, and the entries behind it. None where no object is there.
pub(crate) fn first_there(mut entries: &[Entry]) -> Option<(&Object, &[Entry])>
    ensures found { IfSome result (λ found.
        there entries.entry.now ≡ found.0.now ∷ there found.1.now) }
    ensures none { IfNone result (there entries.entry.now ≡ []) }
{
    while let [entry, rest @ ..] = entries {
        if entry.is_there {
            return Some((&entry.object, rest));
        }
        entries = rest;
    }
    None
}

/// The object at this place is gone.
pub(crate) fn take_out(entries: &mut Vec<Entry>, at: usize)
    requires { at < length entries.old.items }
    ensures { entries.new.items ≡ with_entry entries.old.items at (gone false) }
{
    entries[at].is_there = false;
}

/// The object at this place, if there is one, is there again.
pub(crate) fn bring_back(entries: &mut Vec<Entry>, at: usize)
    ensures { entries.new.items ≡ with_entry entries.old.items at (gone true) }
{
    if at < entries.len() {
        entries[at].is_there = true;
    }
}

/// Gives the entry at this place another object, and answers the one that it had.
pub(crate) fn swap_object(entries: &mut Vec<Entry>, at: usize, object: Object) -> Object
    requires { at < length entries.old.items }
    ensures entries { entries.new.items ≡ with_entry entries.old.items at (holding object) }
    ensures back { with_entry entries.new.items at (holding result) ≡ entries.old.items }
{
    mem::replace(&mut entries[at].object, object)
}

/// Gives the entry at this place, if there is one, this object.
pub(crate) fn give_back(entries: &mut Vec<Entry>, at: usize, object: Object)
    ensures { entries.new.items ≡ with_entry entries.old.items at (holding object) }
{
    if at < entries.len() {
        entries[at].object = object;
    }
}

/// Takes the last entry away, if there is one.
pub(crate) fn pop_entry(entries: &mut Vec<Entry>)
    ensures { entries.new.items ≡ take (length entries.old.items - 1) entries.old.items }
{
    entries.pop();
}

/// Frees what was dropped.
pub(crate) fn purge(entries: &mut Vec<Entry>)
    ensures { there entries.new.items ≡ there entries.old.items }
{
    entries.retain(|entry| entry.is_there);
}
