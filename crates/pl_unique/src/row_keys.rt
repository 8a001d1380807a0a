//! The keys of a table, each of which changes as the rows do.

ghost use Rattle.std.specs.Prelude.{◌≡◌, ◌≤◌, ◌<◌, ◌≢◌, Some, None, Err, length, map};
ghost use Rattle.std.specs.Prelude.{slice_get, IfOk, IsSome, OnOk, OnErr};
ghost use Rattle.std.specs.List.{AllByRecursion};
ghost use Rattle.std.specs.Option.{ForSome, option_copied};
ghost use Rattle.pl_history.specs.History.{changed};
ghost use Rattle.pl_unique.specs.RowKeys.{changed_key, columns_of, key_given, partly, placed};
ghost use Rattle.pl_unique.specs.RowKeys.{settled_key, undone_key, with_key, HasPlace, IsFreeBut};
ghost use Rattle.pl_unique.specs.RowKeys.{IsNew, IsTaken, IsTakenIn, KeyIsFree};

use crate::key_parts::parts_of_row;
use crate::{KeyMap, KeyParts};
use pl_base::{List, Value};
use std::alloc::{AllocError, Global};

/// A key of a table.
#[derive(Drop)]
pub struct Key {
    /// The places of its columns in a row, from 0.
    pub columns: Vec<usize>,
    /// The keys of the rows at their places.
    pub at: KeyMap,
}

/// Why keys don't change.
#[derive(Clone, Copy)]
pub enum KeyFail {
    /// The row at this place has a key of the new one.
    Taken(usize),
    Memory,
}

impl From<AllocError> for KeyFail {
    fn from(_: AllocError) -> Self
        ensures { result ≡ KeyFail.Memory }
    {
        KeyFail::Memory
    }
}

/// Keys of these columns, without rows.
pub fn new_keys(alloc: Global, columns: &[List<usize>]) -> Result<Vec<Key>, AllocError>
    ensures columns { IfOk result (λ keys. columns_of keys.items ≡ columns.now) }
    ensures new { IfOk result (λ keys. AllByRecursion IsNew keys.items) }
{
    let mut keys = Vec::new(alloc);
    let mut number = 0;
    while number < columns.len() {
        let places = Vec::from_slice(alloc, columns[number].as_slice())?;
        keys.push(Key {
            columns: places,
            at: KeyMap::new(alloc),
        })?;
        number += 1;
    }
    Ok(keys)
}

/// The row stands at the place, or behind the others, in each key; in none where one refuses it.
/// Where no row is given, none stands there. Taken where another row has a key of this one.
pub fn change_keys(
    alloc: Global,
    keys: &mut Vec<Key>,
    place: Option<usize>,
    row: Option<&[Value]>,
) -> Result<(), KeyFail>
    requires there { AllByRecursion (HasPlace place) keys.old.items }
    ensures ok { OnOk result (keys.new.items
        ≡ map (changed_key place (option_copied row.entry)) keys.old.items) }
    ensures free { OnOk result
        (AllByRecursion (KeyIsFree place (option_copied row.entry)) keys.old.items) }
    ensures taken { (at : _) → result ≡ Err (KeyFail.Taken at)
        → IsTaken place (option_copied row.entry) keys.old.items at }
    ensures err { OnErr result (keys.new.items ≡ keys.old.items) }
{
    let mut done = 0;
    while done < keys.len() {
        match change_at(alloc, keys, done, place, row) {
            Ok(()) => done += 1,
            Err(fail) => {
                undo_first(keys, done);
                return Err(fail);
            }
        }
    }
    Ok(())
}

fn change_at(
    alloc: Global,
    keys: &mut Vec<Key>,
    number: usize,
    place: Option<usize>,
    row: Option<&[Value]>,
) -> Result<(), KeyFail>
    requires within { number < length keys.old.items }
    requires there { ForSome (slice_get keys.old.items number) (HasPlace place) }
    ensures ok { OnOk result (keys.new.items
        ≡ with_key keys.old.items number (changed_key place (option_copied row.entry))) }
    ensures free { OnOk result
        (ForSome (slice_get keys.old.items number) (KeyIsFree place (option_copied row.entry))) }
    ensures taken { (at : _) → result ≡ Err (KeyFail.Taken at)
        → ForSome (slice_get keys.old.items number)
        (λ k. IsTakenIn place (option_copied row.entry) k at) }
    ensures err { OnErr result (keys.new.items ≡ keys.old.items) }
{
    match change_key(alloc, &mut keys[number], place, row) {
        Ok(()) => Ok(()),
        Err(fail) => Err(fail),
    }
}

fn change_key(
    alloc: Global,
    key: &mut Key,
    place: Option<usize>,
    row: Option<&[Value]>,
) -> Result<(), KeyFail>
    requires there { HasPlace place key.old }
    ensures ok { OnOk result (key.new ≡ changed_key place (option_copied row.entry) key.old) }
    ensures free { OnOk result (KeyIsFree place (option_copied row.entry) key.old) }
    ensures taken { (at : _) → result ≡ Err (KeyFail.Taken at)
        → IsTakenIn place (option_copied row.entry) key.old at }
    ensures err { OnErr result (key.new ≡ key.old) }
{
    let Ok(parts) = parts_given(alloc, key.columns.as_slice(), row) else {
        return Err(KeyFail::Memory);
    };
    match holder(&key.at, &parts, place) {
        Some(at) => Err(KeyFail::Taken(at)),
        None => match put(&mut key.at, place, parts) {
            Ok(()) => Ok(()),
            Err(fail) => Err(KeyFail::from(fail)),
        },
    }
}

// The key of the row, where there is a row.
fn parts_given(
    alloc: Global,
    columns: &[usize],
    row: Option<&[Value]>,
) -> Result<Option<KeyParts>, AllocError>
    ensures { IfOk result (λ parts. parts ≡ key_given columns.now (option_copied row.entry)) }
{
    match row {
        None => Ok(None),
        Some(row) => parts_of_row(alloc, columns, row),
    }
}

// The place that has the key, where it isn't this one.
fn holder(keys: &KeyMap, parts: &Option<KeyParts>, place: Option<usize>) -> Option<usize>
    ensures none { result ≡ None
        → ForSome parts.now (λ p. IsFreeBut place p keys.now.current) }
    ensures some { (at : _) → result ≡ Some at → place ≢ Some at }
    ensures has { (at : _) → result ≡ Some at
        → slice_get keys.now.current at ≡ Some parts.now }
    ensures given { (at : _) → result ≡ Some at → IsSome parts.now }
{
    let Some(parts) = parts else {
        return None;
    };
    match keys.place_of(parts.as_slice()) {
        Some(at) if place != Some(at) => Some(at),
        _ => None,
    }
}

// Puts the key at the place, or behind the others.
fn put(keys: &mut KeyMap, place: Option<usize>, parts: Option<KeyParts>) -> Result<(), AllocError>
    requires there { ForSome place (λ at. at < length keys.old.current) }
    requires free { ForSome parts (λ p. IsFreeBut place p keys.old.current) }
    ensures ok { OnOk result (keys.new
        ≡ changed (placed place parts keys.old.current) keys.old) }
    ensures err { OnErr result (keys.new ≡ keys.old) }
{
    match place {
        None => keys.push(parts),
        Some(at) => keys.set(at, parts),
    }
}

// Undoes the newest change of the first keys.
fn undo_first(keys: &mut Vec<Key>, count: usize)
    requires { count ≤ length keys.old.items }
    ensures { keys.new.items ≡ partly undone_key count keys.old.items }
{
    let mut at = 0;
    while at < count {
        undo_key(keys, at);
        at += 1;
    }
}

fn undo_key(keys: &mut Vec<Key>, number: usize)
    requires { number < length keys.old.items }
    ensures { keys.new.items ≡ with_key keys.old.items number undone_key }
{
    keys[number].at.undo();
}

/// Undoes the newest change of each key.
pub fn undo_keys(keys: &mut Vec<Key>)
    ensures { keys.new.items ≡ map undone_key keys.old.items }
{
    let count = keys.len();
    undo_first(keys, count);
}

/// No change can be undone from now on.
pub fn forget_keys(keys: &mut Vec<Key>)
    ensures { keys.new.items ≡ map settled_key keys.old.items }
{
    let mut at = 0;
    while at < keys.len() {
        forget_key(keys, at);
        at += 1;
    }
}

fn forget_key(keys: &mut Vec<Key>, number: usize)
    requires { number < length keys.old.items }
    ensures { keys.new.items ≡ with_key keys.old.items number settled_key }
{
    keys[number].at.forget();
}
