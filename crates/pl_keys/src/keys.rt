//! Rows of which each is found by its values.

ghost use Rattle.std.specs.Prelude.{◌≡◌, ◌==◌, ◌↔◌, ℕ, [], ◌∷◌, ◌++◌, length, map, nat_eq, IsTrue};
ghost use Rattle.std.specs.Prelude.{IfOk, None, OnOk, OnErr, Some};
ghost use Rattle.std.specs.HashMap.{get};
ghost use Rattle.pl_keys.specs.Marks.{mark_of, noted};
ghost use Rattle.pl_keys.specs.Same.{place_of, plain, same, with_row};

use crate::marks::mark_of;
use crate::order::value_order;
use pl_base::{Cells, Value};
use std::alloc::{AllocError, Global};
use std::cmp::Ordering;
use std::collections::HashMap;
use std::marker::Model;

/// Rows in the order in which they came. A row is found at the cost of its own length, while the
/// rows of one mark are the same.
#[derive(Drop)]
pub struct Keys {
    rows: Vec<Cells>,
    /// The first row of each mark.
    places: HashMap<u64, usize>,
}

impl Model for Keys {
    ghost use Rattle.std.specs.Prelude.{◌≡◌, ◌==◌, ℕ, List, nat_eq};
    ghost use Rattle.std.specs.HashMap.{get};
    ghost use Rattle.pl_base.specs.declared.value.Value as base;
    ghost use Rattle.pl_base.specs.contracts.value.Value as row;
    ghost use Rattle.std.specs.Coded.{codes};
    ghost use Rattle.pl_keys.specs.Marks.{mark_of};
    ghost use Rattle.pl_keys.specs.Same.{place_of};

    ghost Value = { List (List base.Value) };

    ghost coded = { Prim.hlevel (codes, row.the_row.coded) };

    ghost view = { λ k. k.rows.items };

    ghost invariant = { λ k. (q : ℕ)
        → get nat_eq k.places q ≡ place_of (λ row. mark_of row == q) k.rows.items };
}

impl Keys {
    pub fn new(alloc: Global) -> Keys
        ensures { result ≡ [] }
    {
        Keys {
            rows: Vec::new(alloc),
            places: HashMap::new(alloc),
        }
    }

    /// No rows, with room for so many.
    pub fn with_room(alloc: Global, count: usize) -> Result<Keys, AllocError>
        ensures { IfOk result (λ keys. keys ≡ []) }
    {
        Ok(Keys {
            rows: Vec::with_capacity(alloc, count)?,
            places: HashMap::with_capacity(alloc, count)?,
        })
    }

    pub fn len(&self) -> usize
        ensures { result ≡ length self.now }
    {
        self.rows.len()
    }

    /// The place of the first row that is the same.
    pub fn find(&self, row: &[Value]) -> Option<usize>
        ensures { result ≡ place_of (same row.now) self.now }
    {
        let mark = mark_of(row);
        match known(&self.places, mark) {
            None => None,
            Some(place) => place_near(self.rows.as_slice(), row, mark, place),
        }
    }

    /// Puts the row behind the others.
    pub fn add(&mut self, row: Cells) -> Result<(), AllocError>
        ensures ok { OnOk result (self.new ≡ self.old ++ row ∷ []) }
        ensures err { OnErr result (self.new ≡ self.old) }
    {
        self.rows.reserve(1)?;
        note(&mut self.places, mark_of(row.as_slice()), self.rows.len())?;
        self.rows.push(row).unwrap();
        Ok(())
    }

    /// The place of the first row that is the same. Where there is none, the row is put behind the
    /// others.
    pub fn find_or_add(&mut self, row: Cells) -> Result<Option<usize>, AllocError>
        ensures place { IfOk result (λ place. place ≡ place_of (same row) self.old) }
        ensures ok { OnOk result (self.new ≡ with_row (place_of (same row) self.old) self.old row) }
        ensures err { OnErr result (self.new ≡ self.old) }
    {
        let mark = mark_of(row.as_slice());
        match known(&self.places, mark) {
            None => {
                self.add_marked(row, mark)?;
                Ok(None)
            }
            Some(place) => self.find_or_add_near(row, mark, place),
        }
    }

    // Puts the row behind the others, of which none has its mark.
    fn add_marked(&mut self, row: Cells, mark: u64) -> Result<(), AllocError>
        requires marked { mark ≡ mark_of row }
        requires first { place_of (λ other. mark_of other == mark) self.old ≡ None }
        ensures ok { OnOk result (self.new ≡ self.old ++ row ∷ []) }
        ensures err { OnErr result (self.new ≡ self.old) }
    {
        self.rows.reserve(1)?;
        note_first(&mut self.places, mark, self.rows.len())?;
        self.rows.push(row).unwrap();
        Ok(())
    }

    // The same as `find_or_add`, where the first row of the mark is known.
    fn find_or_add_near(
        &mut self,
        row: Cells,
        mark: u64,
        place: usize,
    ) -> Result<Option<usize>, AllocError>
        requires marked { mark ≡ mark_of row }
        requires first { place_of (λ other. mark_of other == mark) self.old ≡ Some place }
        ensures place { IfOk result (λ place. place ≡ place_of (same row) self.old) }
        ensures ok { OnOk result (self.new ≡ with_row (place_of (same row) self.old) self.old row) }
        ensures err { OnErr result (self.new ≡ self.old) }
    {
        match place_near(self.rows.as_slice(), row.as_slice(), mark, place) {
            Some(place) => Ok(Some(place)),
            None => {
                self.add(row)?;
                Ok(None)
            }
        }
    }

    /// The rows themselves.
    pub fn into_rows(self) -> Vec<Cells>
        ensures { result.items ≡ self }
    {
        let Keys {
            rows,
            places: _places,
        } = self;
        rows
    }
}

// Keeps the place of a mark that has none.
fn note_first(places: &mut HashMap<u64, usize>, mark: u64, place: usize) -> Result<(), AllocError>
    requires { get nat_eq places.old mark ≡ None }
    ensures ok { OnOk result ((q : ℕ)
        → get nat_eq places.new q ≡ noted mark place q (get nat_eq places.old q)) }
    ensures err { OnErr result ((q : ℕ) → get nat_eq places.new q ≡ get nat_eq places.old q) }
{
    places.insert(mark, place)?;
    Ok(())
}

// Keeps the first place of a mark.
fn note(places: &mut HashMap<u64, usize>, mark: u64, place: usize) -> Result<(), AllocError>
    ensures ok { OnOk result ((q : ℕ)
        → get nat_eq places.new q ≡ noted mark place q (get nat_eq places.old q)) }
    ensures err { OnErr result ((q : ℕ) → get nat_eq places.new q ≡ get nat_eq places.old q) }
{
    if places.get(&mark).is_none() {
        note_first(places, mark, place)?;
    }
    Ok(())
}

fn known(places: &HashMap<u64, usize>, mark: u64) -> Option<usize>
    ensures { result ≡ get nat_eq places.now mark }
{
    places.get(&mark).copied()
}

// The place of the first row that is the same, where the first row of its mark is known.
fn place_near(rows: &[Cells], row: &[Value], mark: u64, place: usize) -> Option<usize>
    requires marked { mark ≡ mark_of row.now }
    requires first { place_of (λ other. mark_of other == mark) rows.now ≡ Some place }
    ensures { result ≡ place_of (same row.now) rows.now }
{
    if place >= rows.len() {
        return place_in(rows, row);
    }
    if is_same(row, rows[place].as_slice()) {
        Some(place)
    } else {
        place_in(rows, row)
    }
}

// The place of the first row that is the same, by trying each.
fn place_in(rows: &[Cells], row: &[Value]) -> Option<usize>
    ensures { result ≡ place_of (same row.now) rows.now }
{
    for (at, other) in rows.iter().enumerate() {
        if is_same(row, other.as_slice()) {
            return Some(at);
        }
    }
    None
}

/// The rows have equally many values, and these are the same one by one.
pub fn is_same(row: &[Value], other: &[Value]) -> bool
    ensures same { result ≡ same row.now other.now }
    ensures equal { IsTrue result ↔ (map plain row.now ≡ map plain other.now) }
{
    have_same_values(row, other)
}

fn have_same_values(row: &[Value], other: &[Value]) -> bool
    ensures { result ≡ same row.now other.now }
{
    let mut row = row;
    let mut other = other;
    loop {
        let Some((a, more)) = row.split_first() else {
            return other.is_empty();
        };
        let Some((b, others)) = other.split_first() else {
            return false;
        };
        if value_order(a, b) != Ordering::Equal {
            return false;
        }
        row = more;
        other = others;
    }
}
