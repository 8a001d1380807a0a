//! The bare work of each measure, over maps of the standard library.

use crate::rows::{FIRST_ADDED, row, row_sum};
use pl_base::Cells;
use std::alloc::{AllocError, Global};
use std::collections::{BTreeMap, HashMap};

/// Rows by their ids, and the ids by their keys.
#[derive(Drop)]
pub struct Maps {
    rows: BTreeMap<u64, Cells>,
    ids: HashMap<i64, u64>,
}

impl Maps {
    pub fn new(alloc: Global) -> Maps {
        Maps {
            rows: BTreeMap::new(alloc),
            ids: HashMap::new(alloc),
        }
    }
}

fn insert(maps: &mut Maps, id: u64, number: i32, row: Cells) -> Result<(), AllocError> {
    let _old = maps.rows.insert(id, row)?;
    let _id = maps.ids.insert(i64::from(number), id)?;
    Ok(())
}

/// Adds so many rows, and counts them.
pub fn fill_maps(
    alloc: Global,
    maps: &mut Maps,
    rows: i32,
    width: usize,
) -> Result<i64, AllocError> {
    let mut count: i64 = 0;
    let mut id: u64 = 1;
    for number in 0..rows {
        let row = row(alloc, number, width)?;
        insert(maps, id, number, row)?;
        id = id.wrapping_add(1);
        count = count.saturating_add(1);
    }
    Ok(count)
}

/// Looks up each key, and counts those that are found.
pub fn look_in_maps(maps: &Maps, rows: i32) -> i64 {
    let mut count: i64 = 0;
    for number in 0..rows {
        if maps.ids.get(&i64::from(number)).is_some() {
            count = count.saturating_add(1);
        }
    }
    count
}

/// So many times adds a row and takes it out. Counts those that were there.
pub fn add_and_take(alloc: Global, maps: &mut Maps, rows: i32) -> Result<i64, AllocError> {
    let mut count: i64 = 0;
    let id = u64::MAX;
    for number in 0..rows {
        let key = number.saturating_add(FIRST_ADDED);
        let row = row(alloc, key, 2)?;
        insert(maps, id, key, row)?;
        let _id = maps.ids.remove(&i64::from(key));
        if maps.rows.remove(&id).is_some() {
            count = count.saturating_add(1);
        }
    }
    Ok(count)
}

/// The sum of all numbers.
pub fn scan_maps(maps: &Maps) -> i64 {
    let mut sum: i64 = 0;
    for row in maps.rows.values() {
        sum = sum.wrapping_add(row_sum(row));
    }
    sum
}
