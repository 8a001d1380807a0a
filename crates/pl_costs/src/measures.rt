//! The measures.

use crate::maps::{Maps, add_and_take, fill_maps, look_in_maps, scan_maps};
use crate::rows::{fill, fill_in_commits, look, look_by_name, mark_often, new_store, scan};
use pl_base::Name;
use std::io;
use std::time::{Duration, Instant};

/// What is measured. Each row has a number of its own in each column.
#[derive(Clone, Copy)]
pub enum Measure {
    /// Inserts of two columns into a table with a key.
    Inserts,
    /// The same, with a commit behind every 1,000.
    Commits,
    /// Looking up each key.
    Finds,
    /// The same, with the table looked up by its name for each key.
    NamedFinds,
    /// As many times a mark, an insert and going back to the mark.
    Marks,
    /// A scan of three columns.
    Scan,
    /// Inserts of such rows into a BTreeMap, and of their keys into a HashMap.
    MapInserts,
    /// Looking up each key in the HashMap.
    MapFinds,
    /// As many times an insert into both maps and a removal from them.
    MapMarks,
    /// A scan of three columns of the BTreeMap's rows.
    MapScan,
}

pub const MEASURES: [Measure; 10] = [
    Measure::Inserts,
    Measure::Commits,
    Measure::Finds,
    Measure::NamedFinds,
    Measure::Marks,
    Measure::Scan,
    Measure::MapInserts,
    Measure::MapFinds,
    Measure::MapMarks,
    Measure::MapScan,
];

impl Measure {
    pub fn word(self) -> &'static str {
        match self {
            Measure::Inserts => "inserts",
            Measure::Commits => "commits",
            Measure::Finds => "finds",
            Measure::NamedFinds => "named-finds",
            Measure::Marks => "marks",
            Measure::Scan => "scan",
            Measure::MapInserts => "map-inserts",
            Measure::MapFinds => "map-finds",
            Measure::MapMarks => "map-marks",
            Measure::MapScan => "map-scan",
        }
    }

    pub fn of(word: &str) -> Option<Measure> {
        for measure in MEASURES {
            if measure.word() == word {
                return Some(measure);
            }
        }
        None
    }
}

/// What a measure counted, rows or a sum, and how long it took.
#[derive(Clone, Copy)]
pub struct Cost {
    pub count: i64,
    pub time: Duration,
}

fn since(rt: HostRuntime, start: Instant, count: i64) -> io::Result<Cost> {
    let time = start.elapsed(&rt)?;
    Ok(Cost { count, time })
}

/// Makes the measure over so many rows.
pub fn run(rt: HostRuntime, measure: Measure, rows: i32) -> io::Result<Cost> {
    match Name::of("t") {
        Some(name) => run_on(rt, measure, name, rows),
        None => since(rt, Instant::now(&rt)?, 0),
    }
}

fn run_on(rt: HostRuntime, measure: Measure, name: Name, rows: i32) -> io::Result<Cost> {
    match measure {
        Measure::Inserts => inserts(rt, name, rows),
        Measure::Commits => commits(rt, name, rows),
        Measure::Finds => finds(rt, name, rows),
        Measure::NamedFinds => named_finds(rt, name, rows),
        Measure::Marks => marks(rt, name, rows),
        Measure::Scan => scanned(rt, name, rows),
        Measure::MapInserts => map_inserts(rt, rows),
        Measure::MapFinds => map_finds(rt, rows),
        Measure::MapMarks => map_marks(rt, rows),
        Measure::MapScan => map_scan(rt, rows),
    }
}

fn inserts(rt: HostRuntime, name: Name, rows: i32) -> io::Result<Cost> {
    let alloc = rt.alloc();
    let mut store = new_store(alloc, name)?;
    let start = Instant::now(&rt)?;
    let count = fill(alloc, &mut store, name, rows, 2)?;
    since(rt, start, count)
}

fn commits(rt: HostRuntime, name: Name, rows: i32) -> io::Result<Cost> {
    let alloc = rt.alloc();
    let mut store = new_store(alloc, name)?;
    let start = Instant::now(&rt)?;
    let count = fill_in_commits(alloc, &mut store, name, rows)?;
    since(rt, start, count)
}

fn finds(rt: HostRuntime, name: Name, rows: i32) -> io::Result<Cost> {
    let alloc = rt.alloc();
    let mut store = new_store(alloc, name)?;
    let _rows = fill(alloc, &mut store, name, rows, 2)?;
    let start = Instant::now(&rt)?;
    let count = look(&store, name, rows);
    since(rt, start, count)
}

fn named_finds(rt: HostRuntime, name: Name, rows: i32) -> io::Result<Cost> {
    let alloc = rt.alloc();
    let mut store = new_store(alloc, name)?;
    let _rows = fill(alloc, &mut store, name, rows, 2)?;
    let start = Instant::now(&rt)?;
    let count = look_by_name(&store, name, rows);
    since(rt, start, count)
}

fn marks(rt: HostRuntime, name: Name, rows: i32) -> io::Result<Cost> {
    let alloc = rt.alloc();
    let mut store = new_store(alloc, name)?;
    let _rows = fill(alloc, &mut store, name, rows, 2)?;
    store.seal();
    let start = Instant::now(&rt)?;
    let count = mark_often(alloc, &mut store, name, rows)?;
    since(rt, start, count)
}

fn scanned(rt: HostRuntime, name: Name, rows: i32) -> io::Result<Cost> {
    let alloc = rt.alloc();
    let mut store = new_store(alloc, name)?;
    let _rows = fill(alloc, &mut store, name, rows, 3)?;
    let start = Instant::now(&rt)?;
    let sum = scan(&store, name);
    since(rt, start, sum)
}

fn map_inserts(rt: HostRuntime, rows: i32) -> io::Result<Cost> {
    let alloc = rt.alloc();
    let mut maps = Maps::new(alloc);
    let start = Instant::now(&rt)?;
    let count = fill_maps(alloc, &mut maps, rows, 2)?;
    since(rt, start, count)
}

fn map_finds(rt: HostRuntime, rows: i32) -> io::Result<Cost> {
    let alloc = rt.alloc();
    let mut maps = Maps::new(alloc);
    let _rows = fill_maps(alloc, &mut maps, rows, 2)?;
    let start = Instant::now(&rt)?;
    let count = look_in_maps(&maps, rows);
    since(rt, start, count)
}

fn map_marks(rt: HostRuntime, rows: i32) -> io::Result<Cost> {
    let alloc = rt.alloc();
    let mut maps = Maps::new(alloc);
    let _rows = fill_maps(alloc, &mut maps, rows, 2)?;
    let start = Instant::now(&rt)?;
    let count = add_and_take(alloc, &mut maps, rows)?;
    since(rt, start, count)
}

fn map_scan(rt: HostRuntime, rows: i32) -> io::Result<Cost> {
    let alloc = rt.alloc();
    let mut maps = Maps::new(alloc);
    let _rows = fill_maps(alloc, &mut maps, rows, 3)?;
    let start = Instant::now(&rt)?;
    let sum = scan_maps(&maps);
    since(rt, start, sum)
}
