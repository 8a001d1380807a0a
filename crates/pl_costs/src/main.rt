//! `pl_costs MEASURE ROWS` makes one measure of a store in memory, and prints what it counted and
//! how long it took. Without these words it makes each measure of a few rows, and prints no times.
#![tactic(auto)]

mod maps;
mod measures;
mod rows;

use crate::measures::{Cost, MEASURES, Measure, run};
use std::{env, io};

const FEW_ROWS: i32 = 100;

fn show(rt: HostRuntime, measure: Measure, rows: i32, cost: Cost) -> io::Result<()> {
    let spent = cost.time.as_micros();
    println!(rt; "{} {rows}: {}, {spent} us", measure.word(), cost.count)
}

fn try_out(rt: HostRuntime) -> io::Result<()> {
    for measure in MEASURES {
        let cost = run(rt, measure, FEW_ROWS)?;
        println!(rt; "{} {FEW_ROWS}: {}", measure.word(), cost.count)?;
    }
    Ok(())
}

// What the two words ask for. None where they ask for nothing.
fn asked(words: &[String]) -> Option<(Measure, i32)> {
    match words {
        [_, word, rows] => {
            let measure = Measure::of(word.as_str())?;
            let rows = rows.as_str().parse::<i32>().ok()?;
            Some((measure, rows))
        }
        _ => None,
    }
}

fn all_words(rt: &HostRuntime) -> io::Result<Vec<String>> {
    Ok(env::args(rt)?.collect(rt.alloc())?)
}

fn main(rt: HostRuntime) -> io::Result<()> {
    let words = all_words(&rt)?;
    match asked(words.as_slice()) {
        Some((measure, rows)) => show(rt, measure, rows, run(rt, measure, rows)?),
        None => try_out(rt),
    }
}
