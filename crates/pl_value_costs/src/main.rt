//! `pl_value_costs TURNS` reads the values of `(s * 31 + i) % 1000003`, which s becomes, and of
//! `s % 2 = 0` so many times, as a loop in a body has them read, and prints how often s was even.
//! Without a word it makes 100 turns.
#![tactic(auto)]

mod trees;
mod turns;

use crate::turns::count_evens;
use std::{env, io};

const FEW_TURNS: i32 = 100;

fn turns_in(words: &[String]) -> i32 {
    match words {
        [_, turns] => turns.as_str().parse::<i32>().unwrap_or(FEW_TURNS),
        _ => FEW_TURNS,
    }
}

fn all_words(rt: &HostRuntime) -> io::Result<Vec<String>> {
    Ok(env::args(rt)?.collect(rt.alloc())?)
}

fn main(rt: HostRuntime) -> io::Result<()> {
    let words = all_words(&rt)?;
    let turns = turns_in(words.as_slice());
    let evens = count_evens(rt.alloc(), turns)?;
    println!(rt; "{turns}: {evens}")
}
