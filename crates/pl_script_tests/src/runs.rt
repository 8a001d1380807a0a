//! Runs of whole scripts over hosts in memory, and the store that the tests begin with.

use crate::report::Report;
use pl_base::Memory;
use pl_cli::run;
use pl_disk::{Area, Host, MemoryHost, MemorySource};
use std::alloc::Global;

/// The words of a run.
pub const PLAIN: [&str; 3] = ["plpg", "shop.store", "first.sql"];

pub const SCRIPT: &[u8] = b"CREATE TABLE n (c integer);\nINSERT INTO n VALUES (1);\n";

/// What it prints.
pub const TEXT: &str = "CREATE TABLE\nINSERT 0 1\n";

/// What it prints when it is run again.
pub const AGAIN: &str = "ERROR:  42P07: duplicate_table\nINSERT 0 1\n";

/// What an INSERT of one row prints.
pub const INSERTED: &str = "INSERT 0 1\n";

/// The store that the script leaves of an empty one, as the format has it.
pub const STORE: &[u8] = b"\x01PLPGST01\0\0\0\0\0\0\0\0\
\x01\0\0\0\0\0\0\0\x1f\x01\0\0\0\x1aCREATE TABLE n (c integer)\
\x01\0\0\0\0\0\0\0\x11\x02\x01n\0\0\0\0\0\0\0\x01\x01\x01\0\0\0\x01\0";

/// How long the store is with its table and one row, and how much longer with each row more.
pub const ONE_ROW: usize = 84;

pub const ROW: usize = 26;

fn line_of(alloc: Global, words: &[&str]) -> Result<Vec<String>, Memory> {
    let mut line = Vec::new(alloc);
    for word in words {
        line.push(String::from_str(alloc, word)?)?;
    }
    Ok(line)
}

/// Runs the script over the host, and gives the status. Calls of the script that are listed fail.
pub fn run_over<H: Host>(
    alloc: Global,
    host: &mut H,
    words: &[&str],
    script: &[u8],
    fail: &[u64],
) -> Result<u8, Memory> {
    let line = line_of(alloc, words)?;
    let mut source = MemorySource::new(script.to_vec(alloc)?, fail.to_vec(alloc)?);
    Ok(run(alloc, &line, host, &mut source).status)
}

/// A run that ended.
#[derive(Drop)]
pub struct Ran {
    pub status: u8,
    pub host: MemoryHost,
}

/// A run over these files. Calls of the host that are listed fail.
pub fn run_on(
    alloc: Global,
    a: &[u8],
    b: &[u8],
    words: &[&str],
    script: &[u8],
    fail: &[u64],
) -> Result<Ran, Memory> {
    let a = a.to_vec(alloc)?;
    let b = b.to_vec(alloc)?;
    let mut host = MemoryHost::new(alloc, a, b, fail.to_vec(alloc)?)?;
    let status = run_over(alloc, &mut host, words, script, &[])?;
    Ok(Ran { status, host })
}

/// A run over a new store, of which no call fails.
pub fn run_fresh(alloc: Global, words: &[&str], script: &[u8]) -> Result<Ran, Memory> {
    run_on(alloc, b"", b"", words, script, &[])
}

/// What is printed. Where the run ended with another status than this, that stands in front.
pub fn printed(alloc: Global, ran: Result<Ran, Memory>, status: u8) -> Report {
    let mut out = Report::new(alloc);
    match ran {
        Ok(ran) => {
            if ran.status != status {
                out.number(u64::from(ran.status));
            }
            out.push(ran.host.printed());
        }
        Err(_) => out.spoil(),
    }
    out
}

/// The status of a run over these files, how long both are then, and what is printed.
pub fn outcome(alloc: Global, a: &[u8], b: &[u8], script: &[u8]) -> Report {
    let mut out = Report::new(alloc);
    match run_on(alloc, a, b, &PLAIN, script, &[]) {
        Ok(ran) => {
            out.number(u64::from(ran.status));
            out.number(ran.host.area(Area::A).len() as u64);
            out.number(ran.host.area(Area::B).len() as u64);
            out.push(ran.host.printed());
        }
        Err(_) => out.spoil(),
    }
    out
}

/// What a run over a new store prints, that ends with this status.
pub fn answer(alloc: Global, words: &[&str], script: &[u8], status: u8) -> Report {
    printed(alloc, run_fresh(alloc, words, script), status)
}
