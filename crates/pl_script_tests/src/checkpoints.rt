//! Runs that write the whole database anew into the other area, and what is left where they stop.

use crate::report::Report;
use crate::runs::{PLAIN, Ran, run_on, run_over};
use crate::stops::PICKS;
use pl_base::Memory;
use pl_disk::{Area, MemoryHost, Pick};
use std::alloc::Global;

// ---- a store whose log is nearly too long

/// An area of generation 0 up to the length of its first frame.
const HEAD: &[u8] = b"\x01PLPGST01\0\0\0\0\0\0\0\0\x01";

/// CREATE TABLE n (c text)
const DEFINE: &[u8] = b"\x01\0\0\0\x17CREATE TABLE n (c text)";

/// Its row of id 1 is put, up to the length of its text.
const PUT: &[u8] = b"\x02\x01n\0\0\0\0\0\0\0\x01\x01\x03";

/// How long its text is the first times.
const LONG: usize = 1_048_548;

/// How often it is put so: with one row more the frames are past 2 * 18 + 4,194,304 bytes, and
/// without it they are not.
const TIMES: usize = 4;

/// The length of its text and its text the last time.
const LAST: &[u8] = b"\0\0\0\x01y";

/// How many bytes these operations have: 28 of the table, 17 and the text each time, and 18.
const PAYLOAD: u64 = 4_194_306;

// Area A with one frame: the table and its one row, which is put again and again.
fn long_log(alloc: Global) -> Result<Vec<u8>, Memory> {
    let text = vec![in alloc; b'z'; LONG]?;
    let mut file = HEAD.to_vec(alloc)?;
    file.extend_from_slice(&PAYLOAD.to_be_bytes())?;
    file.extend_from_slice(DEFINE)?;
    for _ in 0..TIMES {
        file.extend_from_slice(PUT)?;
        file.extend_from_slice(&(LONG as u32).to_be_bytes())?;
        file.extend_from_slice(&text)?;
    }
    file.extend_from_slice(PUT)?;
    file.extend_from_slice(LAST)?;
    file.push(0)?;
    Ok(file)
}

// ---- a script that makes two checkpoints

const INSERT: &[u8] = b"INSERT INTO n VALUES ('x');\n";

/// A CREATE TABLE with a long comment: the bytes before it and behind it, 31 of them its own.
const CREATE: &[u8] = b"CREATE TABLE t (c /*";

const INTEGER: &[u8] = b"*/ integer);\n";

/// How long the comment is: so the CREATE TABLE has 4,200,000 bytes, once more above 4 MiB.
const COMMENT: usize = 4_199_969;

/// What the script prints.
const TEXT: &[u8] = b"INSERT 0 1\nCREATE TABLE\n";

// The first command makes a checkpoint due by its frame, and so does the second one: its frame is
// past twice the short one that the first checkpoint left, and 4 MiB more.
fn script(alloc: Global) -> Result<Vec<u8>, Memory> {
    let mut script = INSERT.to_vec(alloc)?;
    script.extend_from_slice(CREATE)?;
    for _ in 0..COMMENT {
        script.push(b'x')?;
    }
    script.extend_from_slice(INTEGER)?;
    Ok(script)
}

/// Shows the database.
const SHOW: &[u8] = b"SELECT c FROM n; SELECT c FROM t;";

/// What it shows after none of the two commands.
const NONE: &[u8] = b"c\ny\n(1 row)\nERROR:  42P01: undefined_table\n";

/// After the first one.
const ONE: &[u8] = b"c\ny\nx\n(2 rows)\nERROR:  42P01: undefined_table\n";

/// After both.
const BOTH: &[u8] = b"c\ny\nx\n(2 rows)\nc\n(0 rows)\n";

// How many of the two commands are done where this is shown; 3 where it is something else.
fn done(shown: &[u8]) -> usize {
    if shown == NONE {
        0
    } else if shown == ONE {
        1
    } else if shown == BOTH {
        2
    } else {
        3
    }
}

// How many of them the files hold.
fn held(alloc: Global, a: &[u8], b: &[u8]) -> usize {
    match run_on(alloc, a, b, &PLAIN, SHOW, &[]) {
        Ok(ran) => {
            if ran.status == 0 {
                done(ran.host.printed())
            } else {
                3
            }
        }
        Err(_) => 3,
    }
}

// ---- a whole run

fn run_whole(alloc: Global) -> Result<Ran, Memory> {
    let log = long_log(alloc)?;
    let script = script(alloc)?;
    run_on(alloc, &log, b"", &PLAIN, &script, &[])
}

// The status, for each area its first 17 bytes' generation and its length, and what is printed.
fn outcome(alloc: Global) -> Report {
    let mut out = Report::new(alloc);
    let Ok(ran) = run_whole(alloc) else {
        return Report::lacking(alloc);
    };
    out.number(u64::from(ran.status));
    for area in [Area::A, Area::B] {
        let file = ran.host.area(area);
        out.number(u64::from(file.get(16).copied().unwrap_or(255)));
        out.number(file.len() as u64);
    }
    out.push(ran.host.printed());
    out
}

#[test]
fn a_run_writes_its_store_anew_twice(rt: HostRuntime) {
    // Area B has first one frame of 102 bytes: the table, two rows and the next id; and then the
    // CREATE TABLE behind it. Area A has all that in one frame, and the next id of the new table.
    assert_eq!(rt;
        outcome(rt.alloc()).text(),
        "0 2 4200118 1 4200116 INSERT 0 1\nCREATE TABLE\n"
    );
}

// ---- one call fails

/// More calls than a run makes.
const CALLS: u64 = 64;

/// How many bytes of its work a call does that fails.
const PARTS: [usize; 3] = [0, 5, 10_000_000];

// How many replies are printed, up to three.
fn replies(printed: &[u8]) -> usize {
    let mut count = 0;
    for byte in printed {
        if *byte == b'\n' && count < 3 {
            count += 1;
        }
    }
    count
}

// Whether as many of the commands are held as were told, or one more.
fn is_told(printed: &[u8], held: usize) -> bool {
    let told = replies(printed);
    TEXT.starts_with(printed) && held < 3 && (held == told || held == told.saturating_add(1))
}

// What came of a run of which one call failed.
fn is_right(status: u8, printed: &[u8], held: usize) -> bool {
    match status {
        0 => held == 2 && printed == TEXT,
        4 | 6 => is_told(printed, held),
        _ => false,
    }
}

// The status of a run whose call k fails, having done a part of it; none where it does harm.
fn judged(alloc: Global, log: &[u8], script: &[u8], k: u64, part: usize) -> Option<u8> {
    let Ok(mut host) = failing(alloc, log, k, part) else {
        return None;
    };
    let Ok(status) = run_over(alloc, &mut host, &PLAIN, script, &[]) else {
        return None;
    };
    let held = held(alloc, host.area(Area::A), host.area(Area::B));
    if is_right(status, host.printed(), held) {
        Some(status)
    } else {
        None
    }
}

// A host over the long log whose call k fails, having done a part of it.
fn failing(alloc: Global, log: &[u8], k: u64, part: usize) -> Result<MemoryHost, Memory> {
    let fail = vec![in alloc; k]?;
    MemoryHost::with_part(alloc, log.to_vec(alloc)?, Vec::new(alloc), fail, part)
}

// The first call whose failing does harm. The last one is none of the run's, so that it ends with 0.
fn first_harm(alloc: Global, part: usize) -> Option<u64> {
    let (Ok(log), Ok(script)) = (long_log(alloc), script(alloc)) else {
        return Some(0);
    };
    for k in 0..CALLS {
        let status = judged(alloc, &log, &script, k, part);
        if status.is_none() || (k == CALLS - 1 && status != Some(0)) {
            return Some(k);
        }
    }
    None
}

#[test]
fn one_fault_loses_nothing_of_a_store_that_is_written_anew(rt: HostRuntime) {
    for part in PARTS {
        assert_eq!(rt; first_harm(rt.alloc(), part), None, "{part} bytes are done");
    }
}

// ---- a crash comes

// How many commands the files hold that a crash just after the call leaves.
fn held_after(alloc: Global, host: &MemoryHost, call: u64, pick: Pick) -> usize {
    if call >= host.calls() {
        return 3;
    }
    match host.image_after(alloc, call, pick) {
        Ok((a, b)) => held(alloc, &a, &b),
        Err(_) => 3,
    }
}

// The first call after which a crash leaves another store, or fewer commands than before; the last
// one where it doesn't leave both.
fn first_other(alloc: Global, pick: Pick) -> Option<u64> {
    let Ok(ran) = run_whole(alloc) else {
        return Some(0);
    };
    let mut most = 0;
    for call in 0..ran.host.calls() {
        let held = held_after(alloc, &ran.host, call, pick);
        if held == 3 || held < most {
            return Some(call);
        }
        most = held;
    }
    if most == 2 {
        None
    } else {
        Some(ran.host.calls())
    }
}

#[test]
fn a_crash_leaves_one_of_the_stores(rt: HostRuntime) {
    for pick in PICKS {
        assert_eq!(rt; first_other(rt.alloc(), pick), None);
    }
}
