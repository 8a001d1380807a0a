//! What is left of a store where a call fails, or a crash comes after it.

use crate::fallen::FallenHost;
use crate::report::Report;
use crate::runs::{
    AGAIN, ONE_ROW, PLAIN, ROW, Ran, SCRIPT, STORE, TEXT, printed, run_fresh, run_on, run_over,
};
use pl_base::Memory;
use pl_disk::{Area, MemoryHost, Pick};
use std::alloc::Global;

// ---- one call fails

/// How the call fails that is to fail.
#[derive(Clone, Copy)]
enum Fault {
    /// It does so many bytes of its work before.
    Part(usize),
    /// A sync loses what it was to settle, which then reads as the pick says.
    Lost(Pick),
}

const FAULTS: [(&str, Fault); 9] = [
    ("nothing is done", Fault::Part(0)),
    ("a byte is done", Fault::Part(1)),
    ("five bytes are done", Fault::Part(5)),
    ("all is done", Fault::Part(1000)),
    ("a sync leaves the old bytes", Fault::Lost(Pick::Old)),
    ("a sync leaves the new bytes", Fault::Lost(Pick::New)),
    ("a sync leaves bytes 0", Fault::Lost(Pick::Fill(0))),
    ("a sync leaves bytes 1", Fault::Lost(Pick::Fill(1))),
    ("a sync leaves bytes 255", Fault::Lost(Pick::Fill(255))),
];

// What came of a run of which one call failed.
#[derive(Drop)]
struct Stopped {
    status: u8,
    printed: Vec<u8>,
    a: Vec<u8>,
    b: Vec<u8>,
    has_fallen: bool,
}

fn stopped_with(
    alloc: Global,
    status: u8,
    printed: &[u8],
    files: (&[u8], &[u8]),
    has_fallen: bool,
) -> Result<Stopped, Memory> {
    let (a, b) = files;
    Ok(Stopped {
        status,
        printed: printed.to_vec(alloc)?,
        a: a.to_vec(alloc)?,
        b: b.to_vec(alloc)?,
        has_fallen,
    })
}

// A run whose call k fails, having done a part of it.
fn run_done_in_part(alloc: Global, k: u64, part: usize) -> Result<Stopped, Memory> {
    let fail = vec![in alloc; k]?;
    let mut host = MemoryHost::with_part(alloc, Vec::new(alloc), Vec::new(alloc), fail, part)?;
    let status = run_over(alloc, &mut host, &PLAIN, SCRIPT, &[])?;
    let files = (host.area(Area::A), host.area(Area::B));
    stopped_with(alloc, status, host.printed(), files, false)
}

// A run whose call k fails, and falls back where it is a sync.
fn run_that_falls_back(alloc: Global, k: u64, pick: Pick) -> Result<Stopped, Memory> {
    let mut host = FallenHost::new(alloc, k, pick)?;
    let status = run_over(alloc, &mut host, &PLAIN, SCRIPT, &[])?;
    let files = (host.area(Area::A), host.area(Area::B));
    stopped_with(alloc, status, host.printed(), files, host.has_fallen())
}

fn run_with_fault(alloc: Global, k: u64, fault: Fault) -> Result<Stopped, Memory> {
    match fault {
        Fault::Part(part) => run_done_in_part(alloc, k, part),
        Fault::Lost(pick) => run_that_falls_back(alloc, k, pick),
    }
}

// What the script prints over files that its own run, stopped somewhere, left.
fn after_a_stop(alloc: Global, a: &[u8], b: &[u8]) -> Report {
    printed(alloc, run_on(alloc, a, b, &PLAIN, SCRIPT, &[]), 0)
}

// Whether what was told is stored, and nothing else was told.
fn is_harmless(alloc: Global, run: &Stopped) -> bool {
    let then = after_a_stop(alloc, &run.a, &run.b);
    if run.status == 0 {
        return run.printed.as_slice() == TEXT.as_bytes() && then.text() == AGAIN;
    }
    let is_made = run.printed.starts_with(b"CREATE TABLE\n");
    (run.status == 4 || run.status == 6)
        && TEXT.as_bytes().starts_with(&run.printed)
        && (then.text() == AGAIN || (!is_made && then.text() == TEXT))
}

/// More calls than a run makes.
const CALLS: u64 = 40;

// The status of a run whose call k fails, unless that does harm.
fn judged(alloc: Global, k: u64, fault: Fault) -> Option<u8> {
    let Ok(run) = run_with_fault(alloc, k, fault) else {
        return None;
    };
    if is_harmless(alloc, &run) {
        Some(run.status)
    } else {
        None
    }
}

// The number of the first call that a run doesn't make, so that none fails; or of the first one
// whose failing does harm.
fn first_whole(alloc: Global, fault: Fault) -> Result<u64, u64> {
    let mut first = CALLS;
    for k in 0..CALLS {
        match judged(alloc, k, fault) {
            Some(0) => first = first.min(k),
            Some(_) => {}
            None => return Err(k),
        }
    }
    Ok(first)
}

// Whether call k of a run is a sync, which loses something.
fn has_fallen(alloc: Global, k: u64) -> bool {
    match run_with_fault(alloc, k, Fault::Lost(Pick::Old)) {
        Ok(run) => run.has_fallen,
        Err(_) => false,
    }
}

// How many are.
fn falls(alloc: Global) -> u64 {
    let mut count = 0;
    for k in 0..CALLS {
        if has_fallen(alloc, k) && count < CALLS {
            count += 1;
        }
    }
    count
}

// What is printed where this call of the source fails.
fn answer_without_script(alloc: Global, k: u64) -> Report {
    let mut out = Report::new(alloc);
    let host = MemoryHost::new(alloc, Vec::new(alloc), Vec::new(alloc), Vec::new(alloc));
    let Ok(mut host) = host else {
        return Report::lacking(alloc);
    };
    match run_over(alloc, &mut host, &PLAIN, SCRIPT, &[k]) {
        Ok(status) => out.number(u64::from(status)),
        Err(_) => out.spoil(),
    }
    out.push(host.printed());
    out
}

#[test]
fn one_fault_loses_nothing(rt: HostRuntime) {
    let alloc = rt.alloc();
    for (how, fault) in FAULTS {
        // One call attaches, twelve make a store, and each command makes five.
        assert_eq!(rt; first_whole(alloc, fault), Ok(23), "{how}");
    }
    // One sync comes first, three make a store, and each command makes two.
    assert_eq!(rt; falls(alloc), 8);
    for k in [0, 1] {
        assert_eq!(rt;
            answer_without_script(alloc, k).text(),
            "5 ",
            "call {k} of the source"
        );
    }
}

// ---- a crash comes

/// What a crash may leave of bytes that weren't synced: the old ones, the new ones, or others.
pub(crate) const PICKS: [Pick; 5] = [
    Pick::Old,
    Pick::New,
    Pick::Fill(0),
    Pick::Fill(1),
    Pick::Fill(255),
];

/// The files that a crash just after the call leaves.
pub(crate) fn left(
    alloc: Global,
    host: &MemoryHost,
    call: u64,
    pick: Pick,
) -> Result<(Vec<u8>, Vec<u8>), Memory> {
    if call >= host.calls() {
        return Err(Memory);
    }
    host.image_after(alloc, call, pick)
}

// Whether the script does all that it does or what is left of it, after a crash in its own run.
fn is_opened_after(alloc: Global, host: &MemoryHost, call: u64, pick: Pick) -> bool {
    match left(alloc, host, call, pick) {
        Ok((a, b)) => {
            let then = after_a_stop(alloc, &a, &b);
            then.text() == TEXT || then.text() == AGAIN
        }
        Err(_) => false,
    }
}

// The first call of the run after which a crash leaves another store.
fn first_unopened(alloc: Global, host: &MemoryHost) -> Option<u64> {
    for call in 0..host.calls() {
        for pick in PICKS {
            if !is_opened_after(alloc, host, call, pick) {
                return Some(call);
            }
        }
    }
    None
}

// The same of a run over a new store, which makes at least one call.
fn first_unopened_of_new(alloc: Global) -> Option<u64> {
    let Ok(ran) = run_fresh(alloc, &PLAIN, SCRIPT) else {
        return Some(0);
    };
    if ran.status != 0 || ran.host.calls() == 0 {
        return Some(0);
    }
    first_unopened(alloc, &ran.host)
}

#[test]
fn a_stop_in_a_new_store(rt: HostRuntime) {
    assert_eq!(rt; first_unopened_of_new(rt.alloc()), None);
}

// How many rows a store has, told by what one row more makes of it.
fn rows_of(alloc: Global, a: &[u8], b: &[u8]) -> Option<usize> {
    let Ok(ran) = run_on(alloc, a, b, &PLAIN, b"INSERT INTO n VALUES (7);", &[]) else {
        return None;
    };
    let more = ran.host.area(Area::A).len().saturating_sub(ONE_ROW);
    if ran.status != 0 || more % ROW != 0 {
        return None;
    }
    Some(more / ROW)
}

fn rows_after(alloc: Global, host: &MemoryHost, call: u64, pick: Pick) -> Option<usize> {
    match left(alloc, host, call, pick) {
        Ok((a, b)) => rows_of(alloc, &a, &b),
        Err(_) => None,
    }
}

// How many rows there are after so many commits, and so many calls more. A commit writes its frame,
// syncs, opens the gate, syncs, and then its reply is said.
fn rows_due(commits: u8, call: u8, pick: Pick) -> usize {
    let is_gate_open = pick == Pick::New || pick == Pick::Fill(1);
    let is_one_more = call > 2 || (call == 2 && is_gate_open);
    1 + usize::from(commits) + usize::from(is_one_more)
}

const COMMITS: u8 = 12;

fn twelve_rows(alloc: Global) -> Report {
    let mut script = Report::new(alloc);
    for _ in 0..COMMITS {
        script.push(b"INSERT INTO n VALUES (2);\n");
    }
    script
}

// Whether each pick leaves the rows that are due after a call of a commit.
fn is_right_after(alloc: Global, ran: &Ran, opened: u64, commit: u8, call: u8) -> bool {
    let stop = opened.saturating_add(5 * u64::from(commit) + u64::from(call));
    for pick in PICKS {
        if rows_after(alloc, &ran.host, stop, pick) != Some(rows_due(commit, call, pick)) {
            return false;
        }
    }
    true
}

// The first commit and its first call after which that isn't so.
fn first_wrong(alloc: Global, ran: &Ran, opened: u64) -> Option<(u8, u8)> {
    for commit in 0..COMMITS {
        for call in 0..5 {
            if !is_right_after(alloc, ran, opened, commit, call) {
                return Some((commit, call));
            }
        }
    }
    None
}

// How many calls open the worked store.
fn calls_to_open(alloc: Global) -> u64 {
    match run_on(alloc, STORE, b"", &PLAIN, b"", &[]) {
        Ok(ran) => { if ran.status == 0 { ran.host.calls() } else { 0 } }
        Err(_) => 0,
    }
}

// The same of a run of twelve commits over the worked store.
fn first_wrong_of_twelve(alloc: Global, opened: u64) -> Option<(u8, u8)> {
    let script = twelve_rows(alloc);
    let Ok(ran) = run_on(alloc, STORE, b"", &PLAIN, script.text().as_bytes(), &[]) else {
        return Some((0, 0));
    };
    if ran.status != 0 || ran.host.calls() != opened.saturating_add(60) {
        return Some((0, 0));
    }
    first_wrong(alloc, &ran, opened)
}

#[test]
fn a_stop_after_each_call(rt: HostRuntime) {
    let alloc = rt.alloc();
    let opened = calls_to_open(alloc);
    assert!(rt; opened > 0);
    assert_eq!(rt; first_wrong_of_twelve(alloc, opened), None);
}
