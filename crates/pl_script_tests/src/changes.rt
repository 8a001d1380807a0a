//! A run of changes of two tables, and what is left of it where it stops.

use crate::report::Report;
use crate::runs::{PLAIN, printed, run_fresh, run_on, run_over};
use crate::stops::PICKS;
use pl_base::Memory;
use pl_disk::{Area, MemoryHost, Pick};
use std::alloc::Global;

/// The commits of the script in their order: the commands from the one before it on, what they
/// print, and what `SHOW` then prints.
const COMMITS: [(&str, &str, &str); 9] = [
    (
        "CREATE TABLE item (id integer PRIMARY KEY, name text NOT NULL, price bigint DEFAULT 10, \
CHECK (price > 0));",
        "CREATE TABLE\n",
        "id|name|price\n(0 rows)\nERROR:  42P01: undefined_table\n",
    ),
    (
        "CREATE TABLE log (t text UNIQUE);",
        "CREATE TABLE\n",
        "id|name|price\n(0 rows)\nt\n(0 rows)\n",
    ),
    (
        "INSERT INTO item VALUES (1, 'cup', 250), (2, 'pan', DEFAULT), (3, 'lid', 5);",
        "INSERT 0 3\n",
        "id|name|price\n1|cup|250\n2|pan|10\n3|lid|5\n(3 rows)\nt\n(0 rows)\n",
    ),
    // The first row of the INSERT that fails goes again.
    (
        "INSERT INTO item VALUES (4, 'jug', 1), (1, 'mug', 1); \
INSERT INTO log SELECT name FROM item WHERE price > 5;",
        "ERROR:  23505: unique_violation\nINSERT 0 2\n",
        "id|name|price\n1|cup|250\n2|pan|10\n3|lid|5\n(3 rows)\nt\ncup\npan\n(2 rows)\n",
    ),
    // The last row of the UPDATE that fails breaks the CHECK.
    (
        "UPDATE item SET price = price - 5; UPDATE item SET price = price + 1 RETURNING id, price;",
        "ERROR:  23514: check_violation\nid|price\n1|251\n2|11\n3|6\n(3 rows)\nUPDATE 3\n",
        "id|name|price\n1|cup|251\n2|pan|11\n3|lid|6\n(3 rows)\nt\ncup\npan\n(2 rows)\n",
    ),
    (
        "DELETE FROM item WHERE id = 2;",
        "DELETE 1\n",
        "id|name|price\n1|cup|251\n3|lid|6\n(2 rows)\nt\ncup\npan\n(2 rows)\n",
    ),
    (
        "DROP TABLE log;",
        "DROP TABLE\n",
        "id|name|price\n1|cup|251\n3|lid|6\n(2 rows)\nERROR:  42P01: undefined_table\n",
    ),
    (
        "CREATE TABLE log (k integer);",
        "CREATE TABLE\n",
        "id|name|price\n1|cup|251\n3|lid|6\n(2 rows)\nk\n(0 rows)\n",
    ),
    (
        "INSERT INTO log SELECT id FROM item RETURNING k;",
        "k\n1\n3\n(2 rows)\nINSERT 0 2\n",
        "id|name|price\n1|cup|251\n3|lid|6\n(2 rows)\nk\n1\n3\n(2 rows)\n",
    ),
];

const SHOW: &[u8] = b"SELECT * FROM item; SELECT * FROM log;";

/// What it prints before the first commit.
const NONE: &str = "ERROR:  42P01: undefined_table\nERROR:  42P01: undefined_table\n";

/// How many commits are held where something else is shown.
const OTHER: usize = 100;

fn script(alloc: Global) -> Report {
    let mut script = Report::new(alloc);
    for (commands, _, _) in COMMITS {
        script.push(commands.as_bytes());
    }
    script
}

fn text(alloc: Global) -> Report {
    let mut text = Report::new(alloc);
    for (_, replies, _) in COMMITS {
        text.push(replies.as_bytes());
    }
    text
}

// After how many commits this is shown.
fn number_of(shown: &str) -> usize {
    let mut found = if shown == NONE { 0 } else { OTHER };
    let mut number: usize = 0;
    for (_, _, shows) in COMMITS {
        number = number.saturating_add(1);
        if shown == shows {
            found = number;
        }
    }
    found
}

// How many commits the files hold.
fn held(alloc: Global, a: &[u8], b: &[u8]) -> usize {
    number_of(printed(alloc, run_on(alloc, a, b, &PLAIN, SHOW, &[]), 0).text())
}

// How many commits have their replies in the first so many bytes of the text.
fn told(len: usize) -> usize {
    let mut end: usize = 0;
    let mut count: usize = 0;
    for (_, replies, _) in COMMITS {
        end = end.saturating_add(replies.len());
        if end <= len {
            count = count.saturating_add(1);
        }
    }
    count
}

#[test]
fn each_command_of_the_script_is_answered(rt: HostRuntime) {
    let alloc = rt.alloc();
    let ran = run_fresh(alloc, &PLAIN, script(alloc).text().as_bytes());
    assert_eq!(rt; printed(alloc, ran, 0).text(), text(alloc).text());
}

// ---- one call fails

/// More calls than a run makes.
const CALLS: u64 = 64;

/// How many bytes of its work a call does that fails.
const PARTS: [usize; 4] = [0, 1, 5, 1000];

// What came of a run of which one call failed, where the whole text is this: the commits that were
// told, and no other or one more.
fn is_right(text: &str, status: u8, front: &[u8], held: usize) -> bool {
    let least = told(front.len());
    match status {
        0 => front == text.as_bytes() && held == COMMITS.len(),
        4 | 6 => {
            text.as_bytes().starts_with(front) && (held == least || held == least.saturating_add(1))
        }
        _ => false,
    }
}

// A host over a new store whose call k fails, having done a part of it.
fn failing(alloc: Global, k: u64, part: usize) -> Result<MemoryHost, Memory> {
    let fail = vec![in alloc; k]?;
    MemoryHost::with_part(alloc, Vec::new(alloc), Vec::new(alloc), fail, part)
}

// The status of a run whose call k fails, having done a part of it; none where it does harm.
fn judged(alloc: Global, k: u64, part: usize) -> Option<u8> {
    let Ok(mut host) = failing(alloc, k, part) else {
        return None;
    };
    let script = script(alloc);
    let Ok(status) = run_over(alloc, &mut host, &PLAIN, script.text().as_bytes(), &[]) else {
        return None;
    };
    let held = held(alloc, host.area(Area::A), host.area(Area::B));
    if is_right(text(alloc).text(), status, host.printed(), held) {
        Some(status)
    } else {
        None
    }
}

// The number of the first call that a run doesn't make, so that none fails; or of the first one
// whose failing does harm.
fn first_whole(alloc: Global, part: usize) -> Result<u64, u64> {
    let mut first = CALLS;
    for k in 0..CALLS {
        match judged(alloc, k, part) {
            Some(0) => first = first.min(k),
            Some(_) => {}
            None => return Err(k),
        }
    }
    Ok(first)
}

#[test]
fn one_fault_leaves_whole_commands(rt: HostRuntime) {
    for part in PARTS {
        // One call attaches, twelve make a store, each of nine commits makes five, and each of the
        // two errors one.
        assert_eq!(rt;
            first_whole(rt.alloc(), part),
            Ok(60),
            "{part} bytes are done"
        );
    }
}

// ---- a crash comes

// How many commits the files hold that a crash just after the call leaves.
fn held_after(alloc: Global, host: &MemoryHost, call: u64, pick: Pick) -> usize {
    if call >= host.calls() {
        return OTHER;
    }
    match host.image_after(alloc, call, pick) {
        Ok((a, b)) => held(alloc, &a, &b),
        Err(_) => OTHER,
    }
}

// The first call after which a crash leaves another store, fewer commits than before, or more than
// one more; the last one where it doesn't leave all.
fn first_other(alloc: Global, host: &MemoryHost, pick: Pick) -> Option<u64> {
    let mut most: usize = 0;
    for call in 0..host.calls() {
        let held = held_after(alloc, host, call, pick);
        if held < most || held > most.saturating_add(1) {
            return Some(call);
        }
        most = held;
    }
    if most == COMMITS.len() {
        None
    } else {
        Some(host.calls())
    }
}

// The same of a run over a new store.
fn first_other_of_new(alloc: Global, pick: Pick) -> Option<u64> {
    match run_fresh(alloc, &PLAIN, script(alloc).text().as_bytes()) {
        Ok(ran) => {
            if ran.status == 0 {
                first_other(alloc, &ran.host, pick)
            } else {
                Some(0)
            }
        }
        Err(_) => Some(0),
    }
}

#[test]
fn a_crash_leaves_whole_commands(rt: HostRuntime) {
    for pick in PICKS {
        assert_eq!(rt; first_other_of_new(rt.alloc(), pick), None);
    }
}
