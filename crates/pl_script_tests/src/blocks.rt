//! Transaction blocks and savepoints, and what is left of a block where a run stops in it.

use crate::report::Report;
use crate::runs::{PLAIN, Ran, answer, printed, run_fresh, run_on, run_over};
use crate::stops::{PICKS, left};
use pl_base::Memory;
use pl_disk::{Area, MemoryHost, Pick};
use std::alloc::Global;

/// Scripts over new stores that end with 0, and what they print.
const BLOCKS: [(&str, &str); 9] = [
    (
        "BEGIN; SELECT 1 / 0; SELECT 1; COMMIT;",
        "BEGIN\nERROR:  22012: division_by_zero\nERROR:  25P02: in_failed_sql_transaction\n\
ROLLBACK\n",
    ),
    // A savepoint stays behind ROLLBACK TO.
    (
        "CREATE TABLE t (v integer); BEGIN; SAVEPOINT a; INSERT INTO t VALUES (1); ROLLBACK TO a; \
INSERT INTO t VALUES (2); ROLLBACK TO a; COMMIT; SELECT count(*) FROM t;",
        "CREATE TABLE\nBEGIN\nSAVEPOINT\nINSERT 0 1\nROLLBACK\nINSERT 0 1\nROLLBACK\nCOMMIT\n\
count\n0\n(1 row)\n",
    ),
    // The newest of its name hides the others, until it is released.
    (
        "CREATE TABLE t (v integer); BEGIN; SAVEPOINT a; INSERT INTO t VALUES (1); SAVEPOINT a; \
INSERT INTO t VALUES (2); RELEASE a; SELECT count(*) FROM t; ROLLBACK TO a; \
SELECT count(*) FROM t; COMMIT;",
        "CREATE TABLE\nBEGIN\nSAVEPOINT\nINSERT 0 1\nSAVEPOINT\nINSERT 0 1\nRELEASE\n\
count\n2\n(1 row)\nROLLBACK\ncount\n0\n(1 row)\nCOMMIT\n",
    ),
    // ROLLBACK TO leads out of a void block, and takes the savepoints behind its own.
    (
        "CREATE TABLE t (v integer); BEGIN; INSERT INTO t VALUES (1); SAVEPOINT a; SAVEPOINT b; \
INSERT INTO t VALUES (2); SELECT 1 / 0; ROLLBACK TO a; ROLLBACK TO b; ROLLBACK TO a; \
INSERT INTO t VALUES (3); COMMIT; SELECT v FROM t;",
        "CREATE TABLE\nBEGIN\nINSERT 0 1\nSAVEPOINT\nSAVEPOINT\nINSERT 0 1\n\
ERROR:  22012: division_by_zero\nROLLBACK\nERROR:  3B001: invalid_savepoint_specification\n\
ROLLBACK\nINSERT 0 1\nCOMMIT\nv\n1\n3\n(2 rows)\n",
    ),
    // COMMIT of a void block keeps nothing of it.
    (
        "CREATE TABLE t (v integer); BEGIN; INSERT INTO t VALUES (1); SELECT x; END; \
SELECT count(*) FROM t;",
        "CREATE TABLE\nBEGIN\nINSERT 0 1\nERROR:  42703: undefined_column\nROLLBACK\n\
count\n0\n(1 row)\n",
    ),
    (
        "BEGIN; BEGIN; COMMIT; COMMIT; ABORT; SAVEPOINT a; RELEASE a; ROLLBACK TO a;",
        "BEGIN\nWARNING:  active_sql_transaction\nBEGIN\nCOMMIT\n\
WARNING:  no_active_sql_transaction\nCOMMIT\nWARNING:  no_active_sql_transaction\nROLLBACK\n\
ERROR:  25P01: no_active_sql_transaction\nERROR:  25P01: no_active_sql_transaction\n\
ERROR:  25P01: no_active_sql_transaction\n",
    ),
    // No transaction ends within a body while the session is in a block.
    (
        "CREATE TABLE t (v integer); BEGIN; SAVEPOINT a; \
DO $$ BEGIN INSERT INTO t VALUES (1); COMMIT; END $$; ROLLBACK TO a; \
DO $$ BEGIN BEGIN INSERT INTO t VALUES (2); PERFORM 1 / 0; EXCEPTION WHEN OTHERS THEN \
INSERT INTO t VALUES (3); END; END $$; COMMIT; SELECT v FROM t;",
        "CREATE TABLE\nBEGIN\nSAVEPOINT\nERROR:  2D000: invalid_transaction_termination\nROLLBACK\n\
DO\nCOMMIT\nv\n3\n(1 row)\n",
    ),
    // A table that was dropped in a block is there again.
    (
        "CREATE TABLE t (v integer); INSERT INTO t VALUES (1); START TRANSACTION; DROP TABLE t; \
CREATE TABLE t (v text); ROLLBACK; INSERT INTO t VALUES (2); SELECT sum(v) AS s FROM t;",
        "CREATE TABLE\nINSERT 0 1\nSTART TRANSACTION\nDROP TABLE\nCREATE TABLE\nROLLBACK\n\
INSERT 0 1\ns\n3\n(1 row)\n",
    ),
    // A script may end in a block.
    ("BEGIN; SELECT 1 AS n", "BEGIN\nn\n1\n(1 row)\n"),
];

#[test]
fn blocks_run(rt: HostRuntime) {
    let alloc = rt.alloc();
    for (script, text) in BLOCKS {
        let told = answer(alloc, &PLAIN, script.as_bytes(), 0);
        assert_eq!(rt; told.text(), text, "{script}");
    }
}

// ---- a run that ends in a block, or stops in it

const SHOW: &[u8] = b"SELECT sum(c) AS s FROM n;";

const NO_TABLE: &str = "ERROR:  42P01: undefined_table\n";

const NO_ROW: &str = "s\n\n(1 row)\n";

/// The rows of the block.
const ROWS: &str = "s\n4\n(1 row)\n";

const TABLE: &[u8] = b"CREATE TABLE n (c integer);";

const BLOCK: &[u8] = b"BEGIN; INSERT INTO n VALUES (1); SAVEPOINT a; INSERT INTO n VALUES (2); \
ROLLBACK TO a; INSERT INTO n VALUES (3);";

/// What all of it prints before COMMIT.
const BEFORE: &str =
    "CREATE TABLE\nBEGIN\nINSERT 0 1\nSAVEPOINT\nINSERT 0 1\nROLLBACK\nINSERT 0 1\n";

const TEXT: &str =
    "CREATE TABLE\nBEGIN\nINSERT 0 1\nSAVEPOINT\nINSERT 0 1\nROLLBACK\nINSERT 0 1\nCOMMIT\n";

// The table, and the block with this behind it.
fn script(alloc: Global, end: &[u8]) -> Result<Vec<u8>, Memory> {
    let mut script = TABLE.to_vec(alloc)?;
    script.extend_from_slice(BLOCK)?;
    script.extend_from_slice(end)?;
    Ok(script)
}

// What the files hold.
fn held(alloc: Global, a: &[u8], b: &[u8]) -> Report {
    printed(alloc, run_on(alloc, a, b, &PLAIN, SHOW, &[]), 0)
}

// What a run leaves whose block isn't ended.
fn left_open(alloc: Global) -> Report {
    let Ok(script) = script(alloc, b"") else {
        return Report::lacking(alloc);
    };
    match run_on(alloc, b"", b"", &PLAIN, &script, &[]) {
        Ok(ran) => held(alloc, ran.host.area(Area::A), ran.host.area(Area::B)),
        Err(_) => Report::lacking(alloc),
    }
}

#[test]
fn a_block_that_is_not_ended_leaves_nothing(rt: HostRuntime) {
    assert_eq!(rt; left_open(rt.alloc()).text(), NO_ROW);
}

/// More calls than a run makes.
const CALLS: u64 = 40;

/// How many bytes of its work a call does that fails.
const PARTS: [usize; 4] = [0, 1, 5, 1000];

// Whether so much may be held where so much was printed: all of a block or nothing of it, all where
// its COMMIT was answered, and nothing where it wasn't reached.
fn is_told(text: &[u8], held: &str) -> bool {
    if text == TEXT.as_bytes() {
        return held == ROWS;
    }
    if text == BEFORE.as_bytes() || text.starts_with(BEFORE.as_bytes()) {
        return held == ROWS || held == NO_ROW;
    }
    if text.starts_with(b"CREATE TABLE\n") {
        return held == NO_ROW;
    }
    held == NO_ROW || held == NO_TABLE
}

// What came of a run of which one call failed.
fn is_right(status: u8, text: &[u8], held: &str) -> bool {
    match status {
        0 => held == ROWS && text == TEXT.as_bytes(),
        4 | 6 => TEXT.as_bytes().starts_with(text) && is_told(text, held),
        _ => false,
    }
}

// A host over a new store whose call k fails, having done a part of it.
fn failing(alloc: Global, k: u64, part: usize) -> Result<MemoryHost, Memory> {
    let fail = vec![in alloc; k]?;
    MemoryHost::with_part(alloc, Vec::new(alloc), Vec::new(alloc), fail, part)
}

// The status of a run whose call k fails, having done a part of it; none where it does harm.
fn judged(alloc: Global, script: &[u8], k: u64, part: usize) -> Option<u8> {
    let Ok(mut host) = failing(alloc, k, part) else {
        return None;
    };
    let Ok(status) = run_over(alloc, &mut host, &PLAIN, script, &[]) else {
        return None;
    };
    let held = held(alloc, host.area(Area::A), host.area(Area::B));
    if is_right(status, host.printed(), held.text()) {
        Some(status)
    } else {
        None
    }
}

// The number of the first call that a run doesn't make, so that none fails; or of the first one
// whose failing does harm.
fn first_whole(alloc: Global, part: usize) -> Result<u64, u64> {
    let Ok(script) = script(alloc, b"COMMIT;") else {
        return Err(CALLS);
    };
    let mut first = CALLS;
    for k in 0..CALLS {
        match judged(alloc, &script, k, part) {
            Some(0) => first = first.min(k),
            Some(_) => {}
            None => return Err(k),
        }
    }
    Ok(first)
}

#[test]
fn one_fault_leaves_all_of_a_block_or_nothing(rt: HostRuntime) {
    for part in PARTS {
        // One call attaches, twelve make a store, CREATE and COMMIT make five each, and each of the
        // other six commands prints its reply.
        assert_eq!(rt;
            first_whole(rt.alloc(), part),
            Ok(29),
            "{part} bytes are done"
        );
    }
}

// ---- a crash comes

/// What stands behind the table, and of each commit the text that is printed between the one before
/// it and this one, the reply that tells of it, and the rows that are held then. No row of -1 is
/// committed.
const CRASHES: [(&str, &[(&str, &str, &str)]); 7] = [
    // Savepoints that are returned to, hidden and released.
    (
        "BEGIN; INSERT INTO n VALUES (1); SAVEPOINT a; INSERT INTO n VALUES (-1); ROLLBACK TO a; \
INSERT INTO n VALUES (3); SAVEPOINT a; INSERT INTO n VALUES (5); RELEASE a; COMMIT;",
        &[(
            "BEGIN\nINSERT 0 1\nSAVEPOINT\nINSERT 0 1\nROLLBACK\nINSERT 0 1\nSAVEPOINT\n\
INSERT 0 1\nRELEASE\n",
            "COMMIT\n",
            "s\n9\n(1 row)\n",
        )],
    ),
    // A handler outside of a block, and rows that it undoes.
    (
        "DO $$ BEGIN INSERT INTO n VALUES (1); BEGIN INSERT INTO n VALUES (-1); PERFORM 1 / 0; \
EXCEPTION WHEN OTHERS THEN INSERT INTO n VALUES (2); END; END $$;",
        &[("", "DO\n", "s\n3\n(1 row)\n")],
    ),
    // A handler in a block, and an error that a savepoint leads out of.
    (
        "BEGIN; INSERT INTO n VALUES (1); SAVEPOINT a; \
DO $$ BEGIN INSERT INTO n VALUES (-1); PERFORM 1 / 0; \
EXCEPTION WHEN OTHERS THEN INSERT INTO n VALUES (2); END $$; \
SAVEPOINT b; INSERT INTO n VALUES (-1); SELECT 1 / 0; ROLLBACK TO b; INSERT INTO n VALUES (4); \
COMMIT;",
        &[(
            "BEGIN\nINSERT 0 1\nSAVEPOINT\nDO\nSAVEPOINT\nINSERT 0 1\n\
ERROR:  22012: division_by_zero\nROLLBACK\nINSERT 0 1\n",
            "COMMIT\n",
            "s\n7\n(1 row)\n",
        )],
    ),
    // Blocks that are rolled back or void, between two that are committed.
    (
        "BEGIN; INSERT INTO n VALUES (1); COMMIT; BEGIN; INSERT INTO n VALUES (-1); ROLLBACK; \
BEGIN; INSERT INTO n VALUES (-1); SELECT 1 / 0; COMMIT; BEGIN; INSERT INTO n VALUES (2); END;",
        &[
            ("BEGIN\nINSERT 0 1\n", "COMMIT\n", "s\n1\n(1 row)\n"),
            (
                "BEGIN\nINSERT 0 1\nROLLBACK\nBEGIN\nINSERT 0 1\n\
ERROR:  22012: division_by_zero\nROLLBACK\nBEGIN\nINSERT 0 1\n",
                "COMMIT\n",
                "s\n3\n(1 row)\n",
            ),
        ],
    ),
    // COMMIT in a body, in front of a handler.
    (
        "DO $$ BEGIN INSERT INTO n VALUES (1); COMMIT; RAISE NOTICE 'one'; \
BEGIN INSERT INTO n VALUES (-1); PERFORM 1 / 0; \
EXCEPTION WHEN OTHERS THEN INSERT INTO n VALUES (2); END; END $$;",
        &[
            ("", "NOTICE:  one\n", "s\n1\n(1 row)\n"),
            ("", "DO\n", "s\n3\n(1 row)\n"),
        ],
    ),
    // Rows that are changed and removed, and changed back.
    (
        "BEGIN; INSERT INTO n VALUES (1), (2); COMMIT; BEGIN; SAVEPOINT a; DELETE FROM n; \
ROLLBACK TO a; UPDATE n SET c = c + 10 WHERE c = 2; SAVEPOINT a; UPDATE n SET c = -1; \
ROLLBACK TO a; DELETE FROM n WHERE c = 1; COMMIT;",
        &[
            ("BEGIN\nINSERT 0 2\n", "COMMIT\n", "s\n3\n(1 row)\n"),
            (
                "BEGIN\nSAVEPOINT\nDELETE 2\nROLLBACK\nUPDATE 1\nSAVEPOINT\nUPDATE 2\n\
ROLLBACK\nDELETE 1\n",
                "COMMIT\n",
                "s\n12\n(1 row)\n",
            ),
        ],
    ),
    // A table that is dropped and made in a block that isn't ended.
    (
        "INSERT INTO n VALUES (1); BEGIN; DROP TABLE n; CREATE TABLE n (c integer); \
INSERT INTO n VALUES (-1);",
        &[("", "INSERT 0 1\n", "s\n1\n(1 row)\n")],
    ),
];

/// What tells of the table's commit.
const TABLE_REPLY: usize = 13;

// How many commits are held, that of the table among them. None where it is something else.
fn stage_of(held: &str, commits: &[(&str, &str, &str)]) -> Option<usize> {
    if held == NO_TABLE {
        return Some(0);
    }
    let mut stage: usize = 1;
    let mut rows = NO_ROW;
    for (_, _, next) in commits {
        if held == rows {
            return Some(stage);
        }
        stage = stage.saturating_add(1);
        rows = next;
    }
    if held == rows { Some(stage) } else { None }
}

// How many commits are told of where so much was printed, and how many were reached then.
fn due(length: usize, commits: &[(&str, &str, &str)]) -> (usize, usize) {
    let mut end = TABLE_REPLY;
    let mut told = usize::from(length >= end);
    let mut reached: usize = 1;
    for (before, reply, _) in commits {
        end = end.saturating_add(before.len());
        reached = reached.saturating_add(usize::from(length >= end));
        end = end.saturating_add(reply.len());
        told = told.saturating_add(usize::from(length >= end));
    }
    (told, reached)
}

fn with_table(alloc: Global, commands: &str) -> Result<Vec<u8>, Memory> {
    let mut script = TABLE.to_vec(alloc)?;
    script.extend_from_slice(commands.as_bytes())?;
    Ok(script)
}

// How much a run prints up to the call.
fn length_before(alloc: Global, script: &[u8], call: u64) -> Option<usize> {
    let fail = [call.saturating_add(1)];
    match run_on(alloc, b"", b"", &PLAIN, script, &fail) {
        Ok(ran) => Some(ran.host.printed().len()),
        Err(_) => None,
    }
}

// How many commits a crash just after the call leaves.
fn stage_after(
    alloc: Global,
    host: &MemoryHost,
    call: u64,
    pick: Pick,
    commits: &[(&str, &str, &str)],
) -> Option<usize> {
    match left(alloc, host, call, pick) {
        Ok((a, b)) => stage_of(held(alloc, &a, &b).text(), commits),
        Err(_) => None,
    }
}

// Whether each pick leaves at least so many commits, and at most so many.
fn is_between(
    alloc: Global,
    host: &MemoryHost,
    call: u64,
    least: usize,
    most: usize,
    commits: &[(&str, &str, &str)],
) -> bool {
    for pick in PICKS {
        match stage_after(alloc, host, call, pick, commits) {
            Some(stage) => {
                if stage < least || stage > most {
                    return false;
                }
            }
            None => return false,
        }
    }
    true
}

// Whether a crash after the call leaves each commit that was told of, and none that wasn't reached.
fn is_kept(
    alloc: Global,
    script: &[u8],
    host: &MemoryHost,
    call: u64,
    commits: &[(&str, &str, &str)],
) -> bool {
    match length_before(alloc, script, call) {
        Some(length) => {
            let (told, reached) = due(length, commits);
            is_between(alloc, host, call, told, reached, commits)
        }
        None => false,
    }
}

// Whether all commits are there behind the last call.
fn is_done(alloc: Global, ran: &Ran, commits: &[(&str, &str, &str)]) -> bool {
    let (a, b) = (ran.host.area(Area::A), ran.host.area(Area::B));
    let stage = stage_of(held(alloc, a, b).text(), commits);
    ran.status == 0 && stage == Some(commits.len().saturating_add(1))
}

// The first call of the script's run after which a crash leaves anything else.
fn first_unkept(alloc: Global, commands: &str, commits: &[(&str, &str, &str)]) -> Option<u64> {
    let Ok(script) = with_table(alloc, commands) else {
        return Some(0);
    };
    let Ok(ran) = run_fresh(alloc, &PLAIN, &script) else {
        return Some(0);
    };
    if !is_done(alloc, &ran, commits) {
        return Some(ran.host.calls());
    }
    for call in 0..ran.host.calls() {
        if !is_kept(alloc, &script, &ran.host, call, commits) {
            return Some(call);
        }
    }
    None
}

#[test]
fn a_crash_leaves_all_of_a_block_or_nothing(rt: HostRuntime) {
    for (commands, commits) in CRASHES {
        assert_eq!(rt;
            first_unkept(rt.alloc(), commands, commits),
            None,
            "{commands}"
        );
    }
}
