//! What a run prints over a store, and what a store becomes.

use crate::runs::{INSERTED, ONE_ROW, PLAIN, SCRIPT, STORE, outcome, printed, run_fresh, run_on};
use pl_base::Memory;
use pl_disk::Area;
use std::alloc::Global;

/// Scripts over stores, and what comes of them.
const OUTCOMES: [(&str, &[u8], &[u8], &str); 5] = [
    ("no script", b"", b"", "0 18 0 "),
    (
        "a new store",
        b"",
        SCRIPT,
        "0 84 0 CREATE TABLE\nINSERT 0 1\n",
    ),
    (
        "the worked store",
        STORE,
        SCRIPT,
        "0 110 0 ERROR:  42P07: duplicate_table\nINSERT 0 1\n",
    ),
    (
        "no table",
        b"",
        b"insert into N values ( - 5 )",
        "0 18 0 ERROR:  42P01: undefined_table\n",
    ),
    (
        "a reserved word",
        b"",
        b"CREATE TABLE table (c integer);;",
        "0 18 0 ERROR:  42601: syntax_error\n",
    ),
];

/// How long the worked store is where it is cut off, and what comes of a run.
const CUTS: [(&str, usize, &str); 3] = [
    (
        "a cut value",
        83,
        "7 83 0 plpg: store damaged in area A at byte 57\n",
    ),
    (
        "a cut frame",
        57,
        "7 57 0 plpg: store damaged in area A at byte 17\n",
    ),
    (
        "a cut header",
        10,
        "7 10 0 plpg: store damaged in area A at byte 0\n",
    ),
];

// The worked store, cut off there.
fn cut_at(len: usize) -> &'static [u8] {
    if len < STORE.len() {
        &STORE[..len]
    } else {
        STORE
    }
}

// Whether the script leaves the worked store of an empty one.
fn makes_the_store(alloc: Global) -> bool {
    match run_fresh(alloc, &PLAIN, SCRIPT) {
        Ok(ran) => ran.status == 0 && ran.host.area(Area::A) == STORE,
        Err(_) => false,
    }
}

#[test]
fn scripts_print_their_replies(rt: HostRuntime) {
    let alloc = rt.alloc();
    for (row, store, script, want) in OUTCOMES {
        assert_eq!(rt; outcome(alloc, store, b"", script).text(), want, "{row}");
    }
    for (row, len, want) in CUTS {
        assert_eq!(rt;
            outcome(alloc, cut_at(len), b"", SCRIPT).text(),
            want,
            "{row}"
        );
    }
    assert!(rt; makes_the_store(alloc));
}

const INSERT: &[u8] = b"INSERT INTO n VALUES (2);";

const ABSENT: &str = "ERROR:  42P01: undefined_table\n";

// Where the worked store is damaged: its header, the frames of its table and its row, and the gate
// behind them.
const AT_HEADER: &str = "plpg: store damaged in area A at byte 0\n";

const AT_TABLE: &str = "plpg: store damaged in area A at byte 17\n";

const AT_ROW: &str = "plpg: store damaged in area A at byte 57\n";

const AT_END: &str = "plpg: store damaged in area A at byte 83\n";

// What a run of one INSERT ends with and prints where one byte of the worked store is another.
fn answer(at: usize, byte: u8) -> (u8, &'static str) {
    match (at, byte) {
        // The gate of the file, and of the first frame: any byte but 1 closes it.
        (0 | 17, _) => (0, ABSENT),
        (1..=8, _) => (7, AT_HEADER),
        // The generation.
        (9..=16, _) => (0, INSERTED),
        // A frame of no operation. The first byte of the table's is taken for the next gate.
        (25, 0) => (7, "plpg: store damaged in area A at byte 26\n"),
        (18..=56, _) => (7, AT_TABLE),
        // The gate of the row's frame, or a frame of no operation in its place.
        (57, _) | (65, 0) => (0, INSERTED),
        // The row's id, which is 1 to 2^63 - 1.
        (69, 255) | (76, 0) => (7, AT_ROW),
        (69..=76, _) => (0, INSERTED),
        // The row's value.
        (79..=82, _) => (0, INSERTED),
        // The gate behind the last frame: 1 asks for another frame.
        (83, 1) => (7, AT_END),
        (83, _) => (0, INSERTED),
        _ => (7, AT_ROW),
    }
}

// The worked store with this byte in that place.
fn changed(alloc: Global, at: usize, byte: u8) -> Result<Vec<u8>, Memory> {
    let mut store = STORE.to_vec(alloc)?;
    if at < store.len() {
        store[at] = byte;
    }
    Ok(store)
}

// Whether the store with the changed byte is answered as it should be.
fn is_answered(alloc: Global, at: usize, byte: u8) -> bool {
    let (status, want) = if STORE.get(at) == Some(&byte) {
        (0, INSERTED)
    } else {
        answer(at, byte)
    };
    match changed(alloc, at, byte) {
        Ok(store) => {
            printed(
                alloc,
                run_on(alloc, &store, b"", &PLAIN, INSERT, &[]),
                status,
            )
            .text()
                == want
        }
        Err(_) => false,
    }
}

// What the INSERT ends with and prints where the worked store is cut off.
fn answer_of_cut(len: usize) -> (u8, &'static str) {
    match len {
        0 | 1 => (0, ABSENT),
        2..=17 => (7, AT_HEADER),
        18..=57 => (7, AT_TABLE),
        _ => (7, AT_ROW),
    }
}

// Whether the cut store is answered as it should be.
fn is_cut_answered(alloc: Global, len: usize) -> bool {
    let (status, want) = answer_of_cut(len);
    printed(
        alloc,
        run_on(alloc, cut_at(len), b"", &PLAIN, INSERT, &[]),
        status,
    )
    .text()
        == want
}

/// The worked store, but the row has the last id that there is.
const LAST_ID: &[u8] = b"\x01PLPGST01\0\0\0\0\0\0\0\0\
\x01\0\0\0\0\0\0\0\x1f\x01\0\0\0\x1aCREATE TABLE n (c integer)\
\x01\0\0\0\0\0\0\0\x11\x02\x01n\x7f\xff\xff\xff\xff\xff\xff\xff\x01\x01\0\0\0\x01\0";

#[test]
fn a_changed_store_has_its_answer(rt: HostRuntime) {
    let alloc = rt.alloc();
    for at in 0..ONE_ROW {
        for byte in [0, 1, 2, 255] {
            assert!(rt; is_answered(alloc, at, byte), "byte {at} as {byte}");
        }
        assert!(rt; is_cut_answered(alloc, at), "cut to {at}");
    }
    assert_eq!(rt;
        outcome(alloc, LAST_ID, b"", INSERT).text(),
        "0 84 0 ERROR:  54000: program_limit_exceeded\n"
    );
}
