//! Which of the two areas of a store counts, and what a frame of several operations does.

use crate::report::Report;
use crate::runs::{PLAIN, STORE, outcome, run_on};
use pl_base::Memory;
use pl_disk::Area;
use std::alloc::Global;

const INSERT: &[u8] = b"INSERT INTO n VALUES (2);";

// The file with other bytes at these places.
fn edited(alloc: Global, file: &[u8], edits: &[(usize, u8)]) -> Result<Vec<u8>, Memory> {
    let mut edited = file.to_vec(alloc)?;
    for (at, byte) in edits {
        if let Some(place) = edited.get_mut(*at) {
            *place = *byte;
        }
    }
    Ok(edited)
}

// What comes of a run over these files, with other bytes at these places.
fn outcome_of(
    alloc: Global,
    a: &[u8],
    in_a: &[(usize, u8)],
    b: &[u8],
    in_b: &[(usize, u8)],
) -> Report {
    match edited(alloc, a, in_a) {
        Ok(a) => match edited(alloc, b, in_b) {
            Ok(b) => outcome(alloc, a.as_slice(), b.as_slice(), INSERT),
            Err(_) => Report::lacking(alloc),
        },
        Err(_) => Report::lacking(alloc),
    }
}

/// Both areas hold the worked store, with other bytes at these places: those of A and those of B.
const OUTCOMES: [(&str, &[(usize, u8)], &[(usize, u8)], &str); 7] = [
    (
        "an exact copy",
        &[],
        &[],
        "7 84 84 plpg: store damaged in area B at byte 9\n",
    ),
    (
        "a closed copy",
        &[],
        &[(0, 7), (16, 1)],
        "0 110 84 INSERT 0 1\n",
    ),
    ("a later copy", &[], &[(16, 1)], "0 84 110 INSERT 0 1\n"),
    (
        "an earlier copy",
        &[(16, 2)],
        &[(16, 1)],
        "0 110 84 INSERT 0 1\n",
    ),
    (
        "a later copy of a store with a broken frame",
        &[(26, 9)],
        &[(16, 1)],
        "0 84 110 INSERT 0 1\n",
    ),
    (
        "a later copy of a store with a broken header",
        &[(1, 0)],
        &[(16, 1)],
        "7 84 84 plpg: store damaged in area A at byte 0\n",
    ),
    (
        "a later copy with a broken frame",
        &[],
        &[(16, 1), (76, 0)],
        "7 84 84 plpg: store damaged in area B at byte 57\n",
    ),
];

#[test]
fn the_greater_generation_counts(rt: HostRuntime) {
    let alloc = rt.alloc();
    for (row, in_a, in_b, want) in OUTCOMES {
        assert_eq!(rt;
            outcome_of(alloc, STORE, in_a, STORE, in_b).text(),
            want,
            "{row}"
        );
    }
}

// A store of one commit: the table, the rows 3 and 4, row 3 is removed, and 9 is the next id.
const LIST: &[u8] = b"\x01PLPGST01\0\0\0\0\0\0\0\0\
\x01\0\0\0\0\0\0\0\x57\x01\0\0\0\x1aCREATE TABLE n (c integer)\
\x02\x01n\0\0\0\0\0\0\0\x03\x01\x01\0\0\0\x05\
\x02\x01n\0\0\0\0\0\0\0\x04\x01\x01\0\0\0\x06\
\x03\x01n\0\0\0\0\0\0\0\x03\
\x04\x01n\0\0\0\0\0\0\0\x09\0";

// The frame of the row that is inserted then.
const NEXT: &[u8] = b"\x01\0\0\0\0\0\0\0\x11\x02\x01n\0\0\0\0\0\0\0\x09\x01\x01\0\0\0\x02\0";

/// A byte of that store, what it is changed to, and what comes of it.
const LISTS: [(&str, usize, u8, &str); 4] = [
    ("each applies", 0, 1, "0 140 0 INSERT 0 1\n"),
    (
        "the removed row isn't there",
        101,
        5,
        "7 114 0 plpg: store damaged in area A at byte 17\n",
    ),
    (
        "the next id is below the present one",
        112,
        4,
        "7 114 0 plpg: store damaged in area A at byte 17\n",
    ),
    (
        "the next id is past 2^63",
        105,
        128,
        "7 114 0 plpg: store damaged in area A at byte 17\n",
    ),
];

// Whether the inserted row stands under the next id of the list.
fn is_inserted(alloc: Global) -> bool {
    match run_on(alloc, LIST, b"", &PLAIN, INSERT, &[]) {
        Ok(ran) => ran.host.area(Area::A).ends_with(NEXT),
        Err(_) => false,
    }
}

#[test]
fn a_commit_of_several_operations(rt: HostRuntime) {
    let alloc = rt.alloc();
    for (row, at, byte, want) in LISTS {
        let outcome = outcome_of(alloc, LIST, &[(at, byte)], b"", &[]);
        assert_eq!(rt; outcome.text(), want, "{row}");
    }
    assert!(rt; is_inserted(alloc));
}
