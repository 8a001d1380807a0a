//! Words and scripts that are refused.

use crate::report::Report;
use crate::runs::{PLAIN, answer, printed, run_fresh, run_on};
use pl_base::Memory;
use pl_disk::Area;
use std::alloc::Global;

/// Words that are no line.
const WRONG: [&str; 4] = ["plpg", "s", "t", "-"];

// The status of a run of wrong words, how many calls it makes, how long the store is then, and what
// is printed. Calls of the host that are listed fail.
fn usage(alloc: Global, fail: &[u64]) -> Report {
    let mut out = Report::new(alloc);
    match run_on(alloc, b"", b"", &WRONG, b"SELECT 1;", fail) {
        Ok(ran) => {
            out.number(u64::from(ran.status));
            out.number(ran.host.calls());
            out.number(ran.host.area(Area::A).len() as u64);
            out.push(ran.host.printed());
        }
        Err(_) => out.spoil(),
    }
    out
}

#[test]
fn wrong_words_are_answered_by_the_usage_line(rt: HostRuntime) {
    let alloc = rt.alloc();
    let said = "2 1 0 usage: plpg STORE SCRIPT [--steps N] [--on-error-stop]\n";
    assert_eq!(rt; usage(alloc, &[]).text(), said);
    // The line isn't said.
    assert_eq!(rt; usage(alloc, &[0]).text(), "6 1 0 ");
}

/// Scripts, and the byte at which they are refused.
const FLAWS: [(&str, &[u8], u64); 11] = [
    ("a zero byte alone", b"\0", 0),
    ("no text behind a command", b"SELECT 1; \xff", 10),
    ("a zero byte first", b"ab\0c\xff", 2),
    ("no text first", b"a\xffb\0", 1),
    ("a zero byte behind a long character", b"\xe2\x82\xac\0", 3),
    ("a character that is cut off", b"SELECT \xe2\x82", 7),
    ("a character that is written too long", b"-\xc0\x80", 1),
    ("half of a pair", b"\xed\xa0\x80", 0),
    ("too great a number", b"\xf4\x90\x80\x80", 0),
    // Offsets count from the first byte, also where the script begins with a byte order mark.
    ("a zero byte behind a mark", b"\xef\xbb\xbf;\0", 4),
    ("a mark that is cut off", b"\xef\xbb", 0),
];

/// All of it is text.
const WHOLE: &[u8] = b"  \x7f \xc3\xa9 \xe2\x82\xac \xf0\x9f\x98\x80 ;";

fn refusal(alloc: Global, at: u64) -> Report {
    let mut line = Report::new(alloc);
    line.push(b"plpg: script refused at byte ");
    line.push_number(at);
    line.push(b"\n");
    line
}

#[test]
fn a_script_is_refused_at_its_first_flaw(rt: HostRuntime) {
    let alloc = rt.alloc();
    for (row, script, at) in FLAWS {
        let told = answer(alloc, &PLAIN, script, 8);
        assert_eq!(rt; told.text(), refusal(alloc, at).text(), "{row}");
    }
    assert_eq!(rt;
        answer(alloc, &PLAIN, WHOLE, 0).text(),
        "ERROR:  42601: syntax_error\n"
    );
}

/// The greatest length of a script in bytes.
const LIMIT: usize = 16_777_216;

/// The last character of a script, which begins before the limit and ends behind it, and the byte at
/// which the script is refused.
const LAST: [(&str, &[u8], usize); 2] = [
    ("whole", b"\xf0\x9f\x98\x80", LIMIT),
    ("cut off", b"\xf0\x9f\x98", LIMIT - 2),
];

fn behind_blanks(alloc: Global, last: &[u8]) -> Result<Vec<u8>, Memory> {
    let mut script = vec![in alloc; b' '; LIMIT - 2]?;
    script.extend_from_slice(last)?;
    Ok(script)
}

// What is printed where this is the last character.
fn answer_behind_blanks(alloc: Global, last: &[u8]) -> Report {
    match behind_blanks(alloc, last) {
        Ok(script) => answer(alloc, &PLAIN, &script, 8),
        Err(_) => Report::lacking(alloc),
    }
}

#[test]
fn a_script_is_refused_at_the_limit(rt: HostRuntime) {
    let alloc = rt.alloc();
    for (row, last, at) in LAST {
        let told = answer_behind_blanks(alloc, last);
        assert_eq!(rt; told.text(), refusal(alloc, at as u64).text(), "{row}");
    }
}

// How many calls a run of the script makes.
fn calls_of(alloc: Global, script: &[u8]) -> u64 {
    match run_fresh(alloc, &PLAIN, script) {
        Ok(ran) => ran.host.calls(),
        Err(_) => 0,
    }
}

#[test]
fn a_refusal_that_is_not_printed_ends_with_6(rt: HostRuntime) {
    let alloc = rt.alloc();
    let last = calls_of(alloc, b"\0").saturating_sub(1);
    let ran = run_on(alloc, b"", b"", &PLAIN, b"\0", &[last]);
    assert_eq!(rt; printed(alloc, ran, 6).text(), "");
}
