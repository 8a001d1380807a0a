//! How the pieces of a script are answered: refusals in their order, and commands that run.

use crate::report::Report;
use crate::runs::{PLAIN, answer};
use std::alloc::Global;

const STOPPING: [&str; 4] = ["plpg", "shop.store", "first.sql", "--on-error-stop"];

const SYNTAX: &str = "ERROR:  42601: syntax_error\n";

const LEFT_OUT: &str = "ERROR:  0A000: feature_not_supported\n";

const LEFT_OUT_IN_BLOCK: &str = "BEGIN\nCREATE TABLE\nERROR:  0A000: feature_not_supported\n";

const DEEP: &str = "ERROR:  54001: statement_too_complex\n";

const TOO_LONG: &str = "ERROR:  42622: name_too_long\n";

const TOO_GREAT: &str = "ERROR:  22003: numeric_value_out_of_range\n";

const UNDEFINED: &str = "ERROR:  42P01: undefined_table\n";

const CREATED: &str = "CREATE TABLE\n";

const MADE: &str = "CREATE TABLE\nINSERT 0 1\n";

const NAME_OF_64: &str = "SELECT aaaaaaaaaaaaaaaaaaaaaaaaaaaaaaaaaaaaaaaaaaaaaaaaaaaaaaaaaaaaaaaa;";

/// Scripts that end with 0, and what they print.
const PIECES: [(&str, &str); 27] = [
    // The first bad lexeme comes before all else.
    (NAME_OF_64, TOO_LONG),
    ("SELECT \"\";", SYNTAX),
    ("SELECT 9223372036854775809", TOO_GREAT),
    ("LOCK 1.5", LEFT_OUT),
    ("WITH \"\"", SYNTAX),
    ("/* /* */ SELECT 1;", SYNTAX),
    ("DO $a$ BEGIN", SYNTAX),
    // Commands that are left out.
    ("WITH q AS (SELECT 1) SELECT 1;", LEFT_OUT),
    ("CREATE INDEX 1 2 3", LEFT_OUT),
    // No command is spelled so.
    ("SELECT 1 2", SYNTAX),
    ("CREATE TABLE table (c integer);;", SYNTAX),
    // Commands that don't run.
    ("CREATE TABLE n (c integer REFERENCES m)", LEFT_OUT),
    ("DROP TRIGGER r ON n", LEFT_OUT),
    // The body of a DO is none.
    ("DO 'x'", SYNTAX),
    // Commands that run, each with its table first.
    ("CREATE TABLE n (c bigint NOT NULL, t text)", CREATED),
    ("CREATE TABLE IF NOT EXISTS n (c integer)", CREATED),
    ("DROP TABLE n", UNDEFINED),
    ("UPDATE n SET c = ';' -- ;\n WHERE 1 = 1;", UNDEFINED),
    ("DELETE FROM n", UNDEFINED),
    ("INSERT INTO n (c) VALUES (1)", UNDEFINED),
    ("INSERT INTO n AS m VALUES (1), (x) RETURNING c", UNDEFINED),
    ("INSERT INTO n VALUES (2147483648)", UNDEFINED),
    // A byte order mark in front is no part of the script, and one behind it is.
    ("\u{feff}", ""),
    (
        "\u{feff}CREATE TABLE n (c integer); INSERT INTO n VALUES (1)",
        MADE,
    ),
    ("\u{feff}\u{feff}SELECT 1;", SYNTAX),
    // Nothing, and two commands with other names.
    (" -- a note\n; /* ; */ ;", ""),
    (
        "Create /* a */ Table \"Ä;\" (größe INT4) ; insert into \"Ä;\" values (-0)",
        MADE,
    ),
];

#[test]
fn pieces_are_read_and_refused(rt: HostRuntime) {
    let alloc = rt.alloc();
    for (script, printed) in PIECES {
        let told = answer(alloc, &PLAIN, script.as_bytes(), 0);
        assert_eq!(rt; told.text(), printed, "{script}");
    }
}

/// What stands before 101 opening brackets and behind them, and what is printed.
const DEPTHS: [(&str, &str, &str); 4] = [
    ("SELECT ", "1", DEEP),
    ("SELECT ", " 1 2", DEEP),
    ("LOCK ", "", LEFT_OUT),
    ("SELECT ", "\"\"", SYNTAX),
];

fn deep(alloc: Global, before: &str, behind: &str) -> Report {
    let mut script = Report::new(alloc);
    script.push(before.as_bytes());
    for _ in 0..101 {
        script.push(b"(");
    }
    script.push(behind.as_bytes());
    script
}

#[test]
fn depth_is_judged_before_the_rest(rt: HostRuntime) {
    let alloc = rt.alloc();
    for (before, behind, printed) in DEPTHS {
        let script = deep(alloc, before, behind);
        let told = answer(alloc, &PLAIN, script.text().as_bytes(), 0);
        assert_eq!(rt; told.text(), printed, "{before}..{behind}");
    }
}

/// Scripts, their status where they stop at an error, and what is printed.
const STOPS: [(&str, u8, &str); 3] = [
    ("DO $a$ BEGIN", 3, SYNTAX),
    (
        "BEGIN; CREATE TABLE n (c integer); LOCK n; COMMIT;",
        3,
        LEFT_OUT_IN_BLOCK,
    ),
    (
        "CREATE TABLE n (c integer); INSERT INTO n VALUES (1); ;",
        0,
        MADE,
    ),
];

#[test]
fn a_script_stops_at_its_first_error(rt: HostRuntime) {
    let alloc = rt.alloc();
    for (script, status, printed) in STOPS {
        let told = answer(alloc, &STOPPING, script.as_bytes(), status);
        assert_eq!(rt; told.text(), printed, "{script}");
    }
}
