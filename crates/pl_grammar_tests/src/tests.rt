//! How deep parts nest in texts, by the rule of which tokens open and close parts.

use pl_grammar::deep;
use pl_lex::lex;
use std::alloc::{AllocError, Global};

/// A text, a text that is repeated behind it so many times, and the first token, counted from 0,
/// at which more than 100 parts are open.
const REPEATED: [(&str, &str, usize, Option<usize>); 14] = [
    ("", "", 0, None),
    ("", "(", 100, None),
    ("", "(", 101, Some(100)),
    ("", "(", 250, Some(100)),
    ("", "()", 101, None),
    ("", "CASE ", 100, None),
    ("", "CASE ", 101, Some(100)),
    ("", "BEGIN ", 101, Some(100)),
    ("", "LOOP ", 101, Some(100)),
    ("BEGIN ", "IF a THEN ", 99, None),
    ("BEGIN ", "IF a THEN ", 100, Some(298)),
    ("", "IF a ", 101, None),
    ("END ) END ", "(", 100, None),
    ("END ) END ", "(", 101, Some(103)),
];

/// What stands behind 100 opening brackets, and the first token, counted from 0, at which more
/// than 100 parts are open.
const BEHIND: [(&str, Option<usize>); 33] = [
    ("CASE", Some(100)),
    ("BEGIN", Some(100)),
    ("LOOP", Some(100)),
    ("a.case", Some(102)),
    ("\"case\" '(' $$($$ a", None),
    ("( )", Some(100)),
    (") (", None),
    ("END (", None),
    ("END ( (", Some(102)),
    // behind AS
    ("AS case", None),
    ("AS begin", None),
    ("AS loop", None),
    ("AS (", Some(101)),
    ("AS ) (", None),
    ("AS end (", Some(102)),
    ("AS a CASE", Some(102)),
    ("AS begin IF", Some(102)),
    // IF
    ("IF", None),
    ("a IF", None),
    ("END IF (", None),
    ("; IF", Some(101)),
    ("THEN IF", Some(101)),
    ("ELSE IF", Some(101)),
    (") BEGIN IF", Some(102)),
    (") LOOP IF", Some(102)),
    // CASE and LOOP behind END
    (") CASE END CASE (", None),
    (") CASE END CASE ( (", Some(105)),
    (") CASE END CASE CASE (", Some(105)),
    (") LOOP END LOOP (", None),
    (") LOOP END LOOP ( (", Some(105)),
    (") CASE END LOOP (", Some(104)),
    (") LOOP END CASE (", Some(104)),
    (") BEGIN END CASE (", Some(104)),
];

fn text_of(
    alloc: Global,
    first: &str,
    repeated: &str,
    times: usize,
    rest: &str,
) -> Result<String, AllocError> {
    let mut text = String::new(alloc);
    text.push_str(first)?;
    for _ in 0..times {
        text.push_str(repeated)?;
    }
    text.push_str(rest)?;
    Ok(text)
}

/// Whether this token is the first at which more than 100 parts are open.
fn is_deep(alloc: Global, text: &str, want: Option<usize>) -> bool {
    match lex(alloc, text) {
        Ok(tokens) => deep(alloc, tokens.as_slice()) == Ok(want),
        Err(_) => false,
    }
}

fn is_as_told(
    alloc: Global,
    (first, repeated, times, rest): (&str, &str, usize, &str),
    want: Option<usize>,
) -> bool {
    match text_of(alloc, first, repeated, times, rest) {
        Ok(text) => is_deep(alloc, text.as_str(), want),
        Err(_) => false,
    }
}

#[test]
fn parts_that_are_open_are_counted(rt: HostRuntime) {
    for (first, repeated, times, want) in REPEATED {
        let told = is_as_told(rt.alloc(), (first, repeated, times, ""), want);
        assert!(rt; told, "{first} and {times} times {repeated}");
    }
}

#[test]
fn words_open_and_close_parts_by_their_place(rt: HostRuntime) {
    for (rest, want) in BEHIND {
        let told = is_as_told(rt.alloc(), ("", "(", 100, rest), want);
        assert!(rt; told, "{rest}");
    }
}
