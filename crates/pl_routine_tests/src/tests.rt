//! What each body of the tables is read as.

use crate::answers::answer;
use crate::depths::{DEPTHS, MOST_INSIDE, Nest};
use crate::read_blocks::READ_BLOCKS;
use crate::read_statements::READ_STATEMENTS;
use crate::refused_rules::REFUSED_RULES;
use crate::refused_texts::REFUSED_TEXTS;
use crate::script_bodies::SCRIPT_BODIES;
use crate::words::Words;
use std::alloc::Global;

// Whether the body of a case is answered as the case says.
fn is_told(alloc: Global, head: &str, case: &str) -> bool {
    match case.strip_prefix("! ").unwrap_or(case).split_once("  ->  ") {
        Some((text, want)) => answer(alloc, head, text).text() == want,
        None => false,
    }
}

// Whether the body is read.
fn is_read(alloc: Global, head: &str, text: &str) -> bool {
    answer(alloc, head, text).text().starts_with('(')
}

/// What the lines of a table are.
#[derive(Clone, Copy)]
enum Kind {
    /// A body and what it is answered.
    Case,
    /// A body that is read.
    Read,
}

// Whether the line is right. A `¶` in it ends a line of the body.
fn is_right(alloc: Global, kind: Kind, head: &str, line: &str) -> bool {
    let Ok(whole) = line.replace(alloc, "¶", "\n") else {
        return false;
    };
    match kind {
        Kind::Case => is_told(alloc, head, whole.as_str()),
        Kind::Read => is_read(alloc, head, whole.as_str()),
    }
}

fn is_entry(line: &str) -> bool {
    !line.is_empty() && !line.starts_with("--")
}

/// The first line of a table whose body is answered otherwise than there.
fn other(alloc: Global, kind: Kind, table: &'static str) -> Option<&'static str> {
    let mut head = "";
    for line in table.lines() {
        if let Some(next) = line.strip_prefix("= ") {
            head = next;
        } else if is_entry(line) && !is_right(alloc, kind, head, line) {
            return Some(line);
        }
    }
    None
}

#[test]
fn bodies_are_read_as_the_tables_say(rt: HostRuntime) {
    assert_eq!(rt; other(rt.alloc(), Kind::Case, READ_BLOCKS), None);
    assert_eq!(rt; other(rt.alloc(), Kind::Case, READ_STATEMENTS), None);
}

#[test]
fn bodies_are_refused_as_the_tables_say(rt: HostRuntime) {
    assert_eq!(rt; other(rt.alloc(), Kind::Case, REFUSED_TEXTS), None);
    assert_eq!(rt; other(rt.alloc(), Kind::Case, REFUSED_RULES), None);
}

#[test]
fn bodies_of_scripts_are_read(rt: HostRuntime) {
    assert_eq!(rt; other(rt.alloc(), Kind::Read, SCRIPT_BODIES), None);
}

// ---- depth

const HEAD: &str = "FUNCTION f(x integer, z boolean) RETURNS void";

// The body with so many parts one inside the other.
fn nested(alloc: Global, nest: Nest, count: usize) -> Words {
    let (before, opened, inside, closed, behind) = nest;
    let mut all = Words::new(alloc);
    all.push(before.as_bytes());
    for _ in 0..count {
        all.push(opened.as_bytes());
    }
    all.push(inside.as_bytes());
    for _ in 0..count {
        all.push(closed.as_bytes());
    }
    all.push(behind.as_bytes());
    all
}

// Whether the body is refused, at this token.
fn is_too_deep(alloc: Global, text: &str, token: &str) -> bool {
    answer(alloc, HEAD, text)
        .text()
        .strip_prefix("54001 token ")
        == Some(token)
}

#[test]
fn a_hundred_parts_are_read_and_no_more(rt: HostRuntime) {
    let alloc = rt.alloc();
    for (nest, token) in DEPTHS {
        let most = nested(alloc, nest, MOST_INSIDE);
        assert!(rt; is_read(alloc, HEAD, most.text()), "{token}");
        let more = nested(alloc, nest, MOST_INSIDE + 1);
        assert!(rt; is_too_deep(alloc, more.text(), token), "{token}");
    }
}
