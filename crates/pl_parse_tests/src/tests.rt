//! What the parsers answer to the texts of the tables.

use crate::answers::{
    Kind, LEFT_OUT, NO_DEFINITION, SYNTAX, answer, script_answer, script_source, source,
};
use crate::commands::COMMANDS;
use crate::depths::DEPTHS;
use crate::expressions::EXPRESSIONS;
use crate::left_out_commands::{LEFT_OUT_COMMANDS, LEFT_OUT_DEFINITIONS, LEFT_OUT_WORDS};
use crate::no_commands::NO_COMMANDS;
use crate::no_definitions::NO_DEFINITIONS;
use crate::queries::QUERIES;
use crate::refusals::{NO_EXPRESSIONS, NO_QUERIES};
use crate::script_commands::SCRIPTS;
use crate::scripts::{SCRIPT_EXPRESSIONS, SCRIPT_QUERIES};
use crate::sources::{SCRIPT_SOURCES, SOURCE_SCRIPT, SOURCES};
use crate::words::{Form, Words};
use pl_lex::cut;
use std::alloc::Global;

/// How many brackets may be open, and one more.
const TOO_MANY: usize = 101;

// Whether the text is answered so.
fn is_answered(alloc: Global, kind: Kind, text: &str, want: &str) -> bool {
    answer(alloc, kind, Form::Prefix, text).text() == want
}

// Whether the text is read as this tree again once each part is in brackets.
fn is_read_in_brackets(alloc: Global, kind: Kind, text: &str, want: &str) -> bool {
    let bracketed = answer(alloc, kind, Form::Sql, text);
    is_answered(alloc, kind, bracketed.text(), want)
}

// Whether the whole text is that of the definition, if it is one.
fn is_source(alloc: Global, text: &str) -> bool {
    let found = source(alloc, text);
    found.text() == text || found.text() == NO_DEFINITION
}

// Whether the text of the line is read as its tree.
fn is_told(alloc: Global, kind: Kind, line: &str) -> bool {
    let Some((text, want)) = line.split_once("  ->  ") else {
        return false;
    };
    is_answered(alloc, kind, text, want)
        && match kind {
            Kind::Expression | Kind::Query => is_read_in_brackets(alloc, kind, text, want),
            Kind::Command => is_source(alloc, text),
        }
}

// Whether the line has an entry.
fn is_entry(line: &str) -> bool {
    !line.is_empty() && !line.starts_with("--")
}

/// The first line of a table whose text is read otherwise than there.
fn other(alloc: Global, kind: Kind, table: &str) -> Option<&str> {
    for line in table.lines() {
        if is_entry(line) && !is_told(alloc, kind, line) {
            return Some(line);
        }
    }
    None
}

#[test]
fn texts_are_read_as_their_trees(rt: HostRuntime) {
    let alloc = rt.alloc();
    assert_eq!(rt; other(alloc, Kind::Expression, EXPRESSIONS), None);
    assert_eq!(rt; other(alloc, Kind::Expression, SCRIPT_EXPRESSIONS), None);
    assert_eq!(rt; other(alloc, Kind::Query, QUERIES), None);
    assert_eq!(rt; other(alloc, Kind::Query, SCRIPT_QUERIES), None);
    assert_eq!(rt; other(alloc, Kind::Command, COMMANDS), None);
}

// ---- refusals

/// The first line that is read, or refused for another cause than its syntax.
fn read(alloc: Global, kind: Kind, table: &str) -> Option<&str> {
    for line in table.lines() {
        if is_entry(line) && !is_answered(alloc, kind, line, SYNTAX) {
            return Some(line);
        }
    }
    None
}

#[test]
fn what_no_tree_spells_is_refused(rt: HostRuntime) {
    let alloc = rt.alloc();
    assert_eq!(rt; read(alloc, Kind::Expression, NO_EXPRESSIONS), None);
    assert_eq!(rt; read(alloc, Kind::Query, NO_QUERIES), None);
    assert!(rt; is_answered(alloc, Kind::Command, "", SYNTAX));
    assert_eq!(rt; read(alloc, Kind::Command, NO_COMMANDS), None);
    assert_eq!(rt; read(alloc, Kind::Command, NO_DEFINITIONS), None);
}

// ---- commands that are left out

// Whether the command between these two is answered so.
fn is_answered_between(alloc: Global, before: &str, text: &str, behind: &str, want: &str) -> bool {
    let mut all = Words::new(alloc, Form::Prefix);
    all.push(before.as_bytes());
    all.push(text.as_bytes());
    all.push(behind.as_bytes());
    is_answered(alloc, Kind::Command, all.text(), want)
}

// Whether the command is left out, also where it would be too deep.
fn is_left_out(alloc: Global, text: &str) -> bool {
    let deep = nested(alloc, text, TOO_MANY, "", 0);
    is_answered(alloc, Kind::Command, text, LEFT_OUT)
        && is_answered(alloc, Kind::Command, deep.text(), LEFT_OUT)
}

// Whether the word begins a command that is left out, whatever stands behind it, but in quotes none.
fn leaves_out(alloc: Global, word: &str) -> bool {
    is_left_out(alloc, word)
        && is_answered_between(alloc, "", word, " t", LEFT_OUT)
        && is_answered_between(alloc, "", word, "(1 + 'x'", LEFT_OUT)
        && is_answered_between(alloc, "\"", word, "\" t", SYNTAX)
}

/// The first word that does not.
fn other_word(alloc: Global, table: &str) -> Option<&str> {
    for line in table.lines() {
        if is_entry(line) && !leaves_out(alloc, line) {
            return Some(line);
        }
    }
    None
}

/// The first line that is no command that is left out.
fn not_left_out(alloc: Global, table: &str) -> Option<&str> {
    for line in table.lines() {
        if is_entry(line) && !is_left_out(alloc, line) {
            return Some(line);
        }
    }
    None
}

#[test]
fn first_words_tell_what_is_left_out(rt: HostRuntime) {
    let alloc = rt.alloc();
    assert_eq!(rt; other_word(alloc, LEFT_OUT_WORDS), None);
    assert_eq!(rt; not_left_out(alloc, LEFT_OUT_COMMANDS), None);
    assert_eq!(rt; not_left_out(alloc, LEFT_OUT_DEFINITIONS), None);
}

// ---- depth

/// The text with so many opening brackets and so many closing ones round its end.
fn nested(alloc: Global, before: &str, opened: usize, inside: &str, closed: usize) -> Words {
    let mut all = Words::new(alloc, Form::Prefix);
    all.push(before.as_bytes());
    for _ in 0..opened {
        all.push(b"(");
    }
    all.push(inside.as_bytes());
    for _ in 0..closed {
        all.push(b")");
    }
    all
}

#[test]
fn a_hundred_brackets_are_read_and_no_more(rt: HostRuntime) {
    let alloc = rt.alloc();
    for (kind, before, opened, inside, closed, want) in DEPTHS {
        let text = nested(alloc, before, opened, inside, closed);
        let told = answer(alloc, kind, Form::Prefix, text.text());
        assert_eq!(rt; told.text(), want, "{before}{opened} brackets");
    }
}

// ---- the text of a definition

#[test]
fn a_definition_has_its_text(rt: HostRuntime) {
    let alloc = rt.alloc();
    for (text, want) in SOURCES {
        assert_eq!(rt; source(alloc, text).text(), want);
    }
    for (from, want) in SCRIPT_SOURCES {
        assert_eq!(rt; script_source(alloc, SOURCE_SCRIPT, from).text(), want);
    }
}

// ---- scripts

/// How many commands the script has, if each is read, or where the first is looked for that is not.
fn commands_read(alloc: Global, script: &str) -> Result<usize, usize> {
    let mut from = 0;
    for count in 0..script.len() {
        let end = match cut(alloc, script, from.min(script.len())) {
            Ok(Some(piece)) => piece.end,
            Ok(None) => return Ok(count),
            Err(_) => return Err(from),
        };
        if !script_answer(alloc, script, from).text().starts_with('(') {
            return Err(from);
        }
        from = end + 1;
    }
    Err(from)
}

#[test]
fn commands_of_scripts_are_read(rt: HostRuntime) {
    assert_eq!(rt; commands_read(rt.alloc(), SCRIPTS), Ok(180));
}
