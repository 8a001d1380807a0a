//! What bodies are read as, as texts.

use crate::words::Words;
use crate::written_bodies::write_body;
use pl_base::{Held, State};
use pl_body_rules::{Heading, Kind};
use pl_lex::lex;
use pl_routine::{BodyFail, read_body};
use pl_sql_parse::parse_command;
use pl_tree::{Command, Definition, NewRoutine, ResultType, RoutineKind};
use std::alloc::Global;

/// The tables have no longer body.
const MOST_BYTES: usize = 1_048_576;

fn write_state(out: &mut Words, state: &State) {
    out.push(&state.code);
}

fn write_refused(out: &mut Words, fail: BodyFail) {
    match fail.state() {
        Some(state) => write_state(out, &state),
        None => out.spoil(),
    }
}

fn write_place(out: &mut Words, word: &str, place: usize) {
    out.word(word);
    out.number(place as u64);
}

fn write_failure(out: &mut Words, fail: BodyFail) {
    write_refused(out, fail);
    match fail {
        BodyFail::Bad(bad) => write_place(out, "byte", bad.at),
        BodyFail::TooDeep { at } => write_place(out, "token", at),
        BodyFail::Breach(breach) => write_place(out, "line", breach.line as usize),
        BodyFail::Syntax | BodyFail::Memory => {}
    }
}

// What the text is read as, where this is declared of the routine.
fn write_answer(out: &mut Words, alloc: Global, text: &str, heading: &Heading<'_>) {
    if text.len() > MOST_BYTES {
        out.spoil();
        return;
    }
    match read_body(alloc, text, heading).map(Held::new) {
        Ok(body) => write_body(out, body.get()),
        Err(fail) => write_failure(out, fail),
    }
}

// ---- what is declared of the routine

fn kind_of(kind: RoutineKind) -> Kind {
    match kind {
        RoutineKind::Function => Kind::Function,
        RoutineKind::Procedure => Kind::Procedure,
    }
}

fn write_in_routine(out: &mut Words, alloc: Global, text: &str, routine: &NewRoutine) {
    let heading = Heading {
        name: Some(routine.name),
        kind: kind_of(routine.kind),
        params: routine.params.as_slice(),
        result: &routine.result,
    };
    write_answer(out, alloc, text, &heading);
}

// The same of the routine that the command makes.
fn write_in_command(out: &mut Words, alloc: Global, text: &str, command: &Command) {
    match command {
        Command::Define {
            definition: Definition::CreateRoutine(routine),
            ..
        } => write_in_routine(out, alloc, text, routine),
        _ => out.spoil(),
    }
}

fn write_in_do(out: &mut Words, alloc: Global, text: &str) {
    let result = ResultType::Absent;
    let heading = Heading {
        name: None,
        kind: Kind::Do,
        params: &[],
        result: &result,
    };
    write_answer(out, alloc, text, &heading);
}

fn command_of(alloc: Global, text: &str) -> Option<Held<Command>> {
    let Ok(tokens) = lex(alloc, text) else {
        return None;
    };
    parse_command(alloc, tokens.as_slice(), text)
        .map(Held::new)
        .ok()
}

// The command that makes the routine of this head, with an empty body.
fn creation(alloc: Global, head: &str) -> Option<Held<Command>> {
    let mut text = Words::new(alloc);
    text.word("CREATE");
    text.word(head);
    text.word("LANGUAGE plpgsql AS ''");
    command_of(alloc, text.text())
}

/// The outline of the body of the routine of this head, or why it is refused.
pub(crate) fn answer(alloc: Global, head: &str, text: &str) -> Words {
    let mut out = Words::new(alloc);
    if head == "DO" {
        write_in_do(&mut out, alloc, text);
        return out;
    }
    match creation(alloc, head) {
        Some(command) => write_in_command(&mut out, alloc, text, command.get()),
        None => out.spoil(),
    }
    out
}
