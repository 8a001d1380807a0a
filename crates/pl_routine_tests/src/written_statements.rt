//! Statements that hold no other as words.

use crate::words::Words;
use pl_base::Name;
use pl_bodies::{
    Change, Condition, Direction, Dynamic, IntoClause, Jump, Level, Motion, OpenSource, Raise,
    RaiseOption, RaiseOptionKind, Raised, Simple, StackedItem, StackedTarget, Target,
};
use pl_tree::Command;

// ---- where values go

fn write_target(out: &mut Words, target: &Target) {
    match &target.qualifier {
        None => out.name(&target.name),
        Some(qualifier) => {
            out.name(qualifier);
            out.push(b".");
            out.push(target.name.as_bytes());
        }
    }
}

/// Variables with blanks between them.
pub(crate) fn write_targets(out: &mut Words, targets: &[Target]) {
    for target in targets {
        write_target(out, target);
    }
}

fn write_into(out: &mut Words, into: &Option<IntoClause>) {
    if let Some(into) = into {
        out.word("into");
        out.word_if(into.is_strict, "strict");
        write_targets(out, into.targets.as_slice());
    }
}

fn stacked_word(item: StackedItem) -> &'static str {
    match item {
        StackedItem::ReturnedSqlstate => "returned_sqlstate",
        StackedItem::MessageText => "message_text",
        StackedItem::PgExceptionDetail => "pg_exception_detail",
        StackedItem::PgExceptionHint => "pg_exception_hint",
    }
}

fn write_stacked(out: &mut Words, items: &[StackedTarget]) {
    for item in items {
        write_target(out, &item.target);
        out.word(stacked_word(item.item));
    }
}

// ---- commands

fn change_word(change: &Change) -> &'static str {
    match change {
        Change::Insert(_) => "insert",
        Change::Update(_) => "update",
        Change::Delete(_) => "delete",
    }
}

/// INSERT, UPDATE or DELETE.
pub(crate) fn write_change(out: &mut Words, change: &Change) {
    out.word(change_word(change));
}

/// EXECUTE with the number of the values behind USING.
pub(crate) fn write_dynamic(out: &mut Words, command: &Dynamic) {
    out.word("execute");
    out.number(command.arguments.len() as u64);
}

fn command_word(command: &Command) -> &'static str {
    match command {
        Command::Define { .. } => "define",
        Command::Do { .. } => "do",
        Command::Call { .. } => "call",
        Command::StartTransaction => "start",
        Command::Savepoint(_) => "savepoint",
        Command::Release(_) => "release",
        _ => "another",
    }
}

// A definition has its own text too.
fn write_command(out: &mut Words, command: &Command) {
    out.word("command");
    out.word(command_word(command));
    if let Command::Define { source, .. } = command {
        out.quoted(source.as_bytes());
    }
}

// ---- RAISE

fn level_word(level: Level) -> &'static str {
    match level {
        Level::Debug => "debug",
        Level::Log => "log",
        Level::Info => "info",
        Level::Notice => "notice",
        Level::Warning => "warning",
        Level::Exception => "exception",
    }
}

fn option_word(kind: RaiseOptionKind) -> &'static str {
    match kind {
        RaiseOptionKind::Message => "message",
        RaiseOptionKind::Detail => "detail",
        RaiseOptionKind::Hint => "hint",
        RaiseOptionKind::Errcode => "errcode",
    }
}

fn write_options(out: &mut Words, options: &[RaiseOption]) {
    out.word_if(!options.is_empty(), "using");
    for option in options {
        out.word(option_word(option.kind));
    }
}

/// A name, or a SQLSTATE in quotes.
pub(crate) fn write_condition(out: &mut Words, condition: &Condition) {
    match condition {
        Condition::Name(name) => out.name(name),
        Condition::Code(code) => out.quoted(code.as_bytes()),
    }
}

fn write_raise(out: &mut Words, raise: &Raise) {
    out.word("raise");
    out.word(level_word(raise.level));
    match &raise.raised {
        Raised::Text { format, arguments } => {
            out.quoted(format.as_bytes());
            out.number(arguments.len() as u64);
        }
        Raised::Condition(condition) => write_condition(out, condition),
        Raised::Nothing => {}
    }
    write_options(out, raise.options.as_slice());
}

// ---- cursors

fn direction_word(direction: &Direction) -> &'static str {
    match direction {
        Direction::Next => "next",
        Direction::Prior => "prior",
        Direction::First => "first",
        Direction::Last => "last",
        Direction::Absolute(_) => "absolute",
        Direction::Relative(_) => "relative",
    }
}

fn motion_word(motion: &Motion) -> &'static str {
    match motion {
        Motion::To(direction) => direction_word(direction),
        Motion::Forward(_) => "forward",
        Motion::ForwardAll => "forward-all",
        Motion::Backward(_) => "backward",
        Motion::BackwardAll => "backward-all",
    }
}

fn write_opened(out: &mut Words, source: &OpenSource) {
    match source {
        OpenSource::Bound(arguments) => out.number(arguments.len() as u64),
        OpenSource::Query { can_scroll, .. } => {
            out.word_if(*can_scroll, "scroll");
            out.word("query");
        }
        OpenSource::Execute {
            can_scroll,
            command,
        } => {
            out.word_if(*can_scroll, "scroll");
            write_dynamic(out, command);
        }
    }
}

fn write_open(out: &mut Words, cursor: &Name, source: &OpenSource) {
    out.word("open");
    out.name(cursor);
    write_opened(out, source);
}

fn write_fetch(out: &mut Words, cursor: &Name, direction: &Direction, targets: &[Target]) {
    out.word("fetch");
    out.name(cursor);
    out.word(direction_word(direction));
    write_targets(out, targets);
}

// ---- all

fn jump_word(jump: Jump) -> &'static str {
    match jump {
        Jump::Exit => "exit",
        Jump::Continue => "continue",
    }
}

fn write_jump(out: &mut Words, jump: Jump, label: &Option<Name>, has_condition: bool) {
    out.word(jump_word(jump));
    if let Some(label) = label {
        out.name(label);
    }
    out.word_if(has_condition, "when");
}

fn write_with(out: &mut Words, word: &str, has_part: bool, part: &str) {
    out.word(word);
    out.word_if(has_part, part);
}

fn write_query_into(out: &mut Words, into: &Option<IntoClause>) {
    out.word("query");
    write_into(out, into);
}

fn write_change_into(out: &mut Words, change: &Change, into: &Option<IntoClause>) {
    write_change(out, change);
    write_into(out, into);
}

fn write_execute_into(out: &mut Words, command: &Dynamic, into: &Option<IntoClause>) {
    write_dynamic(out, command);
    write_into(out, into);
}

fn write_assigned(out: &mut Words, target: &Target) {
    out.word("assign");
    write_target(out, target);
}

fn write_moved(out: &mut Words, cursor: &Name, motion: &Motion) {
    out.word("move");
    out.name(cursor);
    out.word(motion_word(motion));
}

fn write_closed(out: &mut Words, cursor: &Name) {
    out.word("close");
    out.name(cursor);
}

fn write_returned(out: &mut Words, command: &Dynamic) {
    out.word("return-execute");
    out.number(command.arguments.len() as u64);
}

fn write_got(out: &mut Words, targets: &[Target]) {
    out.word("get");
    write_targets(out, targets);
}

fn write_got_stacked(out: &mut Words, items: &[StackedTarget]) {
    out.word("get-stacked");
    write_stacked(out, items);
}

/// The statement's kind, the names in it, and its other parts by their number.
pub(crate) fn write_simple(out: &mut Words, simple: &Simple) {
    match simple {
        Simple::Assign { target, .. } => write_assigned(out, target),
        Simple::Null => out.word("null"),
        Simple::Commit => out.word("commit"),
        Simple::Rollback => out.word("rollback"),
        Simple::Perform(_) => out.word("perform"),
        Simple::Query { into, .. } => write_query_into(out, into),
        Simple::Change { change, into } => write_change_into(out, change, into),
        Simple::Command(command) => write_command(out, command),
        Simple::Jump {
            jump,
            label,
            condition,
        } => write_jump(out, *jump, label, condition.is_some()),
        Simple::Return(value) => write_with(out, "return", value.is_some(), "value"),
        Simple::ReturnNext(value) => write_with(out, "return-next", value.is_some(), "value"),
        Simple::ReturnQuery(_) => out.word("return-query"),
        Simple::ReturnExecute(command) => write_returned(out, command),
        Simple::RaiseAgain => out.word("raise-again"),
        Simple::Raise(raise) => write_raise(out, raise),
        Simple::Assert { message, .. } => {
            write_with(out, "assert", message.is_some(), "message");
        }
        Simple::Execute { command, into } => write_execute_into(out, command, into),
        Simple::Open { cursor, source } => write_open(out, cursor, source),
        Simple::Fetch {
            cursor,
            direction,
            targets,
        } => write_fetch(out, cursor, direction, targets.as_slice()),
        Simple::Move { cursor, motion } => write_moved(out, cursor, motion),
        Simple::Close(cursor) => write_closed(out, cursor),
        Simple::GetDiagnostics(targets) => write_got(out, targets.as_slice()),
        Simple::GetStackedDiagnostics(items) => write_got_stacked(out, items.as_slice()),
    }
}
