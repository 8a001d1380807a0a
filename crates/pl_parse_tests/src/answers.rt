//! What the parsers answer, as texts.

use crate::words::{Form, Words};
use crate::written_commands::write_command;
use crate::written_expressions::write_expr;
use crate::written_queries::write_query;
use pl_base::Held;
use pl_copies::Copied;
use pl_expr_parse::{parse_expr, parse_query};
use pl_grammar::ParseFail;
use pl_lex::{cut, lex};
use pl_sql_parse::parse_command;
use pl_tree::{Command, Expr, Query};
use std::alloc::Global;

/// What a text is read as.
#[derive(Clone, Copy)]
pub(crate) enum Kind {
    Expression,
    Query,
    Command,
}

/// Why a text has no tree.
#[derive(Drop)]
enum Refusal {
    /// A lexeme is bad, or there is no command.
    Lexeme,
    Parse(ParseFail),
}

// ---- the texts of refusals, which no tree has

pub(crate) const SYNTAX: &str = "!syntax";

pub(crate) const LEFT_OUT: &str = "!left-out";

fn write_refusal(out: &mut Words, refusal: Refusal) {
    match refusal {
        Refusal::Lexeme => out.word("!lexeme"),
        Refusal::Parse(ParseFail::Syntax) => out.word(SYNTAX),
        Refusal::Parse(ParseFail::TooDeep { at }) => {
            out.word("!deep ");
            out.push_number(at as u64);
        }
        Refusal::Parse(ParseFail::NotSupported) => out.word(LEFT_OUT),
        Refusal::Parse(ParseFail::Memory) => out.spoil(),
    }
}

// ---- what is read: a tree is held at once, so that no function lets go of a bare one

fn expr_of(alloc: Global, text: &str) -> Result<Held<Expr>, Refusal> {
    let Ok(tokens) = lex(alloc, text) else {
        return Err(Refusal::Lexeme);
    };
    parse_expr(alloc, tokens.as_slice())
        .map(Held::new)
        .map_err(Refusal::Parse)
}

fn query_of(alloc: Global, text: &str) -> Result<Held<Query>, Refusal> {
    let Ok(tokens) = lex(alloc, text) else {
        return Err(Refusal::Lexeme);
    };
    parse_query(alloc, tokens.as_slice())
        .map(Held::new)
        .map_err(Refusal::Parse)
}

fn command_of(alloc: Global, text: &str) -> Result<Held<Command>, Refusal> {
    let Ok(tokens) = lex(alloc, text) else {
        return Err(Refusal::Lexeme);
    };
    parse_command(alloc, tokens.as_slice(), text)
        .map(Held::new)
        .map_err(Refusal::Parse)
}

// The command that is looked for at the byte `from` of the script.
fn script_command(alloc: Global, script: &str, from: usize) -> Result<Held<Command>, Refusal> {
    let Ok(Some(piece)) = cut(alloc, script, from.min(script.len())) else {
        return Err(Refusal::Lexeme);
    };
    let Ok(tokens) = piece.tokens else {
        return Err(Refusal::Lexeme);
    };
    parse_command(alloc, tokens.as_slice(), script)
        .map(Held::new)
        .map_err(Refusal::Parse)
}

// ---- its words, written from a copy, so that copies are tried too

fn write_copy_of_expr(out: &mut Words, alloc: Global, expr: &Expr) {
    match expr.copy(alloc).map(Held::new) {
        Ok(copy) => write_expr(out, copy.get()),
        Err(_) => out.spoil(),
    }
}

fn write_copy_of_query(out: &mut Words, alloc: Global, query: &Query) {
    match query.copy(alloc).map(Held::new) {
        Ok(copy) => write_query(out, copy.get()),
        Err(_) => out.spoil(),
    }
}

fn write_copy_of_command(out: &mut Words, alloc: Global, command: &Command) {
    match command.copy(alloc).map(Held::new) {
        Ok(copy) => write_command(out, copy.get()),
        Err(_) => out.spoil(),
    }
}

fn write_read_expr(out: &mut Words, alloc: Global, read: Result<Held<Expr>, Refusal>) {
    match read {
        Ok(expr) => write_copy_of_expr(out, alloc, expr.get()),
        Err(refusal) => write_refusal(out, refusal),
    }
}

fn write_read_query(out: &mut Words, alloc: Global, read: Result<Held<Query>, Refusal>) {
    match read {
        Ok(query) => write_copy_of_query(out, alloc, query.get()),
        Err(refusal) => write_refusal(out, refusal),
    }
}

fn write_read_command(out: &mut Words, alloc: Global, read: Result<Held<Command>, Refusal>) {
    match read {
        Ok(command) => write_copy_of_command(out, alloc, command.get()),
        Err(refusal) => write_refusal(out, refusal),
    }
}

/// The tree that the text is read as, in this form, or why it has none.
pub(crate) fn answer(alloc: Global, kind: Kind, form: Form, text: &str) -> Words {
    let mut out = Words::new(alloc, form);
    match kind {
        Kind::Expression => write_read_expr(&mut out, alloc, expr_of(alloc, text)),
        Kind::Query => write_read_query(&mut out, alloc, query_of(alloc, text)),
        Kind::Command => write_read_command(&mut out, alloc, command_of(alloc, text)),
    }
    out
}

/// The same of the command that is looked for at the byte `from` of the script.
pub(crate) fn script_answer(alloc: Global, script: &str, from: usize) -> Words {
    let mut out = Words::new(alloc, Form::Prefix);
    write_read_command(&mut out, alloc, script_command(alloc, script, from));
    out
}

// ---- the text of a definition

pub(crate) const NO_DEFINITION: &str = "!no-definition";

fn write_source_of(out: &mut Words, command: &Command) {
    match command {
        Command::Define { source, .. } => out.push(source.as_bytes()),
        _ => out.word(NO_DEFINITION),
    }
}

fn write_source(out: &mut Words, read: Result<Held<Command>, Refusal>) {
    match read {
        Ok(command) => write_source_of(out, command.get()),
        Err(refusal) => write_refusal(out, refusal),
    }
}

/// The text of the definition that the text is read as.
pub(crate) fn source(alloc: Global, text: &str) -> Words {
    let mut out = Words::new(alloc, Form::Prefix);
    write_source(&mut out, command_of(alloc, text));
    out
}

/// The same of the one that is looked for at the byte `from` of the script.
pub(crate) fn script_source(alloc: Global, script: &str, from: usize) -> Words {
    let mut out = Words::new(alloc, Form::Prefix);
    write_source(&mut out, script_command(alloc, script, from));
    out
}
