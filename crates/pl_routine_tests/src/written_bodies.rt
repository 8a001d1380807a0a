//! Bodies as words: blocks, declarations, and statements that hold others.

use crate::words::{Words, write_type};
use crate::written_statements::{
    write_change, write_condition, write_dynamic, write_simple, write_targets,
};
use pl_base::{Boxed, Name};
use pl_bodies::{
    Block, Body, Branch, CaseArm, Caught, CursorParameter, Declaration, DeclarationKind, Handler,
    Loop, LoopHead, Otherwise, RowSource, Statement, StatementKind, Target, VariableType,
};

// ---- declarations

fn write_variable_type(out: &mut Words, ty: &VariableType) {
    match ty {
        VariableType::Ty(ty) => write_type(out, ty),
        VariableType::Cursor => out.word("refcursor"),
        VariableType::OfVariable(name) => {
            out.name(name);
            out.push(b"%TYPE");
        }
        VariableType::OfColumn { table, column } => {
            out.name(table);
            out.push(b".");
            out.push(column.as_bytes());
            out.push(b"%TYPE");
        }
    }
}

fn write_parameters(out: &mut Words, parameters: &[CursorParameter]) {
    for parameter in parameters {
        out.name(&parameter.name);
        write_type(out, &parameter.ty);
    }
}

fn write_declared(out: &mut Words, name: &Name, kind: &DeclarationKind) {
    match kind {
        DeclarationKind::Variable {
            is_constant,
            ty,
            is_not_null,
            default,
        } => {
            out.word("declare");
            out.name(name);
            out.word_if(*is_constant, "constant");
            write_variable_type(out, ty);
            out.word_if(*is_not_null, "not-null");
            out.word_if(default.is_some(), "default");
        }
        DeclarationKind::Cursor {
            can_scroll,
            parameters,
            ..
        } => {
            out.word("cursor");
            out.name(name);
            out.word_if(*can_scroll, "scroll");
            write_parameters(out, parameters.as_slice());
        }
    }
}

fn write_declarations(out: &mut Words, declarations: &[Declaration]) {
    for declaration in declarations {
        out.open_line(declaration.line);
        write_declared(out, &declaration.name, &declaration.kind);
        out.close();
    }
}

// ---- the heads of loops

fn write_source(out: &mut Words, source: &RowSource) {
    match source {
        RowSource::Query(_) => out.word("query"),
        RowSource::Change(change) => write_change(out, change),
        RowSource::Execute(command) => write_dynamic(out, command),
    }
}

fn write_range(out: &mut Words, variable: &Name, is_reverse: bool, has_step: bool) {
    out.word("range");
    out.name(variable);
    out.word_if(is_reverse, "reverse");
    out.word_if(has_step, "by");
}

fn write_rows(out: &mut Words, targets: &[Target], source: &RowSource) {
    out.word("rows");
    write_targets(out, targets);
    write_source(out, source);
}

fn write_over(out: &mut Words, variable: &Name, cursor: &Name, arguments: usize) {
    out.word("over");
    out.name(variable);
    out.name(cursor);
    out.number(arguments as u64);
}

fn write_head(out: &mut Words, head: &LoopHead) {
    match head {
        LoopHead::Forever => out.word("forever"),
        LoopHead::While(_) => out.word("while"),
        LoopHead::Range {
            variable,
            is_reverse,
            step,
            ..
        } => write_range(out, variable, *is_reverse, step.is_some()),
        LoopHead::Rows { targets, source } => write_rows(out, targets.as_slice(), source),
        LoopHead::Cursor {
            variable,
            cursor,
            arguments,
        } => write_over(out, variable, cursor, arguments.len()),
    }
}

// ---- conditions of handlers

fn write_caught(out: &mut Words, conditions: &[Caught]) {
    for caught in conditions {
        match caught {
            Caught::Others => out.word("others"),
            Caught::Condition(condition) => write_condition(out, condition),
        }
    }
}

// ---- statements

#[cycle(written)]
fn write_statements(out: &mut Words, statements: &[Statement]) {
    for statement in statements {
        write_statement(out, statement);
    }
}

#[cycle(written)]
fn write_statement(out: &mut Words, statement: &Statement) {
    out.open_line(statement.line);
    out.push(b".");
    out.push_number(u64::from(statement.ordinal));
    write_kind(out, &statement.kind);
    out.close();
}

#[cycle(written)]
fn write_kind(out: &mut Words, kind: &StatementKind) {
    match kind {
        StatementKind::Block(block) => {
            out.word("block");
            write_block(out, block);
        }
        StatementKind::If {
            branches,
            otherwise,
        } => {
            out.word("if");
            write_branches(out, branches.as_slice());
            write_otherwise(out, otherwise);
        }
        StatementKind::Case {
            operand,
            arms,
            otherwise,
        } => {
            out.word("case");
            out.word_if(operand.is_some(), "of");
            write_arms(out, arms.as_slice());
            write_otherwise(out, otherwise);
        }
        StatementKind::Loop(inner) => write_loop(out, inner),
        StatementKind::Simple(simple) => write_simple(out, simple),
    }
}

#[cycle(written)]
fn write_branches(out: &mut Words, branches: &[Branch]) {
    for branch in branches {
        out.open("then");
        write_statements(out, branch.statements.as_slice());
        out.close();
    }
}

#[cycle(written)]
fn write_arms(out: &mut Words, arms: &[CaseArm]) {
    for arm in arms {
        out.open("when");
        out.number(arm.values.len() as u64);
        write_statements(out, arm.statements.as_slice());
        out.close();
    }
}

#[cycle(written)]
fn write_otherwise(out: &mut Words, otherwise: &Option<Boxed<Otherwise>>) {
    if let Some(otherwise) = otherwise {
        out.open("else");
        write_statements(out, otherwise.get().statements.as_slice());
        out.close();
    }
}

#[cycle(written)]
fn write_loop(out: &mut Words, inner: &Loop) {
    out.word("loop");
    out.name_behind("label", &inner.label);
    write_head(out, &inner.head);
    write_statements(out, inner.statements.as_slice());
    out.name_behind("end", &inner.end_label);
}

#[cycle(written)]
fn write_block(out: &mut Words, block: &Block) {
    out.name_behind("label", &block.label);
    write_declarations(out, block.declarations.as_slice());
    write_statements(out, block.statements.as_slice());
    write_handlers(out, block.handlers.as_slice());
    out.name_behind("end", &block.end_label);
}

#[cycle(written)]
fn write_handlers(out: &mut Words, handlers: &[Handler]) {
    for handler in handlers {
        out.open("when");
        write_caught(out, handler.conditions.as_slice());
        write_statements(out, handler.statements.as_slice());
        out.close();
    }
}

/// `(body` with the line of its BEGIN, and its parts.
pub(crate) fn write_body(out: &mut Words, body: &Body) {
    out.open("body");
    out.number(u64::from(body.line));
    write_block(out, &body.block);
    out.close();
}
