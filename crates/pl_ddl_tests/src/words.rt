//! Tables and functions as words.

use pl_base::{Comparison, List, Operator, Ty, Value};
use pl_catalog::{Column, Routine, Rule, RuleKind, TableDef};
use pl_resolved::{RExpr, RPair};
use pl_tree::{Param, ResultType};
use std::alloc::Global;

/// A text that is written bit by bit. No call fails: where there was no memory for a bit, the text is
/// one that no table has.
#[derive(Drop)]
pub(crate) struct Words {
    alloc: Global,
    bytes: Vec<u8>,
    is_whole: bool,
}

impl Words {
    pub(crate) fn new(alloc: Global) -> Words {
        Words {
            alloc,
            bytes: Vec::new(alloc),
            is_whole: true,
        }
    }

    /// All that was written.
    pub(crate) fn text(&self) -> &[u8] {
        if self.is_whole {
            self.bytes.as_slice()
        } else {
            b"no memory"
        }
    }

    pub(crate) fn push(&mut self, bytes: &[u8]) {
        if self.bytes.extend_from_slice(bytes).is_err() {
            self.is_whole = false;
        }
    }

    fn number(&mut self, number: i64) {
        match format!(in self.alloc; "{number}") {
            Ok(digits) => self.push(digits.as_bytes()),
            Err(_) => self.is_whole = false,
        }
    }

    fn place(&mut self, place: usize) {
        match format!(in self.alloc; "{place}") {
            Ok(digits) => self.push(digits.as_bytes()),
            Err(_) => self.is_whole = false,
        }
    }
}

fn type_name(ty: &Ty) -> &'static [u8] {
    match ty {
        Ty::Int => b"integer",
        Ty::Big => b"bigint",
        Ty::Text => b"text",
        Ty::Bool => b"boolean",
        Ty::Void => b"void",
        _ => b"no type of a value",
    }
}

fn write_value(out: &mut Words, value: &Value) {
    match value {
        Value::Null => out.push(b"NULL"),
        Value::Int(number) => out.number(i64::from(*number)),
        Value::Big(number) => out.number(*number),
        Value::Text(text) => {
            out.push(b"'");
            out.push(text.as_bytes());
            out.push(b"'");
        }
        Value::Bool(true) => out.push(b"true"),
        Value::Bool(false) => out.push(b"false"),
        Value::Row(_) => out.push(b"a row"),
    }
}

// A constant, a column, and casts of these.
fn write_operand(out: &mut Words, e: &RExpr) {
    match e {
        RExpr::Constant(value) => write_value(out, value),
        RExpr::Place { row, column } => {
            out.place(*row);
            out.push(b".");
            out.place(*column);
        }
        _ => out.push(b"another"),
    }
}

fn write_casts(out: &mut Words, types: &[Ty]) {
    for ty in types {
        out.push(b"::");
        out.push(type_name(ty));
    }
}

fn write_inner(out: &mut Words, e: &RExpr) {
    match e {
        RExpr::Cast { operand, types } => {
            write_operand(out, operand.get());
            write_casts(out, types.as_slice());
        }
        _ => write_operand(out, e),
    }
}

fn write_pair(out: &mut Words, operator: &Operator, pair: &RPair) {
    out.push(b"(");
    write_inner(out, &pair.first);
    match operator {
        Operator::Compare(Comparison::Less) => out.push(b" < "),
        Operator::Compare(Comparison::Greater) => out.push(b" > "),
        _ => out.push(b" another "),
    }
    write_inner(out, &pair.second);
    out.push(b")");
}

fn write_tree(out: &mut Words, e: &RExpr) {
    match e {
        RExpr::Binary { operator, operands } => write_pair(out, operator, operands.get()),
        RExpr::Cast { operand, types } => {
            write_inner(out, operand.get());
            write_casts(out, types.as_slice());
        }
        _ => write_operand(out, e),
    }
}

fn write_column(out: &mut Words, column: &Column) {
    out.push(column.name.as_bytes());
    out.push(b" ");
    out.push(type_name(&column.ty));
    if column.is_not_null {
        out.push(b" not-null");
    }
    if let Some(default) = &column.default {
        out.push(b" default ");
        write_tree(out, default.get());
    }
}

fn write_places(out: &mut Words, places: &List<usize>) {
    for place in places.as_slice() {
        out.push(b" ");
        out.place(*place);
    }
}

fn write_rule(out: &mut Words, rule: &Rule) {
    out.push(rule.name.as_bytes());
    match &rule.kind {
        RuleKind::Check(e) => {
            out.push(b" check ");
            write_tree(out, e);
        }
        RuleKind::Primary(places) => {
            out.push(b" primary");
            write_places(out, places);
        }
        RuleKind::Unique(places) => {
            out.push(b" unique");
            write_places(out, places);
        }
        RuleKind::Foreign { .. } => out.push(b" foreign"),
    }
}

/// `t: a integer, b text not-null | t_pkey primary 1`: the columns, and the rules with the places of
/// their columns.
pub(crate) fn write_table(out: &mut Words, table: &TableDef) {
    out.push(table.name.as_bytes());
    let mut before: &[u8] = b": ";
    for column in table.columns.as_slice() {
        out.push(before);
        write_column(out, column);
        before = b", ";
    }
    before = b" | ";
    for rule in table.rules.as_slice() {
        out.push(before);
        write_rule(out, rule);
        before = b", ";
    }
}

fn write_param(out: &mut Words, param: &Param) {
    if let Some(name) = &param.name {
        out.push(name.as_bytes());
        out.push(b" ");
    }
    out.push(type_name(&param.ty));
}

fn write_result(out: &mut Words, given: &ResultType) {
    match given {
        ResultType::One(ty) => out.push(type_name(ty)),
        _ => out.push(b"no single value"),
    }
}

/// A function with its parameters and its result.
pub(crate) fn write_routine(out: &mut Words, routine: &Routine) {
    out.push(routine.name.as_bytes());
    out.push(b"(");
    let mut is_first = true;
    for param in routine.heading.params.as_slice() {
        if !is_first {
            out.push(b", ");
        }
        is_first = false;
        write_param(out, param);
    }
    out.push(b") ");
    write_result(out, &routine.heading.result);
}
