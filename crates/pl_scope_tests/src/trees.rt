//! Resolved trees as words.

use crate::columns::type_name;
use pl_base::{Arithmetic, Boxed, Comparison, Operator, Ty, Value};
use pl_resolved::{Combination, RArm, RCase, RChain, RExpr, RPair, RStep};
use std::alloc::Global;

/// A text that is written bit by bit. No call fails: where there was no memory for a bit, the text is
/// one that no tree has.
#[derive(Drop)]
pub(crate) struct Words {
    alloc: Global,
    bytes: Vec<u8>,
    is_whole: bool,
}

impl Words {
    pub(crate) fn new(alloc: Global) -> Words {
        Words {
            alloc,
            bytes: Vec::new(alloc),
            is_whole: true,
        }
    }

    /// All that was written.
    pub(crate) fn text(&self) -> &[u8] {
        if self.is_whole {
            self.bytes.as_slice()
        } else {
            b"no memory"
        }
    }

    pub(crate) fn push(&mut self, bytes: &[u8]) {
        if self.bytes.extend_from_slice(bytes).is_err() {
            self.is_whole = false;
        }
    }

    /// A blank, unless nothing stands before it.
    pub(crate) fn part(&mut self) {
        if !self.bytes.is_empty() {
            self.push(b" ");
        }
    }

    fn number(&mut self, number: i64) {
        match format!(in self.alloc; "{number}") {
            Ok(digits) => self.push(digits.as_bytes()),
            Err(_) => self.is_whole = false,
        }
    }

    pub(crate) fn place(&mut self, place: usize) {
        match format!(in self.alloc; "{place}") {
            Ok(digits) => self.push(digits.as_bytes()),
            Err(_) => self.is_whole = false,
        }
    }
}

fn write_value(out: &mut Words, value: &Value) {
    match value {
        Value::Null => out.push(b"NULL"),
        Value::Int(number) => out.number(i64::from(*number)),
        Value::Big(number) => {
            out.number(*number);
            out.push(b"L");
        }
        Value::Text(text) => {
            out.push(b"'");
            out.push(text.as_bytes());
            out.push(b"'");
        }
        Value::Bool(true) => out.push(b"true"),
        Value::Bool(false) => out.push(b"false"),
        Value::Row(_) => out.push(b"?"),
    }
}

fn arithmetic(operator: Arithmetic) -> &'static [u8] {
    match operator {
        Arithmetic::Add => b"+",
        Arithmetic::Subtract => b"-",
        Arithmetic::Multiply => b"*",
        Arithmetic::Divide => b"/",
        Arithmetic::Remainder => b"%",
    }
}

fn comparison(operator: Comparison) -> &'static [u8] {
    match operator {
        Comparison::Equal => b"=",
        Comparison::NotEqual => b"<>",
        Comparison::Less => b"<",
        Comparison::Greater => b">",
        Comparison::LessOrEqual => b"<=",
        Comparison::GreaterOrEqual => b">=",
    }
}

fn sign(operator: Operator) -> &'static [u8] {
    match operator {
        Operator::Plus => b"+",
        Operator::Minus => b"-",
        Operator::Arithmetic(operator) => arithmetic(operator),
        Operator::Compare(operator) => comparison(operator),
        Operator::Distinct => b"DISTINCT",
        Operator::NotDistinct => b"NOT DISTINCT",
        Operator::Concatenate => b"||",
        Operator::Like => b"LIKE",
        Operator::And => b"AND",
        Operator::Or => b"OR",
        Operator::Not => b"NOT",
        Operator::Is(_) => b"IS",
        Operator::IsNot(_) => b"IS NOT",
    }
}

fn write_place(out: &mut Words, row: usize, column: usize) {
    out.place(row);
    out.push(b".");
    out.place(column);
}

fn write_query(out: &mut Words, query: usize) {
    out.push(b"#");
    out.place(query);
}

fn write_casts(out: &mut Words, types: &[Ty]) {
    for ty in types {
        out.push(b"::");
        out.push(type_name(ty));
    }
}

fn open_of_type(out: &mut Words, head: &[u8], ty: &Ty) {
    out.push(head);
    out.push(b" ");
    out.push(type_name(ty));
}

fn open_combination(out: &mut Words, combination: Combination) {
    match combination {
        Combination::Function(_) => out.push(b"(FUNCTION"),
        Combination::Greatest(ty) => open_of_type(out, b"(GREATEST", &ty),
        Combination::Least(ty) => open_of_type(out, b"(LEAST", &ty),
        Combination::NullIf => out.push(b"(NULLIF"),
        Combination::Between => out.push(b"(BETWEEN"),
        Combination::In(ty) => open_of_type(out, b"(IN", &ty),
    }
}

/// The tree: a place is its row and its column, a query its number behind `#`, a bigint has `L` behind
/// it. What is cast has the types behind it, and all else stands in brackets.
#[cycle(written)]
pub(crate) fn write_tree(out: &mut Words, tree: &RExpr) {
    match tree {
        RExpr::Constant(value) => write_value(out, value),
        RExpr::Place { row, column } => write_place(out, *row, *column),
        RExpr::Cast { operand, types } => {
            write_tree(out, operand.get());
            write_casts(out, types.as_slice());
        }
        RExpr::Unary {
            operator,
            times,
            operand,
        } => write_unary(out, operand.get(), *operator, *times),
        RExpr::Binary { operator, operands } => write_pair(out, operands.get(), *operator),
        RExpr::Chain(chain) => write_chain(out, chain.get()),
        RExpr::And(list) => {
            out.push(b"(AND");
            write_list(out, list.as_slice());
        }
        RExpr::Or(list) => {
            out.push(b"(OR");
            write_list(out, list.as_slice());
        }
        RExpr::Case(case) => write_case(out, case.get()),
        RExpr::Coalesce { operands, to } => {
            open_of_type(out, b"(COALESCE", to);
            write_list(out, operands.as_slice());
        }
        RExpr::Combined {
            combination,
            operands,
        } => {
            open_combination(out, *combination);
            write_list(out, operands.as_slice());
        }
        RExpr::Row { fields, types: _ } => {
            out.push(b"(ROW");
            write_list(out, fields.as_slice());
        }
        RExpr::Call { routine, arguments } => {
            out.push(b"(");
            out.push(routine.as_bytes());
            write_list(out, arguments.as_slice());
        }
        RExpr::Scalar(query) => write_query(out, *query),
        RExpr::Exists(query) => {
            out.push(b"(EXISTS ");
            write_query(out, *query);
            out.push(b")");
        }
        RExpr::InQuery { operand, query, to } => {
            open_of_type(out, b"(IN", to);
            out.push(b" ");
            write_tree(out, operand.get());
            out.push(b" ");
            write_query(out, *query);
            out.push(b")");
        }
    }
}

// The rest of what was opened.
#[cycle(written)]
fn write_list(out: &mut Words, list: &[RExpr]) {
    for tree in list {
        out.push(b" ");
        write_tree(out, tree);
    }
    out.push(b")");
}

#[cycle(written)]
fn write_unary(out: &mut Words, operand: &RExpr, operator: Operator, times: usize) {
    out.push(b"(");
    for _ in 0..times {
        out.push(sign(operator));
        out.push(b" ");
    }
    write_tree(out, operand);
    out.push(b")");
}

#[cycle(written)]
fn write_pair(out: &mut Words, pair: &RPair, operator: Operator) {
    out.push(b"(");
    write_tree(out, &pair.first);
    write_operand(out, &pair.second, operator);
    out.push(b")");
}

#[cycle(written)]
fn write_operand(out: &mut Words, operand: &RExpr, operator: Operator) {
    out.push(b" ");
    out.push(sign(operator));
    out.push(b" ");
    write_tree(out, operand);
}

#[cycle(written)]
fn write_chain(out: &mut Words, chain: &RChain) {
    out.push(b"(");
    write_tree(out, &chain.first);
    for step in chain.steps.as_slice() {
        write_step(out, step);
    }
    out.push(b")");
}

#[cycle(written)]
fn write_step(out: &mut Words, step: &RStep) {
    write_operand(out, &step.operand, step.operator);
}

#[cycle(written)]
fn write_case(out: &mut Words, case: &RCase) {
    open_of_type(out, b"(CASE", &case.to);
    write_option(out, &case.operand, b" OF ");
    for arm in case.arms.as_slice() {
        write_arm(out, arm);
    }
    write_option(out, &case.otherwise, b" ELSE ");
    out.push(b")");
}

#[cycle(written)]
fn write_arm(out: &mut Words, arm: &RArm) {
    out.push(b" WHEN ");
    write_tree(out, &arm.when);
    out.push(b" THEN ");
    write_tree(out, &arm.then);
}

#[cycle(written)]
fn write_option(out: &mut Words, option: &Option<Boxed<RExpr>>, word: &[u8]) {
    if let Some(tree) = option {
        out.push(word);
        write_tree(out, tree.get());
    }
}
