//! The words of a tree that have no parts of it inside.

use crate::words::Words;
use pl_base::{Arithmetic, Comparison, Name, Test, Ty};
use pl_tree::{JoinKind, Literal, Nulls, Pick, Sign};

fn is_word_byte(byte: u8) -> bool {
    byte.is_ascii_lowercase() || byte.is_ascii_digit() || byte == b'_' || byte == b'$'
}

// Whether the name is read without quotes, if it is no reserved word.
fn is_plain(name: &[u8]) -> bool {
    match name.first() {
        Some(first) => {
            (first.is_ascii_lowercase() || *first == b'_')
                && name.iter().all(|byte| is_word_byte(*byte))
        }
        None => false,
    }
}

fn push_name(out: &mut Words, name: &Name) {
    if !out.is_sql() && is_plain(name.as_bytes()) {
        out.push(name.as_bytes());
    } else {
        out.push_quoted(b'"', name.as_bytes());
    }
}

/// The name, in quotes where it needs them, and in SQL always.
pub(crate) fn write_name(out: &mut Words, name: &Name) {
    out.begin();
    push_name(out, name);
}

pub(crate) fn write_qualified(out: &mut Words, qualifier: &Name, name: &Name) {
    write_name(out, qualifier);
    out.push(b".");
    push_name(out, name);
}

pub(crate) fn write_all_of(out: &mut Words, qualifier: &Name) {
    write_name(out, qualifier);
    out.push(b".*");
}

fn write_number(out: &mut Words, is_negative: bool, size: u64) {
    out.begin();
    if is_negative {
        out.push(b"-");
    }
    out.push_number(size);
}

pub(crate) fn write_text(out: &mut Words, text: &[u8]) {
    out.begin();
    out.push_quoted(b'\'', text);
}

pub(crate) fn write_literal(out: &mut Words, literal: &Literal) {
    match literal {
        Literal::Null => out.word("NULL"),
        Literal::Bool(true) => out.word("TRUE"),
        Literal::Bool(false) => out.word("FALSE"),
        Literal::Number { is_negative, size } => write_number(out, *is_negative, *size),
        Literal::Text(text) => write_text(out, text.as_bytes()),
    }
}

pub(crate) fn write_parameter(out: &mut Words, number: u16) {
    out.begin();
    out.push(b"$");
    out.push_number(u64::from(number));
}

fn write_row_type(out: &mut Words, name: &Name) {
    out.begin();
    out.push_quoted(b'"', name.as_bytes());
}

pub(crate) fn write_type(out: &mut Words, ty: &Ty) {
    match ty {
        Ty::Unknown => out.word("no-type"),
        Ty::Int => out.word("integer"),
        Ty::Big => out.word("bigint"),
        Ty::Text => out.word("text"),
        Ty::Bool => out.word("boolean"),
        Ty::Row(name) => write_row_type(out, name),
        Ty::Rec => out.word("record"),
        Ty::Void => out.word("void"),
        Ty::Trigger => out.word("trigger"),
    }
}

/// Casts to each type in turn.
pub(crate) fn write_casts(out: &mut Words, types: &[Ty]) {
    for ty in types {
        out.sql("::");
        write_type(out, ty);
    }
}

pub(crate) fn write_signs(out: &mut Words, signs: &[Sign]) {
    for sign in signs {
        match sign {
            Sign::Plus => out.word("+"),
            Sign::Minus => out.word("-"),
        }
    }
}

/// So many NOT.
pub(crate) fn write_nots(out: &mut Words, count: usize) {
    if out.is_sql() {
        for _ in 0..count {
            out.word("NOT");
        }
    } else {
        out.begin();
        out.push_number(count as u64);
    }
}

/// One of two words.
pub(crate) fn either(is_second: bool, first: &'static str, second: &'static str) -> &'static str {
    if is_second { second } else { first }
}

pub(crate) fn write_arithmetic(out: &mut Words, operator: Arithmetic) {
    out.word(match operator {
        Arithmetic::Add => "+",
        Arithmetic::Subtract => "-",
        Arithmetic::Multiply => "*",
        Arithmetic::Divide => "/",
        Arithmetic::Remainder => "%",
    });
}

pub(crate) fn comparison_word(comparison: Comparison) -> &'static str {
    match comparison {
        Comparison::Equal => "=",
        Comparison::NotEqual => "<>",
        Comparison::Less => "<",
        Comparison::Greater => ">",
        Comparison::LessOrEqual => "<=",
        Comparison::GreaterOrEqual => ">=",
    }
}

pub(crate) fn pick_word(pick: Pick) -> &'static str {
    match pick {
        Pick::Coalesce => "coalesce",
        Pick::Greatest => "greatest",
        Pick::Least => "least",
    }
}

pub(crate) fn test_head(is_negated: bool, test: Test) -> &'static str {
    match test {
        Test::Null => either(is_negated, "is-null", "is-not-null"),
        Test::True => either(is_negated, "is-true", "is-not-true"),
        Test::False => either(is_negated, "is-false", "is-not-false"),
        Test::Unknown => either(is_negated, "is-unknown", "is-not-unknown"),
    }
}

pub(crate) fn test_words(is_negated: bool, test: Test) -> &'static str {
    match test {
        Test::Null => either(is_negated, "IS NULL", "IS NOT NULL"),
        Test::True => either(is_negated, "IS TRUE", "IS NOT TRUE"),
        Test::False => either(is_negated, "IS FALSE", "IS NOT FALSE"),
        Test::Unknown => either(is_negated, "IS UNKNOWN", "IS NOT UNKNOWN"),
    }
}

pub(crate) fn join_head(kind: JoinKind) -> &'static str {
    match kind {
        JoinKind::Inner => "inner",
        JoinKind::Left => "left",
        JoinKind::Cross => "cross",
    }
}

pub(crate) fn join_words(kind: JoinKind) -> &'static str {
    match kind {
        JoinKind::Inner => "INNER JOIN",
        JoinKind::Left => "LEFT OUTER JOIN",
        JoinKind::Cross => "CROSS JOIN",
    }
}

/// How a key sorts: only what isn't said by itself in the prefix form.
pub(crate) fn write_direction(out: &mut Words, is_descending: bool) {
    if is_descending {
        out.word("desc");
    } else {
        out.sql("ASC");
    }
}

fn nulls_word(nulls: Nulls) -> &'static str {
    match nulls {
        Nulls::First => "first",
        Nulls::Last => "last",
    }
}

pub(crate) fn write_nulls(out: &mut Words, nulls: Option<Nulls>) {
    if let Some(nulls) = nulls {
        if out.is_sql() {
            out.word("NULLS");
            out.word(nulls_word(nulls));
        } else {
            out.word("nulls-");
            out.push(nulls_word(nulls).as_bytes());
        }
    }
}

/// `(as` of the prefix form, where there is a name to be written behind.
pub(crate) fn open_named(out: &mut Words, name: &Option<Name>) {
    if name.is_some() {
        out.open("as");
    }
}

/// The name and `)`, where there is a name.
pub(crate) fn close_named(out: &mut Words, name: &Option<Name>) {
    if let Some(name) = name {
        out.sql("AS");
        write_name(out, name);
        out.close();
    }
}
