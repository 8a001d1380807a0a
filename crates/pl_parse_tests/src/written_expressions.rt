//! Expressions, in both forms.

use crate::words::Words;
use crate::written_queries::write_query;
use crate::written_words::{
    comparison_word, either, pick_word, test_head, test_words, write_arithmetic, write_casts,
    write_literal, write_name, write_nots, write_parameter, write_qualified, write_signs,
};
use pl_base::{Boxed, Name};
use pl_tree::{Argument, Arm, Expr, Factor, Query, Term};

#[cycle(written)]
pub(crate) fn write_expr(out: &mut Words, expr: &Expr) {
    match expr {
        Expr::Literal(literal) => write_literal(out, literal),
        Expr::Parameter(number) => write_parameter(out, *number),
        Expr::Name(name) => write_name(out, name),
        Expr::Qualified { qualifier, name } => write_qualified(out, qualifier, name),
        Expr::Call { name, arguments } => write_call(out, name, arguments.as_slice()),
        Expr::CountRows => {
            out.open("count-rows");
            out.sql("count ( * )");
            out.close();
        }
        Expr::Subquery(query) => {
            out.open("subquery");
            write_inside(out, query);
            out.close();
        }
        Expr::Exists(query) => {
            out.open("exists");
            out.sql("EXISTS");
            write_inside(out, query);
            out.close();
        }
        Expr::Pick { pick, list } => write_worded(out, pick_word(*pick), list.as_slice()),
        Expr::NullIf(first, second) => {
            out.open("nullif");
            out.sql("NULLIF (");
            write_part(out, first);
            out.sql(",");
            write_part(out, second);
            out.sql(")");
            out.close();
        }
        Expr::Row(list) => write_worded(out, "row", list.as_slice()),
        Expr::Case {
            operand,
            arms,
            otherwise,
        } => {
            out.open("case");
            out.sql("CASE");
            write_option(out, "of", "", operand);
            write_arms(out, arms.as_slice());
            write_option(out, "else", "ELSE", otherwise);
            out.sql("END");
            out.close();
        }
        Expr::Cast { operand, types } => {
            out.open("cast");
            write_part(out, operand);
            write_casts(out, types.as_slice());
            out.close();
        }
        Expr::Signed { signs, operand } => {
            out.open("sign");
            write_signs(out, signs.as_slice());
            write_part(out, operand);
            out.close();
        }
        Expr::Product { first, factors } => {
            out.open("product");
            write_part(out, first);
            write_factors(out, factors.as_slice());
            out.close();
        }
        Expr::Sum { first, terms } => {
            out.open("sum");
            write_part(out, first);
            write_terms(out, terms.as_slice());
            out.close();
        }
        Expr::Concat(list) => write_chain(out, "||", "||", list.as_slice()),
        Expr::Between {
            is_negated,
            operand,
            low,
            high,
        } => {
            out.open(either(*is_negated, "between", "not-between"));
            write_part(out, operand);
            out.sql(either(*is_negated, "BETWEEN", "NOT BETWEEN"));
            write_part(out, low);
            out.sql("AND");
            write_part(out, high);
            out.close();
        }
        Expr::InList {
            is_negated,
            operand,
            list,
        } => {
            out.open(either(*is_negated, "in", "not-in"));
            write_part(out, operand);
            out.sql(either(*is_negated, "IN", "NOT IN"));
            write_list(out, list.as_slice());
            out.close();
        }
        Expr::InQuery {
            is_negated,
            operand,
            query,
        } => {
            out.open(either(*is_negated, "in-query", "not-in-query"));
            write_part(out, operand);
            out.sql(either(*is_negated, "IN", "NOT IN"));
            write_inside(out, query);
            out.close();
        }
        Expr::Like {
            is_negated,
            operand,
            pattern,
        } => {
            out.open(either(*is_negated, "like", "not-like"));
            write_part(out, operand);
            out.sql(either(*is_negated, "LIKE", "NOT LIKE"));
            write_part(out, pattern);
            out.close();
        }
        Expr::Compare {
            comparison,
            left,
            right,
        } => {
            out.open(comparison_word(*comparison));
            write_part(out, left);
            out.sql(comparison_word(*comparison));
            write_part(out, right);
            out.close();
        }
        Expr::Is {
            is_negated,
            operand,
            test,
        } => {
            out.open(test_head(*is_negated, *test));
            write_part(out, operand);
            out.sql(test_words(*is_negated, *test));
            out.close();
        }
        Expr::IsDistinct {
            is_negated,
            left,
            right,
        } => {
            out.open(either(*is_negated, "is-distinct", "is-not-distinct"));
            write_part(out, left);
            out.sql(either(*is_negated, "IS DISTINCT FROM", "IS NOT DISTINCT FROM"));
            write_part(out, right);
            out.close();
        }
        Expr::Not { count, operand } => {
            out.open("not");
            write_nots(out, *count);
            write_part(out, operand);
            out.close();
        }
        Expr::And(list) => write_chain(out, "and", "AND", list.as_slice()),
        Expr::Or(list) => write_chain(out, "or", "OR", list.as_slice()),
    }
}

/// The expression, in brackets in SQL.
#[cycle(written)]
pub(crate) fn write_value(out: &mut Words, value: &Expr) {
    out.sql("(");
    write_expr(out, value);
    out.sql(")");
}

#[cycle(written)]
fn write_part(out: &mut Words, part: &Boxed<Expr>) {
    write_value(out, part.get());
}

/// Nothing, or `(head operand)`, in SQL the word before it.
#[cycle(written)]
pub(crate) fn write_option(out: &mut Words, head: &str, word: &str, option: &Option<Boxed<Expr>>) {
    if let Some(operand) = option {
        out.open(head);
        out.sql(word);
        write_value(out, operand.get());
        out.close();
    }
}

/// The values one after the other, in SQL with the word between them.
#[cycle(written)]
pub(crate) fn write_values(out: &mut Words, between: &str, list: &[Expr]) {
    for (at, expr) in list.iter().enumerate() {
        if at != 0 {
            out.sql(between);
        }
        write_value(out, expr);
    }
}

// The same, in brackets in SQL.
#[cycle(written)]
fn write_list(out: &mut Words, list: &[Expr]) {
    out.sql("(");
    write_values(out, ",", list);
    out.sql(")");
}

// `(word parts)`, or the word before the list.
#[cycle(written)]
fn write_worded(out: &mut Words, word: &str, list: &[Expr]) {
    out.open(word);
    out.sql(word);
    write_list(out, list);
    out.close();
}

// `(head parts)`, or the parts with the operator between them.
#[cycle(written)]
fn write_chain(out: &mut Words, head: &str, operator: &str, list: &[Expr]) {
    out.open(head);
    write_values(out, operator, list);
    out.close();
}

#[cycle(written)]
pub(crate) fn write_inside(out: &mut Words, query: &Boxed<Query>) {
    out.sql("(");
    write_query(out, query.get());
    out.sql(")");
}

#[cycle(written)]
fn write_argument(out: &mut Words, argument: &Argument) {
    match argument {
        Argument::Value(value) => write_value(out, value),
        Argument::FatalErrors(value) => {
            out.open("fatal_errors");
            out.sql("fatal_errors =>");
            write_value(out, value);
            out.close();
        }
    }
}

#[cycle(written)]
pub(crate) fn write_call(out: &mut Words, name: &Name, arguments: &[Argument]) {
    out.open("call");
    write_name(out, name);
    out.sql("(");
    for (at, argument) in arguments.iter().enumerate() {
        if at != 0 {
            out.sql(",");
        }
        write_argument(out, argument);
    }
    out.sql(")");
    out.close();
}

#[cycle(written)]
fn write_arms(out: &mut Words, arms: &[Arm]) {
    for arm in arms {
        out.open("when");
        out.sql("WHEN");
        write_value(out, &arm.when);
        out.sql("THEN");
        write_value(out, &arm.then);
        out.close();
    }
}

#[cycle(written)]
fn write_factors(out: &mut Words, factors: &[Factor]) {
    for factor in factors {
        write_arithmetic(out, factor.operator);
        write_value(out, &factor.operand);
    }
}

#[cycle(written)]
fn write_terms(out: &mut Words, terms: &[Term]) {
    for term in terms {
        write_arithmetic(out, term.operator);
        write_value(out, &term.operand);
    }
}
