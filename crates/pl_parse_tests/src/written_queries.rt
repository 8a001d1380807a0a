//! Queries, in both forms.

use crate::words::Words;
use crate::written_expressions::{
    write_call, write_inside, write_option, write_value, write_values,
};
use crate::written_words::{
    close_named, join_head, join_words, open_named, write_all_of, write_direction, write_name,
    write_nulls,
};
use pl_tree::{Expr, From, Item, Join, Key, Query};

#[cycle(written)]
pub(crate) fn write_query(out: &mut Words, query: &Query) {
    open_query(out, query.is_distinct);
    write_items(out, query.items.as_slice());
    write_from(out, query.from.as_slice());
    write_option(out, "where", "WHERE", &query.condition);
    write_groups(out, query.groups.as_slice());
    write_option(out, "having", "HAVING", &query.having);
    write_order(out, query.order.as_slice());
    write_paging(out, query);
    out.close();
}

fn open_query(out: &mut Words, is_distinct: bool) {
    if is_distinct {
        out.open("select-distinct");
        out.sql("SELECT DISTINCT");
    } else {
        out.open("select");
        out.sql("SELECT ALL");
    }
}

// In SQL the offset comes first.
#[cycle(written)]
fn write_paging(out: &mut Words, query: &Query) {
    if out.is_sql() {
        write_option(out, "offset", "OFFSET", &query.offset);
        write_option(out, "limit", "LIMIT", &query.limit);
    } else {
        write_option(out, "limit", "LIMIT", &query.limit);
        write_option(out, "offset", "OFFSET", &query.offset);
    }
}

#[cycle(written)]
pub(crate) fn write_items(out: &mut Words, items: &[Item]) {
    for (at, item) in items.iter().enumerate() {
        if at != 0 {
            out.sql(",");
        }
        write_item(out, item);
    }
}

#[cycle(written)]
fn write_item(out: &mut Words, item: &Item) {
    match item {
        Item::All => out.word("*"),
        Item::AllOf(name) => write_all_of(out, name),
        Item::Value { value, label } => {
            open_named(out, label);
            write_value(out, value);
            close_named(out, label);
        }
    }
}

#[cycle(written)]
fn write_from(out: &mut Words, list: &[From]) {
    if list.is_empty() {
        return;
    }
    out.open("from");
    out.sql("FROM");
    for (at, from) in list.iter().enumerate() {
        if at != 0 {
            out.sql(",");
        }
        write_source(out, from);
    }
    out.close();
}

// In brackets in SQL.
#[cycle(written)]
fn write_source(out: &mut Words, from: &From) {
    out.sql("(");
    write_bare_source(out, from);
    out.sql(")");
}

#[cycle(written)]
fn write_bare_source(out: &mut Words, from: &From) {
    match from {
        From::Table { name, alias } => {
            open_named(out, alias);
            write_name(out, name);
            close_named(out, alias);
        }
        From::Function {
            name,
            arguments,
            alias,
        } => {
            open_named(out, alias);
            write_call(out, name, arguments.as_slice());
            close_named(out, alias);
        }
        From::Subquery { query, alias } => {
            open_named(out, alias);
            write_inside(out, query);
            close_named(out, alias);
        }
        From::Joined { first, joins } => {
            out.open("join");
            write_source(out, first.get());
            write_joins(out, joins.as_slice());
            out.close();
        }
    }
}

#[cycle(written)]
fn write_joins(out: &mut Words, joins: &[Join]) {
    for join in joins {
        write_join(out, join);
    }
}

#[cycle(written)]
fn write_join(out: &mut Words, join: &Join) {
    out.open(join_head(join.kind));
    out.sql(join_words(join.kind));
    write_source(out, &join.with);
    if let Some(condition) = &join.condition {
        out.sql("ON");
        write_value(out, condition.get());
    }
    out.close();
}

#[cycle(written)]
fn write_groups(out: &mut Words, groups: &[Expr]) {
    if groups.is_empty() {
        return;
    }
    out.open("group");
    out.sql("GROUP BY");
    write_values(out, ",", groups);
    out.close();
}

#[cycle(written)]
fn write_order(out: &mut Words, order: &[Key]) {
    if order.is_empty() {
        return;
    }
    out.open("order");
    out.sql("ORDER BY");
    for (at, key) in order.iter().enumerate() {
        if at != 0 {
            out.sql(",");
        }
        write_key(out, key);
    }
    out.close();
}

#[cycle(written)]
fn write_key(out: &mut Words, key: &Key) {
    out.open("key");
    write_value(out, &key.value);
    write_direction(out, key.is_descending);
    write_nulls(out, key.nulls);
    out.close();
}
