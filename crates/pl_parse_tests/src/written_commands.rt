//! Commands in the prefix form.

use crate::words::Words;
use crate::written_expressions::{write_call, write_expr, write_option};
use crate::written_queries::{write_items, write_query};
use crate::written_words::{close_named, either, open_named, write_name, write_text, write_type};
use pl_base::{Name, Txt, Ty};
use pl_tree::{
    Assignment, ColumnRule, ColumnRuleKind, Command, Definition, Delete, Element, Insert, Item,
    NewRoutine, NewRow, NewRows, NewTable, NewTrigger, NewValue, Param, ResultType, RoutineKind,
    TableRule, Timing, TriggerEvent, Update, Way,
};

/// A definition's text is no part of it.
pub(crate) fn write_command(out: &mut Words, command: &Command) {
    match command {
        Command::Query(query) => write_query(out, query),
        Command::Insert(insert) => write_insert(out, insert),
        Command::Update(update) => write_update(out, update),
        Command::Delete(delete) => write_delete(out, delete),
        Command::Define { definition, .. } => write_definition(out, definition),
        Command::Do { language, body } => write_do(out, language, body),
        Command::Call { name, arguments } => write_call(out, name, arguments.as_slice()),
        Command::Begin => out.word("(begin)"),
        Command::StartTransaction => out.word("(start-transaction)"),
        Command::Commit => out.word("(commit)"),
        Command::Rollback => out.word("(rollback)"),
        Command::Savepoint(name) => write_with_name(out, "savepoint", name),
        Command::Release(name) => write_with_name(out, "release", name),
        Command::RollbackTo(name) => write_with_name(out, "rollback-to", name),
    }
}

// `(head name)`
fn write_with_name(out: &mut Words, head: &str, name: &Name) {
    out.open(head);
    write_name(out, name);
    out.close();
}

fn write_names(out: &mut Words, names: &[Name]) {
    for name in names {
        write_name(out, name);
    }
}

// `(head names)`
fn write_with_names(out: &mut Words, head: &str, names: &[Name]) {
    out.open(head);
    write_names(out, names);
    out.close();
}

// `(do (language plpgsql) 'text')`
fn write_do(out: &mut Words, language: &Option<Name>, body: &Txt) {
    out.open("do");
    if let Some(language) = language {
        write_with_name(out, "language", language);
    }
    write_text(out, body.as_bytes());
    out.close();
}

// ---- rows that are written

// `t`, or `(as t alias)`
fn write_target(out: &mut Words, table: &Name, alias: &Option<Name>) {
    open_named(out, alias);
    write_name(out, table);
    close_named(out, alias);
}

fn write_insert(out: &mut Words, insert: &Insert) {
    out.open("insert");
    write_target(out, &insert.table, &insert.alias);
    if !insert.columns.is_empty() {
        write_with_names(out, "columns", insert.columns.as_slice());
    }
    write_new_rows(out, &insert.rows);
    close_changed(out, insert.returning.as_slice());
}

fn write_new_rows(out: &mut Words, rows: &NewRows) {
    match rows {
        NewRows::Values(rows) => write_values(out, rows.as_slice()),
        NewRows::Query(query) => write_query(out, query),
        NewRows::Defaults => out.word("default-values"),
    }
}

fn write_values(out: &mut Words, rows: &[NewRow]) {
    out.open("values");
    for row in rows {
        write_new_row(out, row.values.as_slice());
    }
    out.close();
}

fn write_new_row(out: &mut Words, values: &[NewValue]) {
    out.open("new-row");
    for value in values {
        write_new_value(out, value);
    }
    out.close();
}

fn write_new_value(out: &mut Words, value: &NewValue) {
    match value {
        NewValue::Value(value) => write_expr(out, value),
        NewValue::Default => out.word("DEFAULT"),
    }
}

// `(returning items))`, or `)` where there are none
fn close_changed(out: &mut Words, returning: &[Item]) {
    if returning.is_empty() {
        out.close();
        return;
    }
    out.open("returning");
    write_items(out, returning);
    out.close();
    out.close();
}

fn write_update(out: &mut Words, update: &Update) {
    out.open("update");
    write_target(out, &update.table, &update.alias);
    write_assignments(out, update.assignments.as_slice());
    write_option(out, "where", "WHERE", &update.condition);
    close_changed(out, update.returning.as_slice());
}

fn write_assignments(out: &mut Words, assignments: &[Assignment]) {
    for assignment in assignments {
        write_assignment(out, assignment);
    }
}

fn write_assignment(out: &mut Words, assignment: &Assignment) {
    out.open("set");
    write_name(out, &assignment.column);
    write_new_value(out, &assignment.value);
    out.close();
}

fn write_delete(out: &mut Words, delete: &Delete) {
    out.open("delete");
    write_target(out, &delete.table, &delete.alias);
    write_option(out, "where", "WHERE", &delete.condition);
    close_changed(out, delete.returning.as_slice());
}

// ---- definitions

fn write_definition(out: &mut Words, definition: &Definition) {
    match definition {
        Definition::CreateTable(table) => write_new_table(out, table),
        Definition::CreateRoutine(routine) => write_new_routine(out, routine),
        Definition::CreateTrigger(trigger) => write_new_trigger(out, trigger),
        Definition::DropTable { if_exists, name } => {
            let head = either(*if_exists, "drop-table", "drop-table-if-exists");
            write_with_name(out, head, name);
        }
        Definition::DropRoutine {
            kind,
            if_exists,
            name,
            types,
        } => {
            out.open(drop_routine_head(*kind, *if_exists));
            write_name(out, name);
            if let Some(types) = types {
                write_types(out, types.as_slice());
            }
            out.close();
        }
        Definition::DropTrigger {
            if_exists,
            name,
            table,
        } => {
            out.open(either(*if_exists, "drop-trigger", "drop-trigger-if-exists"));
            write_name(out, name);
            write_with_name(out, "on", table);
            out.close();
        }
    }
}

fn drop_routine_head(kind: RoutineKind, if_exists: bool) -> &'static str {
    match kind {
        RoutineKind::Function => either(if_exists, "drop-function", "drop-function-if-exists"),
        RoutineKind::Procedure => either(if_exists, "drop-procedure", "drop-procedure-if-exists"),
    }
}

// `(types integer text)`
fn write_types(out: &mut Words, types: &[Ty]) {
    out.open("types");
    for ty in types {
        write_type(out, ty);
    }
    out.close();
}

// ---- tables

fn write_new_table(out: &mut Words, table: &NewTable) {
    let head = either(
        table.if_not_exists,
        "create-table",
        "create-table-if-not-exists",
    );
    out.open(head);
    write_name(out, &table.name);
    for element in table.elements.as_slice() {
        write_element(out, element);
    }
    out.close();
}

fn write_element(out: &mut Words, element: &Element) {
    match element {
        Element::Column { name, ty, rules } => {
            out.open("column");
            write_name(out, name);
            write_type(out, ty);
            close_column_rules(out, rules.as_slice());
        }
        Element::Rule { name, rule } => {
            open_constraint(out, name);
            write_table_rule(out, rule);
            close_constraint(out, name);
        }
    }
}

// `(constraint name`, where there is a name
fn open_constraint(out: &mut Words, name: &Option<Name>) {
    if let Some(name) = name {
        out.open("constraint");
        write_name(out, name);
    }
}

// `)`, where there is a name
fn close_constraint(out: &mut Words, name: &Option<Name>) {
    if name.is_some() {
        out.close();
    }
}

// `rules)`
fn close_column_rules(out: &mut Words, rules: &[ColumnRule]) {
    for rule in rules {
        write_column_rule(out, rule);
    }
    out.close();
}

fn write_column_rule(out: &mut Words, rule: &ColumnRule) {
    open_constraint(out, &rule.name);
    write_column_rule_kind(out, &rule.rule);
    close_constraint(out, &rule.name);
}

fn write_column_rule_kind(out: &mut Words, rule: &ColumnRuleKind) {
    match rule {
        ColumnRuleKind::NotNull => out.word("not-null"),
        ColumnRuleKind::Null => out.word("null"),
        ColumnRuleKind::Default(value) => {
            out.open("default");
            write_expr(out, value);
            out.close();
        }
        ColumnRuleKind::Check(condition) => {
            out.open("check");
            write_expr(out, condition);
            out.close();
        }
        ColumnRuleKind::Unique => out.word("unique"),
        ColumnRuleKind::PrimaryKey => out.word("primary-key"),
        ColumnRuleKind::References { table, column } => {
            out.open("references");
            write_name(out, table);
            if let Some(column) = column {
                write_name(out, column);
            }
            out.close();
        }
    }
}

fn write_table_rule(out: &mut Words, rule: &TableRule) {
    match rule {
        TableRule::Check(condition) => {
            out.open("check");
            write_expr(out, condition);
            out.close();
        }
        TableRule::Unique(columns) => write_with_names(out, "unique", columns.as_slice()),
        TableRule::PrimaryKey(columns) => {
            write_with_names(out, "primary-key", columns.as_slice());
        }
        TableRule::ForeignKey {
            columns,
            table,
            referenced,
        } => {
            out.open("foreign-key");
            write_names(out, columns.as_slice());
            out.open("references");
            write_name(out, table);
            write_names(out, referenced.as_slice());
            out.close();
            out.close();
        }
    }
}

// ---- routines

fn new_routine_head(kind: RoutineKind, or_replace: bool) -> &'static str {
    match kind {
        RoutineKind::Function => {
            either(or_replace, "create-function", "create-or-replace-function")
        }
        RoutineKind::Procedure => {
            either(
                or_replace,
                "create-procedure",
                "create-or-replace-procedure",
            )
        }
    }
}

fn write_new_routine(out: &mut Words, routine: &NewRoutine) {
    out.open(new_routine_head(routine.kind, routine.or_replace));
    write_name(out, &routine.name);
    write_params(out, routine.params.as_slice());
    write_returned(out, &routine.result);
    write_optional_text(out, "language", &routine.language);
    write_optional_text(out, "body", &routine.body);
    out.close();
}

fn way_head(way: Way) -> &'static str {
    match way {
        Way::In => "in",
        Way::Out => "out",
        Way::InOut => "inout",
    }
}

fn write_params(out: &mut Words, params: &[Param]) {
    for param in params {
        write_param(out, param);
    }
}

// `(in name integer)`, or `(in integer)`
fn write_param(out: &mut Words, param: &Param) {
    out.open(way_head(param.way));
    if let Some(name) = &param.name {
        write_name(out, name);
    }
    write_type(out, &param.ty);
    out.close();
}

// `(head integer)`
fn write_with_type(out: &mut Words, head: &str, ty: &Ty) {
    out.open(head);
    write_type(out, ty);
    out.close();
}

fn write_returned(out: &mut Words, returned: &ResultType) {
    match returned {
        ResultType::Absent => {}
        ResultType::One(ty) => write_with_type(out, "returns", ty),
        ResultType::Set(ty) => write_with_type(out, "returns-setof", ty),
        ResultType::Columns(columns) => write_result_columns(out, columns.as_slice()),
    }
}

// `(returns-table (out name integer))`
fn write_result_columns(out: &mut Words, columns: &[Param]) {
    out.open("returns-table");
    write_params(out, columns);
    out.close();
}

// Nothing, or `(head 'text')`
fn write_optional_text(out: &mut Words, head: &str, text: &Option<Txt>) {
    if let Some(text) = text {
        out.open(head);
        write_text(out, text.as_bytes());
        out.close();
    }
}

// ---- triggers

fn timing_head(timing: Timing) -> &'static str {
    match timing {
        Timing::Before => "before",
        Timing::After => "after",
    }
}

fn event_word(event: TriggerEvent) -> &'static str {
    match event {
        TriggerEvent::Insert => "insert",
        TriggerEvent::Update => "update",
        TriggerEvent::Delete => "delete",
    }
}

fn write_new_trigger(out: &mut Words, trigger: &NewTrigger) {
    out.open("create-trigger");
    write_name(out, &trigger.name);
    out.open(timing_head(trigger.timing));
    for event in trigger.events.as_slice() {
        out.word(event_word(*event));
    }
    out.close();
    write_with_name(out, "on", &trigger.table);
    write_with_name(out, "execute", &trigger.routine);
    out.close();
}
