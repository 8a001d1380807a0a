//! Copies of the trees of commands.

ghost use Rattle.std.specs.Prelude.{◌≡◌, IfOk};

use crate::trees::copy_option;
use crate::{Copied, copy_list};
use pl_base::{List, Txt, Ty};
use pl_tree::{
    Assignment, ColumnRule, ColumnRuleKind, Command, Definition, Delete, Element, Insert,
    NewRoutine, NewRow, NewRows, NewTable, NewTrigger, NewValue, ResultType, TableRule, Update,
};
use std::alloc::{AllocError, Global};

impl Copied for Command {
    fn copy(&self, alloc: Global) -> Result<Command, AllocError> {
        match self {
            Command::Query(query) => Ok(Command::Query(query.copy(alloc)?)),
            Command::Insert(insert) => Ok(Command::Insert(insert.copy(alloc)?)),
            Command::Update(update) => Ok(Command::Update(update.copy(alloc)?)),
            Command::Delete(delete) => Ok(Command::Delete(delete.copy(alloc)?)),
            Command::Define { definition, source } => {
                let source = source.copy(alloc)?;
                Ok(Command::Define {
                    definition: definition.copy(alloc)?,
                    source,
                })
            }
            Command::Do { language, body } => Ok(Command::Do {
                language: *language,
                body: body.copy(alloc)?,
            }),
            Command::Call { name, arguments } => Ok(Command::Call {
                name: *name,
                arguments: copy_list(alloc, arguments.as_slice())?,
            }),
            Command::Begin => Ok(Command::Begin),
            Command::StartTransaction => Ok(Command::StartTransaction),
            Command::Commit => Ok(Command::Commit),
            Command::Rollback => Ok(Command::Rollback),
            Command::Savepoint(name) => Ok(Command::Savepoint(*name)),
            Command::Release(name) => Ok(Command::Release(*name)),
            Command::RollbackTo(name) => Ok(Command::RollbackTo(*name)),
        }
    }
}

// ---- rows that are written

impl Copied for Insert {
    fn copy(&self, alloc: Global) -> Result<Insert, AllocError> {
        Ok(Insert {
            table: self.table,
            alias: self.alias,
            columns: List::from_slice(alloc, self.columns.as_slice())?,
            rows: self.rows.copy(alloc)?,
            returning: copy_list(alloc, self.returning.as_slice())?,
        })
    }
}

impl Copied for NewRows {
    fn copy(&self, alloc: Global) -> Result<NewRows, AllocError> {
        match self {
            NewRows::Values(rows) => Ok(NewRows::Values(copy_list(alloc, rows.as_slice())?)),
            NewRows::Query(query) => Ok(NewRows::Query(query.copy(alloc)?)),
            NewRows::Defaults => Ok(NewRows::Defaults),
        }
    }
}

impl Copied for NewRow {
    fn copy(&self, alloc: Global) -> Result<NewRow, AllocError> {
        Ok(NewRow {
            values: copy_list(alloc, self.values.as_slice())?,
        })
    }
}

impl Copied for NewValue {
    fn copy(&self, alloc: Global) -> Result<NewValue, AllocError> {
        match self {
            NewValue::Value(value) => Ok(NewValue::Value(value.copy(alloc)?)),
            NewValue::Default => Ok(NewValue::Default),
        }
    }
}

impl Copied for Update {
    fn copy(&self, alloc: Global) -> Result<Update, AllocError> {
        Ok(Update {
            table: self.table,
            alias: self.alias,
            assignments: copy_list(alloc, self.assignments.as_slice())?,
            condition: copy_option(alloc, &self.condition)?,
            returning: copy_list(alloc, self.returning.as_slice())?,
        })
    }
}

impl Copied for Assignment {
    fn copy(&self, alloc: Global) -> Result<Assignment, AllocError> {
        Ok(Assignment {
            column: self.column,
            value: self.value.copy(alloc)?,
        })
    }
}

impl Copied for Delete {
    fn copy(&self, alloc: Global) -> Result<Delete, AllocError> {
        Ok(Delete {
            table: self.table,
            alias: self.alias,
            condition: copy_option(alloc, &self.condition)?,
            returning: copy_list(alloc, self.returning.as_slice())?,
        })
    }
}

// ---- definitions

impl Copied for Definition {
    fn copy(&self, alloc: Global) -> Result<Definition, AllocError> {
        match self {
            Definition::CreateTable(table) => Ok(Definition::CreateTable(table.copy(alloc)?)),
            Definition::CreateRoutine(routine) => {
                Ok(Definition::CreateRoutine(routine.copy(alloc)?))
            }
            Definition::CreateTrigger(trigger) => {
                Ok(Definition::CreateTrigger(trigger.copy(alloc)?))
            }
            Definition::DropTable { if_exists, name } => Ok(Definition::DropTable {
                if_exists: *if_exists,
                name: *name,
            }),
            Definition::DropRoutine {
                kind,
                if_exists,
                name,
                types,
            } => Ok(Definition::DropRoutine {
                kind: *kind,
                if_exists: *if_exists,
                name: *name,
                types: copy_types(alloc, types)?,
            }),
            Definition::DropTrigger {
                if_exists,
                name,
                table,
            } => Ok(Definition::DropTrigger {
                if_exists: *if_exists,
                name: *name,
                table: *table,
            }),
        }
    }
}

impl Copied for NewTable {
    fn copy(&self, alloc: Global) -> Result<NewTable, AllocError> {
        Ok(NewTable {
            if_not_exists: self.if_not_exists,
            name: self.name,
            elements: copy_list(alloc, self.elements.as_slice())?,
        })
    }
}

impl Copied for Element {
    fn copy(&self, alloc: Global) -> Result<Element, AllocError> {
        match self {
            Element::Column { name, ty, rules } => Ok(Element::Column {
                name: *name,
                ty: *ty,
                rules: copy_list(alloc, rules.as_slice())?,
            }),
            Element::Rule { name, rule } => Ok(Element::Rule {
                name: *name,
                rule: rule.copy(alloc)?,
            }),
        }
    }
}

impl Copied for ColumnRule {
    fn copy(&self, alloc: Global) -> Result<ColumnRule, AllocError> {
        Ok(ColumnRule {
            name: self.name,
            rule: self.rule.copy(alloc)?,
        })
    }
}

impl Copied for ColumnRuleKind {
    fn copy(&self, alloc: Global) -> Result<ColumnRuleKind, AllocError> {
        match self {
            ColumnRuleKind::NotNull => Ok(ColumnRuleKind::NotNull),
            ColumnRuleKind::Null => Ok(ColumnRuleKind::Null),
            ColumnRuleKind::Default(value) => Ok(ColumnRuleKind::Default(value.copy(alloc)?)),
            ColumnRuleKind::Check(condition) => Ok(ColumnRuleKind::Check(condition.copy(alloc)?)),
            ColumnRuleKind::Unique => Ok(ColumnRuleKind::Unique),
            ColumnRuleKind::PrimaryKey => Ok(ColumnRuleKind::PrimaryKey),
            ColumnRuleKind::References { table, column } => Ok(ColumnRuleKind::References {
                table: *table,
                column: *column,
            }),
        }
    }
}

impl Copied for TableRule {
    fn copy(&self, alloc: Global) -> Result<TableRule, AllocError> {
        match self {
            TableRule::Check(condition) => Ok(TableRule::Check(condition.copy(alloc)?)),
            TableRule::Unique(columns) => {
                Ok(TableRule::Unique(List::from_slice(alloc, columns.as_slice())?))
            }
            TableRule::PrimaryKey(columns) => {
                Ok(TableRule::PrimaryKey(List::from_slice(alloc, columns.as_slice())?))
            }
            TableRule::ForeignKey {
                columns,
                table,
                referenced,
            } => Ok(TableRule::ForeignKey {
                columns: List::from_slice(alloc, columns.as_slice())?,
                table: *table,
                referenced: List::from_slice(alloc, referenced.as_slice())?,
            }),
        }
    }
}

impl Copied for NewRoutine {
    fn copy(&self, alloc: Global) -> Result<NewRoutine, AllocError> {
        Ok(NewRoutine {
            or_replace: self.or_replace,
            kind: self.kind,
            name: self.name,
            params: List::from_slice(alloc, self.params.as_slice())?,
            result: self.result.copy(alloc)?,
            language: copy_text(alloc, &self.language)?,
            body: copy_text(alloc, &self.body)?,
        })
    }
}

impl Copied for ResultType {
    fn copy(&self, alloc: Global) -> Result<ResultType, AllocError> {
        match self {
            ResultType::Absent => Ok(ResultType::Absent),
            ResultType::One(ty) => Ok(ResultType::One(*ty)),
            ResultType::Set(ty) => Ok(ResultType::Set(*ty)),
            ResultType::Columns(columns) => {
                Ok(ResultType::Columns(List::from_slice(alloc, columns.as_slice())?))
            }
        }
    }
}

impl Copied for NewTrigger {
    fn copy(&self, alloc: Global) -> Result<NewTrigger, AllocError> {
        Ok(NewTrigger {
            name: self.name,
            timing: self.timing,
            events: List::from_slice(alloc, self.events.as_slice())?,
            table: self.table,
            routine: self.routine,
        })
    }
}

// A copy of the list of types, where there is one.
fn copy_types(alloc: Global, types: &Option<List<Ty>>) -> Result<Option<List<Ty>>, AllocError>
    ensures { IfOk result (λ copied. copied ≡ types.now) }
{
    match types {
        None => Ok(None),
        Some(types) => Ok(Some(List::from_slice(alloc, types.as_slice())?)),
    }
}

// A copy of the text, where there is one.
fn copy_text(alloc: Global, text: &Option<Txt>) -> Result<Option<Txt>, AllocError>
    ensures { IfOk result (λ copied. copied ≡ text.now) }
{
    match text {
        None => Ok(None),
        Some(text) => Ok(Some(text.copy(alloc)?)),
    }
}
