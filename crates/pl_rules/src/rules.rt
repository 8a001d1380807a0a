//! Whether a row fits its columns, and which rule it breaks first: NOT NULL in the order of the
//! columns, then CHECK in the order of the names.

ghost use Rattle.std.specs.Prelude.{◌≡◌, ◌&&◌, IfOk, Option, length, nat_le, option_map};
ghost use Rattle.std.specs.Option.{is_none};
ghost use Rattle.pl_calc.specs.Casts.{text_limit};
ghost use Rattle.pl_calc.specs.Logic.{is_null, truth_of};
ghost use Rattle.pl_catalog.specs.declared.object.TableDef as catalog;
ghost use Rattle.pl_codec.specs.Spelling.{is_text};
ghost use Rattle.pl_rules.specs.Rules as spec;
ghost use Rattle.pl_rules.specs.declared.rules.Failure as declared;
ghost use Rattle.pl_rules.specs.Rules.{Answers, first_failure, holds};
ghost use Rattle.pl_value.specs.Frames.{Row};
ghost use Rattle.pl_value.specs.Reading.{settled};
ghost use Rattle.pl_value.specs.declared.world.NoRoutines as world;

use pl_base::{Cells, Memory, Name, State, Ty, Value};
use pl_calc::TEXT_LIMIT;
use pl_catalog::{Column, Rule, RuleKind, TableDef};
use pl_codec::is_text;
use pl_resolved::RExpr;
use pl_value::{Lent, NoQueries, NoRoutines, Unsettled, value};
use std::alloc::Global;

/// Why a row doesn't hold.
#[derive(Clone, Copy)]
pub enum RuleFail {
    /// A rule is broken: NOT NULL, 23502, by the column's name, or CHECK, 23514, by its own.
    Broken { state: State, rule: Name },
    /// A CHECK has no truth: its evaluation fails with this SQLSTATE.
    Evaluating(State),
    /// The row hasn't one value for each column, of its type and such that a store can hold it:
    /// 54000, since a text is too long. No command gives a value of another type, but that a value
    /// has the type of its expression isn't proved.
    Unfit,
    /// There was no memory.
    Memory,
}

/// A failure with the name of its rule.
#[derive(Clone, Copy)]
pub(crate) struct Failure {
    pub(crate) rule: Name,
    pub(crate) fail: RuleFail,
}

impl From<Memory> for RuleFail {
    ghost use Rattle.pl_rules.specs.declared.rules.RuleFail.TheVariants.{Memory as WantOfMemory};

    ghost from_gives = { λ _ fail. fail ≡ WantOfMemory };

    fn from(_: Memory) -> Self {
        RuleFail::Memory
    }
}

/// Whether the row fits the columns of its table and keeps NOT NULL and CHECK: PostgreSQL manual,
/// "Constraints". A CHECK whose condition is null passes. The first failure otherwise: Unfit, then
/// NOT NULL in the order of the columns, then CHECK in the order of the names by their bytes.
pub fn check_row(alloc: Global, table: &TableDef, row: &Cells) -> Result<(), RuleFail>
    ensures { Answers result (first_failure table.now row.now) }
{
    if !fits(table.columns.as_slice(), row.as_slice()) {
        return Err(RuleFail::Unfit);
    }
    check_rules(alloc, table, row)
}

// The first rule that the row breaks.
#[tactic(auto, using(crate::proofs::Judged::refused))]
fn check_rules(alloc: Global, table: &TableDef, row: &Cells) -> Result<(), RuleFail>
    ensures { Answers result (spec.rule_failure table.now row.now) }
{
    if let Some(name) = null_column(table.columns.as_slice(), row.as_slice()) {
        return Err(RuleFail::Broken {
            state: State::NOT_NULL_VIOLATION,
            rule: name,
        });
    }
    match least_failing(alloc, table.rules.as_slice(), row.as_slice())? {
        Some(failure) => Err(failure.fail),
        None => Ok(()),
    }
}

/// A row fits its columns and every rule holds of it exactly where nothing fails.
pub fn holding_rows_break_nothing()
    ensures { (table : catalog.TableDef) (row : Row)
        → holds table row ≡ is_none (first_failure table row) }
{}

// Whether there is one value for each column, of its type.
fn fits(mut columns: &[Column], mut row: &[Value]) -> bool
    ensures { result ≡ spec.fits columns.entry.now row.entry.now }
{
    while let [column, others @ ..] = columns {
        let Some((value, more)) = row.split_first() else {
            return false;
        };
        if !is_of(column.ty, value) {
            return false;
        }
        columns = others;
        row = more;
    }
    row.is_empty()
}

// Whether the value is one of this type that a store can hold.
fn is_of(ty: Ty, value: &Value) -> bool
    ensures { result ≡ spec.is_of ty value.now }
{
    match value {
        Value::Null => true,
        Value::Int(_) => matches!(ty, Ty::Int),
        Value::Big(_) => matches!(ty, Ty::Big),
        Value::Bool(_) => matches!(ty, Ty::Bool),
        Value::Text(text) => matches!(ty, Ty::Text) && is_stored_text(text.as_bytes()),
        Value::Row(_) => false,
    }
}

fn is_stored_text(text: &[u8]) -> bool
    ensures { result ≡ (is_text text.now && nat_le (length text.now) text_limit) }
{
    is_text(text) && text.len() <= TEXT_LIMIT
}

// The first column that may not be null and is.
fn null_column(mut columns: &[Column], mut row: &[Value]) -> Option<Name>
    ensures { spec.null_failure columns.entry.now row.entry.now
        ≡ option_map (RuleFail.Broken State.NOT_NULL_VIOLATION) result }
{
    while let [column, others @ ..] = columns {
        let Some((value, more)) = row.split_first() else {
            return None;
        };
        if column.is_not_null && is_null(value) {
            return Some(column.name);
        }
        columns = others;
        row = more;
    }
    None
}

fn is_null(value: &Value) -> bool
    ensures { result ≡ is_null value.now }
{
    matches!(value, Value::Null)
}

// Of the CHECKs that the row doesn't pass the failure of the one with the least name.
#[tactic(auto, using(crate::proofs::Least::lesser_none))]
fn least_failing(
    alloc: Global,
    mut rules: &[Rule],
    row: &[Value],
) -> Result<Option<Failure>, Memory>
    ensures { IfOk result (λ found. found ≡ spec.least_failing rules.entry.now row.now) }
{
    let mut found = None;
    while let [rule, rest @ ..] = rules {
        found = further(alloc, found, rule, row)?;
        rules = rest;
    }
    Ok(found)
}

// The failure so far, or that of the rule.
#[tactic(auto, using(crate::proofs::Least::further))]
fn further(
    alloc: Global,
    found: Option<Failure>,
    rule: &Rule,
    row: &[Value],
) -> Result<Option<Failure>, Memory>
    ensures { IfOk result (λ next. (rest : Option declared.Failure)
        → spec.lesser found (spec.lesser (spec.failing rule.now row.now) rest)
        ≡ spec.lesser next rest) }
{
    let failure = failing(alloc, rule, row)?;
    Ok(lesser(found, failure))
}

fn lesser(first: Option<Failure>, second: Option<Failure>) -> Option<Failure>
    ensures { result ≡ spec.lesser first second }
{
    match (first, second) {
        (None, second) => second,
        (Some(f), None) => Some(f),
        (Some(f), Some(g)) => {
            if is_before(&g.rule, &f.rule) {
                Some(g)
            } else {
                Some(f)
            }
        }
    }
}

fn is_before(a: &Name, b: &Name) -> bool
    ensures { result ≡ spec.is_before a.now b.now }
{
    a.as_bytes().cmp(b.as_bytes()).is_lt()
}

// Why the row doesn't pass the rule, if it is a CHECK.
fn failing(alloc: Global, rule: &Rule, row: &[Value]) -> Result<Option<Failure>, Memory>
    ensures { IfOk result (λ found. found ≡ spec.failing rule.now row.now) }
{
    match &rule.kind {
        RuleKind::Check(condition) => {
            let fail = check_failure(alloc, rule.name, condition, row)?;
            Ok(named(rule.name, fail))
        }
        RuleKind::Primary(_) | RuleKind::Unique(_) | RuleKind::Foreign { .. } => Ok(None),
    }
}

fn named(rule: Name, fail: Option<RuleFail>) -> Option<Failure>
    ensures { result ≡ spec.named rule fail }
{
    match fail {
        Some(fail) => Some(Failure { rule, fail }),
        None => None,
    }
}

// Why the row doesn't pass the CHECK of this name.
#[tactic(auto, using(crate::proofs::Judged::by_value, crate::proofs::Judged::by_failure))]
fn check_failure(
    alloc: Global,
    name: Name,
    condition: &RExpr,
    row: &[Value],
) -> Result<Option<RuleFail>, Memory>
    ensures { IfOk result (λ fail.
        fail ≡ spec.failure_of name (spec.truth_over row.now condition.now)) }
{
    let frame = [Lent { cells: row }];
    match value(alloc, condition, &NoQueries, &frame, &mut NoRoutines) {
        Ok(truth) => Ok(failure_of(name, truth.get())),
        Err(Unsettled::Fails(state)) => Ok(Some(RuleFail::Evaluating(state))),
        Err(Unsettled::Memory) => Err(Memory),
    }
}

// Why a condition of this value doesn't pass.
fn failure_of(name: Name, truth: &Value) -> Option<RuleFail>
    ensures { (w : world.NoRoutines) → result
        ≡ spec.failure_of name (settled (truth_of truth.now) w) }
{
    match truth {
        Value::Null => None,
        Value::Bool(true) => None,
        Value::Bool(false) => Some(RuleFail::Broken {
            state: State::CHECK_VIOLATION,
            rule: name,
        }),
        Value::Int(_) | Value::Big(_) | Value::Text(_) | Value::Row(_) => {
            Some(RuleFail::Evaluating(State::DATATYPE_MISMATCH))
        }
    }
}
