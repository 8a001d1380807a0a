//! An INSERT of the rows of its query as they are: PostgreSQL manual, "INSERT". Neither they nor
//! what the query reads is copied.

ghost use Rattle.std.specs.Prelude.{◌≡◌, ◌≤◌, [], None, length, reverse, true, IfOk, IfSome, OnOk};
ghost use Rattle.std.specs.List.{AllByRecursion};
ghost use Rattle.pl_altering.specs.Ends.{done_from};
ghost use Rattle.pl_altering.specs.Settings.{ReadsOver};
ghost use Rattle.pl_altering.specs.Taking.{AreOwn, HasWidth, IsLeft, TakesRows};
ghost use Rattle.pl_query.specs.Rows.{in_turn};
ghost use Rattle.pl_querying.specs.pl_calling.Ends.{settles};
ghost use Rattle.pl_querying.specs.pl_engine.Answers.{Answers};
ghost use Rattle.pl_querying.specs.pl_engine.Engines.{kept, world};
ghost use Rattle.pl_querying.specs.pl_engine.Texts.{do_bodies};
ghost use Rattle.pl_resolved.specs.declared.expression.RExpr.TheVariants.{Place};
ghost use Rattle.pl_world.specs.Changes.{Setting, writes};
ghost use Rattle.pl_world.specs.Selection.{last_of};
ghost use Rattle.pl_world.specs.Statements.{runner_for};

use crate::command::Command;
use crate::showing::add_shown;
use pl_base::{Cells, Fail, List};
use pl_query::Rows;
use pl_querying::pl_calling::{Calling, Start, finish};
use pl_querying::pl_engine::{BodyRunner, Calls, Engine, Port, Spot, Stop};
use pl_resolved::RExpr;
use pl_targets::{RChange, RRows, RWhat};
use pl_value::Unsettled;
use std::alloc::{AllocError, Global};

// ---- which they are

// It is the value of this place of the row that was found.
fn is_own(e: &RExpr, at: usize) -> bool
    ensures { result ≡ true → e.now ≡ Place 2 at }
{
    match e {
        RExpr::Place { row, column } => *row == 2 && *column == at,
        _ => false,
    }
}

// They are the values of the row that was found, from the first on.
fn are_own(list: &[RExpr]) -> bool
    ensures { result ≡ true → AreOwn list.now 0 }
{
    let mut at: usize = 0;
    let mut left = list;
    while let [e, more @ ..] = left {
        if !is_own(e, at) {
            return false;
        }
        let Some(next) = at.checked_add(1) else {
            return false;
        };
        at = next;
        left = more;
    }
    true
}

// How many values each row has of an INSERT with a query that adds the query's rows as they are,
// and shows nothing.
fn width_of(change: &RChange, query: usize, list: &[RExpr]) -> Option<usize>
    ensures { IfSome result (λ width. (query ≡ last_of change.now.queries) × AreOwn list.now 0
        × (width ≡ length list.now) × (change.now.returning ≡ [])) }
{
    if query == change.queries.len().saturating_sub(1)
        && change.returning.is_empty()
        && are_own(list)
    {
        return Some(list.len());
    }
    None
}

/// How many values each row has, where a change adds the rows of its query as they are, and shows
/// nothing. None for any other.
pub(crate) fn width_taken(change: &RChange) -> Option<usize>
    ensures { IfSome result (λ width. TakesRows change.now width) }
{
    match &change.what {
        RWhat::Insert(RRows::Query { query, values }) => {
            width_of(change, *query, values.as_slice())
        }
        _ => None,
    }
}

/// Each row has so many values.
pub(crate) fn are_wide(rows: &[Cells], width: usize) -> bool
    ensures { result ≡ true → AllByRecursion (HasWidth width) rows.now }
{
    let mut left = rows;
    while let [row, more @ ..] = left {
        if row.len() != width {
            return false;
        }
        left = more;
    }
    true
}

// ---- their writing

// The last row is the first one.
#[tactic(auto, using(crate::proofs::AsFound::turn))]
fn turned(alloc: Global, mut rows: List<Cells>) -> Result<List<Cells>, AllocError>
    ensures { IfOk result (λ turned. turned ≡ reverse rows) }
{
    let mut turned = List::new(alloc);
    while let Some(row) = rows.pop() {
        turned.push(row)?;
    }
    Ok(turned)
}

// A row is added as it is.
fn add_one<B: Start, R: BodyRunner>(
    command: &Command<'_>,
    row: Cells,
    rows: Rows,
    calling: &mut Calling<'_, B, R>,
) -> Result<Rows, Unsettled>
    ensures { (s : Setting) → s.change ≡ command.now.change.now → s.change.returning ≡ []
        → ReadsOver command.now (λ x. writes s None row rows x) result calling.old calling.new }
{
    match calling.insert(command.change.table, row) {
        Ok(()) => add_shown(rows, List::new(command.alloc)),
        Err(why) => Err(why),
    }
}

// The rows are added, one after another.
fn add_each<B: Start, R: BodyRunner>(
    command: &Command<'_>,
    found: List<Cells>,
    calling: &mut Calling<'_, B, R>,
) -> Result<Rows, Unsettled>
    ensures { (s : Setting) → s.change ≡ command.now.change.now → s.change.returning ≡ []
        → ReadsOver command.now (λ x. in_turn (writes s None) found [] x) result
        calling.old calling.new }
{
    let mut rows = Rows::new(command.alloc);
    let mut left = turned(command.alloc, found)?;
    while let Some(row) = left.pop() {
        match add_one(&*command, row, rows, calling) {
            Ok(more) => rows = more,
            Err(why) => return Err(why),
        }
    }
    Ok(rows)
}

// The same, with what is shown of them as a list.
fn add_all<B: Start, R: BodyRunner>(
    command: &Command<'_>,
    found: List<Cells>,
    calling: &mut Calling<'_, B, R>,
) -> Result<List<Cells>, Unsettled>
    ensures { (s : Setting) → s.change ≡ command.now.change.now → s.change.returning ≡ []
        → ReadsOver command.now (λ x. in_turn (writes s None) found [] x) result
        calling.old calling.new }
{
    match add_each(command, found, calling) {
        Ok(rows) => Ok(List::from_vec(rows.into_vec())),
        Err(why) => Err(why),
    }
}

/// The rows that the query of an INSERT found are added as they are.
pub(crate) fn add_as_found<B: Start, P: Port, R: BodyRunner>(
    calls: &Calls<'_, R>,
    engine: &mut Engine,
    port: &mut P,
    at: Spot,
    change: &RChange,
    found: List<Cells>,
) -> Result<Result<List<Cells>, Fail>, Stop>
    requires begins { B.begin ≡ world engine.old }
    requires stays { B.stays ≡ kept engine.old }
    requires room { (world engine.old).steps ≤ calls.now.room }
    requires fits { P.fits (world engine.old).last port.old }
    requires runs { R.runs calls.now.bodies.now calls.now.room }
    requires left { IsLeft at calls.now.room change.now found (world engine.old) }
    ensures is { Answers P.Port
        (settles (done_from (runner_for do_bodies calls.now.room) at change.now
        (world engine.old)) at) result
        engine.old engine.new port.old port.new }
    ensures keeps { OnOk result (kept engine.new ≡ kept engine.old) }
{
    let command = Command {
        alloc: engine.alloc(),
        change: &*change,
        variables: &[],
        at,
        room: calls.room,
    };
    let mut calling = Calling::<B, R>::begin(calls, engine, at);
    let answer = add_all(&command, found, &mut calling);
    finish(engine, port, at, calling, answer)
}
