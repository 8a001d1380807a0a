//! Statements that hold no other.

ghost use Rattle.std.specs.Prelude.{◌≡◌};
ghost use Rattle.pl_body_rules.specs.Simple as spec;

use crate::cursors::{cursor_state, fetch_state, open_state};
use crate::jumps::jump_state;
use crate::raising::raise_state;
use crate::returning::{next_state, query_state, return_state};
use crate::targets::{into_state, targets_state, variable_named};
use crate::{Frame, Returns};
use pl_base::State;
use pl_bodies::Simple;
use std::slice;

/// The SQLSTATE of the rule that the statement breaks where these frames stand around it.
pub(crate) fn simple_state(simple: &Simple, returns: Returns, frames: &[Frame]) -> Option<State>
    ensures { result ≡ spec.simple_state returns simple.now frames.now }
{
    match simple {
        Simple::Assign { target, .. } => targets_state(slice::from_ref(target), frames),
        Simple::Query { into, .. } => into_state(into, frames),
        Simple::Change { into, .. } => into_state(into, frames),
        Simple::Execute { into, .. } => into_state(into, frames),
        Simple::GetDiagnostics(targets) => targets_state(targets.as_slice(), frames),
        Simple::GetStackedDiagnostics(items) => targets_state(items.as_slice(), frames),
        Simple::Jump { jump, label, .. } => jump_state(*jump, label, frames),
        Simple::Return(value) => return_state(returns, value.is_some()),
        Simple::ReturnNext(value) => next_state(returns, value.is_some()),
        Simple::ReturnQuery(_) | Simple::ReturnExecute(_) => query_state(returns),
        Simple::Raise(raise) => raise_state(raise),
        Simple::Open { cursor, source } => open_state(variable_named(*cursor, frames), source),
        Simple::Fetch {
            cursor,
            targets,
            ..
        } => {
            let targets = targets_state(targets.as_slice(), frames);
            fetch_state(variable_named(*cursor, frames), targets)
        }
        Simple::Move { cursor, .. } => cursor_state(variable_named(*cursor, frames)),
        Simple::Close(cursor) => cursor_state(variable_named(*cursor, frames)),
        Simple::Null | Simple::Commit | Simple::Rollback => None,
        Simple::Perform(_) | Simple::Command(_) => None,
        Simple::RaiseAgain | Simple::Assert { .. } => None,
    }
}
