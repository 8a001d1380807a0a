//! Cursors: PostgreSQL manual, PL/pgSQL, "Cursors".

ghost use Rattle.std.specs.Prelude.{◌≡◌};
ghost use Rattle.pl_body_rules.specs.Simple as spec;

use crate::{Variable, VariableKind};
use pl_base::State;
use pl_bodies::OpenSource;

/// What FETCH, MOVE and CLOSE are of: 42601 where it is no variable, 42804 where it is no cursor.
pub(crate) fn cursor_state(variable: Option<Variable>) -> Option<State>
    ensures { result ≡ spec.cursor_state variable }
{
    match variable {
        None => Some(State::SYNTAX_ERROR),
        Some(variable) => match variable.kind {
            VariableKind::Cursor | VariableKind::Bound { .. } => None,
            VariableKind::Plain | VariableKind::Row => Some(State::DATATYPE_MISMATCH),
        },
    }
}

/// FETCH: its targets' state comes before 42804.
pub(crate) fn fetch_state(variable: Option<Variable>, targets: Option<State>) -> Option<State>
    ensures { result ≡ spec.fetch_state variable targets }
{
    match variable {
        None => Some(State::SYNTAX_ERROR),
        Some(_) => targets.or(cursor_state(variable)),
    }
}

// A cursor with so many parameters is given so many arguments.
fn arguments_state(parameters: usize, arguments: usize) -> Option<State>
    ensures { result ≡ spec.arguments_state parameters arguments }
{
    if parameters == arguments {
        None
    } else {
        Some(State::SYNTAX_ERROR)
    }
}

fn bound_state(parameters: usize, source: &OpenSource) -> Option<State>
    ensures { result ≡ spec.bound_state parameters source.now }
{
    match source {
        OpenSource::Bound(arguments) => arguments_state(parameters, arguments.len()),
        OpenSource::Query { .. } | OpenSource::Execute { .. } => Some(State::SYNTAX_ERROR),
    }
}

fn free_state(source: &OpenSource) -> Option<State>
    ensures { result ≡ spec.free_state source.now }
{
    match source {
        OpenSource::Bound(_) => Some(State::SYNTAX_ERROR),
        OpenSource::Query { .. } | OpenSource::Execute { .. } => None,
    }
}

/// OPEN: 42601 where it is of no variable, 42804 where it is of no cursor, 42601 where a bound
/// cursor is given a query or other than its arguments, and where another is given no query.
pub(crate) fn open_state(variable: Option<Variable>, source: &OpenSource) -> Option<State>
    ensures { result ≡ spec.open_state variable source.now }
{
    match variable {
        None => Some(State::SYNTAX_ERROR),
        Some(variable) => match variable.kind {
            VariableKind::Plain | VariableKind::Row => Some(State::DATATYPE_MISMATCH),
            VariableKind::Cursor => free_state(source),
            VariableKind::Bound { parameters } => bound_state(parameters, source),
        },
    }
}

/// FOR over a cursor: 42601 where it is of no bound cursor, or gives it other than its arguments.
pub(crate) fn cursor_loop_state(variable: Option<Variable>, arguments: usize) -> Option<State>
    ensures { result ≡ spec.cursor_loop_state variable arguments }
{
    match variable {
        None => Some(State::SYNTAX_ERROR),
        Some(variable) => match variable.kind {
            VariableKind::Bound { parameters } => arguments_state(parameters, arguments),
            VariableKind::Plain | VariableKind::Row | VariableKind::Cursor => {
                Some(State::SYNTAX_ERROR)
            }
        },
    }
}
