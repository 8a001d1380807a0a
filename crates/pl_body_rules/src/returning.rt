//! RETURN, RETURN NEXT and RETURN QUERY: PostgreSQL manual, PL/pgSQL, "Returning from a Function".

ghost use Rattle.std.specs.Prelude.{◌≡◌};
ghost use Rattle.std.specs.List.{list_any};
ghost use Rattle.pl_body_rules.specs.Heading.{routine};
ghost use Rattle.pl_body_rules.specs.Returning as spec;

use crate::{Heading, Kind};
use pl_base::{State, Ty};
use pl_tree::{Param, ResultType, Way};

/// What a routine returns, as far as RETURN says it.
#[derive(Clone, Copy)]
pub enum Returns {
    /// No value goes with RETURN.
    Nothing,
    /// One value, which goes with RETURN.
    Value,
    /// Rows, each of which goes with RETURN NEXT.
    Rows,
    /// Rows of what the variables hold at RETURN NEXT: OUT and INOUT parameters, or the columns of
    /// TABLE.
    Variables,
}

fn goes_out(way: Way) -> bool
    ensures { result ≡ spec.goes_out way }
{
    match way {
        Way::In => false,
        Way::Out | Way::InOut => true,
    }
}

fn has_out(params: &[Param]) -> bool
    ensures { result ≡ list_any (λ param. spec.goes_out param.way) params.now }
{
    for param in params {
        if goes_out(param.way) {
            return true;
        }
    }
    false
}

fn of_result(has_out: bool, result_type: &ResultType) -> Returns
    ensures { result ≡ spec.of_result has_out result_type.now }
{
    match result_type {
        ResultType::Absent => Returns::Nothing,
        ResultType::One(Ty::Void) => Returns::Nothing,
        ResultType::One(_) => {
            if has_out {
                Returns::Nothing
            } else {
                Returns::Value
            }
        }
        ResultType::Set(_) => {
            if has_out {
                Returns::Variables
            } else {
                Returns::Rows
            }
        }
        ResultType::Columns(_) => Returns::Variables,
    }
}

/// What the routine returns.
pub(crate) fn returns_of(heading: &Heading<'_>) -> Returns
    ensures { result ≡ spec.returns_of (routine heading.now) }
{
    match heading.kind {
        Kind::Function => of_result(has_out(heading.params), heading.result),
        Kind::Procedure | Kind::Do => Returns::Nothing,
    }
}

/// RETURN: 42601 without a value where one is due, 42804 with one where none is.
pub(crate) fn return_state(returns: Returns, has_value: bool) -> Option<State>
    ensures { result ≡ spec.return_state returns has_value }
{
    match (returns, has_value) {
        (Returns::Value, true) => None,
        (Returns::Value, false) => Some(State::SYNTAX_ERROR),
        (_, true) => Some(State::DATATYPE_MISMATCH),
        (_, false) => None,
    }
}

/// RETURN NEXT: 42804 where no rows are due, and with a value where variables hold the row; 42601
/// without one where none do.
pub(crate) fn next_state(returns: Returns, has_value: bool) -> Option<State>
    ensures { result ≡ spec.next_state returns has_value }
{
    match (returns, has_value) {
        (Returns::Rows, true) => None,
        (Returns::Rows, false) => Some(State::SYNTAX_ERROR),
        (Returns::Variables, false) => None,
        (_, _) => Some(State::DATATYPE_MISMATCH),
    }
}

/// RETURN QUERY: 42804 where no rows are due.
pub(crate) fn query_state(returns: Returns) -> Option<State>
    ensures { result ≡ spec.query_state returns }
{
    match returns {
        Returns::Rows | Returns::Variables => None,
        Returns::Nothing | Returns::Value => Some(State::DATATYPE_MISMATCH),
    }
}
