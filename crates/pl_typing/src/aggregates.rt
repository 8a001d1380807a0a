//! The aggregates' types: PostgreSQL manual, "Aggregate Functions".

ghost use Rattle.std.specs.Prelude.{◌≡◌};
ghost use Rattle.pl_typing.specs.Resolved.{Gives};
ghost use Rattle.pl_typing.specs.Aggregates as spec;

use crate::functions::{Signature, taking};
use crate::{Arguments, ScopeFail, as_text_type, fitted};
use pl_base::{Name, State, Ty};
use pl_resolved::{Aggregate, RAggregate};
use std::alloc::Global;

/// The aggregate of this name. None where there is none.
pub fn aggregate_named(name: &Name) -> Option<Aggregate>
    ensures { result ≡ spec.aggregate_named name.now }
{
    aggregate_spelled(name.as_bytes())
}

fn aggregate_spelled(name: &[u8]) -> Option<Aggregate>
    ensures { result ≡ spec.aggregate_named name.now }
{
    if name == b"count".as_slice() {
        Some(Aggregate::Count)
    } else if name == b"sum".as_slice() {
        Some(Aggregate::Sum)
    } else if name == b"min".as_slice() {
        Some(Aggregate::Min)
    } else if name == b"max".as_slice() {
        Some(Aggregate::Max)
    } else if name == b"bool_and".as_slice() {
        Some(Aggregate::BoolAnd)
    } else if name == b"bool_or".as_slice() {
        Some(Aggregate::BoolOr)
    } else if name == b"string_agg".as_slice() {
        Some(Aggregate::StringAgg)
    } else {
        None
    }
}

/// An aggregate over the rows of a group, and its type.
#[derive(Drop)]
pub struct TypedAggregate {
    pub aggregate: RAggregate,
    pub ty: Ty,
}

/// The aggregate of these arguments. 42883 where it doesn't take them.
#[tactic(auto, unfolding(crate::specs::Aggregates::aggregated))]
pub fn aggregated(
    alloc: Global,
    aggregate: Aggregate,
    arguments: Arguments,
) -> Result<TypedAggregate, ScopeFail>
    ensures { Gives result (spec.aggregated aggregate arguments) }
{
    let Signature { takes, gives } = signature_of(alloc, aggregate, arguments.types.as_slice())?;
    let arguments = fitted(alloc, arguments, takes.as_slice())?;
    Ok(TypedAggregate {
        aggregate: RAggregate {
            aggregate,
            arguments,
        },
        ty: gives,
    })
}

// What the aggregate takes and gives, where arguments of these types are given.
fn signature_of(alloc: Global, aggregate: Aggregate, given: &[Ty]) -> Result<Signature, ScopeFail>
    ensures { Gives result (spec.signature_of aggregate given.now) }
{
    match aggregate {
        Aggregate::CountRows => Ok(taking(alloc, &[], Ty::Big)?),
        Aggregate::Count => signature_of_count(alloc, given),
        Aggregate::Sum => signature_of_sum(alloc, given),
        Aggregate::Min | Aggregate::Max => signature_of_least(alloc, given),
        Aggregate::BoolAnd | Aggregate::BoolOr => Ok(taking(alloc, &[Ty::Bool], Ty::Bool)?),
        Aggregate::StringAgg => Ok(taking(alloc, &[Ty::Text, Ty::Text], Ty::Text)?),
    }
}

// A value of any type.
fn signature_of_count(alloc: Global, given: &[Ty]) -> Result<Signature, ScopeFail>
    ensures { Gives result (spec.signature_of_count given.now) }
{
    match given {
        [ty] => Ok(taking(alloc, &[as_text_type(ty)], Ty::Big)?),
        _ => Err(ScopeFail::State(State::UNDEFINED_FUNCTION)),
    }
}

// A number of either type.
fn signature_of_sum(alloc: Global, given: &[Ty]) -> Result<Signature, ScopeFail>
    ensures { Gives result (spec.signature_of_sum given.now) }
{
    match given {
        [Ty::Int] => Ok(taking(alloc, &[Ty::Int], Ty::Big)?),
        [Ty::Big] => Ok(taking(alloc, &[Ty::Big], Ty::Big)?),
        _ => Err(ScopeFail::State(State::UNDEFINED_FUNCTION)),
    }
}

// A number or a text.
fn signature_of_least(alloc: Global, given: &[Ty]) -> Result<Signature, ScopeFail>
    ensures { Gives result (spec.signature_of_least given.now) }
{
    match given {
        [Ty::Int] => Ok(taking(alloc, &[Ty::Int], Ty::Int)?),
        [Ty::Big] => Ok(taking(alloc, &[Ty::Big], Ty::Big)?),
        [Ty::Text | Ty::Unknown] => Ok(taking(alloc, &[Ty::Text], Ty::Text)?),
        _ => Err(ScopeFail::State(State::UNDEFINED_FUNCTION)),
    }
}
