//! Casts that are written: PostgreSQL manual, "Type Casts", "CREATE CAST".

ghost use Rattle.std.specs.Prelude.{◌≡◌};
ghost use Rattle.pl_typing.specs.Resolved.{Gives};
ghost use Rattle.pl_typing.specs.Casts as spec;

use crate::headings::cast_heading;
use crate::{ScopeFail, Typed, headed};
use pl_base::{List, Name, State, Ty};
use pl_resolved::RExpr;
use std::alloc::Global;

/// A cast to each type in turn. 42846 where there is no such cast, 0A000 from a text to a row.
#[tactic(auto, unfolding(crate::specs::Casts::cast))]
pub fn cast(alloc: Global, operand: Typed, types: &[Ty]) -> Result<Typed, ScopeFail>
    ensures { Gives result (spec.cast operand types.now) }
{
    match cast_through(operand.ty, types) {
        Err(state) => Err(ScopeFail::State(state)),
        Ok(ty) => {
            let head = heading(&operand.head, types);
            let tree = RExpr::Cast {
                operand: operand.tree,
                types: List::from_slice(alloc, types)?,
            };
            Ok(headed(alloc, tree, ty, head)?)
        }
    }
}

fn cast_through(ty: Ty, mut types: &[Ty]) -> Result<Ty, State>
    ensures { result ≡ spec.cast_through ty types.entry.now }
{
    let mut from = ty;
    while let [to, rest @ ..] = types {
        match cast_type(&from, to) {
            Ok(ty) => from = ty,
            Err(state) => return Err(state),
        }
        types = rest;
    }
    Ok(from)
}

// The type that the cast gives.
fn cast_type(from: &Ty, to: &Ty) -> Result<Ty, State>
    ensures { result ≡ spec.cast_type from.now to.now }
{
    match (from, to) {
        (Ty::Unknown | Ty::Text, Ty::Row(_) | Ty::Rec) => Err(State::FEATURE_NOT_SUPPORTED),
        (Ty::Unknown | Ty::Text, Ty::Int | Ty::Big | Ty::Text | Ty::Bool) => Ok(*to),
        (Ty::Int, Ty::Int | Ty::Big | Ty::Text | Ty::Bool) => Ok(*to),
        (Ty::Big, Ty::Int | Ty::Big | Ty::Text) => Ok(*to),
        (Ty::Bool, Ty::Int | Ty::Text | Ty::Bool) => Ok(*to),
        (Ty::Row(_) | Ty::Rec, Ty::Text) => Ok(*to),
        (Ty::Row(from), Ty::Row(name)) => to_row(from, name),
        (Ty::Rec, Ty::Rec) => Ok(Ty::Rec),
        _ => Err(State::CANNOT_COERCE),
    }
}

// A row type is cast to itself alone.
fn to_row(from: &Name, to: &Name) -> Result<Ty, State>
    ensures { result ≡ spec.to_row from.now to.now }
{
    if from == to {
        Ok(Ty::Row(*to))
    } else {
        Err(State::CANNOT_COERCE)
    }
}

fn heading(head: &Name, types: &[Ty]) -> Name
    ensures { result ≡ spec.heading head.now types.now }
{
    match types {
        [ty, ..] => cast_heading(head, ty),
        [] => *head,
    }
}
