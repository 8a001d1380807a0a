//! Casts that an assignment makes: PostgreSQL manual, "Value Storage", "CREATE CAST".

ghost use Rattle.std.specs.Prelude.{◌≡◌, IfOk};
ghost use Rattle.pl_assigning.specs.Assigning as spec;
ghost use Rattle.pl_typing.specs.Resolved.{Gives};
ghost use Rattle.pl_typing.specs.Typing.{cast_node};

use pl_base::{Boxed, List, State, Ty};
use pl_resolved::RExpr;
use pl_typing::{ScopeFail, Typed};
use std::alloc::{AllocError, Global};

fn is_kept(from: &Ty, to: &Ty) -> bool
    ensures { result ≡ spec.is_kept from.now to.now }
{
    match (from, to) {
        (Ty::Unknown, Ty::Text) => true,
        (Ty::Int, Ty::Int) | (Ty::Big, Ty::Big) => true,
        (Ty::Text, Ty::Text) | (Ty::Bool, Ty::Bool) => true,
        (Ty::Row(from), Ty::Row(to)) => from == to,
        _ => false,
    }
}

fn is_assignable(from: &Ty, to: &Ty) -> bool
    ensures { result ≡ spec.is_assignable from.now to.now }
{
    match (from, to) {
        (Ty::Unknown, _) => true,
        (Ty::Int, Ty::Big | Ty::Text) => true,
        (Ty::Big, Ty::Int | Ty::Text) => true,
        (Ty::Bool | Ty::Row(_) | Ty::Rec, Ty::Text) => true,
        _ => false,
    }
}

fn cast_node(alloc: Global, operand: Boxed<RExpr>, to: Ty) -> Result<Boxed<RExpr>, AllocError>
    ensures { IfOk result (λ tree. tree ≡ cast_node to operand) }
{
    let mut types = List::new(alloc);
    types.push(to)?;
    Boxed::new(alloc, RExpr::Cast { operand, types })
}

/// The expression as a value of a column of this type, with a cast where its own type is another.
/// 42804 where an assignment makes no such cast.
#[tactic(auto, unfolding(crate::specs::Assigning::assigned))]
pub fn assigned(alloc: Global, value: Typed, to: Ty) -> Result<Boxed<RExpr>, ScopeFail>
    ensures { Gives result (spec.assigned to value) }
{
    if is_kept(&value.ty, &to) {
        return Ok(value.tree);
    }
    if !is_assignable(&value.ty, &to) {
        return Err(ScopeFail::State(State::DATATYPE_MISMATCH));
    }
    Ok(cast_node(alloc, value.tree, to)?)
}
