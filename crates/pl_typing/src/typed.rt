//! A resolved expression and its type: PostgreSQL manual, "Type Conversion".

ghost use Rattle.std.specs.Prelude.{◌≡◌, IfOk};
ghost use Rattle.pl_typing.specs.Resolved.{Gives};
ghost use Rattle.pl_typing.specs.Typing as spec;

use crate::ScopeFail;
use pl_base::{Boxed, List, Name, State, Ty};
use pl_resolved::{Head, RExpr};
use std::alloc::{AllocError, Global};

/// A resolved expression, its type, and the heading of a column that has it.
#[derive(Drop)]
pub struct Typed {
    /// In its box, so that a value that is let go is one call and no match over all variants.
    pub tree: Boxed<RExpr>,
    pub ty: Ty,
    /// `Name::NONE` where the column is printed as `?column?`.
    pub head: Name,
}

/// The tree with its type and its heading.
pub fn headed(alloc: Global, tree: RExpr, ty: Ty, head: Name) -> Result<Typed, AllocError>
    ensures { IfOk result (λ made. made ≡ spec.headed tree ty head) }
{
    Ok(Typed {
        tree: Boxed::new(alloc, tree)?,
        ty,
        head,
    })
}

/// The tree with its type, and no heading.
pub fn with_type(alloc: Global, tree: RExpr, ty: Ty) -> Result<Typed, AllocError>
    ensures { IfOk result (λ made. made ≡ spec.typed tree ty) }
{
    headed(alloc, tree, ty, Name::NONE)
}

/// A tree whose value is a truth.
pub fn truth_of(alloc: Global, tree: RExpr) -> Result<Typed, AllocError>
    ensures { IfOk result (λ made. made ≡ spec.truth_of tree) }
{
    with_type(alloc, tree, Ty::Bool)
}

fn needs_cast(from: &Ty, to: &Ty) -> bool
    ensures { result ≡ spec.needs_cast from.now to.now }
{
    match (from, to) {
        (Ty::Unknown, Ty::Unknown | Ty::Text) => false,
        (Ty::Unknown, _) => true,
        (Ty::Int, Ty::Big) => true,
        _ => false,
    }
}

/// The expression at this type, with a cast where its own type needs one: an unknown literal that
/// becomes no text, and an integer that becomes a bigint.
#[tactic(auto, unfolding(crate::specs::Typing::coerced))]
pub fn coerced(alloc: Global, operand: Typed, to: Ty) -> Result<Boxed<RExpr>, AllocError>
    ensures { IfOk result (λ tree. tree ≡ spec.coerced to operand) }
{
    if needs_cast(&operand.ty, &to) {
        cast_node(alloc, operand.tree, to)
    } else {
        Ok(operand.tree)
    }
}

fn cast_node(alloc: Global, operand: Boxed<RExpr>, to: Ty) -> Result<Boxed<RExpr>, AllocError>
    ensures { IfOk result (λ tree. tree ≡ spec.cast_node to operand) }
{
    let mut types = List::new(alloc);
    types.push(to)?;
    Boxed::new(alloc, RExpr::Cast { operand, types })
}

/// The expression as a condition. 42804 where it is none.
#[tactic(auto, unfolding(crate::specs::Typing::truth))]
pub fn truth(alloc: Global, condition: Typed) -> Result<Boxed<RExpr>, ScopeFail>
    ensures { Gives result (spec.truth condition) }
{
    match condition.ty {
        Ty::Bool | Ty::Unknown => Ok(coerced(alloc, condition, Ty::Bool)?),
        _ => Err(ScopeFail::State(State::DATATYPE_MISMATCH)),
    }
}

/// The expression as the count of rows of LIMIT or OFFSET, a bigint. 42804 where it is no number.
#[tactic(auto, unfolding(crate::specs::Typing::limited))]
pub fn limited(alloc: Global, count: Typed) -> Result<Boxed<RExpr>, ScopeFail>
    ensures { Gives result (spec.limited count) }
{
    match count.ty {
        Ty::Int | Ty::Big | Ty::Unknown => Ok(coerced(alloc, count, Ty::Big)?),
        _ => Err(ScopeFail::State(State::DATATYPE_MISMATCH)),
    }
}

/// The type of an operand beside another: an unknown one takes the other's, or text.
pub(crate) fn settled(ty: &Ty, other: &Ty) -> Ty
    ensures { result ≡ spec.settled ty.now other.now }
{
    match (ty, other) {
        (Ty::Unknown, Ty::Unknown) => Ty::Text,
        (Ty::Unknown, _) => *other,
        _ => *ty,
    }
}

/// The type of what stands alone: an unknown literal is a text.
pub fn as_text_type(ty: &Ty) -> Ty
    ensures { result ≡ spec.as_text_type ty.now }
{
    match ty {
        Ty::Unknown => Ty::Text,
        _ => *ty,
    }
}

/// The column of an item of a select list: its label, or else the heading of its expression; what
/// has no type is a text.
pub fn head_of(label: &Option<Name>, item: &Typed) -> Head
    ensures { result ≡ spec.head_of label.now item.now }
{
    Head {
        name: label_or(label, &item.head),
        ty: as_text_type(&item.ty),
    }
}

fn label_or(label: &Option<Name>, head: &Name) -> Name
    ensures { result ≡ spec.label_or label.now head.now }
{
    match label {
        Some(label) => *label,
        None => *head,
    }
}
