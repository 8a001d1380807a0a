//! Scopes that are the same, their copies, and how these are shared.

ghost use Rattle.std.specs.Prelude.{◌≡◌, true, IfOk};

use pl_alike::{all_same, same_name, same_type};
use pl_base::{List, Shared, Ty, copy_each};
use pl_names::{Scope, Seen, Shape, Visible};
use pl_resolved::Head;
use std::alloc::{AllocError, Global};

// ---- the same

fn same_head(a: &Head, b: &Head) -> bool
    ensures { result ≡ true → a.now ≡ b.now }
{
    same_name(&a.name, &b.name) && same_type(&a.ty, &b.ty)
}

fn same_shape(a: &Shape, b: &Shape) -> bool
    ensures { result ≡ true → a.now ≡ b.now }
{
    match (a, b) {
        (Shape::Plain, Shape::Plain) => true,
        (Shape::Unassigned, Shape::Unassigned) => true,
        (Shape::Unknown, Shape::Unknown) => true,
        (Shape::Known(a), Shape::Known(b)) => all_same(a.as_slice(), b.as_slice(), same_head),
        _ => false,
    }
}

fn same_variable(a: &Seen, b: &Seen) -> bool
    ensures { result ≡ true → a.now ≡ b.now }
{
    same_name(&a.name, &b.name) && same_type(&a.ty, &b.ty) && same_shape(&a.shape, &b.shape)
}

fn same_block(a: &Visible, b: &Visible) -> bool
    ensures { result ≡ true → a.now ≡ b.now }
{
    same_name(&a.label, &b.label)
        && all_same(
            a.variables.as_slice(),
            b.variables.as_slice(),
            same_variable,
        )
}

/// Whether all names mean the same in both.
pub(crate) fn is_same_scope(a: &Scope, b: &Scope) -> bool
    ensures { result ≡ true → a.now ≡ b.now }
{
    all_same(a.frames.as_slice(), b.frames.as_slice(), same_block)
        && all_same(
            a.params.as_slice(),
            b.params.as_slice(),
            |a, b| same_type(a, b),
        )
}

// ---- copies

fn copy_shape(alloc: Global, shape: &Shape) -> Result<Shape, AllocError>
    ensures { IfOk result (λ copied. copied ≡ shape.now) }
{
    match shape {
        Shape::Plain => Ok(Shape::Plain),
        Shape::Unassigned => Ok(Shape::Unassigned),
        Shape::Unknown => Ok(Shape::Unknown),
        Shape::Known(heads) => {
            let heads = copy_each(alloc, heads.as_slice(), |head| Ok(*head))?;
            Ok(Shape::Known(heads))
        }
    }
}

fn copy_variable(alloc: Global, variable: &Seen) -> Result<Seen, AllocError>
    ensures { IfOk result (λ copied. copied ≡ variable.now) }
{
    Ok(Seen {
        name: variable.name,
        ty: variable.ty,
        shape: copy_shape(alloc, &variable.shape)?,
    })
}

fn copy_block(alloc: Global, block: &Visible) -> Result<Visible, AllocError>
    ensures { IfOk result (λ copied. copied ≡ block.now) }
{
    let variables = block.variables.as_slice();
    Ok(Visible {
        label: block.label,
        variables: copy_each(alloc, variables, |variable| copy_variable(alloc, variable))?,
    })
}

fn copy_scope(alloc: Global, scope: &Scope) -> Result<Scope, AllocError>
    ensures { IfOk result (λ copied. copied ≡ scope.now) }
{
    let frames = copy_each(
        alloc,
        scope.frames.as_slice(),
        |block| copy_block(alloc, block),
    )?;
    let params = copy_each(alloc, scope.params.as_slice(), |ty| Ok(*ty))?;
    Ok(Scope { frames, params })
}

/// The scope, one owner more: of the newest copy, where it is the same, else of one that is made
/// and is the newest from then on.
pub(crate) fn share_scope(
    alloc: Global,
    newest: &mut Option<Shared<Scope>>,
    scope: &Scope,
) -> Result<Shared<Scope>, AllocError>
    ensures { IfOk result (λ shared. shared ≡ scope.now) }
{
    if let Some(kept) = newest.as_ref() {
        if is_same_scope(kept.get(), scope) {
            return kept.share();
        }
    }
    let copied = Shared::new(alloc, copy_scope(alloc, scope)?)?;
    *newest = Some(copied.share()?);
    Ok(copied)
}
