//! The parameters of a routine as variables.

ghost use Rattle.std.specs.Prelude.{◌≡◌, codes, suc, false, length, map, replicate, IfOk, None};
ghost use Rattle.pl_tree.specs.declared.command.Param as declared;
ghost use Rattle.pl_world.specs.Variables as spec;

use crate::blocks::{block, variable};
use pl_base::{List, Name, Ty};
use pl_tree::Param;
use pl_world::pl_names::{Seen, Visible};
use std::alloc::{AllocError, Global};

/// The blocks in which a routine begins: its parameters, and inside of them FOUND.
pub(crate) fn blocks_of(
    alloc: Global,
    routine: Name,
    params: &[Param],
) -> Result<List<Visible>, AllocError>
    ensures { IfOk result (λ made. made ≡ (spec.entering routine params.now None).scope.frames) }
{
    let mut blocks = List::new(alloc);
    blocks.push(Visible {
        label: routine,
        variables: variables_of(alloc, params)?,
    })?;
    let mut found = block(alloc, routine);
    found.variables.push(variable(found_name(), Ty::Bool))?;
    blocks.push(found)?;
    Ok(blocks)
}

fn found_name() -> Name
    ensures { result ≡ codes "found" }
{
    Name::of("found").unwrap()
}

fn variables_of(alloc: Global, params: &[Param]) -> Result<List<Seen>, AllocError>
    ensures { IfOk result (λ made. made ≡ map spec.parameter params.now) }
{
    let mut made = List::new(alloc);
    for param in params {
        made.push(variable(param.name.unwrap_or(Name::NONE), param.ty))?;
    }
    Ok(made)
}

/// Their types.
pub(crate) fn types_of(alloc: Global, params: &[Param]) -> Result<List<Ty>, AllocError>
    ensures { IfOk result (λ made. made ≡ map (λ (p : declared.Param). p.ty) params.now) }
{
    let mut made = List::new(alloc);
    for param in params {
        made.push(param.ty)?;
    }
    Ok(made)
}

/// That each takes null, and FOUND behind them.
pub(crate) fn none_required(alloc: Global, params: &[Param]) -> Result<Vec<bool>, AllocError>
    ensures { IfOk result (λ made. made.items ≡ replicate (suc (length params.now)) false) }
{
    let mut made = Vec::new(alloc);
    made.push(false)?;
    for _param in params {
        made.push(false)?;
    }
    Ok(made)
}
