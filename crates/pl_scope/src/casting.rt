//! Casts that are written.

ghost use Rattle.std.specs.Prelude.{[]};
ghost use Rattle.pl_names.specs.Names.{around, known_types};
ghost use Rattle.pl_scope.specs.Following.{Follows};
ghost use Rattle.pl_scope.specs.Steps as spec;
ghost use Rattle.pl_typing.specs.Resolved.{Gives};

use pl_base::{State, Ty};
use pl_names::{Names, known_types};
use pl_typing::{ScopeFail, Typed, cast};
use std::alloc::Global;

/// A cast of the operand, where that could be read, to each type in turn. 42704 where there is no
/// such type, 42846 where there is no such cast.
pub fn cast_known(
    alloc: Global,
    operand: Result<Typed, ScopeFail>,
    types: &[Ty],
    names: &Names<'_>,
) -> Result<Typed, ScopeFail>
    ensures { Follows operand (spec.cast_by (known_types [] types.now (around names.now)) types.now)
        result }
{
    match operand {
        Ok(operand) => cast_in_turn(alloc, operand, types, names),
        Err(fail) => Err(fail),
    }
}

fn cast_in_turn(
    alloc: Global,
    operand: Typed,
    types: &[Ty],
    names: &Names<'_>,
) -> Result<Typed, ScopeFail>
    ensures { Gives result (spec.cast_by (known_types [] types.now (around names.now)) types.now
        operand) }
{
    let known = known_types(alloc, types, names)?;
    if known.len() < types.len() {
        cast(alloc, operand, known.as_slice())?;
        return Err(ScopeFail::State(State::UNDEFINED_OBJECT));
    }
    cast(alloc, operand, types)
}
