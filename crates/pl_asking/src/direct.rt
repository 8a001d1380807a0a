//! Values that are read off the tree of an expression, which is then neither resolved nor built.

ghost use Rattle.std.specs.Prelude.{IfSome};
ghost use Rattle.pl_asking.specs.Values as spec;
ghost use Rattle.pl_calling.specs.pl_engine.Engines.{world};

use pl_base::{Ty, Value};
use pl_bodies::Target;
use pl_calling::pl_engine::{Engine, Moment};
use pl_direct::{Known, Spot, direct_value, direct_variable};
use pl_tree::Expr;

fn known_at_once(engine: &Engine, e: &Expr) -> Option<Known>
    ensures { IfSome result (λ known. spec.DirectlyIs e.now (world engine.now) known) }
{
    let catalog = engine.journal().catalog();
    let scope = engine.declared().scope();
    direct_value::<Moment>(catalog, scope, e, engine.values())
}

/// The value of an expression that needs no more than the variables. None where it has to be
/// resolved.
pub(crate) fn value_at_once(engine: &Engine, e: &Expr) -> Option<Value>
    ensures { IfSome result (λ v. spec.AtOnce e.now (world engine.now) v) }
{
    let known = known_at_once(engine, e)?;
    Some(known.value())
}

/// The same for RETURN. None where no value is due.
pub(crate) fn given_at_once(engine: &Engine, e: &Expr) -> Option<Value>
    ensures { IfSome result (λ v. spec.GivenAtOnce e.now (world engine.now) v) }
{
    match engine.declared().result() {
        Some(_) => {
            let known = known_at_once(engine, e)?;
            Some(known.value())
        }
        None => None,
    }
}

/// Whether a condition is true. None where that has to be resolved.
pub(crate) fn truth_at_once(engine: &Engine, e: &Expr) -> Option<bool>
    ensures { IfSome result (λ b. spec.TestedAtOnce e.now (world engine.now) b) }
{
    match known_at_once(engine, e)? {
        Known::Bool(truth) => Some(truth),
        Known::Int(_) | Known::Big(_) => None,
    }
}

// ---- assignment

/// A value for the variable of this place.
#[derive(Drop)]
pub(crate) struct Stored {
    pub column: usize,
    pub value: Value,
}

/// The variable that a target names. None where it has a qualifier, and where it has to be sought
/// by the rules for all names.
pub(crate) fn aim_at_once<'a>(engine: &'a Engine, target: &Target) -> Option<Spot<'a>>
    ensures { IfSome result (λ spot. spec.AimsAt target.now (world engine.now) spot) }
{
    match target.qualifier {
        None => direct_variable(engine.declared().scope(), &target.name),
        Some(_) => None,
    }
}

/// What an assignment gives to which variable. None where the target or the value has to be
/// resolved.
pub(crate) fn stored_at_once(engine: &Engine, target: &Target, e: &Expr) -> Option<Stored>
    ensures { IfSome result (λ s. spec.AssignedAtOnce target.now e.now (world engine.now) s.column
        s.value) }
{
    let spot = aim_at_once(engine, target)?;
    let known = known_at_once(engine, e)?;
    let value = known.fitted(&spot.seen.ty)?;
    Some(Stored {
        column: spot.column,
        value,
    })
}
