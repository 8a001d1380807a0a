//! What changes of bodies resolve, in the newest call: PostgreSQL manual, "PL/pgSQL", "Variable
//! Substitution".

ghost use Rattle.std.specs.Prelude.{◌≡◌};
ghost use Rattle.pl_querying.specs.pl_engine.Engines.{kept, world};
ghost use Rattle.pl_typing.specs.Resolved.{Gives};
ghost use Rattle.pl_world.specs.Commands.{altering};
ghost use Rattle.pl_world.specs.Statements.{targets_in};

use pl_base::{List, Shared};
use pl_bodies::{Change, IntoClause, Target};
use pl_querying::pl_asking::{Variable, aim_all};
use pl_querying::pl_engine::{Engine, Spot};
use pl_targets::RChange;
use pl_typing::ScopeFail;
use std::marker::Model;

/// A change, and the variables into which a row of its RETURNING goes.
#[derive(Drop)]
pub(crate) struct Altering {
    change: Shared<RChange>,
    into: List<Variable>,
}

impl Model for Altering {
    ghost use Rattle.std.specs.Coded.{codes};
    ghost use Rattle.pl_resolved.specs.contracts.expression.RExpr as expression;
    ghost use Rattle.pl_resolved.specs.contracts.query.RQuery as query;
    ghost use Rattle.pl_world.specs.Commands as commands;

    ghost Value = { commands.Altering };

    ghost coded = { Prim.hlevel (codes, expression.the_row.coded, query.the_row.coded) };

    ghost view = { λ a. record { change = a.change; into = a.into } };
}

impl Altering {
    pub(crate) fn change(&self) -> &RChange
        ensures { result.now ≡ self.now.change }
    {
        self.change.get()
    }

    /// The variables, from left to right.
    pub(crate) fn variables(&self) -> &[Variable]
        ensures { result.now ≡ self.now.into }
    {
        self.into.as_slice()
    }
}

// The targets of INTO.
fn targets_of(into: &Option<IntoClause>) -> &[Target]
    ensures { result.now ≡ targets_in into.now }
{
    match into {
        Some(clause) => clause.targets.as_slice(),
        None => &[],
    }
}

/// A change is resolved, and then the targets of its INTO.
#[tactic(auto, unfolding(pl_world::specs::Commands::altering))]
pub(crate) fn resolve_into(
    engine: &mut Engine,
    at: Spot,
    c: &Change,
    into: &Option<IntoClause>,
) -> Result<Altering, ScopeFail>
    ensures gives { Gives result (altering c.now (targets_in into.now)
        (world engine.old).database.objects (world engine.old).frame.static) }
    ensures is { world engine.new ≡ world engine.old }
    ensures keeps { kept engine.new ≡ kept engine.old }
{
    let change = engine.resolve_change(at, c)?;
    let into = aim_all(&*engine, targets_of(into))?;
    Ok(Altering { change, into })
}
