//! What queries of bodies resolve, in the newest call: PostgreSQL manual, "PL/pgSQL", "Variable
//! Substitution".

ghost use Rattle.std.specs.Prelude.{◌≡◌};
ghost use Rattle.pl_asking.specs.pl_engine.Engines.{kept, world};
ghost use Rattle.pl_typing.specs.Resolved.{Gives};
ghost use Rattle.pl_world.specs.Commands.{selecting};

use pl_asking::pl_engine::{Engine, Spot};
use pl_asking::{Variable, aim_all};
use pl_base::{List, Shared};
use pl_bodies::Target;
use pl_resolved::RQuery;
use pl_tree::Query;
use pl_typing::ScopeFail;
use std::marker::Model;

/// A query whose row goes into variables.
#[derive(Drop)]
pub(crate) struct IntoQuery {
    queries: Shared<List<RQuery>>,
    into: List<Variable>,
}

impl Model for IntoQuery {
    ghost use Rattle.std.specs.Coded.{codes};
    ghost use Rattle.pl_resolved.specs.contracts.query.RQuery as query;
    ghost use Rattle.pl_world.specs.Commands as commands;

    ghost Value = { commands.Selecting };

    ghost coded = { Prim.hlevel (codes, query.the_row.coded) };

    ghost view = { λ s. record { queries = s.queries; into = s.into } };
}

impl IntoQuery {
    /// The query behind those inside it.
    pub(crate) fn queries(&self) -> &List<RQuery>
        ensures { result.now ≡ self.now.queries }
    {
        self.queries.get()
    }

    /// The variables, from left to right.
    pub(crate) fn variables(&self) -> &[Variable]
        ensures { result.now ≡ self.now.into }
    {
        self.into.as_slice()
    }
}

/// The query of a SELECT INTO is resolved, and then its targets.
#[tactic(auto, unfolding(pl_world::specs::Commands::selecting))]
pub(crate) fn resolve_into(
    engine: &mut Engine,
    at: Spot,
    q: &Query,
    targets: &[Target],
) -> Result<IntoQuery, ScopeFail>
    ensures gives { Gives result (selecting q.now targets.now (world engine.old).database.objects
        (world engine.old).frame.static) }
    ensures is { world engine.new ≡ world engine.old }
    ensures keeps { kept engine.new ≡ kept engine.old }
{
    let queries = engine.resolve_query(at, q)?;
    let into = aim_all(&*engine, targets)?;
    Ok(IntoQuery { queries, into })
}
