//! A moment of an evaluation.

use std::marker::Model;

/// A moment of an evaluation, as a type. No value of it is ever made: it says of what states a
/// contract speaks.
#[derive(Drop)]
pub struct Moment;

impl Model for Moment {
    ghost use Rattle.std.specs.Coded.{codes};
    ghost use Rattle.pl_base.specs.contracts.value.Value as value;
    ghost use Rattle.pl_world.specs.Calls.{Within};
    ghost use Rattle.pl_world.specs.Expressions.{begun};
    ghost use Rattle.pl_world.specs.Sessions.{new_world};
    ghost use Rattle.pl_world.specs.pl_journal.Operation.{empty};
    ghost use Rattle.pl_world.specs.pl_journal.pl_catalog.contracts.object.Object as object;

    ghost Value = { Within };

    ghost coded = { Prim.hlevel (codes, value.the_row.coded, object.the_row.coded) };

    ghost view = { λ _. begun (new_world empty) };
}
