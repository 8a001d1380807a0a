//! How an evaluation begins.

ghost use Rattle.pl_calling.specs.Standing.{nothing, nowhere};
ghost use Rattle.pl_engine.specs.Engines.{Kept};
ghost use Rattle.pl_engine.specs.pl_world.World.{World};

use std::marker::Brand;

/// How an evaluation begins. It stands in proofs alone: who evaluates picks it.
pub trait Start {
    /// The world in which it begins.
    ghost begin: { World };

    /// What it leaves as it was.
    ghost stays: { Kept };
}

impl Start for Brand {
    ghost begin = { nowhere };

    ghost stays = { nothing };
}
