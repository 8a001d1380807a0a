//! Where a statement stands in its body.

use std::marker::Model;

/// Where a statement stands in its body; the routine itself has ordinal 0.
#[derive(Clone, Copy)]
pub struct Spot {
    pub line: u32,
    pub ordinal: u32,
}

impl Model for Spot {
    ghost use Rattle.pl_world.specs.Errors as errors;

    ghost Value = { errors.Spot };

    ghost view = { λ s. record { line = s.line; ordinal = s.ordinal } };

    ghost inverse = { λ s. record { line = s.line; ordinal = s.ordinal } };
}
