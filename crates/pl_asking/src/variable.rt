//! A variable that is given a value.

use pl_base::Ty;
use std::marker::Model;

/// A variable that is given a value.
#[derive(Clone, Copy)]
pub struct Variable {
    /// Its place among the variables of the call.
    pub at: usize,
    pub ty: Ty,
    /// It takes no null.
    pub is_required: bool,
}

impl Model for Variable {
    ghost use Rattle.pl_world.specs.Resolving as resolving;

    ghost Value = { resolving.Variable };

    ghost view = { λ v. record { at = v.at; ty = v.ty; is_required = v.is_required } };

    ghost inverse = { λ v. record { at = v.at; ty = v.ty; is_required = v.is_required } };
}
