//! What acts work on.

ghost use Rattle.pl_quick.specs.Scratch.{Took};

use crate::old::Old;
use pl_base::{List, Value};
use std::alloc::Global;

/// What acts work on: the variables of a call, and the steps that are left.
#[derive(Drop)]
pub(crate) struct Scratch {
    /// By their places.
    pub values: List<Value>,
    pub steps: u64,
    /// What the variables were, the newest last, so that all can be undone.
    pub olds: Vec<Old>,
    pub alloc: Global,
}

impl Scratch {
    /// No variable and no step.
    pub fn new(alloc: Global) -> Scratch {
        Scratch {
            values: List::new(alloc),
            steps: 0,
            olds: Vec::new(alloc),
            alloc,
        }
    }

    /// Takes a step, if one is left.
    #[inline(always)]
    pub fn take_step(&mut self) -> bool
        ensures { Took result self.old self.new }
    {
        if self.steps == 0 {
            return false;
        }
        self.steps -= 1;
        true
    }
}
