//! The blocks of a call as they are entered and left.

ghost use Rattle.std.specs.Prelude.{◌≡◌, length, slice_get, unwrap_or, false, IfOk, OnOk};
ghost use Rattle.pl_world.specs.Sessions.{no_call};
ghost use Rattle.pl_world.specs.Variables as spec;

use crate::blocks::{beyond, block, declare, drop_newest, variable};
use crate::parameters::{blocks_of, none_required, types_of};
use pl_base::{List, Name, Ty};
use pl_tree::Param;
use pl_world::pl_names::Scope;
use std::alloc::{AllocError, Global};
use std::marker::Model;

/// What names are resolved against in a call, beside the objects.
#[derive(Drop)]
pub struct Static {
    scope: Scope,
    /// Of each variable, whether it takes no null.
    required: Vec<bool>,
    /// The type of what RETURN gives. None where it gives no value.
    result: Option<Ty>,
}

impl Model for Static {
    ghost use Rattle.pl_world.specs.World as world;

    ghost Value = { world.Static };

    ghost view = { λ s. record {
      scope = s.scope;
      required = s.required.items;
      result = s.result;
    } };
}

impl Static {
    /// Outside of all calls.
    pub fn outside(alloc: Global) -> Static
        ensures { result ≡ no_call.static }
    {
        Static {
            scope: Scope {
                frames: List::new(alloc),
                params: List::new(alloc),
            },
            required: Vec::new(alloc),
            result: None,
        }
    }

    /// In a routine, outside of its block. It has its parameters and FOUND.
    pub fn entering(
        alloc: Global,
        routine: Name,
        params: &[Param],
        result_type: Option<Ty>,
    ) -> Result<Static, AllocError>
        ensures { IfOk result (λ s. s ≡ spec.entering routine params.now result_type) }
    {
        let frames = blocks_of(alloc, routine, params)?;
        let required = none_required(alloc, params)?;
        let params = types_of(alloc, params)?;
        Ok(Static {
            scope: Scope { frames, params },
            required,
            result: result_type,
        })
    }

    /// The variables in reach, in their blocks, the outermost first.
    pub fn scope(&self) -> &Scope
        ensures { result.now ≡ self.now.scope }
    {
        &self.scope
    }

    /// Whether the variable of this place takes no null.
    pub fn is_required(&self, at: usize) -> bool
        ensures { result ≡ unwrap_or (slice_get self.now.required at) false }
    {
        self.required.get(at).copied().unwrap_or(false)
    }

    /// The type of what RETURN gives. None where it gives no value.
    pub fn result(&self) -> Option<Ty>
        ensures { result ≡ self.now.result }
    {
        self.result
    }

    /// How many variables there are.
    pub fn count(&self) -> usize
        ensures { result ≡ length self.now.required }
    {
        self.required.len()
    }

    /// A block is opened.
    pub fn open(&mut self, alloc: Global, label: Option<Name>) -> Result<(), AllocError>
        ensures { OnOk result (self.new ≡ spec.opening label self.old) }
    {
        self.scope
            .frames
            .push(block(alloc, label.unwrap_or(Name::NONE)))?;
        self.forget();
        Ok(())
    }

    /// A variable is declared in the newest block.
    pub fn declare(&mut self, name: Name, ty: Ty, is_required: bool) -> Result<(), AllocError>
        ensures { OnOk result (self.new ≡ spec.adding name ty is_required self.old) }
    {
        declare(&mut self.scope.frames, variable(name, ty))?;
        self.required.push(is_required)?;
        Ok(())
    }

    /// The newest block is closed.
    pub fn close(&mut self)
        ensures { self.new ≡ spec.closing self.old }
    {
        drop_newest(&mut self.scope.frames);
        self.forget();
    }

    // Of the variables no more than those of the blocks are left.
    #[tactic(auto, using(crate::proofs::Newest::within))]
    fn forget(&mut self)
        ensures { self.new ≡ spec.with_blocks self.old.scope.frames self.old }
    {
        let more = beyond(self.required.len(), self.scope.frames.as_slice());
        self.required.truncate(self.required.len() - more);
    }
}
