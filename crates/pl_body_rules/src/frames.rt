//! What stands around a statement.

ghost use Rattle.std.specs.Prelude.{◌≡◌, ◌∷◌, ◌++◌, ◌-◌, [], length, take, OnOk};

use crate::Variables;
use pl_base::Name;
use std::alloc::{AllocError, Global};
use std::marker::Model;

/// What a frame is of.
#[derive(Clone, Copy)]
pub enum FrameKind {
    Routine,
    Block,
    Loop,
    /// WHEN of EXCEPTION.
    Handler,
}

/// Something around a statement that has a label or variables.
#[derive(Drop)]
pub struct Frame {
    /// Of a routine its name, of a handler the label of its block.
    pub label: Option<Name>,
    pub kind: FrameKind,
    pub variables: Variables,
}

/// The frames around a statement, the outermost first.
#[derive(Drop)]
pub(crate) struct Frames {
    list: Vec<Frame>,
}

impl Model for Frames {
    ghost use Rattle.std.specs.Prelude.{List};
    ghost use Rattle.std.specs.Coded.{codes};
    ghost use Rattle.pl_body_rules.specs.declared.frames.Frame as declared;
    ghost use Rattle.pl_body_rules.specs.contracts.frames.Frame as frame;

    ghost Value = { List declared.Frame };

    ghost coded = { Prim.hlevel (codes, frame.the_row.coded) };

    ghost view = { λ f. f.list.items };
}

impl Frames {
    pub(crate) fn new(alloc: Global) -> Frames
        ensures { result ≡ [] }
    {
        Frames {
            list: Vec::new(alloc),
        }
    }

    pub(crate) fn as_slice(&self) -> &[Frame]
        ensures { result.now ≡ self.now }
    {
        self.list.as_slice()
    }

    /// A frame inside the others.
    pub(crate) fn enter(&mut self, frame: Frame) -> Result<(), AllocError>
        ensures { OnOk result (self.new ≡ self.old ++ frame ∷ []) }
    {
        self.list.push(frame)?;
        Ok(())
    }

    /// Leaves the innermost frame.
    pub(crate) fn leave(&mut self)
        ensures { self.new ≡ take (length self.old - 1) self.old }
    {
        self.list.pop();
    }
}
