//! What a body is a row of.

use pl_base::{Boxed, Held, List, Name};
use pl_bodies::{Caught, Declaration, LoopHead, Simple};
use pl_tree::Expr;

/// Where a statement stands.
#[derive(Clone, Copy)]
pub struct Spot {
    /// Line 1 is the rest of the line on which the body's text begins.
    pub line: u32,
    /// Its number in reading order; the outermost block has 0.
    pub ordinal: u32,
}

/// An item of a body.
#[derive(Drop)]
pub enum Item {
    /// A statement that holds no other.
    Simple {
        spot: Spot,
        simple: Held<Simple>,
    },
    /// The label and the declarations of a block, and BEGIN.
    Block {
        spot: Spot,
        label: Option<Name>,
        declarations: List<Declaration>,
    },
    /// EXCEPTION, and WHEN and THEN of the first handler.
    Exception(List<Caught>),
    /// WHEN and THEN of a further handler.
    Handler(List<Caught>),
    /// IF and THEN
    If {
        spot: Spot,
        condition: Held<Expr>,
    },
    /// ELSIF and THEN
    Elsif(Held<Expr>),
    /// CASE, and WHEN and THEN of the first arm.
    Case {
        spot: Spot,
        operand: Option<Boxed<Expr>>,
        values: List<Expr>,
    },
    /// WHEN and THEN of a further arm.
    Arm(List<Expr>),
    /// The label of a loop, and LOOP with what stands before it.
    Loop {
        spot: Spot,
        label: Option<Name>,
        head: Held<LoopHead>,
    },
    /// Words that hold no tree.
    Word(Word),
}

/// Items that hold no tree.
#[derive(Drop)]
pub enum Word {
    /// ELSE of IF and of CASE
    Else,
    /// END IF
    EndIf,
    /// END CASE
    EndCase,
    /// END LOOP, with the name behind it.
    EndLoop(Option<Name>),
    /// END of a block, with the name behind it.
    End(Option<Name>),
}
