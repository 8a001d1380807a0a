//! What statements that only compute do.

use pl_base::{List, Shared, Ty};
use pl_bodies::Jump;
use pl_direct::pl_scope::ResolvedExpr;

/// What a statement that only computes does, with its names resolved.
#[cycle(act)]
#[derive(Drop)]
pub(crate) enum Act {
    /// NULL
    Nothing,
    /// `target := value`
    Assign(Assign),
    /// EXIT or CONTINUE that names no loop.
    Jump {
        jump: Jump,
        /// WHEN
        condition: Option<Shared<ResolvedExpr>>,
    },
    /// IF
    Choose {
        /// IF, and each ELSIF.
        arms: List<Arm>,
        /// ELSE; empty where there is none.
        otherwise: List<Act>,
    },
    /// `target := routine(..)`, where the routine's statements only compute too.
    Call {
        /// Where the value goes, and the call.
        assign: Assign,
        /// The type of the result.
        ty: Ty,
        /// The statements.
        acts: List<Act>,
    },
    /// RETURN with a value.
    Return(Shared<ResolvedExpr>),
}

/// IF or ELSIF, and THEN.
#[cycle(act)]
#[derive(Drop)]
pub(crate) struct Arm {
    pub condition: Shared<ResolvedExpr>,
    pub acts: List<Act>,
}

/// A value that goes into the variable of a place.
#[derive(Drop)]
pub(crate) struct Assign {
    pub column: usize,
    pub ty: Ty,
    pub value: Shared<ResolvedExpr>,
}
