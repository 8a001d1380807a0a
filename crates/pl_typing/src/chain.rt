//! Operators from the left: PostgreSQL manual, "Operator Type Resolution".

ghost use Rattle.std.specs.Prelude.{◌≡◌, IfOk};
ghost use Rattle.pl_typing.specs.Resolved.{Gives};
ghost use Rattle.pl_typing.specs.Operators as spec;

use crate::typed::settled;
use crate::{ScopeFail, Typed, as_text_type, coerced, with_type};
use pl_base::{Boxed, List, Name, Operator, Ty};
use pl_calc::type_of_op;
use pl_resolved::{RChain, RExpr, RStep};
use std::alloc::{AllocError, Global};

/// A chain of operators as far as it has been read.
#[derive(Drop)]
pub struct Run {
    pub first: Boxed<RExpr>,
    pub steps: List<RStep>,
    pub ty: Ty,
}

/// The type in which the operator takes an operand beside another.
pub(crate) fn taken(operator: Operator, ty: &Ty, other: &Ty) -> Ty
    ensures { result ≡ spec.taken operator ty.now other.now }
{
    match operator {
        Operator::Concatenate | Operator::Like => as_text_type(ty),
        _ => settled(ty, other),
    }
}

impl Run {
    pub fn new(alloc: Global, first: Typed) -> Run
        ensures { result ≡ spec.run_of first }
    {
        Run {
            first: first.tree,
            steps: List::new(alloc),
            ty: first.ty,
        }
    }

    /// The chain with one more operator. 42883 where it takes no such operands.
    #[tactic(auto, unfolding(crate::specs::Operators::stepped))]
    pub fn step(self, alloc: Global, operator: Operator, operand: Typed) -> Result<Run, ScopeFail>
        ensures { Gives result (spec.stepped operator self operand) }
    {
        match type_of_op(operator, self.ty, operand.ty) {
            Ok(ty) => Ok(self.extended(alloc, operator, operand, ty)?),
            Err(state) => Err(ScopeFail::State(state)),
        }
    }

    #[tactic(auto, unfolding(crate::specs::Operators::extended))]
    fn extended(
        self,
        alloc: Global,
        operator: Operator,
        operand: Typed,
        ty: Ty,
    ) -> Result<Run, AllocError>
        ensures { IfOk result (λ run. run ≡ spec.extended operator self operand ty) }
    {
        let Run {
            first,
            mut steps,
            ty: left,
        } = self;
        let right = operand.ty;
        let first = Typed {
            tree: first,
            ty: left,
            head: Name::NONE,
        };
        let first = coerced(alloc, first, taken(operator, &left, &right))?;
        let operand = coerced(alloc, operand, taken(operator, &right, &left))?;
        steps.push(RStep {
            operator,
            operand: operand.into_inner(),
        })?;
        Ok(Run { first, steps, ty })
    }

    /// The whole chain.
    #[tactic(auto, unfolding(crate::specs::Operators::ended))]
    pub fn end(self, alloc: Global) -> Result<Typed, AllocError>
        ensures { IfOk result (λ made. made ≡ spec.ended self) }
    {
        let Run { first, steps, ty } = self;
        let chain = RChain {
            first: first.into_inner(),
            steps,
        };
        let chain = Boxed::new(alloc, chain)?;
        with_type(alloc, RExpr::Chain(chain), ty)
    }
}
