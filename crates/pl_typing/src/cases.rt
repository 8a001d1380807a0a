//! CASE: PostgreSQL manual, "Conditional Expressions".

ghost use Rattle.std.specs.Prelude.{◌≡◌, IfOk};
ghost use Rattle.pl_typing.specs.Resolved.{Gives};
ghost use Rattle.pl_typing.specs.Cases as spec;

use crate::headings::case_heading;
use crate::unions::{united_type, united_with};
use crate::{ScopeFail, Typed, as_text_type, coerced, headed, truth};
use pl_base::{Boxed, Comparison, List, Operator, Ty};
use pl_calc::type_of_op;
use pl_resolved::{RArm, RCase, RExpr};
use std::alloc::{AllocError, Global};

/// The type that each WHEN is compared with, where there is an operand; a literal is a text.
pub fn operand_type(operand: &Option<Typed>) -> Option<Ty>
    ensures { result ≡ spec.operand_type operand.now }
{
    match operand {
        None => None,
        Some(operand) => Some(as_text_type(&operand.ty)),
    }
}

/// The tree of the operand, where there is one.
pub fn tree_of(operand: Option<Typed>) -> Option<Boxed<RExpr>>
    ensures { result ≡ spec.tree_of operand }
{
    match operand {
        None => None,
        Some(operand) => Some(operand.tree),
    }
}

/// WHEN of a CASE: a condition, or a value that is compared with the operand. 42804 where it is no
/// condition, 42883 where it can't be compared.
#[tactic(auto, unfolding(crate::specs::Cases::tested))]
pub fn tested(alloc: Global, operand: &Option<Ty>, when: Typed) -> Result<Boxed<RExpr>, ScopeFail>
    ensures { Gives result (spec.tested operand.now when) }
{
    match operand {
        None => truth(alloc, when),
        Some(ty) => equal_to(alloc, *ty, when),
    }
}

fn equal_to(alloc: Global, ty: Ty, when: Typed) -> Result<Boxed<RExpr>, ScopeFail>
    ensures { Gives result (spec.equal_to ty when) }
{
    match type_of_op(Operator::Compare(Comparison::Equal), ty, when.ty) {
        Err(state) => Err(ScopeFail::State(state)),
        Ok(_) => Ok(coerced(alloc, when, ty)?),
    }
}

/// The arms of a CASE as far as they have been read, and the type of their values together; None
/// where they have none.
#[derive(Drop)]
pub struct Arms {
    pub arms: List<RArm>,
    pub ty: Option<Ty>,
}

impl Arms {
    pub fn new(alloc: Global) -> Arms
        ensures { result ≡ spec.no_arms }
    {
        Arms {
            arms: List::new(alloc),
            ty: Some(Ty::Unknown),
        }
    }

    /// The arms, and one more.
    pub fn with(self, when: Boxed<RExpr>, then: Typed) -> Result<Arms, AllocError>
        ensures { IfOk result (λ arms. arms ≡ spec.with_arm self when then) }
    {
        let Arms { mut arms, ty } = self;
        let ty = united_with(&ty, &then.ty);
        arms.push(RArm {
            when: when.into_inner(),
            then: then.tree.into_inner(),
        })?;
        Ok(Arms { arms, ty })
    }

    /// The whole CASE. 42804 where its branches have no type together.
    #[tactic(auto, unfolding(crate::specs::Cases::cased))]
    pub fn end(
        self,
        alloc: Global,
        operand: Option<Boxed<RExpr>>,
        otherwise: Option<Typed>,
    ) -> Result<Typed, ScopeFail>
        ensures { Gives result (spec.cased operand self otherwise) }
    {
        let Arms { arms, ty } = self;
        match otherwise {
            None => case(alloc, operand, arms, None, ty),
            Some(otherwise) => {
                let ty = united_with(&ty, &otherwise.ty);
                case(alloc, operand, arms, Some(otherwise.tree), ty)
            }
        }
    }
}

fn case(
    alloc: Global,
    operand: Option<Boxed<RExpr>>,
    arms: List<RArm>,
    otherwise: Option<Boxed<RExpr>>,
    ty: Option<Ty>,
) -> Result<Typed, ScopeFail>
    ensures { Gives result (spec.case_tree operand arms otherwise ty) }
{
    match united_type(&ty) {
        Err(state) => Err(ScopeFail::State(state)),
        Ok(to) => {
            let case = RCase {
                operand,
                arms,
                otherwise,
                to,
            };
            let case = Boxed::new(alloc, case)?;
            Ok(headed(alloc, RExpr::Case(case), to, case_heading())?)
        }
    }
}
