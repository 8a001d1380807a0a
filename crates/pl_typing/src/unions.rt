//! Types that unite: PostgreSQL manual, "UNION, CASE, and Related Constructs".

ghost use Rattle.std.specs.Prelude.{◌≡◌, IfOk};
ghost use Rattle.pl_typing.specs.Resolved.{Gives};
ghost use Rattle.pl_typing.specs.Unions as spec;

use crate::headings::pick_heading;
use crate::operators::turned;
use crate::{ScopeFail, Typed, as_text_type, headed, truth_of};
use pl_base::{Comparison, List, Operator, State, Ty};
use pl_calc::{type_of_op, unite};
use pl_resolved::{Combination, RExpr};
use pl_tree::Pick;
use std::alloc::{AllocError, Global};

/// The type of one more operand, united with that of those before it. None where they have none.
pub(crate) fn united_with(ty: &Option<Ty>, other: &Ty) -> Option<Ty>
    ensures { result ≡ spec.united_with ty.now other.now }
{
    match ty {
        Some(ty) => unite(ty, other),
        None => None,
    }
}

/// Operands of one type together, and that type; None where they have none.
#[derive(Drop)]
pub struct Listed {
    pub list: List<RExpr>,
    pub ty: Option<Ty>,
}

impl Listed {
    pub fn new(alloc: Global) -> Listed
        ensures { result ≡ spec.listed_none }
    {
        Listed {
            list: List::new(alloc),
            ty: Some(Ty::Unknown),
        }
    }

    /// The operands, and one more.
    pub fn with(self, operand: Typed) -> Result<Listed, AllocError>
        ensures { IfOk result (λ listed. listed ≡ spec.listed_with self operand) }
    {
        let Listed { mut list, ty } = self;
        let ty = united_with(&ty, &operand.ty);
        list.push(operand.tree.into_inner())?;
        Ok(Listed { list, ty })
    }
}

/// IN, or NOT IN, of the first operand among the others. 42883 where they have no type together or
/// can't be compared.
#[tactic(auto, unfolding(crate::specs::Unions::in_list))]
pub fn in_list(alloc: Global, is_negated: bool, all: Listed) -> Result<Typed, ScopeFail>
    ensures { Gives result (spec.in_list is_negated all) }
{
    let Listed { list, ty } = all;
    match compared_type(&ty) {
        Err(state) => Err(ScopeFail::State(state)),
        Ok(to) => {
            let tree = RExpr::Combined {
                combination: Combination::In(to),
                operands: list,
            };
            let plain = truth_of(alloc, tree)?;
            Ok(turned(alloc, is_negated, plain)?)
        }
    }
}

/// The type in which all are compared by `=`. 42883 where there is none.
pub(crate) fn compared_type(ty: &Option<Ty>) -> Result<Ty, State>
    ensures { result ≡ spec.compared_type ty.now }
{
    match ty {
        None => Err(State::UNDEFINED_FUNCTION),
        Some(ty) => comparable(&as_text_type(ty)),
    }
}

fn comparable(ty: &Ty) -> Result<Ty, State>
    ensures { result ≡ spec.comparable ty.now }
{
    match type_of_op(Operator::Compare(Comparison::Equal), *ty, *ty) {
        Ok(_) => Ok(*ty),
        Err(state) => Err(state),
    }
}

/// COALESCE, GREATEST, LEAST. 42804 where the operands have no type together, 42883 where GREATEST
/// or LEAST can't compare them.
#[tactic(auto, unfolding(crate::specs::Unions::picked))]
pub fn picked(alloc: Global, pick: Pick, all: Listed) -> Result<Typed, ScopeFail>
    ensures { Gives result (spec.picked pick all) }
{
    let Listed { list, ty } = all;
    match picked_type(pick, &ty) {
        Err(state) => Err(ScopeFail::State(state)),
        Ok(to) => {
            let tree = picked_tree(pick, list, to);
            Ok(headed(alloc, tree, to, pick_heading(pick))?)
        }
    }
}

fn picked_type(pick: Pick, ty: &Option<Ty>) -> Result<Ty, State>
    ensures { result ≡ spec.picked_type pick ty.now }
{
    match united_type(ty) {
        Err(state) => Err(state),
        Ok(to) => match pick {
            Pick::Coalesce => Ok(to),
            Pick::Greatest | Pick::Least => comparable(&to),
        },
    }
}

/// The type of what is one of several operands. 42804 where there is none.
pub(crate) fn united_type(ty: &Option<Ty>) -> Result<Ty, State>
    ensures { result ≡ spec.united_type ty.now }
{
    match ty {
        None => Err(State::DATATYPE_MISMATCH),
        Some(ty) => Ok(as_text_type(ty)),
    }
}

fn picked_tree(pick: Pick, operands: List<RExpr>, to: Ty) -> RExpr
    ensures { result ≡ spec.picked_tree pick operands to }
{
    match pick {
        Pick::Coalesce => RExpr::Coalesce { operands, to },
        Pick::Greatest => RExpr::Combined {
            combination: Combination::Greatest(to),
            operands,
        },
        Pick::Least => RExpr::Combined {
            combination: Combination::Least(to),
            operands,
        },
    }
}
