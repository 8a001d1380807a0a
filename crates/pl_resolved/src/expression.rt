//! Resolved expressions.

use pl_base::{Boxed, List, Name, Operator, Ty, Value};
use pl_calc::Builtin;

/// An expression in which nothing is left to be looked up.
#[cycle(resolved)]
#[derive(Drop)]
pub enum RExpr {
    Constant(Value),
    /// The value of a row that stands; null where there is no such place.
    Place {
        row: usize,
        column: usize,
    },
    /// A cast to each type in turn, of which there is at least one; also one that nobody wrote.
    Cast {
        operand: Boxed<RExpr>,
        types: List<Ty>,
    },
    /// An operator on one operand, applied as many times as `times` says, which is at least one.
    Unary {
        operator: Operator,
        times: usize,
        operand: Boxed<RExpr>,
    },
    /// A comparison, LIKE, IS DISTINCT FROM, IS NOT DISTINCT FROM.
    Binary {
        operator: Operator,
        operands: Boxed<RPair>,
    },
    /// Operators on numbers, or `||`, from the left.
    Chain(Boxed<RChain>),
    /// At least two operands.
    And(List<RExpr>),
    /// At least two operands.
    Or(List<RExpr>),
    Case(Boxed<RCase>),
    /// The first that isn't null, cast to the type. There is at least one.
    Coalesce {
        operands: List<RExpr>,
        to: Ty,
    },
    /// What is made of the values of all operands.
    Combined {
        combination: Combination,
        operands: List<RExpr>,
    },
    /// ROW: its fields, without names, and the type of each.
    Row {
        fields: List<RExpr>,
        types: List<Ty>,
    },
    /// A call of a routine.
    Call {
        routine: Name,
        arguments: List<RExpr>,
    },
    /// The one value of the query of this number; null where it has no row.
    Scalar(usize),
    /// Whether the query of this number has a row.
    Exists(usize),
    /// IN with the query of this number. The operand and the query's values are cast to the type.
    InQuery {
        operand: Boxed<RExpr>,
        query: usize,
        to: Ty,
    },
}

/// What is made of the values of all operands.
#[derive(Clone, Copy)]
pub enum Combination {
    Function(Builtin),
    /// GREATEST, of at least one operand; each is cast to the type.
    Greatest(Ty),
    /// LEAST, of at least one operand; each is cast to the type.
    Least(Ty),
    /// NULLIF, of two operands.
    NullIf,
    /// BETWEEN: whether the first of three operands lies between the others.
    Between,
    /// IN: whether the first operand is one of the others; each is cast to the type.
    In(Ty),
}

/// Two operands.
#[cycle(resolved)]
#[derive(Drop)]
pub struct RPair {
    pub first: RExpr,
    pub second: RExpr,
}

/// Operators of one level, from the left.
#[cycle(resolved)]
#[derive(Drop)]
pub struct RChain {
    pub first: RExpr,
    /// At least one.
    pub steps: List<RStep>,
}

/// An operator and its second operand.
#[cycle(resolved)]
#[derive(Drop)]
pub struct RStep {
    pub operator: Operator,
    pub operand: RExpr,
}

/// CASE
#[cycle(resolved)]
#[derive(Drop)]
pub struct RCase {
    /// What each WHEN is compared with by `=`; None where each WHEN is a condition.
    pub operand: Option<Boxed<RExpr>>,
    /// At least one.
    pub arms: List<RArm>,
    /// ELSE
    pub otherwise: Option<Boxed<RExpr>>,
    /// The type that the chosen value is cast to.
    pub to: Ty,
}

/// WHEN and THEN
#[cycle(resolved)]
#[derive(Drop)]
pub struct RArm {
    pub when: RExpr,
    pub then: RExpr,
}
