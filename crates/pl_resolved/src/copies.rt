//! Copies of resolved trees.

ghost use Rattle.std.specs.Prelude.{◌≡◌, IfOk};

use crate::{
    RAggregate, RArm, RCase, RChain, RExpr, RGroups, RJoin, RPair, RQuery, RSource, RStep,
};
use pl_base::{Boxed, Held, List, copy_each};
use std::alloc::{AllocError, Global};

impl RExpr {
    /// A copy, which equals its source.
    #[cycle(copies)]
    pub fn copy(&self, alloc: Global) -> Result<RExpr, AllocError>
        ensures { IfOk result (λ copied. copied ≡ self.now) }
    {
        match self {
            RExpr::Constant(value) => Ok(RExpr::Constant(value.copy(alloc)?)),
            RExpr::Place { row, column } => Ok(RExpr::Place {
                row: *row,
                column: *column,
            }),
            RExpr::Cast { operand, types } => {
                let operand = copy_boxed(alloc, operand)?;
                Ok(RExpr::Cast {
                    operand,
                    types: List::from_slice(alloc, types.as_slice())?,
                })
            }
            RExpr::Unary {
                operator,
                times,
                operand,
            } => Ok(RExpr::Unary {
                operator: *operator,
                times: *times,
                operand: copy_boxed(alloc, operand)?,
            }),
            RExpr::Binary { operator, operands } => Ok(RExpr::Binary {
                operator: *operator,
                operands: Boxed::new(alloc, operands.get().copy(alloc)?)?,
            }),
            RExpr::Chain(chain) => Ok(RExpr::Chain(Boxed::new(alloc, chain.get().copy(alloc)?)?)),
            RExpr::And(list) => Ok(RExpr::And(copy_exprs(alloc, list.as_slice())?)),
            RExpr::Or(list) => Ok(RExpr::Or(copy_exprs(alloc, list.as_slice())?)),
            RExpr::Case(case) => Ok(RExpr::Case(Boxed::new(alloc, case.get().copy(alloc)?)?)),
            RExpr::Coalesce { operands, to } => Ok(RExpr::Coalesce {
                operands: copy_exprs(alloc, operands.as_slice())?,
                to: *to,
            }),
            RExpr::Combined {
                combination,
                operands,
            } => Ok(RExpr::Combined {
                combination: *combination,
                operands: copy_exprs(alloc, operands.as_slice())?,
            }),
            RExpr::Row { fields, types } => {
                let fields = copy_exprs(alloc, fields.as_slice())?;
                Ok(RExpr::Row {
                    fields,
                    types: List::from_slice(alloc, types.as_slice())?,
                })
            }
            RExpr::Call { routine, arguments } => Ok(RExpr::Call {
                routine: *routine,
                arguments: copy_exprs(alloc, arguments.as_slice())?,
            }),
            RExpr::Scalar(query) => Ok(RExpr::Scalar(*query)),
            RExpr::Exists(query) => Ok(RExpr::Exists(*query)),
            RExpr::InQuery { operand, query, to } => Ok(RExpr::InQuery {
                operand: copy_boxed(alloc, operand)?,
                query: *query,
                to: *to,
            }),
        }
    }
}

impl RPair {
    /// A copy, which equals its source.
    #[cycle(copies)]
    pub fn copy(&self, alloc: Global) -> Result<RPair, AllocError>
        ensures { IfOk result (λ copied. copied ≡ self.now) }
    {
        let first = Held::new(self.first.copy(alloc)?);
        let second = self.second.copy(alloc)?;
        Ok(RPair {
            first: first.into_inner(),
            second,
        })
    }
}

impl RChain {
    /// A copy, which equals its source.
    #[cycle(copies)]
    pub fn copy(&self, alloc: Global) -> Result<RChain, AllocError>
        ensures { IfOk result (λ copied. copied ≡ self.now) }
    {
        let steps = copy_steps(alloc, self.steps.as_slice())?;
        Ok(RChain {
            first: self.first.copy(alloc)?,
            steps,
        })
    }
}

impl RStep {
    /// A copy, which equals its source.
    #[cycle(copies)]
    pub fn copy(&self, alloc: Global) -> Result<RStep, AllocError>
        ensures { IfOk result (λ copied. copied ≡ self.now) }
    {
        Ok(RStep {
            operator: self.operator,
            operand: self.operand.copy(alloc)?,
        })
    }
}

impl RCase {
    /// A copy, which equals its source.
    #[cycle(copies)]
    pub fn copy(&self, alloc: Global) -> Result<RCase, AllocError>
        ensures { IfOk result (λ copied. copied ≡ self.now) }
    {
        let operand = copy_option(alloc, &self.operand)?;
        let arms = copy_arms(alloc, self.arms.as_slice())?;
        Ok(RCase {
            operand,
            arms,
            otherwise: copy_option(alloc, &self.otherwise)?,
            to: self.to,
        })
    }
}

impl RArm {
    /// A copy, which equals its source.
    #[cycle(copies)]
    pub fn copy(&self, alloc: Global) -> Result<RArm, AllocError>
        ensures { IfOk result (λ copied. copied ≡ self.now) }
    {
        let when = Held::new(self.when.copy(alloc)?);
        let then = self.then.copy(alloc)?;
        Ok(RArm {
            when: when.into_inner(),
            then,
        })
    }
}

// A copy of the expression in its box.
#[cycle(copies)]
fn copy_boxed(alloc: Global, boxed: &Boxed<RExpr>) -> Result<Boxed<RExpr>, AllocError>
    ensures { IfOk result (λ copied. copied ≡ boxed.now) }
{
    Boxed::new(alloc, boxed.get().copy(alloc)?)
}

// A copy of the expression in its box, where there is one.
#[cycle(copies)]
fn copy_option(
    alloc: Global,
    option: &Option<Boxed<RExpr>>,
) -> Result<Option<Boxed<RExpr>>, AllocError>
    ensures { IfOk result (λ copied. copied ≡ option.now) }
{
    match option {
        None => Ok(None),
        Some(boxed) => Ok(Some(Boxed::new(alloc, boxed.get().copy(alloc)?)?)),
    }
}

#[cycle(copies)]
fn copy_exprs(alloc: Global, list: &[RExpr]) -> Result<List<RExpr>, AllocError>
    ensures { IfOk result (λ copied. copied ≡ list.now) }
{
    let mut copied = List::new(alloc);
    for expr in list {
        copied.push(expr.copy(alloc)?)?;
    }
    Ok(copied)
}

#[cycle(copies)]
fn copy_steps(alloc: Global, steps: &[RStep]) -> Result<List<RStep>, AllocError>
    ensures { IfOk result (λ copied. copied ≡ steps.now) }
{
    let mut copied = List::new(alloc);
    for step in steps {
        copied.push(step.copy(alloc)?)?;
    }
    Ok(copied)
}

#[cycle(copies)]
fn copy_arms(alloc: Global, arms: &[RArm]) -> Result<List<RArm>, AllocError>
    ensures { IfOk result (λ copied. copied ≡ arms.now) }
{
    let mut copied = List::new(alloc);
    for arm in arms {
        copied.push(arm.copy(alloc)?)?;
    }
    Ok(copied)
}

impl RQuery {
    /// A copy, which equals its source.
    pub fn copy(&self, alloc: Global) -> Result<RQuery, AllocError>
        ensures { IfOk result (λ copied. copied ≡ self.now) }
    {
        let from = copy_joins(alloc, self.from.as_slice())?;
        let condition = copy_option(alloc, &self.condition)?;
        let groups = Held::new(copy_groups(alloc, &self.groups)?);
        let items = copy_exprs(alloc, self.items.as_slice())?;
        let heads = List::from_slice(alloc, self.heads.as_slice())?;
        let order = List::from_slice(alloc, self.order.as_slice())?;
        let limit = copy_option(alloc, &self.limit)?;
        let offset = copy_option(alloc, &self.offset)?;
        Ok(RQuery {
            from,
            condition,
            groups: groups.into_inner(),
            items,
            heads,
            is_distinct: self.is_distinct,
            order,
            limit,
            offset,
        })
    }
}

fn copy_groups(alloc: Global, groups: &Option<RGroups>) -> Result<Option<RGroups>, AllocError>
    ensures { IfOk result (λ copied. copied ≡ groups.now) }
{
    match groups {
        None => Ok(None),
        Some(groups) => Ok(Some(groups.copy(alloc)?)),
    }
}

impl RGroups {
    /// A copy, which equals its source.
    pub fn copy(&self, alloc: Global) -> Result<RGroups, AllocError>
        ensures { IfOk result (λ copied. copied ≡ self.now) }
    {
        let keys = copy_exprs(alloc, self.keys.as_slice())?;
        let aggregates = copy_each(
            alloc,
            self.aggregates.as_slice(),
            |aggregate| aggregate.copy(alloc),
        )?;
        Ok(RGroups {
            keys,
            aggregates,
            having: copy_option(alloc, &self.having)?,
        })
    }
}

impl RAggregate {
    /// A copy, which equals its source.
    pub fn copy(&self, alloc: Global) -> Result<RAggregate, AllocError>
        ensures { IfOk result (λ copied. copied ≡ self.now) }
    {
        Ok(RAggregate {
            aggregate: self.aggregate,
            arguments: copy_exprs(alloc, self.arguments.as_slice())?,
        })
    }
}

impl RJoin {
    /// A copy, which equals its source.
    #[cycle(source_copies)]
    pub fn copy(&self, alloc: Global) -> Result<RJoin, AllocError>
        ensures { IfOk result (λ copied. copied ≡ self.now) }
    {
        let condition = copy_option(alloc, &self.condition)?;
        Ok(RJoin {
            source: self.source.copy(alloc)?,
            is_left: self.is_left,
            condition,
        })
    }
}

impl RSource {
    /// A copy, which equals its source.
    #[cycle(source_copies)]
    pub fn copy(&self, alloc: Global) -> Result<RSource, AllocError>
        ensures { IfOk result (λ copied. copied ≡ self.now) }
    {
        match self {
            RSource::Table(name) => Ok(RSource::Table(*name)),
            RSource::Query(query) => Ok(RSource::Query(*query)),
            RSource::Value(value) => {
                Ok(RSource::Value(Boxed::new(alloc, value.get().copy(alloc)?)?))
            }
            RSource::Joined(joins) => Ok(RSource::Joined(copy_joins(alloc, joins.as_slice())?)),
        }
    }
}

#[cycle(source_copies)]
fn copy_joins(alloc: Global, joins: &[RJoin]) -> Result<List<RJoin>, AllocError>
    ensures { IfOk result (λ copied. copied ≡ joins.now) }
{
    let mut copied = List::new(alloc);
    for join in joins {
        copied.push(join.copy(alloc)?)?;
    }
    Ok(copied)
}
