//! Copies of the trees of expressions and queries.

ghost use Rattle.std.specs.Prelude.{◌≡◌, IfOk};

use crate::Copied;
use pl_base::{Boxed, Held, List};
use pl_tree::{Argument, Arm, Expr, Factor, From, Item, Join, Key, Literal, Query, Term};
use std::alloc::{AllocError, Global};

impl Copied for Literal {
    fn copy(&self, alloc: Global) -> Result<Literal, AllocError> {
        match self {
            Literal::Null => Ok(Literal::Null),
            Literal::Bool(truth) => Ok(Literal::Bool(*truth)),
            Literal::Number { is_negative, size } => Ok(Literal::Number {
                is_negative: *is_negative,
                size: *size,
            }),
            Literal::Text(text) => Ok(Literal::Text(text.copy(alloc)?)),
        }
    }
}

impl Copied for Expr {
    #[cycle(copies)]
    fn copy(&self, alloc: Global) -> Result<Expr, AllocError> {
        match self {
            Expr::Literal(literal) => Ok(Expr::Literal(literal.copy(alloc)?)),
            Expr::Parameter(number) => Ok(Expr::Parameter(*number)),
            Expr::Name(name) => Ok(Expr::Name(*name)),
            Expr::Qualified { qualifier, name } => Ok(Expr::Qualified {
                qualifier: *qualifier,
                name: *name,
            }),
            Expr::Call { name, arguments } => Ok(Expr::Call {
                name: *name,
                arguments: copy_arguments(alloc, arguments.as_slice())?,
            }),
            Expr::CountRows => Ok(Expr::CountRows),
            Expr::Subquery(query) => Ok(Expr::Subquery(copy_query(alloc, query)?)),
            Expr::Exists(query) => Ok(Expr::Exists(copy_query(alloc, query)?)),
            Expr::Pick { pick, list } => Ok(Expr::Pick {
                pick: *pick,
                list: copy_exprs(alloc, list.as_slice())?,
            }),
            Expr::NullIf(left, right) => {
                let left = copy_boxed(alloc, left)?;
                Ok(Expr::NullIf(left, copy_boxed(alloc, right)?))
            }
            Expr::Row(list) => Ok(Expr::Row(copy_exprs(alloc, list.as_slice())?)),
            Expr::Case {
                operand,
                arms,
                otherwise,
            } => Ok(Expr::Case {
                operand: copy_option(alloc, operand)?,
                arms: copy_arms(alloc, arms.as_slice())?,
                otherwise: copy_option(alloc, otherwise)?,
            }),
            Expr::Cast { operand, types } => Ok(Expr::Cast {
                operand: copy_boxed(alloc, operand)?,
                types: List::from_slice(alloc, types.as_slice())?,
            }),
            Expr::Signed { signs, operand } => Ok(Expr::Signed {
                signs: List::from_slice(alloc, signs.as_slice())?,
                operand: copy_boxed(alloc, operand)?,
            }),
            Expr::Product { first, factors } => Ok(Expr::Product {
                first: copy_boxed(alloc, first)?,
                factors: copy_factors(alloc, factors.as_slice())?,
            }),
            Expr::Sum { first, terms } => Ok(Expr::Sum {
                first: copy_boxed(alloc, first)?,
                terms: copy_terms(alloc, terms.as_slice())?,
            }),
            Expr::Concat(list) => Ok(Expr::Concat(copy_exprs(alloc, list.as_slice())?)),
            Expr::Between {
                is_negated,
                operand,
                low,
                high,
            } => Ok(Expr::Between {
                is_negated: *is_negated,
                operand: copy_boxed(alloc, operand)?,
                low: copy_boxed(alloc, low)?,
                high: copy_boxed(alloc, high)?,
            }),
            Expr::InList {
                is_negated,
                operand,
                list,
            } => Ok(Expr::InList {
                is_negated: *is_negated,
                operand: copy_boxed(alloc, operand)?,
                list: copy_exprs(alloc, list.as_slice())?,
            }),
            Expr::InQuery {
                is_negated,
                operand,
                query,
            } => Ok(Expr::InQuery {
                is_negated: *is_negated,
                operand: copy_boxed(alloc, operand)?,
                query: copy_query(alloc, query)?,
            }),
            Expr::Like {
                is_negated,
                operand,
                pattern,
            } => Ok(Expr::Like {
                is_negated: *is_negated,
                operand: copy_boxed(alloc, operand)?,
                pattern: copy_boxed(alloc, pattern)?,
            }),
            Expr::Compare {
                comparison,
                left,
                right,
            } => Ok(Expr::Compare {
                comparison: *comparison,
                left: copy_boxed(alloc, left)?,
                right: copy_boxed(alloc, right)?,
            }),
            Expr::Is {
                is_negated,
                operand,
                test,
            } => Ok(Expr::Is {
                is_negated: *is_negated,
                operand: copy_boxed(alloc, operand)?,
                test: *test,
            }),
            Expr::IsDistinct {
                is_negated,
                left,
                right,
            } => Ok(Expr::IsDistinct {
                is_negated: *is_negated,
                left: copy_boxed(alloc, left)?,
                right: copy_boxed(alloc, right)?,
            }),
            Expr::Not { count, operand } => Ok(Expr::Not {
                count: *count,
                operand: copy_boxed(alloc, operand)?,
            }),
            Expr::And(list) => Ok(Expr::And(copy_exprs(alloc, list.as_slice())?)),
            Expr::Or(list) => Ok(Expr::Or(copy_exprs(alloc, list.as_slice())?)),
        }
    }
}

impl Copied for Argument {
    #[cycle(copies)]
    fn copy(&self, alloc: Global) -> Result<Argument, AllocError> {
        match self {
            Argument::Value(value) => Ok(Argument::Value(value.copy(alloc)?)),
            Argument::FatalErrors(value) => Ok(Argument::FatalErrors(value.copy(alloc)?)),
        }
    }
}

impl Copied for Arm {
    #[cycle(copies)]
    fn copy(&self, alloc: Global) -> Result<Arm, AllocError> {
        let when = Held::new(self.when.copy(alloc)?);
        let then = self.then.copy(alloc)?;
        Ok(Arm {
            when: when.into_inner(),
            then,
        })
    }
}

impl Copied for Factor {
    #[cycle(copies)]
    fn copy(&self, alloc: Global) -> Result<Factor, AllocError> {
        Ok(Factor {
            operator: self.operator,
            operand: self.operand.copy(alloc)?,
        })
    }
}

impl Copied for Term {
    #[cycle(copies)]
    fn copy(&self, alloc: Global) -> Result<Term, AllocError> {
        Ok(Term {
            operator: self.operator,
            operand: self.operand.copy(alloc)?,
        })
    }
}

impl Copied for Query {
    #[cycle(copies)]
    fn copy(&self, alloc: Global) -> Result<Query, AllocError> {
        Ok(Query {
            is_distinct: self.is_distinct,
            items: copy_items(alloc, self.items.as_slice())?,
            from: copy_from(alloc, self.from.as_slice())?,
            condition: copy_option(alloc, &self.condition)?,
            groups: copy_exprs(alloc, self.groups.as_slice())?,
            having: copy_option(alloc, &self.having)?,
            order: copy_keys(alloc, self.order.as_slice())?,
            limit: copy_option(alloc, &self.limit)?,
            offset: copy_option(alloc, &self.offset)?,
        })
    }
}

impl Copied for Item {
    #[cycle(copies)]
    fn copy(&self, alloc: Global) -> Result<Item, AllocError> {
        match self {
            Item::All => Ok(Item::All),
            Item::AllOf(name) => Ok(Item::AllOf(*name)),
            Item::Value { value, label } => Ok(Item::Value {
                value: value.copy(alloc)?,
                label: *label,
            }),
        }
    }
}

impl Copied for Key {
    #[cycle(copies)]
    fn copy(&self, alloc: Global) -> Result<Key, AllocError> {
        Ok(Key {
            value: self.value.copy(alloc)?,
            is_descending: self.is_descending,
            nulls: self.nulls,
        })
    }
}

impl Copied for From {
    #[cycle(copies)]
    fn copy(&self, alloc: Global) -> Result<From, AllocError> {
        match self {
            From::Table { name, alias } => Ok(From::Table {
                name: *name,
                alias: *alias,
            }),
            From::Function {
                name,
                arguments,
                alias,
            } => Ok(From::Function {
                name: *name,
                arguments: copy_arguments(alloc, arguments.as_slice())?,
                alias: *alias,
            }),
            From::Subquery { query, alias } => Ok(From::Subquery {
                query: copy_query(alloc, query)?,
                alias: *alias,
            }),
            From::Joined { first, joins } => {
                let first = Boxed::new(alloc, first.get().copy(alloc)?)?;
                Ok(From::Joined {
                    first,
                    joins: copy_joins(alloc, joins.as_slice())?,
                })
            }
        }
    }
}

impl Copied for Join {
    #[cycle(copies)]
    fn copy(&self, alloc: Global) -> Result<Join, AllocError> {
        let condition = copy_option(alloc, &self.condition)?;
        Ok(Join {
            kind: self.kind,
            with: self.with.copy(alloc)?,
            condition,
        })
    }
}

// A copy of the expression in its box.
#[cycle(copies)]
fn copy_boxed(alloc: Global, boxed: &Boxed<Expr>) -> Result<Boxed<Expr>, AllocError>
    ensures { IfOk result (λ copied. copied ≡ boxed.now) }
{
    Boxed::new(alloc, boxed.get().copy(alloc)?)
}

// A copy of the expression in its box, where there is one.
#[cycle(copies)]
pub(crate) fn copy_option(
    alloc: Global,
    option: &Option<Boxed<Expr>>,
) -> Result<Option<Boxed<Expr>>, AllocError>
    ensures { IfOk result (λ copied. copied ≡ option.now) }
{
    match option {
        None => Ok(None),
        Some(boxed) => Ok(Some(Boxed::new(alloc, boxed.get().copy(alloc)?)?)),
    }
}

// A copy of the query in its box.
#[cycle(copies)]
fn copy_query(alloc: Global, query: &Boxed<Query>) -> Result<Boxed<Query>, AllocError>
    ensures { IfOk result (λ copied. copied ≡ query.now) }
{
    Boxed::new(alloc, query.get().copy(alloc)?)
}

#[cycle(copies)]
fn copy_exprs(alloc: Global, list: &[Expr]) -> Result<List<Expr>, AllocError>
    ensures { IfOk result (λ copied. copied ≡ list.now) }
{
    let mut copied = List::new(alloc);
    for expr in list {
        copied.push(expr.copy(alloc)?)?;
    }
    Ok(copied)
}

#[cycle(copies)]
fn copy_arguments(alloc: Global, arguments: &[Argument]) -> Result<List<Argument>, AllocError>
    ensures { IfOk result (λ copied. copied ≡ arguments.now) }
{
    let mut copied = List::new(alloc);
    for argument in arguments {
        copied.push(argument.copy(alloc)?)?;
    }
    Ok(copied)
}

#[cycle(copies)]
fn copy_arms(alloc: Global, arms: &[Arm]) -> Result<List<Arm>, AllocError>
    ensures { IfOk result (λ copied. copied ≡ arms.now) }
{
    let mut copied = List::new(alloc);
    for arm in arms {
        copied.push(arm.copy(alloc)?)?;
    }
    Ok(copied)
}

#[cycle(copies)]
fn copy_factors(alloc: Global, factors: &[Factor]) -> Result<List<Factor>, AllocError>
    ensures { IfOk result (λ copied. copied ≡ factors.now) }
{
    let mut copied = List::new(alloc);
    for factor in factors {
        copied.push(factor.copy(alloc)?)?;
    }
    Ok(copied)
}

#[cycle(copies)]
fn copy_terms(alloc: Global, terms: &[Term]) -> Result<List<Term>, AllocError>
    ensures { IfOk result (λ copied. copied ≡ terms.now) }
{
    let mut copied = List::new(alloc);
    for term in terms {
        copied.push(term.copy(alloc)?)?;
    }
    Ok(copied)
}

#[cycle(copies)]
fn copy_items(alloc: Global, items: &[Item]) -> Result<List<Item>, AllocError>
    ensures { IfOk result (λ copied. copied ≡ items.now) }
{
    let mut copied = List::new(alloc);
    for item in items {
        copied.push(item.copy(alloc)?)?;
    }
    Ok(copied)
}

#[cycle(copies)]
fn copy_from(alloc: Global, list: &[From]) -> Result<List<From>, AllocError>
    ensures { IfOk result (λ copied. copied ≡ list.now) }
{
    let mut copied = List::new(alloc);
    for from in list {
        copied.push(from.copy(alloc)?)?;
    }
    Ok(copied)
}

#[cycle(copies)]
fn copy_keys(alloc: Global, keys: &[Key]) -> Result<List<Key>, AllocError>
    ensures { IfOk result (λ copied. copied ≡ keys.now) }
{
    let mut copied = List::new(alloc);
    for key in keys {
        copied.push(key.copy(alloc)?)?;
    }
    Ok(copied)
}

#[cycle(copies)]
fn copy_joins(alloc: Global, joins: &[Join]) -> Result<List<Join>, AllocError>
    ensures { IfOk result (λ copied. copied ≡ joins.now) }
{
    let mut copied = List::new(alloc);
    for join in joins {
        copied.push(join.copy(alloc)?)?;
    }
    Ok(copied)
}
