//! Columns that stand outside GROUP BY: PostgreSQL manual, "The GROUP BY and HAVING Clauses".

ghost use Rattle.std.specs.Prelude.{◌≡◌, map, option_map};
ghost use Rattle.pl_grouping.specs.Columns as spec;
ghost use Rattle.pl_grouping.specs.Columns.{asking};

use crate::fronts::{is_begun_cast, is_begun_unary, steps_begun};
use crate::same::same_tree;
use pl_base::Boxed;
use pl_resolved::{RArm, RCase, RChain, RExpr, RPair, RStep};

/// What is asked of an expression.
#[derive(Clone, Copy)]
pub(crate) struct Asked<'a> {
    /// GROUP BY
    pub keys: &'a [RExpr],
    /// The number of the first row of the query's FROM, and that behind its last one.
    pub first: usize,
    pub end: usize,
    /// Of each query from this number on, whether it reads such a row. Those before it read none.
    pub since: usize,
    pub queries: &'a [bool],
}

fn is_own(row: usize, of: &Asked<'_>) -> bool
    ensures { result ≡ spec.is_own (asking of.now) row }
{
    of.first <= row && row < of.end
}

fn is_key(tree: &RExpr, mut keys: &[RExpr]) -> bool
    ensures { result ≡ spec.is_one_of keys.entry.now tree.now }
{
    while let [key, rest @ ..] = keys {
        if same_tree(key, tree) {
            return true;
        }
        keys = rest;
    }
    false
}

pub(crate) fn query_reads(query: usize, of: &Asked<'_>) -> bool
    ensures { result ≡ spec.query_reads (asking of.now) query }
{
    if query < of.since {
        return false;
    }
    match of.queries.get(query - of.since) {
        Some(reads) => *reads,
        None => false,
    }
}

/// Whether the expression reads a row of the query's own FROM outside of each part that equals a
/// key. The queries inside are looked into, too; one whose number `queries` lacks reads nothing.
#[cycle(reading)]
pub(crate) fn tree_reads(tree: &RExpr, of: &Asked<'_>) -> bool
    ensures { result ≡ spec.tree_reads (asking of.now) tree.now }
{
    !is_key(tree, of.keys) && tree_inside(tree, of)
}

// The same of an expression that equals no key.
#[cycle(reading)]
#[tactic(auto, using(crate::proofs::ReadsEquations::equations))]
fn tree_inside(tree: &RExpr, of: &Asked<'_>) -> bool
    ensures { result ≡ spec.reads_as (asking of.now) tree.now tree.now }
{
    match tree {
        RExpr::Constant(_) => false,
        RExpr::Place { row, .. } => is_own(*row, of),
        RExpr::Cast { operand, types } => {
            !is_begun_cast(operand.get(), types.as_slice(), of.keys)
                && tree_reads(operand.get(), of)
        }
        RExpr::Unary {
            operator,
            times,
            operand,
        } => {
            !is_begun_unary(operand.get(), *operator, *times, of.keys)
                && tree_reads(operand.get(), of)
        }
        RExpr::Binary { operands, .. } => pair_reads(operands.get(), of),
        RExpr::Chain(chain) => chain_reads(chain.get(), of),
        RExpr::And(list) => any_reads(list.as_slice(), of),
        RExpr::Or(list) => any_reads(list.as_slice(), of),
        RExpr::Case(case) => case_reads(case.get(), of),
        RExpr::Coalesce { operands, .. } => any_reads(operands.as_slice(), of),
        RExpr::Combined { operands, .. } => any_reads(operands.as_slice(), of),
        RExpr::Row { fields, .. } => any_reads(fields.as_slice(), of),
        RExpr::Call { arguments, .. } => any_reads(arguments.as_slice(), of),
        RExpr::Scalar(query) => query_reads(*query, of),
        RExpr::Exists(query) => query_reads(*query, of),
        RExpr::InQuery { operand, query, .. } => {
            query_reads(*query, of) || tree_reads(operand.get(), of)
        }
    }
}

/// Whether one of the expressions does.
#[cycle(reading)]
pub(crate) fn any_reads(list: &[RExpr], of: &Asked<'_>) -> bool
    ensures { result ≡
        spec.any_reads (asking of.now)
        (map (spec.reads_as (asking of.now)) list.now) list.now }
{
    for tree in list {
        if tree_reads(tree, of) {
            return true;
        }
    }
    false
}

/// Whether the expression does, where there is one.
#[cycle(reading)]
pub(crate) fn reads_if_any(tree: &Option<Boxed<RExpr>>, of: &Asked<'_>) -> bool
    ensures { result ≡
        spec.reads_if_any (asking of.now)
        (option_map (spec.reads_as (asking of.now)) tree.now) tree.now }
{
    match tree {
        None => false,
        Some(tree) => tree_reads(tree.get(), of),
    }
}

#[cycle(reading)]
fn pair_reads(pair: &RPair, of: &Asked<'_>) -> bool
    ensures { result ≡ spec.pair_reads (asking of.now) pair.now pair.now }
{
    tree_reads(&pair.first, of) || tree_reads(&pair.second, of)
}

#[cycle(reading)]
fn chain_reads(chain: &RChain, of: &Asked<'_>) -> bool
    ensures { result ≡ spec.chain_reads (asking of.now) chain.now chain.now }
{
    let begun = steps_begun(chain, of.keys);
    if begun == 0 && tree_reads(&chain.first, of) {
        return true;
    }
    any_step_reads(chain.steps.as_slice(), begun, of)
}

// Whether one of the operands behind the first ones, so many of them, does.
#[cycle(reading)]
fn any_step_reads(steps: &[RStep], begun: usize, of: &Asked<'_>) -> bool
    ensures { result ≡
        spec.one_behind_does begun (map (spec.step_reads (asking of.now)) steps.now) steps.now }
{
    let mut left = begun;
    for step in steps {
        if left > 0 {
            left -= 1;
        } else if tree_reads(&step.operand, of) {
            return true;
        }
    }
    false
}

#[cycle(reading)]
fn case_reads(case: &RCase, of: &Asked<'_>) -> bool
    ensures { result ≡ spec.case_reads (asking of.now) case.now case.now }
{
    reads_if_any(&case.operand, of)
        || any_arm_reads(case.arms.as_slice(), of)
        || reads_if_any(&case.otherwise, of)
}

#[cycle(reading)]
fn any_arm_reads(arms: &[RArm], of: &Asked<'_>) -> bool
    ensures { result ≡
        spec.one_does (map (spec.arm_reads (asking of.now)) arms.now) arms.now }
{
    for arm in arms {
        if tree_reads(&arm.when, of) || tree_reads(&arm.then, of) {
            return true;
        }
    }
    false
}
