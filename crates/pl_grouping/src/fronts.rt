//! Nodes that a key of GROUP BY begins: `a + b` begins `a + b + 1`, `a::text` begins
//! `a::text::integer`, and `- a` begins `- - a`.

ghost use Rattle.std.specs.Prelude.{◌≡◌, map};
ghost use Rattle.pl_grouping.specs.Equality.{same_step as step};
ghost use Rattle.pl_grouping.specs.Fronts as spec;
ghost use Rattle.pl_resolved.specs.declared.expression.RExpr.{out-RExpr};

use crate::same::{same_step, same_tree};
use crate::words::{same_operator, same_type};
use pl_base::{Operator, Ty};
use pl_resolved::{RChain, RExpr, RStep};

fn steps_begin(mut key: &[RStep], mut steps: &[RStep]) -> bool
    ensures { result ≡ spec.all_begin (map step key.entry.now) steps.entry.now }
{
    while let [first, more @ ..] = key {
        let Some((other, others)) = steps.split_first() else {
            return false;
        };
        if !same_step(first, other) {
            return false;
        }
        key = more;
        steps = others;
    }
    true
}

fn begins_chain(key: &RChain, chain: &RChain) -> bool
    ensures { result ≡ spec.begins_chain key.now chain.now }
{
    same_tree(&key.first, &chain.first) && steps_begin(key.steps.as_slice(), chain.steps.as_slice())
}

fn steps_of_key(key: &RExpr, chain: &RChain) -> usize
    ensures { result ≡ spec.steps_of_key (out-RExpr key.now) chain.now }
{
    match key {
        RExpr::Chain(key) => {
            if begins_chain(key.get(), chain) {
                key.get().steps.len()
            } else {
                0
            }
        }
        _ => 0,
    }
}

/// How many of the first steps of the chain equal a key, with what stands before them. The most,
/// where several keys begin it; 0 where none does.
pub(crate) fn steps_begun(chain: &RChain, mut keys: &[RExpr]) -> usize
    ensures { result ≡ spec.steps_begun keys.entry.now chain.now }
{
    let mut most = 0;
    while let [key, rest @ ..] = keys {
        most = most.max(steps_of_key(key, chain));
        keys = rest;
    }
    most
}

fn types_begin(mut key: &[Ty], mut types: &[Ty]) -> bool
    ensures { result ≡ spec.types_begin key.entry.now types.entry.now }
{
    while let [first, more @ ..] = key {
        let Some((other, others)) = types.split_first() else {
            return false;
        };
        if !same_type(first, other) {
            return false;
        }
        key = more;
        types = others;
    }
    true
}

fn begins_cast(key: &RExpr, operand: &RExpr, types: &[Ty]) -> bool
    ensures { result ≡ spec.begins_cast (out-RExpr key.now) operand.now types.now }
{
    match key {
        RExpr::Cast {
            operand: key,
            types: first,
        } => types_begin(first.as_slice(), types) && same_tree(key.get(), operand),
        _ => false,
    }
}

/// Whether a key casts the operand to the first of the types.
pub(crate) fn is_begun_cast(operand: &RExpr, types: &[Ty], mut keys: &[RExpr]) -> bool
    ensures { result ≡ spec.is_begun_cast keys.entry.now operand.now types.now }
{
    while let [key, rest @ ..] = keys {
        if begins_cast(key, operand, types) {
            return true;
        }
        keys = rest;
    }
    false
}

fn begins_unary(key: &RExpr, operator: Operator, times: usize, operand: &RExpr) -> bool
    ensures { result ≡ spec.begins_unary (out-RExpr key.now) operator times operand.now }
{
    match key {
        RExpr::Unary {
            operator: key_operator,
            times: key_times,
            operand: key,
        } => {
            same_operator(*key_operator, operator)
                && *key_times <= times
                && same_tree(key.get(), operand)
        }
        _ => false,
    }
}

/// Whether a key has the operator on the operand as many times or fewer.
pub(crate) fn is_begun_unary(
    operand: &RExpr,
    operator: Operator,
    times: usize,
    mut keys: &[RExpr],
) -> bool
    ensures { result ≡ spec.is_begun_unary keys.entry.now operator times operand.now }
{
    while let [key, rest @ ..] = keys {
        if begins_unary(key, operator, times, operand) {
            return true;
        }
        keys = rest;
    }
    false
}
