//! The search through the tree.

ghost use Rattle.std.specs.Prelude.{◌≡◌, map, option_map};
ghost use Rattle.pl_mentions.specs.Mentions as spec;

use crate::Sought;
use crate::sought::{is_name, is_qualified, is_query};
use pl_base::Boxed;
use pl_tree::{Argument, Arm, Expr, Factor, Term};

/// Whether the expression has a part of what is sought. A query inside is one part: what stands in
/// it isn't looked at.
#[cycle(mentions)]
#[tactic(auto, using(crate::proofs::Equations::equations))]
pub fn mentions(e: &Expr, sought: &Sought) -> bool
    ensures { result ≡ spec.mentions sought.now e.now }
{
    match e {
        Expr::Literal(_) => false,
        Expr::Parameter(_) => false,
        Expr::Name(name) => is_name(sought, name),
        Expr::Qualified { qualifier, name } => is_qualified(sought, qualifier, name),
        Expr::Call { arguments, .. } => any_argument(arguments.as_slice(), sought),
        Expr::CountRows => false,
        Expr::Subquery(_) => is_query(sought),
        Expr::Exists(_) => is_query(sought),
        Expr::Pick { list, .. } => any(list.as_slice(), sought),
        Expr::NullIf(left, right) => mentions(left.get(), sought) || mentions(right.get(), sought),
        Expr::Row(list) => any(list.as_slice(), sought),
        Expr::Case {
            operand,
            arms,
            otherwise,
        } => {
            if if_there(operand, sought) {
                return true;
            }
            any_arm(arms.as_slice(), sought) || if_there(otherwise, sought)
        }
        Expr::Cast { operand, .. } => mentions(operand.get(), sought),
        Expr::Signed { operand, .. } => mentions(operand.get(), sought),
        Expr::Product { first, factors } => {
            mentions(first.get(), sought) || any_factor(factors.as_slice(), sought)
        }
        Expr::Sum { first, terms } => {
            mentions(first.get(), sought) || any_term(terms.as_slice(), sought)
        }
        Expr::Concat(list) => any(list.as_slice(), sought),
        Expr::Between {
            operand,
            low,
            high,
            ..
        } => {
            if mentions(operand.get(), sought) {
                return true;
            }
            mentions(low.get(), sought) || mentions(high.get(), sought)
        }
        Expr::InList { operand, list, .. } => {
            mentions(operand.get(), sought) || any(list.as_slice(), sought)
        }
        Expr::InQuery { operand, .. } => mentions(operand.get(), sought) || is_query(sought),
        Expr::Like {
            operand,
            pattern,
            ..
        } => mentions(operand.get(), sought) || mentions(pattern.get(), sought),
        Expr::Compare { left, right, .. } => mentions(left.get(), sought)
            || mentions(right.get(), sought),
        Expr::Is { operand, .. } => mentions(operand.get(), sought),
        Expr::IsDistinct { left, right, .. } => mentions(left.get(), sought)
            || mentions(right.get(), sought),
        Expr::Not { operand, .. } => mentions(operand.get(), sought),
        Expr::And(list) => any(list.as_slice(), sought),
        Expr::Or(list) => any(list.as_slice(), sought),
    }
}

#[cycle(mentions)]
fn if_there(e: &Option<Boxed<Expr>>, sought: &Sought) -> bool
    ensures { result ≡ spec.if_there (option_map (spec.mentions sought.now) e.now) }
{
    match e {
        None => false,
        Some(e) => mentions(e.get(), sought),
    }
}

#[cycle(mentions)]
fn any(list: &[Expr], sought: &Sought) -> bool
    ensures { result ≡ spec.one_of (map (spec.mentions sought.now) list.now) }
{
    for e in list {
        if mentions(e, sought) {
            return true;
        }
    }
    false
}

#[cycle(mentions)]
#[tactic(auto, using(crate::proofs::Equations::equations))]
fn argument_mentions(argument: &Argument, sought: &Sought) -> bool
    ensures { result ≡ spec.argument_mentions sought.now argument.now }
{
    match argument {
        Argument::Value(e) => mentions(e, sought),
        Argument::FatalErrors(e) => mentions(e, sought),
    }
}

#[cycle(mentions)]
fn any_argument(arguments: &[Argument], sought: &Sought) -> bool
    ensures { result ≡ spec.one_of (map (spec.argument_mentions sought.now) arguments.now) }
{
    for argument in arguments {
        if argument_mentions(argument, sought) {
            return true;
        }
    }
    false
}

#[cycle(mentions)]
fn any_arm(arms: &[Arm], sought: &Sought) -> bool
    ensures { result ≡ spec.one_of (map (spec.arm_mentions sought.now) arms.now) }
{
    for arm in arms {
        if mentions(&arm.when, sought) || mentions(&arm.then, sought) {
            return true;
        }
    }
    false
}

#[cycle(mentions)]
fn any_factor(factors: &[Factor], sought: &Sought) -> bool
    ensures { result ≡ spec.one_of (map (spec.factor_mentions sought.now) factors.now) }
{
    for factor in factors {
        if mentions(&factor.operand, sought) {
            return true;
        }
    }
    false
}

#[cycle(mentions)]
fn any_term(terms: &[Term], sought: &Sought) -> bool
    ensures { result ≡ spec.one_of (map (spec.term_mentions sought.now) terms.now) }
{
    for term in terms {
        if mentions(&term.operand, sought) {
            return true;
        }
    }
    false
}
