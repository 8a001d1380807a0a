//! Items that divide the innermost part: what stands behind them is another section of it.

ghost use Rattle.std.specs.Prelude.{◌≡◌, ◌++◌, [], ◌∷◌, IfOk};
ghost use Rattle.pl_grammar.specs.Parser.{Makes};
ghost use Rattle.pl_grammar.specs.declared.fail.Fail.TheVariants.{Syntax};
ghost use Rattle.pl_body_items.specs.Steps as spec;

use crate::parts::{Open, Section};
use pl_base::{Held, List};
use pl_bodies::{Branch, CaseArm, Caught, Handler, Statement};
use pl_grammar::Fail;
use pl_tree::Expr;
use std::alloc::{AllocError, Global};

// The item can't stand in this section.
pub(crate) fn refused(section: Section) -> Fail
    ensures { result ≡ Syntax }
{
    let _section = Held::new(section);
    Fail::Syntax
}

// ---- parts that are whole

pub(crate) fn with_branch(
    mut branches: List<Branch>,
    condition: Held<Expr>,
    statements: List<Statement>,
) -> Result<List<Branch>, AllocError>
    ensures { IfOk result (λ all. all ≡ branches ++ spec.branch_of condition statements ∷ []) }
{
    branches.push(Branch {
        condition: condition.into_inner(),
        statements,
    })?;
    Ok(branches)
}

pub(crate) fn with_arm(
    mut arms: List<CaseArm>,
    values: List<Expr>,
    statements: List<Statement>,
) -> Result<List<CaseArm>, AllocError>
    ensures { IfOk result (λ all. all ≡ arms ++ spec.arm_of values statements ∷ []) }
{
    arms.push(CaseArm { values, statements })?;
    Ok(arms)
}

pub(crate) fn with_handler(
    mut handlers: List<Handler>,
    conditions: List<Caught>,
    statements: List<Statement>,
) -> Result<List<Handler>, AllocError>
    ensures { IfOk result (λ all. all
        ≡ handlers ++ spec.handler_of conditions statements ∷ []) }
{
    handlers.push(Handler {
        conditions,
        statements,
    })?;
    Ok(handlers)
}

// ---- the next section

pub(crate) fn elsif(alloc: Global, part: Open, new: Held<Expr>) -> Result<Open, Fail>
    ensures { Makes (spec.divided part (spec.elsif part.section part.statements new)) result }
{
    let Open {
        spot,
        section,
        statements,
    } = part;
    match section.into_inner() {
        Section::If {
            branches,
            condition,
        } => {
            let branches = with_branch(branches, condition, statements)?;
            Ok(Open::new(
                alloc,
                spot,
                Section::If {
                    branches,
                    condition: new,
                },
            ))
        }
        section => Err(refused(section)),
    }
}

pub(crate) fn otherwise(alloc: Global, part: Open) -> Result<Open, Fail>
    ensures { Makes (spec.divided part (spec.otherwise part.section part.statements)) result }
{
    let Open {
        spot,
        section,
        statements,
    } = part;
    match section.into_inner() {
        Section::If {
            branches,
            condition,
        } => {
            let branches = with_branch(branches, condition, statements)?;
            Ok(Open::new(alloc, spot, Section::IfElse(branches)))
        }
        Section::Case {
            operand,
            arms,
            values,
        } => {
            let arms = with_arm(arms, values, statements)?;
            Ok(Open::new(alloc, spot, Section::CaseElse { operand, arms }))
        }
        section => Err(refused(section)),
    }
}

pub(crate) fn arm(alloc: Global, part: Open, new: List<Expr>) -> Result<Open, Fail>
    ensures { Makes (spec.divided part (spec.arm part.section part.statements new)) result }
{
    let Open {
        spot,
        section,
        statements,
    } = part;
    match section.into_inner() {
        Section::Case {
            operand,
            arms,
            values,
        } => {
            let arms = with_arm(arms, values, statements)?;
            Ok(Open::new(
                alloc,
                spot,
                Section::Case {
                    operand,
                    arms,
                    values: new,
                },
            ))
        }
        section => Err(refused(section)),
    }
}

pub(crate) fn exception(alloc: Global, part: Open, new: List<Caught>) -> Result<Open, Fail>
    ensures { Makes (spec.divided part (spec.exception part.section part.statements new)) result }
{
    let Open {
        spot,
        section,
        statements,
    } = part;
    match section.into_inner() {
        Section::Block {
            label,
            declarations,
        } => Ok(Open::new(
            alloc,
            spot,
            Section::Handler {
                label,
                declarations,
                statements,
                handlers: List::new(alloc),
                conditions: new,
            },
        )),
        section => Err(refused(section)),
    }
}

pub(crate) fn handler(alloc: Global, part: Open, new: List<Caught>) -> Result<Open, Fail>
    ensures { Makes (spec.divided part (spec.handler part.section part.statements new)) result }
{
    let Open {
        spot,
        section,
        statements,
    } = part;
    match section.into_inner() {
        Section::Handler {
            label,
            declarations,
            statements: first,
            handlers,
            conditions,
        } => {
            let handlers = with_handler(handlers, conditions, statements)?;
            Ok(Open::new(
                alloc,
                spot,
                Section::Handler {
                    label,
                    declarations,
                    statements: first,
                    handlers,
                    conditions: new,
                },
            ))
        }
        section => Err(refused(section)),
    }
}
