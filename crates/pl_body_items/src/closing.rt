//! Items that end the innermost part: the statement that it then is.

ghost use Rattle.std.specs.Prelude.{◌≡◌, IfOk};
ghost use Rattle.pl_grammar.specs.Parser.{Makes};
ghost use Rattle.pl_body_items.specs.Steps as spec;

use crate::Spot;
use crate::dividing::{refused, with_arm, with_branch, with_handler};
use crate::parts::{Open, Section};
use pl_base::{Boxed, List, Name};
use pl_bodies::{Block, Loop, Otherwise, Statement, StatementKind};
use pl_grammar::Fail;
use std::alloc::{AllocError, Global};

pub(crate) fn statement_of(spot: Spot, kind: StatementKind) -> Statement
    ensures { result ≡ spec.statement_of spot kind }
{
    Statement {
        line: spot.line,
        ordinal: spot.ordinal,
        kind,
    }
}

fn otherwise_of(alloc: Global, statements: List<Statement>) -> Result<Boxed<Otherwise>, AllocError>
    ensures { IfOk result (λ boxed. boxed ≡ spec.otherwise_of statements) }
{
    Boxed::new(alloc, Otherwise { statements })
}

pub(crate) fn if_ended(alloc: Global, part: Open) -> Result<Statement, Fail>
    ensures { Makes (spec.ended part (spec.if_ended part.section part.statements)) result }
{
    let Open {
        spot,
        section,
        statements,
    } = part;
    match section.into_inner() {
        Section::If {
            branches,
            condition,
        } => {
            let kind = StatementKind::If {
                branches: with_branch(branches, condition, statements)?,
                otherwise: None,
            };
            Ok(statement_of(spot, kind))
        }
        Section::IfElse(branches) => {
            let otherwise = otherwise_of(alloc, statements)?;
            let kind = StatementKind::If {
                branches,
                otherwise: Some(otherwise),
            };
            Ok(statement_of(spot, kind))
        }
        section => Err(refused(section)),
    }
}

pub(crate) fn case_ended(alloc: Global, part: Open) -> Result<Statement, Fail>
    ensures { Makes (spec.ended part (spec.case_ended part.section part.statements)) result }
{
    let Open {
        spot,
        section,
        statements,
    } = part;
    match section.into_inner() {
        Section::Case {
            operand,
            arms,
            values,
        } => {
            let arms = with_arm(arms, values, statements)?;
            let kind = StatementKind::Case {
                operand,
                arms,
                otherwise: None,
            };
            Ok(statement_of(spot, kind))
        }
        Section::CaseElse { operand, arms } => {
            let otherwise = otherwise_of(alloc, statements)?;
            let kind = StatementKind::Case {
                operand,
                arms,
                otherwise: Some(otherwise),
            };
            Ok(statement_of(spot, kind))
        }
        section => Err(refused(section)),
    }
}

pub(crate) fn loop_ended(part: Open, end_label: Option<Name>) -> Result<Statement, Fail>
    ensures { Makes (spec.ended part (spec.loop_ended part.section part.statements end_label))
        result }
{
    let Open {
        spot,
        section,
        statements,
    } = part;
    match section.into_inner() {
        Section::Loop { label, head } => {
            let kind = StatementKind::Loop(Loop {
                label,
                head: head.into_inner(),
                statements,
                end_label,
            });
            Ok(statement_of(spot, kind))
        }
        section => Err(refused(section)),
    }
}

pub(crate) fn block_ended(
    alloc: Global,
    part: Open,
    end_label: Option<Name>,
) -> Result<Statement, Fail>
    ensures { Makes (spec.ended part (spec.block_ended part.section part.statements end_label))
        result }
{
    let Open {
        spot,
        section,
        statements,
    } = part;
    match section.into_inner() {
        Section::Block {
            label,
            declarations,
        } => {
            let kind = StatementKind::Block(Block {
                label,
                declarations,
                statements,
                handlers: List::new(alloc),
                end_label,
            });
            Ok(statement_of(spot, kind))
        }
        Section::Handler {
            label,
            declarations,
            statements: first,
            handlers,
            conditions,
        } => {
            let handlers = with_handler(handlers, conditions, statements)?;
            let kind = StatementKind::Block(Block {
                label,
                declarations,
                statements: first,
                handlers,
                end_label,
            });
            Ok(statement_of(spot, kind))
        }
        section => Err(refused(section)),
    }
}
