//! What stands before LOOP.

ghost use Rattle.pl_grammar.specs.Parser.{Reads};
ghost use Rattle.pl_body_grammar.specs.Grammar as spec;
ghost use Rattle.pl_body_grammar.specs.FirstFollow.{reads_part};

use crate::commands::change;
use crate::marks::{CHANGE, EXPRESSION};
use crate::trees::{for_of, upward_of};
use pl_base::Boxed;
use pl_bodies::{LoopHead, RowSource};
use pl_body_grammar::{
    ForSource, dynamic, expression_until, optional_expression, sees_pair, targets, until,
};
use pl_expr_parse::{read_expression, read_query};
use pl_grammar::{Fail, Mark, Tokens};
use pl_lex::{Keyword, Sign};
use pl_tree::Expr;
use std::alloc::Global;

// e [BY e] LOOP
fn last(alloc: Global, tokens: &mut Tokens<'_>) -> Result<(Expr, Option<Boxed<Expr>>), Fail>
    ensures { Reads (reads_part spec.Last tokens.old) result tokens.new }
{
    match read_expression(alloc, tokens) {
        Ok(last) => {
            let step = optional_expression(alloc, tokens, Mark::Keyword(Keyword::By));
            match until(step, tokens, Mark::Keyword(Keyword::Loop)) {
                Ok(step) => Ok((last, step)),
                Err(fail) => {
                    drop(last);
                    Err(fail)
                }
            }
        }
        Err(fail) => Err(fail),
    }
}

// [.. e [BY e]] LOOP
fn upper(
    alloc: Global,
    tokens: &mut Tokens<'_>,
) -> Result<Option<(Expr, Option<Boxed<Expr>>)>, Fail>
    ensures { Reads (reads_part spec.Upper tokens.old) result tokens.new }
{
    if tokens.eat(Mark::Sign(Sign::DotDot)) {
        return match last(alloc, tokens) {
            Ok(last) => Ok(Some(last)),
            Err(fail) => Err(fail),
        };
    }
    until(Ok(None), tokens, Mark::Keyword(Keyword::Loop))
}

// e .. e [BY e] LOOP, or a cursor and LOOP.
fn upward(alloc: Global, tokens: &mut Tokens<'_>) -> Result<ForSource, Fail>
    ensures { Reads (reads_part spec.Upward tokens.old) result tokens.new }
{
    match read_expression(alloc, tokens) {
        Ok(first) => match upper(alloc, tokens) {
            Ok(to) => upward_of(alloc, first, to),
            Err(fail) => {
                drop(first);
                Err(fail)
            }
        },
        Err(fail) => Err(fail),
    }
}

// e .. e [BY e] LOOP, behind REVERSE.
fn downward(alloc: Global, tokens: &mut Tokens<'_>) -> Result<ForSource, Fail>
    ensures { Reads (reads_part spec.Downward tokens.old) result tokens.new }
{
    match expression_until(alloc, tokens, Mark::Sign(Sign::DotDot)) {
        Ok(first) => match last(alloc, tokens) {
            Ok((last, step)) => Ok(ForSource::Range {
                is_reverse: true,
                first,
                last,
                step,
            }),
            Err(fail) => {
                drop(first);
                Err(fail)
            }
        },
        Err(fail) => Err(fail),
    }
}

// [REVERSE] e .. e [BY e] LOOP, or a cursor and LOOP.
fn counted(alloc: Global, tokens: &mut Tokens<'_>) -> Result<ForSource, Fail>
    ensures { Reads (reads_part spec.Counted tokens.old) result tokens.new }
{
    if sees_pair(tokens, &[Mark::Word("reverse")], &EXPRESSION) {
        if tokens.eat(Mark::Word("reverse")) {
            return downward(alloc, tokens);
        }
        return Err(Fail::Syntax);
    }
    upward(alloc, tokens)
}

// What stands behind IN, and LOOP.
fn for_source(alloc: Global, tokens: &mut Tokens<'_>) -> Result<ForSource, Fail>
    ensures { Reads (reads_part spec.ForSource tokens.old) result tokens.new }
{
    if tokens.eat(Mark::Keyword(Keyword::Execute)) {
        let command = dynamic(alloc, tokens);
        return match until(command, tokens, Mark::Keyword(Keyword::Loop)) {
            Ok(command) => Ok(ForSource::Rows(RowSource::Execute(command))),
            Err(fail) => Err(fail),
        };
    }
    if tokens.sees(Mark::Keyword(Keyword::Select)) {
        let query = read_query(alloc, tokens);
        return match until(query, tokens, Mark::Keyword(Keyword::Loop)) {
            Ok(query) => Ok(ForSource::Rows(RowSource::Query(query))),
            Err(fail) => Err(fail),
        };
    }
    if tokens.begins(&CHANGE) {
        let change = change(alloc, tokens);
        return match until(change, tokens, Mark::Keyword(Keyword::Loop)) {
            Ok(change) => Ok(ForSource::Rows(RowSource::Change(change))),
            Err(fail) => Err(fail),
        };
    }
    counted(alloc, tokens)
}

/// What is behind FOR, and LOOP.
pub fn for_head(alloc: Global, tokens: &mut Tokens<'_>) -> Result<LoopHead, Fail>
    ensures { Reads (reads_part spec.For tokens.old) result tokens.new }
{
    let targets = targets(alloc, tokens);
    match until(targets, tokens, Mark::Keyword(Keyword::In)) {
        Ok(targets) => match for_source(alloc, tokens) {
            Ok(source) => for_of(targets, source),
            Err(fail) => Err(fail),
        },
        Err(fail) => Err(fail),
    }
}
