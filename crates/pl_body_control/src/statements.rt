//! Statements that go elsewhere, and those that say something: PostgreSQL manual, "Control
//! Structures" and "Obtaining the Result Status".

ghost use Rattle.pl_grammar.specs.Parser.{Reads};
ghost use Rattle.pl_grammar.specs.Rule.{make, part};
ghost use Rattle.pl_bodies.specs.declared.simple.Simple.TheVariants as simple;
ghost use Rattle.pl_body_grammar.specs.Grammar as spec;
ghost use Rattle.pl_body_grammar.specs.FirstFollow.{reads, reads_part};

use crate::marks::RETURNED;
use crate::raise::raise;
use pl_base::{Boxed, List, Name};
use pl_bodies::{Jump, Simple, StackedItem, StackedTarget, Target};
use pl_body_grammar::{
    becomes, boxed_expression, dynamic, optional_expression, optional_name, sees_pair, target,
    until,
};
use pl_expr_parse::{read_expression, read_query};
use pl_grammar::{Fail, Mark, Tokens, list};
use pl_lex::{Keyword, Sign};
use pl_tree::Expr;
use std::alloc::Global;

// [name] [WHEN e];
fn jump(alloc: Global, tokens: &mut Tokens<'_>) -> Result<(Option<Name>, Option<Boxed<Expr>>), Fail>
    ensures { Reads (reads_part spec.Jump tokens.old) result tokens.new }
{
    let label = match optional_name(tokens) {
        Ok(label) => label,
        Err(fail) => return Err(fail),
    };
    let condition = optional_expression(alloc, tokens, Mark::Keyword(Keyword::When));
    match until(condition, tokens, Mark::Sign(Sign::Semicolon)) {
        Ok(condition) => Ok((label, condition)),
        Err(fail) => Err(fail),
    }
}

// EXIT or CONTINUE, behind that word.
fn jump_of(alloc: Global, tokens: &mut Tokens<'_>, to: Jump) -> Result<Simple, Fail>
    ensures { Reads (reads (make (λ p. simple.Jump to p.0 p.1) (part spec.Jump)) tokens.old)
        result tokens.new }
{
    match jump(alloc, tokens) {
        Ok((label, condition)) => Ok(Simple::Jump {
            jump: to,
            label,
            condition,
        }),
        Err(fail) => Err(fail),
    }
}

// e;
fn before_semicolon(alloc: Global, tokens: &mut Tokens<'_>) -> Result<Boxed<Expr>, Fail>
    ensures { Reads (reads spec.before_semicolon tokens.old) result tokens.new }
{
    let value = boxed_expression(alloc, tokens);
    until(value, tokens, Mark::Sign(Sign::Semicolon))
}

// [e];
fn return_next(alloc: Global, tokens: &mut Tokens<'_>) -> Result<Option<Boxed<Expr>>, Fail>
    ensures { Reads (reads_part spec.ReturnNext tokens.old) result tokens.new }
{
    if tokens.eat(Mark::Sign(Sign::Semicolon)) {
        return Ok(None);
    }
    match before_semicolon(alloc, tokens) {
        Ok(value) => Ok(Some(value)),
        Err(fail) => Err(fail),
    }
}

// RETURN QUERY, behind these words.
fn return_query(alloc: Global, tokens: &mut Tokens<'_>) -> Result<Simple, Fail>
    ensures { Reads (reads_part spec.ReturnQuery tokens.old) result tokens.new }
{
    if tokens.eat(Mark::Keyword(Keyword::Execute)) {
        let command = dynamic(alloc, tokens);
        return match until(command, tokens, Mark::Sign(Sign::Semicolon)) {
            Ok(command) => Ok(Simple::ReturnExecute(command)),
            Err(fail) => Err(fail),
        };
    }
    let query = read_query(alloc, tokens);
    match until(query, tokens, Mark::Sign(Sign::Semicolon)) {
        Ok(query) => Ok(Simple::ReturnQuery(query)),
        Err(fail) => Err(fail),
    }
}

// RETURN, behind that word.
fn return_of(alloc: Global, tokens: &mut Tokens<'_>) -> Result<Simple, Fail>
    ensures { Reads (reads_part spec.Return tokens.old) result tokens.new }
{
    if tokens.eat(Mark::Sign(Sign::Semicolon)) {
        return Ok(Simple::Return(None));
    }
    if sees_pair(tokens, &[Mark::Word("next")], &RETURNED) {
        if tokens.eat(Mark::Word("next")) {
            return match return_next(alloc, tokens) {
                Ok(value) => Ok(Simple::ReturnNext(value)),
                Err(fail) => Err(fail),
            };
        }
        return Err(Fail::Syntax);
    }
    returned_value(alloc, tokens)
}

// QUERY and what it returns, or e;
fn returned_value(alloc: Global, tokens: &mut Tokens<'_>) -> Result<Simple, Fail>
    ensures { Reads (reads spec.returned_value tokens.old) result tokens.new }
{
    if sees_pair(
        tokens,
        &[Mark::Word("query")],
        &[
            Mark::Keyword(Keyword::Select),
            Mark::Keyword(Keyword::Execute),
        ],
    ) {
        if tokens.eat(Mark::Word("query")) {
            return return_query(alloc, tokens);
        }
        return Err(Fail::Syntax);
    }
    match before_semicolon(alloc, tokens) {
        Ok(value) => Ok(Simple::Return(Some(value))),
        Err(fail) => Err(fail),
    }
}

// ASSERT, behind that word.
fn assert_of(alloc: Global, tokens: &mut Tokens<'_>) -> Result<Simple, Fail>
    ensures { Reads (reads_part spec.Assert tokens.old) result tokens.new }
{
    match read_expression(alloc, tokens) {
        Ok(condition) => {
            let message = optional_expression(alloc, tokens, Mark::Sign(Sign::Comma));
            match until(message, tokens, Mark::Sign(Sign::Semicolon)) {
                Ok(message) => Ok(Simple::Assert { condition, message }),
                Err(fail) => {
                    drop(condition);
                    Err(fail)
                }
            }
        }
        Err(fail) => Err(fail),
    }
}

// ---- diagnostics

// target (:= | =) ROW_COUNT
fn row_count(tokens: &mut Tokens<'_>) -> Result<Target, Fail>
    ensures { Reads (reads_part spec.RowCount tokens.old) result tokens.new }
{
    let target = match target(tokens) {
        Ok(target) => target,
        Err(fail) => return Err(fail),
    };
    let sign = becomes(tokens);
    match until(sign, tokens, Mark::Word("row_count")) {
        Ok(()) => Ok(target),
        Err(fail) => Err(fail),
    }
}

fn stacked_item(tokens: &mut Tokens<'_>) -> Result<StackedItem, Fail>
    ensures { Reads (reads_part spec.StackedItem tokens.old) result tokens.new }
{
    if tokens.eat(Mark::Word("returned_sqlstate")) {
        return Ok(StackedItem::ReturnedSqlstate);
    }
    if tokens.eat(Mark::Word("message_text")) {
        return Ok(StackedItem::MessageText);
    }
    if tokens.eat(Mark::Word("pg_exception_detail")) {
        return Ok(StackedItem::PgExceptionDetail);
    }
    if tokens.eat(Mark::Word("pg_exception_hint")) {
        return Ok(StackedItem::PgExceptionHint);
    }
    Err(Fail::Syntax)
}

// target (:= | =) item
fn stacked_target(tokens: &mut Tokens<'_>) -> Result<StackedTarget, Fail>
    ensures { Reads (reads_part spec.StackedTarget tokens.old) result tokens.new }
{
    let target = match target(tokens) {
        Ok(target) => target,
        Err(fail) => return Err(fail),
    };
    match becomes(tokens) {
        Ok(()) => match stacked_item(tokens) {
            Ok(item) => Ok(StackedTarget { target, item }),
            Err(fail) => Err(fail),
        },
        Err(fail) => Err(fail),
    }
}

// target (:= | =) ROW_COUNT {, target (:= | =) ROW_COUNT};
fn row_counts(alloc: Global, tokens: &mut Tokens<'_>) -> Result<List<Target>, Fail>
    ensures { Reads (reads_part spec.RowCounts tokens.old) result tokens.new }
{
    let targets = list(
        alloc,
        tokens,
        Mark::Sign(Sign::Comma),
        |tokens| row_count(tokens),
    );
    until(targets, tokens, Mark::Sign(Sign::Semicolon))
}

// target (:= | =) item {, target (:= | =) item};
fn stacked_targets(alloc: Global, tokens: &mut Tokens<'_>) -> Result<List<StackedTarget>, Fail>
    ensures { Reads (reads_part spec.StackedTargets tokens.old) result tokens.new }
{
    let targets = list(
        alloc,
        tokens,
        Mark::Sign(Sign::Comma),
        |tokens| stacked_target(tokens),
    );
    until(targets, tokens, Mark::Sign(Sign::Semicolon))
}

// DIAGNOSTICS and targets, behind STACKED.
fn stacked_diagnostics(alloc: Global, tokens: &mut Tokens<'_>) -> Result<Simple, Fail>
    ensures { Reads (reads spec.stacked_diagnostics tokens.old) result tokens.new }
{
    if tokens.eat(Mark::Word("diagnostics")) {
        return match stacked_targets(alloc, tokens) {
            Ok(targets) => Ok(Simple::GetStackedDiagnostics(targets)),
            Err(fail) => Err(fail),
        };
    }
    Err(Fail::Syntax)
}

// GET, behind that word.
fn get(alloc: Global, tokens: &mut Tokens<'_>) -> Result<Simple, Fail>
    ensures { Reads (reads_part spec.Get tokens.old) result tokens.new }
{
    if tokens.eat(Mark::Word("stacked")) {
        return stacked_diagnostics(alloc, tokens);
    }
    tokens.eat(Mark::Word("current"));
    if tokens.eat(Mark::Word("diagnostics")) {
        return match row_counts(alloc, tokens) {
            Ok(targets) => Ok(Simple::GetDiagnostics(targets)),
            Err(fail) => Err(fail),
        };
    }
    Err(Fail::Syntax)
}

/// EXIT, CONTINUE, RETURN, RAISE, ASSERT and GET.
pub fn control(alloc: Global, tokens: &mut Tokens<'_>) -> Result<Simple, Fail>
    ensures { Reads (reads_part spec.Control tokens.old) result tokens.new }
{
    if tokens.eat(Mark::Word("exit")) {
        return jump_of(alloc, tokens, Jump::Exit);
    }
    if tokens.eat(Mark::Word("continue")) {
        return jump_of(alloc, tokens, Jump::Continue);
    }
    if tokens.eat(Mark::Word("return")) {
        return return_of(alloc, tokens);
    }
    if tokens.eat(Mark::Word("raise")) {
        return raise(alloc, tokens);
    }
    if tokens.eat(Mark::Word("assert")) {
        return assert_of(alloc, tokens);
    }
    if tokens.eat(Mark::Word("get")) {
        return get(alloc, tokens);
    }
    Err(Fail::Syntax)
}
