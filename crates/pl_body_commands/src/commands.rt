//! Commands of SQL in bodies: PostgreSQL manual, "Executing SQL Commands" and "Executing Dynamic
//! Commands".

ghost use Rattle.std.specs.Prelude.{◌≡◌, Some};
ghost use Rattle.pl_expr_parse.specs.Finished.{finished};
ghost use Rattle.pl_expr_parse.specs.Grammar as x;
ghost use Rattle.pl_grammar.specs.Parser.{Reads};
ghost use Rattle.pl_grammar.specs.Rule.{given, make, part, ◌then◌, ◌until◌};
ghost use Rattle.pl_body_grammar.specs.Words.{SEMICOLON};
ghost use Rattle.pl_body_grammar.specs.Grammar as spec;
ghost use Rattle.pl_body_grammar.specs.FirstFollow.{reads, reads_part};
ghost use Rattle.pl_body_grammar.specs.Trees.{with_tail};

use crate::marks::{CHANGE, TRANSACTION};
use crate::trees::{change_of, changed_of};
use pl_base::{Boxed, List};
use pl_bodies::{Change, Dynamic, IntoClause, Simple};
use pl_body_grammar::{into, optional_into, until, using};
use pl_expr_parse::{
    read_condition, read_expression, read_groups, read_having, read_items, read_order, read_paging,
    read_selected, read_sources,
};
use pl_grammar::{Fail, Mark, Tokens};
use pl_lex::{Keyword, Sign};
use pl_sql_parse::{
    read_call, read_delete, read_do_body, read_insert, read_savepoint_name, read_update,
};
use pl_tree::{Command, Expr, From, Item, Key, Query};
use std::alloc::Global;

// ---- queries

// What stands behind the items of a query: sources, condition, groups, HAVING, order and paging.
type Tail = (List<From>, (Option<Boxed<Expr>>, Grouped));

// The same from GROUP BY on, and from ORDER BY on.
type Grouped = (List<Expr>, (Option<Boxed<Expr>>, Ordered));

type Ordered = (List<Key>, (Option<Boxed<Expr>>, Option<Boxed<Expr>>));

fn ordered(alloc: Global, tokens: &mut Tokens<'_>) -> Result<Ordered, Fail>
    ensures { Reads (reads (given (finished x.Order) then given (finished x.Paging)) tokens.old)
        result tokens.new }
{
    match read_order(alloc, tokens) {
        Ok(order) => match read_paging(alloc, tokens) {
            Ok(paging) => Ok((order, paging)),
            Err(fail) => Err(fail),
        },
        Err(fail) => Err(fail),
    }
}

fn grouped(alloc: Global, tokens: &mut Tokens<'_>) -> Result<Grouped, Fail>
    ensures { Reads (reads (given (finished x.Groups) then given (finished x.Having)
        then given (finished x.Order) then given (finished x.Paging)) tokens.old)
        result tokens.new }
{
    match read_groups(alloc, tokens) {
        Ok(groups) => match read_having(alloc, tokens) {
            Ok(having) => match ordered(alloc, tokens) {
                Ok(ordered) => Ok((groups, (having, ordered))),
                Err(fail) => Err(fail),
            },
            Err(fail) => Err(fail),
        },
        Err(fail) => Err(fail),
    }
}

fn tail(alloc: Global, tokens: &mut Tokens<'_>) -> Result<Tail, Fail>
    ensures { Reads (reads spec.tail tokens.old) result tokens.new }
{
    match read_sources(alloc, tokens) {
        Ok(from) => match read_condition(alloc, tokens) {
            Ok(condition) => match grouped(alloc, tokens) {
                Ok(grouped) => Ok((from, (condition, grouped))),
                Err(fail) => Err(fail),
            },
            Err(fail) => Err(fail),
        },
        Err(fail) => Err(fail),
    }
}

// What stands behind the items of a query, and the semicolon.
fn query_end(alloc: Global, tokens: &mut Tokens<'_>) -> Result<Tail, Fail>
    ensures { Reads (reads_part spec.QueryEnd tokens.old) result tokens.new }
{
    match tail(alloc, tokens) {
        Ok(tail) => {
            if tokens.eat(Mark::Sign(Sign::Semicolon)) {
                return Ok(tail);
            }
            Err(Fail::Syntax)
        }
        Err(fail) => Err(fail),
    }
}

fn query_of(is_distinct: bool, items: List<Item>, tail: Tail) -> Query
    ensures { result ≡ with_tail is_distinct items tail }
{
    let (from, (condition, (groups, (having, (order, (limit, offset)))))) = tail;
    Query {
        is_distinct,
        items,
        from,
        condition,
        groups,
        having,
        order,
        limit,
        offset,
    }
}

// PERFORM, behind that word.
fn perform(alloc: Global, tokens: &mut Tokens<'_>) -> Result<Simple, Fail>
    ensures { Reads (reads_part spec.Perform tokens.old) result tokens.new }
{
    match read_selected(alloc, tokens) {
        Ok((is_distinct, items)) => match query_end(alloc, tokens) {
            Ok(tail) => Ok(Simple::Perform(query_of(is_distinct, items, tail))),
            Err(fail) => Err(fail),
        },
        Err(fail) => Err(fail),
    }
}

// INTO before the items, behind that word.
fn into_and_items(
    alloc: Global,
    tokens: &mut Tokens<'_>,
) -> Result<(Option<IntoClause>, List<Item>), Fail>
    ensures { Reads (reads (make (λ p. (Some p.0, p.1)) (part spec.Into then spec.items))
        tokens.old) result tokens.new }
{
    match into(alloc, tokens) {
        Ok(into) => match read_items(alloc, tokens) {
            Ok(items) => Ok((Some(into), items)),
            Err(fail) => Err(fail),
        },
        Err(fail) => Err(fail),
    }
}

// INTO and items, in either order.
fn into_items(
    alloc: Global,
    tokens: &mut Tokens<'_>,
) -> Result<(Option<IntoClause>, List<Item>), Fail>
    ensures { Reads (reads_part spec.IntoItems tokens.old) result tokens.new }
{
    if tokens.eat(Mark::Keyword(Keyword::Into)) {
        return into_and_items(alloc, tokens);
    }
    match read_items(alloc, tokens) {
        Ok(items) => match optional_into(alloc, tokens) {
            Ok(into) => Ok((into, items)),
            Err(fail) => Err(fail),
        },
        Err(fail) => Err(fail),
    }
}

// [DISTINCT | ALL], INTO and items.
fn selected(
    alloc: Global,
    tokens: &mut Tokens<'_>,
) -> Result<(bool, (Option<IntoClause>, List<Item>)), Fail>
    ensures { Reads (reads_part spec.Selected tokens.old) result tokens.new }
{
    if tokens.eat(Mark::Keyword(Keyword::Distinct)) {
        return match into_items(alloc, tokens) {
            Ok(items) => Ok((true, items)),
            Err(fail) => Err(fail),
        };
    }
    tokens.eat(Mark::Keyword(Keyword::All));
    match into_items(alloc, tokens) {
        Ok(items) => Ok((false, items)),
        Err(fail) => Err(fail),
    }
}

// SELECT, behind that word.
fn select(alloc: Global, tokens: &mut Tokens<'_>) -> Result<Simple, Fail>
    ensures { Reads (reads_part spec.Select tokens.old) result tokens.new }
{
    match selected(alloc, tokens) {
        Ok((is_distinct, (into, items))) => match query_end(alloc, tokens) {
            Ok(tail) => Ok(Simple::Query {
                query: query_of(is_distinct, items, tail),
                into,
            }),
            Err(fail) => Err(fail),
        },
        Err(fail) => Err(fail),
    }
}

// ---- changes

// INSERT, UPDATE or DELETE.
fn changing(alloc: Global, tokens: &mut Tokens<'_>) -> Result<Command, Fail>
    ensures { Reads (reads spec.changing tokens.old) result tokens.new }
{
    if tokens.eat(Mark::Keyword(Keyword::Insert)) {
        return read_insert(alloc, tokens);
    }
    if tokens.eat(Mark::Keyword(Keyword::Update)) {
        return read_update(alloc, tokens);
    }
    if tokens.eat(Mark::Keyword(Keyword::Delete)) {
        return read_delete(alloc, tokens);
    }
    Err(Fail::Syntax)
}

/// INSERT, UPDATE or DELETE.
pub(crate) fn change(alloc: Global, tokens: &mut Tokens<'_>) -> Result<Change, Fail>
    ensures { Reads (reads_part spec.Change tokens.old) result tokens.new }
{
    match changing(alloc, tokens) {
        Ok(command) => change_of(command),
        Err(fail) => Err(fail),
    }
}

// A change [INTO into];
fn changed(alloc: Global, tokens: &mut Tokens<'_>) -> Result<Simple, Fail>
    ensures { Reads (reads_part spec.Changed tokens.old) result tokens.new }
{
    match change(alloc, tokens) {
        Ok(change) => {
            let into = optional_into(alloc, tokens);
            match until(into, tokens, Mark::Sign(Sign::Semicolon)) {
                Ok(into) => changed_of(change, into),
                Err(fail) => {
                    drop(change);
                    Err(fail)
                }
            }
        }
        Err(fail) => Err(fail),
    }
}

// ---- other commands

// [INTO into] [USING e {, e}];
fn executed(
    alloc: Global,
    tokens: &mut Tokens<'_>,
) -> Result<(Option<IntoClause>, List<Expr>), Fail>
    ensures { Reads (reads ((spec.optional_into then part spec.Using) until SEMICOLON) tokens.old)
        result tokens.new }
{
    match optional_into(alloc, tokens) {
        Ok(into) => {
            let arguments = using(alloc, tokens);
            match until(arguments, tokens, Mark::Sign(Sign::Semicolon)) {
                Ok(arguments) => Ok((into, arguments)),
                Err(fail) => Err(fail),
            }
        }
        Err(fail) => Err(fail),
    }
}

// EXECUTE, behind that word.
fn execute(alloc: Global, tokens: &mut Tokens<'_>) -> Result<Simple, Fail>
    ensures { Reads (reads_part spec.Execute tokens.old) result tokens.new }
{
    match read_expression(alloc, tokens) {
        Ok(text) => match executed(alloc, tokens) {
            Ok((into, arguments)) => Ok(Simple::Execute {
                command: Dynamic { text, arguments },
                into,
            }),
            Err(fail) => {
                drop(text);
                Err(fail)
            }
        },
        Err(fail) => Err(fail),
    }
}

// COMMIT; or ROLLBACK;
fn transaction(tokens: &mut Tokens<'_>) -> Result<Simple, Fail>
    ensures { Reads (reads_part spec.Transaction tokens.old) result tokens.new }
{
    if tokens.eat(Mark::Word("commit")) {
        return until(Ok(Simple::Commit), tokens, Mark::Sign(Sign::Semicolon));
    }
    if tokens.eat(Mark::Word("rollback")) {
        return until(Ok(Simple::Rollback), tokens, Mark::Sign(Sign::Semicolon));
    }
    Err(Fail::Syntax)
}

// DO or CALL;
fn other_command(alloc: Global, tokens: &mut Tokens<'_>) -> Result<Command, Fail>
    ensures { Reads (reads_part spec.OtherCommand tokens.old) result tokens.new }
{
    if tokens.eat(Mark::Keyword(Keyword::Do)) {
        let command = read_do_body(alloc, tokens);
        return until(command, tokens, Mark::Sign(Sign::Semicolon));
    }
    if tokens.eat(Mark::Word("call")) {
        let command = read_call(alloc, tokens);
        return until(command, tokens, Mark::Sign(Sign::Semicolon));
    }
    if tokens.eat(Mark::Word("start")) {
        return started(tokens);
    }
    savepoint_command(tokens)
}

// TRANSACTION; behind START.
fn started(tokens: &mut Tokens<'_>) -> Result<Command, Fail>
    ensures { Reads (reads spec.started tokens.old) result tokens.new }
{
    if tokens.eat(Mark::Word("transaction")) {
        return until(
            Ok(Command::StartTransaction),
            tokens,
            Mark::Sign(Sign::Semicolon),
        );
    }
    Err(Fail::Syntax)
}

// SAVEPOINT name; RELEASE name;
fn savepoint_command(tokens: &mut Tokens<'_>) -> Result<Command, Fail>
    ensures { Reads (reads spec.savepoint_command tokens.old) result tokens.new }
{
    if tokens.eat(Mark::Word("savepoint")) {
        let name = tokens.name();
        return match until(name, tokens, Mark::Sign(Sign::Semicolon)) {
            Ok(name) => Ok(Command::Savepoint(name)),
            Err(fail) => Err(fail),
        };
    }
    if tokens.eat(Mark::Word("release")) {
        let name = read_savepoint_name(tokens);
        return match until(name, tokens, Mark::Sign(Sign::Semicolon)) {
            Ok(name) => Ok(Command::Release(name)),
            Err(fail) => Err(fail),
        };
    }
    Err(Fail::Syntax)
}

/// A query, a change or another command, and a semicolon.
pub fn command(alloc: Global, tokens: &mut Tokens<'_>) -> Result<Simple, Fail>
    ensures { Reads (reads_part spec.Command tokens.old) result tokens.new }
{
    if tokens.eat(Mark::Keyword(Keyword::Select)) {
        return select(alloc, tokens);
    }
    if tokens.eat(Mark::Word("perform")) {
        return perform(alloc, tokens);
    }
    if tokens.eat(Mark::Keyword(Keyword::Execute)) {
        return execute(alloc, tokens);
    }
    if tokens.begins(&TRANSACTION) {
        return transaction(tokens);
    }
    if tokens.begins(&CHANGE) {
        return changed(alloc, tokens);
    }
    match other_command(alloc, tokens) {
        Ok(command) => Ok(Simple::Command(command)),
        Err(fail) => Err(fail),
    }
}
