//! Commands that define nothing.

ghost use Rattle.pl_grammar.specs.Parser.{Reads};
ghost use Rattle.pl_sql_parse.specs.Grammar as spec;
ghost use Rattle.pl_sql_parse.specs.FirstFollow.{reads, reads_part};

use crate::readers::{
    read_call, read_delete, read_do_body, read_insert, read_savepoint_name, read_update,
};
use pl_expr_parse::read_query;
use pl_grammar::{Fail, Mark, Tokens};
use pl_lex::Keyword;
use pl_tree::Command;
use std::alloc::Global;

// [WORK | TRANSACTION]
pub(crate) fn work(tokens: &mut Tokens<'_>) -> Result<(), Fail>
    ensures { Reads (reads_part spec.Work tokens.old) result tokens.new }
{
    if !tokens.eat(Mark::Word("work")) {
        tokens.eat(Mark::Word("transaction"));
    }
    Ok(())
}

// ROLLBACK, behind that word.
pub(crate) fn rollback(tokens: &mut Tokens<'_>) -> Result<Command, Fail>
    ensures { Reads (reads_part spec.Rollback tokens.old) result tokens.new }
{
    read!(work(tokens));
    if tokens.eat(Mark::Keyword(Keyword::To)) {
        return Ok(Command::RollbackTo(read!(read_savepoint_name(tokens))));
    }
    Ok(Command::Rollback)
}

// ROLLBACK, ABORT, SAVEPOINT, RELEASE
fn undoing(tokens: &mut Tokens<'_>) -> Result<Command, Fail>
    ensures { Reads (reads spec.undoing tokens.old) result tokens.new }
{
    if tokens.eat(Mark::Word("rollback")) {
        return rollback(tokens);
    }
    if tokens.eat(Mark::Word("abort")) {
        read!(work(tokens));
        return Ok(Command::Rollback);
    }
    if tokens.eat(Mark::Word("savepoint")) {
        return Ok(Command::Savepoint(read!(tokens.name())));
    }
    read!(tokens.expect(Mark::Word("release")));
    Ok(Command::Release(read!(read_savepoint_name(tokens))))
}

// BEGIN, START TRANSACTION, COMMIT, END, ROLLBACK, ABORT, SAVEPOINT, RELEASE
pub(crate) fn transaction(tokens: &mut Tokens<'_>) -> Result<Command, Fail>
    ensures { Reads (reads_part spec.Transaction tokens.old) result tokens.new }
{
    if tokens.eat(Mark::Keyword(Keyword::Begin)) {
        read!(work(tokens));
        return Ok(Command::Begin);
    }
    if tokens.eat(Mark::Word("start")) {
        read!(tokens.expect(Mark::Word("transaction")));
        return Ok(Command::StartTransaction);
    }
    if tokens.eat(Mark::Word("commit")) {
        read!(work(tokens));
        return Ok(Command::Commit);
    }
    if tokens.eat(Mark::Keyword(Keyword::End)) {
        read!(work(tokens));
        return Ok(Command::Commit);
    }
    undoing(tokens)
}

// A command that defines nothing.
pub(crate) fn command(alloc: Global, tokens: &mut Tokens<'_>) -> Result<Command, Fail>
    ensures { Reads (reads_part spec.Command tokens.old) result tokens.new }
{
    if tokens.eat(Mark::Keyword(Keyword::Insert)) {
        return read_insert(alloc, tokens);
    }
    if tokens.eat(Mark::Keyword(Keyword::Update)) {
        return read_update(alloc, tokens);
    }
    if tokens.eat(Mark::Keyword(Keyword::Delete)) {
        return read_delete(alloc, tokens);
    }
    if tokens.eat(Mark::Keyword(Keyword::Do)) {
        return read_do_body(alloc, tokens);
    }
    if tokens.eat(Mark::Word("call")) {
        return read_call(alloc, tokens);
    }
    if tokens.sees(Mark::Keyword(Keyword::Select)) {
        return Ok(Command::Query(read!(read_query(alloc, tokens))));
    }
    transaction(tokens)
}
