//! What other grammars have of commands, read at the front of tokens.

ghost use Rattle.pl_grammar.specs.Parser.{Reads};
ghost use Rattle.pl_sql_parse.specs.Grammar as spec;
ghost use Rattle.pl_sql_parse.specs.FirstFollow.{reads_part};

use crate::changes::{
    assigned, columns, condition, first_column, insert_alias, new_rows, returning,
};
use crate::definitions::create;
use crate::drops::drop_object;
use crate::trees::call_of;
use pl_base::{Held, Name};
use pl_expr_parse::{read_alias, read_arguments};
use pl_grammar::{Fail, Mark, Tokens, joined};
use pl_lex::{Keyword, Sign};
use pl_tree::{Assignment, Command, Definition, Delete, Insert, Update};
use std::alloc::Global;

/// INSERT, behind that word.
pub fn read_insert(alloc: Global, tokens: &mut Tokens<'_>) -> Result<Command, Fail>
    ensures { Reads (reads_part spec.Insert tokens.old) result tokens.new }
{
    read!(tokens.expect(Mark::Keyword(Keyword::Into)));
    let table = read!(tokens.table_name());
    let alias = read!(insert_alias(tokens));
    let columns = read!(columns(alloc, tokens));
    let rows = Held::new(read!(new_rows(alloc, tokens)));
    let returning = read!(returning(alloc, tokens));
    Ok(Command::Insert(Insert {
        table,
        alias,
        columns,
        rows: rows.into_inner(),
        returning,
    }))
}

/// UPDATE, behind that word.
#[tactic(auto, using(crate::proofs::Step::gives))]
pub fn read_update(alloc: Global, tokens: &mut Tokens<'_>) -> Result<Command, Fail>
    ensures { Reads (reads_part spec.Update tokens.old) result tokens.new }
{
    let table = read!(tokens.table_name());
    let (alias, column) = read!(first_column(tokens));
    let (value, more) = read!(assigned(alloc, tokens));
    let assignments = joined(alloc, Assignment { column, value }, more)?;
    let condition = read!(condition(alloc, tokens));
    let returning = read!(returning(alloc, tokens));
    Ok(Command::Update(Update {
        table,
        alias,
        assignments,
        condition,
        returning,
    }))
}

/// DELETE, behind that word.
pub fn read_delete(alloc: Global, tokens: &mut Tokens<'_>) -> Result<Command, Fail>
    ensures { Reads (reads_part spec.Delete tokens.old) result tokens.new }
{
    read!(tokens.expect(Mark::Keyword(Keyword::From)));
    let table = read!(tokens.table_name());
    let alias = read!(read_alias(alloc, tokens));
    let condition = read!(condition(alloc, tokens));
    let returning = read!(returning(alloc, tokens));
    Ok(Command::Delete(Delete {
        table,
        alias,
        condition,
        returning,
    }))
}

/// DO, behind that word.
pub fn read_do_body(alloc: Global, tokens: &mut Tokens<'_>) -> Result<Command, Fail>
    ensures { Reads (reads_part spec.Do tokens.old) result tokens.new }
{
    if tokens.eat(Mark::Word("language")) {
        let language = read!(tokens.name());
        let body = read!(tokens.text(alloc));
        return Ok(Command::Do {
            language: Some(language),
            body,
        });
    }
    let body = read!(tokens.text(alloc));
    if tokens.eat(Mark::Word("language")) {
        let language = read!(tokens.name());
        return Ok(Command::Do {
            language: Some(language),
            body,
        });
    }
    Ok(Command::Do {
        language: None,
        body,
    })
}

/// CALL, behind that word.
pub fn read_call(alloc: Global, tokens: &mut Tokens<'_>) -> Result<Command, Fail>
    ensures { Reads (reads_part spec.Call tokens.old) result tokens.new }
{
    let name = read!(tokens.name());
    read!(tokens.expect(Mark::Sign(Sign::Open)));
    let arguments = read!(read_arguments(alloc, tokens));
    call_of(name, arguments)
}

/// The name of a savepoint, with SAVEPOINT before it or without.
pub fn read_savepoint_name(tokens: &mut Tokens<'_>) -> Result<Name, Fail>
    ensures { Reads (reads_part spec.SavepointName tokens.old) result tokens.new }
{
    if tokens.sees_two(Mark::Word("savepoint"), Mark::Name) {
        read!(tokens.expect(Mark::Word("savepoint")));
        return tokens.name();
    }
    tokens.name()
}

/// CREATE or DROP.
pub fn read_definition(alloc: Global, tokens: &mut Tokens<'_>) -> Result<Definition, Fail>
    ensures { Reads (reads_part spec.Definition tokens.old) result tokens.new }
{
    if tokens.eat(Mark::Keyword(Keyword::Create)) {
        return create(alloc, tokens);
    }
    read!(tokens.expect(Mark::Word("drop")));
    drop_object(alloc, tokens)
}
