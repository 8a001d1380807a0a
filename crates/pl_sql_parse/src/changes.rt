//! Rows that are written: PostgreSQL manual, "INSERT", "UPDATE" and "DELETE".

ghost use Rattle.std.specs.Prelude.{[], length};
ghost use Rattle.pl_grammar.specs.Forms.{alone, by};
ghost use Rattle.pl_grammar.specs.Parser.{Reads, links_from, listed};
ghost use Rattle.pl_grammar.specs.Words as w;
ghost use Rattle.pl_sql_parse.specs.Grammar as spec;
ghost use Rattle.pl_sql_parse.specs.FirstFollow.{reads, reads_part};

use crate::lists::{Piece, more_pieces, pieces};
use pl_base::{Boxed, Held, List, Name};
use pl_expr_parse::{read_expression, read_items, read_query};
use pl_grammar::{Fail, Mark, Tokens};
use pl_lex::{Keyword, Sign};
use pl_tree::{Assignment, Expr, Item, NewRow, NewRows, NewValue};
use std::alloc::Global;

impl Piece for Name {
    ghost use Rattle.pl_grammar.specs.Marks.{a_name};
    ghost use Rattle.pl_grammar.specs.Parser.{take};

    ghost reader = { take a_name };

    fn read(alloc: Global, tokens: &mut Tokens<'_>) -> Result<Name, Fail> {
        tokens.name()
    }
}

// name {, name}
pub(crate) fn names(alloc: Global, tokens: &mut Tokens<'_>) -> Result<List<Name>, Fail>
    ensures { Reads (reads_part spec.Names tokens.old) result tokens.new }
{
    pieces(alloc, tokens)
}

// (names)
pub(crate) fn bracketed_names(alloc: Global, tokens: &mut Tokens<'_>) -> Result<List<Name>, Fail>
    ensures { Reads (reads_part spec.BracketedNames tokens.old) result tokens.new }
{
    read!(tokens.expect(Mark::Sign(Sign::Open)));
    let names = read!(names(alloc, tokens));
    read!(tokens.expect(Mark::Sign(Sign::Close)));
    Ok(names)
}

// [(names)]
pub(crate) fn columns(alloc: Global, tokens: &mut Tokens<'_>) -> Result<List<Name>, Fail>
    ensures { Reads (reads_part spec.Columns tokens.old) result tokens.new }
{
    if !tokens.eat(Mark::Sign(Sign::Open)) {
        return Ok(List::new(alloc));
    }
    let names = read!(names(alloc, tokens));
    read!(tokens.expect(Mark::Sign(Sign::Close)));
    Ok(names)
}

// e | DEFAULT
pub(crate) fn new_value(alloc: Global, tokens: &mut Tokens<'_>) -> Result<NewValue, Fail>
    ensures { Reads (reads_part spec.NewValue tokens.old) result tokens.new }
{
    if tokens.eat(Mark::Keyword(Keyword::Default)) {
        return Ok(NewValue::Default);
    }
    Ok(NewValue::Value(read!(read_expression(alloc, tokens))))
}

impl Piece for NewValue {
    ghost use Rattle.pl_sql_parse.specs.Grammar as spec;
    ghost use Rattle.pl_sql_parse.specs.FirstFollow.{reads_part};

    ghost reader = { reads_part spec.NewValue };

    fn read(alloc: Global, tokens: &mut Tokens<'_>) -> Result<NewValue, Fail> {
        new_value(alloc, tokens)
    }
}

// value {, value}
fn new_values(alloc: Global, tokens: &mut Tokens<'_>) -> Result<List<NewValue>, Fail>
    ensures { Reads (listed w.COMMA (reads_part spec.NewValue) tokens.old) result tokens.new }
{
    pieces(alloc, tokens)
}

// (value {, value})
pub(crate) fn new_row(alloc: Global, tokens: &mut Tokens<'_>) -> Result<NewRow, Fail>
    ensures { Reads (reads_part spec.NewRow tokens.old) result tokens.new }
{
    read!(tokens.expect(Mark::Sign(Sign::Open)));
    let values = read!(new_values(alloc, tokens));
    read!(tokens.expect(Mark::Sign(Sign::Close)));
    Ok(NewRow { values })
}

impl Piece for NewRow {
    ghost use Rattle.pl_sql_parse.specs.Grammar as spec;
    ghost use Rattle.pl_sql_parse.specs.FirstFollow.{reads_part};

    ghost reader = { reads_part spec.NewRow };

    fn read(alloc: Global, tokens: &mut Tokens<'_>) -> Result<NewRow, Fail> {
        new_row(alloc, tokens)
    }
}

// row {, row}
fn row_list(alloc: Global, tokens: &mut Tokens<'_>) -> Result<List<NewRow>, Fail>
    ensures { Reads (listed w.COMMA (reads_part spec.NewRow) tokens.old) result tokens.new }
{
    pieces(alloc, tokens)
}

// VALUES row {, row} | DEFAULT VALUES | query
pub(crate) fn new_rows(alloc: Global, tokens: &mut Tokens<'_>) -> Result<NewRows, Fail>
    ensures { Reads (reads_part spec.NewRows tokens.old) result tokens.new }
{
    if tokens.eat(Mark::Keyword(Keyword::Values)) {
        let rows = read!(row_list(alloc, tokens));
        return Ok(NewRows::Values(rows));
    }
    if tokens.eat(Mark::Keyword(Keyword::Default)) {
        read!(tokens.expect(Mark::Keyword(Keyword::Values)));
        return Ok(NewRows::Defaults);
    }
    Ok(NewRows::Query(read!(read_query(alloc, tokens))))
}

// [RETURNING items]
pub(crate) fn returning(alloc: Global, tokens: &mut Tokens<'_>) -> Result<List<Item>, Fail>
    ensures { Reads (reads_part spec.Returning tokens.old) result tokens.new }
{
    if !tokens.eat(Mark::Keyword(Keyword::Returning)) {
        return Ok(List::new(alloc));
    }
    read_items(alloc, tokens)
}

// [AS name]
pub(crate) fn insert_alias(tokens: &mut Tokens<'_>) -> Result<Option<Name>, Fail>
    ensures { Reads (reads_part spec.InsertAlias tokens.old) result tokens.new }
{
    if !tokens.eat(Mark::Keyword(Keyword::As)) {
        return Ok(None);
    }
    Ok(Some(read!(tokens.name())))
}

// [WHERE e]
#[tactic(auto, using(crate::proofs::Step::gives))]
pub(crate) fn condition(alloc: Global, tokens: &mut Tokens<'_>) -> Result<Option<Boxed<Expr>>, Fail>
    ensures { Reads (reads_part spec.Condition tokens.old) result tokens.new }
{
    if !tokens.eat(Mark::Keyword(Keyword::Where)) {
        return Ok(None);
    }
    let condition = read!(read_expression(alloc, tokens));
    Ok(Some(Boxed::new(alloc, condition)?))
}

// name = value
pub(crate) fn assignment(alloc: Global, tokens: &mut Tokens<'_>) -> Result<Assignment, Fail>
    ensures { Reads (reads_part spec.Assignment tokens.old) result tokens.new }
{
    let column = read!(tokens.name());
    read!(tokens.expect(Mark::Sign(Sign::Equal)));
    let value = read!(new_value(alloc, tokens));
    Ok(Assignment { column, value })
}

// [[AS] name] SET name
pub(crate) fn first_column(tokens: &mut Tokens<'_>) -> Result<(Option<Name>, Name), Fail>
    ensures { Reads (reads_part spec.FirstColumn tokens.old) result tokens.new }
{
    if tokens.eat(Mark::Keyword(Keyword::As)) {
        let alias = read!(tokens.name());
        read!(tokens.expect(Mark::Word("set")));
        return Ok((Some(alias), read!(tokens.name())));
    }
    if tokens.sees_three(Mark::Name, Mark::Word("set"), Mark::Name) {
        let alias = read!(tokens.bare_alias());
        read!(tokens.expect(Mark::Word("set")));
        return Ok((Some(alias), read!(tokens.name())));
    }
    read!(tokens.expect(Mark::Word("set")));
    Ok((None, read!(tokens.name())))
}

impl Piece for Assignment {
    ghost use Rattle.pl_sql_parse.specs.Grammar as spec;
    ghost use Rattle.pl_sql_parse.specs.FirstFollow.{reads_part};

    ghost reader = { reads_part spec.Assignment };

    fn read(alloc: Global, tokens: &mut Tokens<'_>) -> Result<Assignment, Fail> {
        assignment(alloc, tokens)
    }
}

// {, name = value}
fn more_assignments(alloc: Global, tokens: &mut Tokens<'_>) -> Result<List<Assignment>, Fail>
    ensures { Reads (links_from (by w.COMMA) (reads_part spec.Assignment) alone
        (length tokens.old) [] tokens.old) result tokens.new }
{
    more_pieces(alloc, List::new(alloc), tokens)
}

// = value {, name = value}
pub(crate) fn assigned(
    alloc: Global,
    tokens: &mut Tokens<'_>,
) -> Result<(NewValue, List<Assignment>), Fail>
    ensures { Reads (reads spec.assigned tokens.old) result tokens.new }
{
    read!(tokens.expect(Mark::Sign(Sign::Equal)));
    let value = Held::new(read!(new_value(alloc, tokens)));
    let more = read!(more_assignments(alloc, tokens));
    Ok((value.into_inner(), more))
}
