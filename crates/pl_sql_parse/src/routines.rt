//! CREATE FUNCTION and CREATE PROCEDURE: PostgreSQL manual, "CREATE FUNCTION" and "CREATE PROCEDURE".

ghost use Rattle.std.specs.Prelude.{◌≡◌};
ghost use Rattle.pl_grammar.specs.Parser.{Reads, listed};
ghost use Rattle.pl_grammar.specs.Words as w;
ghost use Rattle.pl_sql_parse.specs.Grammar as spec;
ghost use Rattle.pl_sql_parse.specs.FirstFollow.{reads_part};

use crate::lists::{Piece, all_pieces, pieces};
use crate::parts::Clause;
use crate::trees::routine_of;
use pl_base::{List, Name, Txt, Ty};
use pl_expr_parse::read_type;
use pl_grammar::{Fail, Mark, Tokens, list};
use pl_lex::{Keyword, Sign};
use pl_tree::{Definition, Param, ResultType, RoutineKind, Way};
use std::alloc::Global;

// What a clause of a routine begins with.
const CLAUSES: [Mark; 5] = [
    Mark::Word("immutable"),
    Mark::Word("stable"),
    Mark::Word("volatile"),
    Mark::Word("language"),
    Mark::Keyword(Keyword::As),
];

// [name] type
pub(crate) fn named_type(alloc: Global, tokens: &mut Tokens<'_>) -> Result<(Option<Name>, Ty), Fail>
    ensures { Reads (reads_part spec.NamedType tokens.old) result tokens.new }
{
    if tokens.sees_two(Mark::Name, Mark::Name) {
        let name = read!(tokens.name());
        return Ok((Some(name), read!(read_type(alloc, tokens))));
    }
    Ok((None, read!(read_type(alloc, tokens))))
}

// (OUT | INOUT) [name] type
pub(crate) fn way_param(alloc: Global, tokens: &mut Tokens<'_>) -> Result<Param, Fail>
    ensures { Reads (reads_part spec.WayParam tokens.old) result tokens.new }
{
    if tokens.eat(Mark::Word("out")) {
        let (name, ty) = read!(named_type(alloc, tokens));
        return Ok(Param {
            way: Way::Out,
            name,
            ty,
        });
    }
    read!(tokens.expect(Mark::Word("inout")));
    let (name, ty) = read!(named_type(alloc, tokens));
    Ok(Param {
        way: Way::InOut,
        name,
        ty,
    })
}

// Whether OUT or INOUT comes next, and then a name.
fn has_way(tokens: &Tokens<'_>) -> bool
    ensures { result ≡ spec.has_way tokens.now }
{
    tokens.sees_two(Mark::Word("out"), Mark::Name)
        || tokens.sees_two(Mark::Word("inout"), Mark::Name)
}

// [IN | OUT | INOUT] [name] type
pub(crate) fn param(alloc: Global, tokens: &mut Tokens<'_>) -> Result<Param, Fail>
    ensures { Reads (reads_part spec.Param tokens.old) result tokens.new }
{
    if tokens.eat(Mark::Keyword(Keyword::In)) {
        let (name, ty) = read!(named_type(alloc, tokens));
        return Ok(Param {
            way: Way::In,
            name,
            ty,
        });
    }
    if has_way(tokens) {
        return way_param(alloc, tokens);
    }
    let (name, ty) = read!(named_type(alloc, tokens));
    Ok(Param {
        way: Way::In,
        name,
        ty,
    })
}

impl Piece for Param {
    ghost use Rattle.pl_sql_parse.specs.Grammar as spec;
    ghost use Rattle.pl_sql_parse.specs.FirstFollow.{reads_part};

    ghost reader = { reads_part spec.Param };

    fn read(alloc: Global, tokens: &mut Tokens<'_>) -> Result<Param, Fail> {
        param(alloc, tokens)
    }
}

// param {, param}
fn param_list(alloc: Global, tokens: &mut Tokens<'_>) -> Result<List<Param>, Fail>
    ensures { Reads (listed w.COMMA (reads_part spec.Param) tokens.old) result tokens.new }
{
    pieces(alloc, tokens)
}

// [param {, param}])
pub(crate) fn params(alloc: Global, tokens: &mut Tokens<'_>) -> Result<List<Param>, Fail>
    ensures { Reads (reads_part spec.Params tokens.old) result tokens.new }
{
    if tokens.eat(Mark::Sign(Sign::Close)) {
        return Ok(List::new(alloc));
    }
    let params = read!(param_list(alloc, tokens));
    read!(tokens.expect(Mark::Sign(Sign::Close)));
    Ok(params)
}

// name([param {, param}])
pub(crate) fn signature(alloc: Global, tokens: &mut Tokens<'_>) -> Result<(Name, List<Param>), Fail>
    ensures { Reads (reads_part spec.Signature tokens.old) result tokens.new }
{
    let name = read!(tokens.name());
    read!(tokens.expect(Mark::Sign(Sign::Open)));
    Ok((name, read!(params(alloc, tokens))))
}

// name | text
#[tactic(auto, using(crate::proofs::Step::gives))]
pub(crate) fn language_name(alloc: Global, tokens: &mut Tokens<'_>) -> Result<Txt, Fail>
    ensures { Reads (reads_part spec.LanguageName tokens.old) result tokens.new }
{
    if tokens.sees(Mark::Name) {
        let name = read!(tokens.name());
        return Ok(Txt::from_slice(alloc, name.as_bytes())?);
    }
    tokens.text(alloc)
}

// A clause of a routine.
pub(crate) fn clause(alloc: Global, tokens: &mut Tokens<'_>) -> Result<Clause, Fail>
    ensures { Reads (reads_part spec.Clause tokens.old) result tokens.new }
{
    if tokens.eat(Mark::Word("language")) {
        return Ok(Clause::Language(read!(language_name(alloc, tokens))));
    }
    if tokens.eat(Mark::Keyword(Keyword::As)) {
        return Ok(Clause::Body(read!(tokens.text(alloc))));
    }
    if tokens.eat(Mark::Word("immutable")) {
        return Ok(Clause::Volatility);
    }
    if tokens.eat(Mark::Word("stable")) {
        return Ok(Clause::Volatility);
    }
    read!(tokens.expect(Mark::Word("volatile")));
    Ok(Clause::Volatility)
}

impl Piece for Clause {
    ghost use Rattle.pl_sql_parse.specs.Grammar as spec;
    ghost use Rattle.pl_sql_parse.specs.FirstFollow.{reads_part};

    ghost reader = { reads_part spec.Clause };

    fn read(alloc: Global, tokens: &mut Tokens<'_>) -> Result<Clause, Fail> {
        clause(alloc, tokens)
    }
}

// {clause}
pub(crate) fn clauses(alloc: Global, tokens: &mut Tokens<'_>) -> Result<List<Clause>, Fail>
    ensures { Reads (reads_part spec.Clauses tokens.old) result tokens.new }
{
    all_pieces(alloc, tokens, &CLAUSES)
}

// name type
pub(crate) fn result_column(alloc: Global, tokens: &mut Tokens<'_>) -> Result<Param, Fail>
    ensures { Reads (reads_part spec.ResultColumn tokens.old) result tokens.new }
{
    let name = read!(tokens.name());
    let ty = read!(read_type(alloc, tokens));
    Ok(Param {
        way: Way::Out,
        name: Some(name),
        ty,
    })
}

// column {, column}
fn column_list(alloc: Global, tokens: &mut Tokens<'_>) -> Result<List<Param>, Fail>
    ensures { Reads (listed w.COMMA (reads_part spec.ResultColumn) tokens.old) result tokens.new }
{
    list(
        alloc,
        tokens,
        Mark::Sign(Sign::Comma),
        |tokens| result_column(alloc, tokens),
    )
}

// (column {, column})
pub(crate) fn result_columns(alloc: Global, tokens: &mut Tokens<'_>) -> Result<List<Param>, Fail>
    ensures { Reads (reads_part spec.ResultColumns tokens.old) result tokens.new }
{
    read!(tokens.expect(Mark::Sign(Sign::Open)));
    let columns = read!(column_list(alloc, tokens));
    read!(tokens.expect(Mark::Sign(Sign::Close)));
    Ok(columns)
}

// TABLE columns {clause} | SETOF type {clause} | type {clause}
pub(crate) fn result(
    alloc: Global,
    tokens: &mut Tokens<'_>,
) -> Result<(ResultType, List<Clause>), Fail>
    ensures { Reads (reads_part spec.Result tokens.old) result tokens.new }
{
    if tokens.eat(Mark::Keyword(Keyword::Table)) {
        let columns = read!(result_columns(alloc, tokens));
        let clauses = read!(clauses(alloc, tokens));
        return Ok((ResultType::Columns(columns), clauses));
    }
    if tokens.sees_two(Mark::Word("setof"), Mark::Name) {
        read!(tokens.expect(Mark::Word("setof")));
        let ty = read!(read_type(alloc, tokens));
        let clauses = read!(clauses(alloc, tokens));
        return Ok((ResultType::Set(ty), clauses));
    }
    let ty = read!(read_type(alloc, tokens));
    let clauses = read!(clauses(alloc, tokens));
    Ok((ResultType::One(ty), clauses))
}

// [RETURNS result] {clause}
pub(crate) fn returned(
    alloc: Global,
    tokens: &mut Tokens<'_>,
) -> Result<(ResultType, List<Clause>), Fail>
    ensures { Reads (reads_part spec.Returned tokens.old) result tokens.new }
{
    if tokens.eat(Mark::Word("returns")) {
        return result(alloc, tokens);
    }
    Ok((ResultType::Absent, read!(clauses(alloc, tokens))))
}

// [OR REPLACE]
pub(crate) fn or_replace(tokens: &mut Tokens<'_>) -> Result<bool, Fail>
    ensures { Reads (reads_part spec.OrReplace tokens.old) result tokens.new }
{
    if !tokens.eat(Mark::Keyword(Keyword::Or)) {
        return Ok(false);
    }
    read!(tokens.expect(Mark::Word("replace")));
    Ok(true)
}

// CREATE FUNCTION or CREATE PROCEDURE, behind CREATE.
pub(crate) fn new_routine(alloc: Global, tokens: &mut Tokens<'_>) -> Result<Definition, Fail>
    ensures { Reads (reads_part spec.NewRoutine tokens.old) result tokens.new }
{
    let or_replace = read!(or_replace(tokens));
    if tokens.eat(Mark::Word("function")) {
        let (name, params) = read!(signature(alloc, tokens));
        let (result, clauses) = read!(returned(alloc, tokens));
        return routine_of(
            alloc,
            or_replace,
            RoutineKind::Function,
            name,
            params,
            result,
            clauses,
        );
    }
    read!(tokens.expect(Mark::Word("procedure")));
    let (name, params) = read!(signature(alloc, tokens));
    let clauses = read!(clauses(alloc, tokens));
    routine_of(
        alloc,
        or_replace,
        RoutineKind::Procedure,
        name,
        params,
        ResultType::Absent,
        clauses,
    )
}
