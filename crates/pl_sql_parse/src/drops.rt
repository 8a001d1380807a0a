//! The four DROPs: PostgreSQL manual, "DROP TABLE", "DROP TRIGGER", "DROP FUNCTION" and
//! "DROP PROCEDURE".

ghost use Rattle.pl_grammar.specs.Parser.{Reads, listed};
ghost use Rattle.pl_grammar.specs.Words as w;
ghost use Rattle.pl_expr_parse.specs.Finished.{reads_front};
ghost use Rattle.pl_expr_parse.specs.Grammar as x;
ghost use Rattle.pl_sql_parse.specs.Grammar as spec;
ghost use Rattle.pl_sql_parse.specs.FirstFollow.{reads_part};

use crate::lists::{Piece, pieces};
use pl_base::{List, Name, Ty};
use pl_expr_parse::read_type;
use pl_grammar::{Fail, Mark, Tokens};
use pl_lex::{Keyword, Sign};
use pl_tree::{Definition, RoutineKind};
use std::alloc::Global;

// [IF EXISTS]
pub(crate) fn if_exists(tokens: &mut Tokens<'_>) -> Result<bool, Fail>
    ensures { Reads (reads_part spec.IfExists tokens.old) result tokens.new }
{
    if !tokens.eat(Mark::Keyword(Keyword::If)) {
        return Ok(false);
    }
    read!(tokens.expect(Mark::Keyword(Keyword::Exists)));
    Ok(true)
}

impl Piece for Ty {
    ghost use Rattle.pl_expr_parse.specs.Finished.{reads_front};
    ghost use Rattle.pl_expr_parse.specs.Grammar as x;

    ghost reader = { reads_front x.TypeName };

    fn read(alloc: Global, tokens: &mut Tokens<'_>) -> Result<Ty, Fail> {
        read_type(alloc, tokens)
    }
}

// type {, type}
fn type_list(alloc: Global, tokens: &mut Tokens<'_>) -> Result<List<Ty>, Fail>
    ensures { Reads (listed w.COMMA (reads_front x.TypeName) tokens.old) result tokens.new }
{
    pieces(alloc, tokens)
}

// [([type {, type}])]
pub(crate) fn types(alloc: Global, tokens: &mut Tokens<'_>) -> Result<Option<List<Ty>>, Fail>
    ensures { Reads (reads_part spec.Types tokens.old) result tokens.new }
{
    if !tokens.eat(Mark::Sign(Sign::Open)) {
        return Ok(None);
    }
    if tokens.eat(Mark::Sign(Sign::Close)) {
        return Ok(Some(List::new(alloc)));
    }
    let types = read!(type_list(alloc, tokens));
    read!(tokens.expect(Mark::Sign(Sign::Close)));
    Ok(Some(types))
}

// [IF EXISTS] name [(types)] [RESTRICT]
pub(crate) fn dropped(
    alloc: Global,
    tokens: &mut Tokens<'_>,
) -> Result<(bool, Name, Option<List<Ty>>), Fail>
    ensures { Reads (reads_part spec.Dropped tokens.old) result tokens.new }
{
    let if_exists = read!(if_exists(tokens));
    let name = read!(tokens.name());
    let types = read!(types(alloc, tokens));
    tokens.eat(Mark::Word("restrict"));
    Ok((if_exists, name, types))
}

// DROP FUNCTION or DROP PROCEDURE, behind DROP.
pub(crate) fn drop_routine(alloc: Global, tokens: &mut Tokens<'_>) -> Result<Definition, Fail>
    ensures { Reads (reads_part spec.DropRoutine tokens.old) result tokens.new }
{
    if tokens.eat(Mark::Word("function")) {
        let (if_exists, name, types) = read!(dropped(alloc, tokens));
        return Ok(Definition::DropRoutine {
            kind: RoutineKind::Function,
            if_exists,
            name,
            types,
        });
    }
    read!(tokens.expect(Mark::Word("procedure")));
    let (if_exists, name, types) = read!(dropped(alloc, tokens));
    Ok(Definition::DropRoutine {
        kind: RoutineKind::Procedure,
        if_exists,
        name,
        types,
    })
}

// DROP, behind that word.
pub(crate) fn drop_object(alloc: Global, tokens: &mut Tokens<'_>) -> Result<Definition, Fail>
    ensures { Reads (reads_part spec.Drop tokens.old) result tokens.new }
{
    if tokens.eat(Mark::Keyword(Keyword::Table)) {
        let if_exists = read!(if_exists(tokens));
        let name = read!(tokens.table_name());
        tokens.eat(Mark::Word("restrict"));
        return Ok(Definition::DropTable { if_exists, name });
    }
    if tokens.eat(Mark::Word("trigger")) {
        let if_exists = read!(if_exists(tokens));
        let name = read!(tokens.name());
        read!(tokens.expect(Mark::Keyword(Keyword::On)));
        let table = read!(tokens.table_name());
        tokens.eat(Mark::Word("restrict"));
        return Ok(Definition::DropTrigger {
            if_exists,
            name,
            table,
        });
    }
    drop_routine(alloc, tokens)
}
