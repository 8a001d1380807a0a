//! Whole lists of tokens.

ghost use Rattle.std.specs.Prelude.{◌≡◌, IfOk};
ghost use Rattle.pl_grammar.specs.Marks.{kinds};
ghost use Rattle.pl_grammar.specs.Parse.{Answers};
ghost use Rattle.pl_grammar.specs.Parser.{Reads, ReadsAll};
ghost use Rattle.pl_expr_parse.specs.Grammar as spec;
ghost use Rattle.pl_expr_parse.specs.Finished.{reads_front};
ghost use Rattle.pl_expr_parse.specs.Nests.{reads_kind};
ghost use Rattle.pl_expr_parse.specs.Spells.{Spells, SpellsQuery};

use crate::grammar::Grammar;
use crate::parts::{Inside, Kind};
use crate::readers::{read_expression, read_query};
use pl_grammar::{Fail, ParseFail, Tokens, deep, whole};
use pl_lex::Token;
use pl_tree::{Expr, Query};
use std::alloc::Global;

/// What stands inside, in which parts stand inside one another no deeper than `depth`.
#[cycle(nest)]
#[tactic(auto, using(crate::proofs::Depths::kind_zero, crate::proofs::Depths::expression_reads, crate::proofs::Depths::query_reads, crate::proofs::Depths::source_reads))]
pub(crate) fn inside(
    alloc: Global,
    tokens: &mut Tokens<'_>,
    depth: usize,
    kind: Kind,
) -> Result<Inside, Fail>
    ensures { Reads (reads_kind depth kind tokens.old) result tokens.new }
{
    if depth == 0 {
        return Err(Fail::Syntax);
    }
    let grammar = Grammar {
        alloc,
        depth: depth - 1,
        inside,
    };
    match kind {
        Kind::Expression => Ok(Inside::Expression(grammar.disjunction(tokens)?)),
        Kind::Query => Ok(Inside::Query(grammar.query(tokens)?)),
        Kind::Source => Ok(Inside::Source(grammar.source(tokens)?)),
    }
}

/// The whole list as one expression.
fn whole_expression(alloc: Global, tokens: &[Token]) -> Result<Expr, Fail>
    ensures { ReadsAll (reads_front spec.Expression (kinds tokens.now)) result }
{
    whole(tokens, |rest| read_expression(alloc, rest))
}

/// The whole list as one query.
fn whole_query(alloc: Global, tokens: &[Token]) -> Result<Query, Fail>
    ensures { ReadsAll (reads_front spec.Query (kinds tokens.now)) result }
{
    whole(tokens, |rest| read_query(alloc, rest))
}

/// The expression that the tokens spell.
pub fn parse_expr(alloc: Global, tokens: &[Token]) -> Result<Expr, ParseFail>
    // What is read is spelled so.
    ensures found { IfOk result (λ x. Spells x (kinds tokens.now)) }
    // No other tree spells the tokens.
    ensures only { IfOk result (λ x. (other : spec.Tree spec.Expression) → Spells other (kinds tokens.now) → other ≡ x) }
    // Which refusal it is.
    ensures exact { Answers Spells result (kinds tokens.now) }
{
    match deep(alloc, tokens) {
        Ok(None) => {}
        Ok(Some(at)) => return Err(ParseFail::TooDeep { at }),
        Err(_) => return Err(ParseFail::Memory),
    }
    match whole_expression(alloc, tokens) {
        Ok(x) => Ok(x),
        Err(Fail::Syntax) => Err(ParseFail::Syntax),
        Err(Fail::Memory) => Err(ParseFail::Memory),
    }
}

/// The query that the tokens spell.
pub fn parse_query(alloc: Global, tokens: &[Token]) -> Result<Query, ParseFail>
    // What is read is spelled so.
    ensures found { IfOk result (λ x. SpellsQuery x (kinds tokens.now)) }
    // No other tree spells the tokens.
    ensures only { IfOk result (λ x. (other : spec.Tree spec.Query) → SpellsQuery other (kinds tokens.now) → other ≡ x) }
    // Which refusal it is.
    ensures exact { Answers SpellsQuery result (kinds tokens.now) }
{
    match deep(alloc, tokens) {
        Ok(None) => {}
        Ok(Some(at)) => return Err(ParseFail::TooDeep { at }),
        Err(_) => return Err(ParseFail::Memory),
    }
    match whole_query(alloc, tokens) {
        Ok(x) => Ok(x),
        Err(Fail::Syntax) => Err(ParseFail::Syntax),
        Err(Fail::Memory) => Err(ParseFail::Memory),
    }
}
