//! What other grammars have of expressions and queries, read at the front of tokens.

ghost use Rattle.pl_grammar.specs.Parser.{Reads};
ghost use Rattle.pl_expr_parse.specs.Grammar as spec;
ghost use Rattle.pl_expr_parse.specs.Finished.{reads_front};

use crate::grammar::Grammar;
use crate::names::{alias, type_name};
use crate::parse::inside;
use pl_base::{Boxed, List, Name, Ty};
use pl_grammar::{Fail, Mark, Tokens};
use pl_lex::Keyword;
use pl_tree::{Argument, Expr, From, Item, Key, Query};
use std::alloc::Global;

/// An expression.
#[tactic(auto, unfolding(crate::specs::Finished::reads_front))]
pub fn read_expression(alloc: Global, tokens: &mut Tokens<'_>) -> Result<Expr, Fail>
    ensures { Reads (reads_front spec.Expression tokens.old) result tokens.new }
{
    let depth = tokens.depth_bound();
    Grammar {
        alloc,
        depth,
        inside,
    }
    .disjunction(tokens)
}

/// An expression of level 6, on which `||` stands, or of a tighter one.
#[tactic(auto, unfolding(crate::specs::Finished::reads_front))]
pub fn read_operand(alloc: Global, tokens: &mut Tokens<'_>) -> Result<Expr, Fail>
    ensures { Reads (reads_front spec.Concatenation tokens.old) result tokens.new }
{
    let depth = tokens.depth_bound();
    Grammar {
        alloc,
        depth,
        inside,
    }
    .concatenation(tokens)
}

/// A query.
#[tactic(auto, unfolding(crate::specs::Finished::reads_front))]
pub fn read_query(alloc: Global, tokens: &mut Tokens<'_>) -> Result<Query, Fail>
    ensures { Reads (reads_front spec.Query tokens.old) result tokens.new }
{
    let depth = tokens.depth_bound();
    Grammar {
        alloc,
        depth,
        inside,
    }
    .query(tokens)
}

/// The items of a select list: at least one.
#[tactic(auto, unfolding(crate::specs::Finished::reads_front))]
pub fn read_items(alloc: Global, tokens: &mut Tokens<'_>) -> Result<List<Item>, Fail>
    ensures { Reads (reads_front spec.Items tokens.old) result tokens.new }
{
    let depth = tokens.depth_bound();
    Grammar {
        alloc,
        depth,
        inside,
    }
    .items(tokens)
}

/// The items of a query with DISTINCT or ALL before them: whether it is DISTINCT, and they.
#[tactic(auto, unfolding(crate::specs::Finished::reads_front))]
pub fn read_selected(alloc: Global, tokens: &mut Tokens<'_>) -> Result<(bool, List<Item>), Fail>
    ensures { Reads (reads_front spec.Selected tokens.old) result tokens.new }
{
    let depth = tokens.depth_bound();
    Grammar {
        alloc,
        depth,
        inside,
    }
    .selected(tokens)
}

/// What FROM has, if it is there.
#[tactic(auto, unfolding(crate::specs::Finished::reads_front))]
pub fn read_sources(alloc: Global, tokens: &mut Tokens<'_>) -> Result<List<From>, Fail>
    ensures { Reads (reads_front spec.Sources tokens.old) result tokens.new }
{
    let depth = tokens.depth_bound();
    Grammar {
        alloc,
        depth,
        inside,
    }
    .sources(tokens)
}

/// What WHERE asks, if it is there.
#[tactic(auto, using(crate::proofs::Step::gives_all), unfolding(crate::specs::Finished::reads_front))]
pub fn read_condition(alloc: Global, tokens: &mut Tokens<'_>) -> Result<Option<Boxed<Expr>>, Fail>
    ensures { Reads (reads_front spec.Condition tokens.old) result tokens.new }
{
    let depth = tokens.depth_bound();
    Grammar {
        alloc,
        depth,
        inside,
    }
    .optional(tokens, Mark::Keyword(Keyword::Where))
}

/// The keys of GROUP BY, if it is there.
#[tactic(auto, unfolding(crate::specs::Finished::reads_front))]
pub fn read_groups(alloc: Global, tokens: &mut Tokens<'_>) -> Result<List<Expr>, Fail>
    ensures { Reads (reads_front spec.Groups tokens.old) result tokens.new }
{
    let depth = tokens.depth_bound();
    Grammar {
        alloc,
        depth,
        inside,
    }
    .groups(tokens)
}

/// What HAVING asks, if it is there.
#[tactic(auto, using(crate::proofs::Step::gives_all), unfolding(crate::specs::Finished::reads_front))]
pub fn read_having(alloc: Global, tokens: &mut Tokens<'_>) -> Result<Option<Boxed<Expr>>, Fail>
    ensures { Reads (reads_front spec.Having tokens.old) result tokens.new }
{
    let depth = tokens.depth_bound();
    Grammar {
        alloc,
        depth,
        inside,
    }
    .optional(tokens, Mark::Keyword(Keyword::Having))
}

/// The keys of ORDER BY, if it is there.
#[tactic(auto, unfolding(crate::specs::Finished::reads_front))]
pub fn read_order(alloc: Global, tokens: &mut Tokens<'_>) -> Result<List<Key>, Fail>
    ensures { Reads (reads_front spec.Order tokens.old) result tokens.new }
{
    let depth = tokens.depth_bound();
    Grammar {
        alloc,
        depth,
        inside,
    }
    .order(tokens)
}

/// LIMIT and OFFSET, where they are there.
#[tactic(auto, unfolding(crate::specs::Finished::reads_front))]
pub fn read_paging(
    alloc: Global,
    tokens: &mut Tokens<'_>,
) -> Result<(Option<Boxed<Expr>>, Option<Boxed<Expr>>), Fail>
    ensures { Reads (reads_front spec.Paging tokens.old) result tokens.new }
{
    let depth = tokens.depth_bound();
    Grammar {
        alloc,
        depth,
        inside,
    }
    .paging(tokens)
}

/// The arguments of a call behind its opening bracket, and the closing one.
#[tactic(auto, unfolding(crate::specs::Finished::reads_front))]
pub fn read_arguments(alloc: Global, tokens: &mut Tokens<'_>) -> Result<List<Argument>, Fail>
    ensures { Reads (reads_front spec.Arguments tokens.old) result tokens.new }
{
    let depth = tokens.depth_bound();
    Grammar {
        alloc,
        depth,
        inside,
    }
    .arguments(tokens)
}

/// The alias of a table, if there is one.
#[tactic(auto, unfolding(crate::specs::Finished::reads_front))]
pub fn read_alias(alloc: Global, tokens: &mut Tokens<'_>) -> Result<Option<Name>, Fail>
    ensures { Reads (reads_front spec.Alias tokens.old) result tokens.new }
{
    alias(tokens)
}

/// A type.
#[tactic(auto, unfolding(crate::specs::Finished::reads_front))]
pub fn read_type(alloc: Global, tokens: &mut Tokens<'_>) -> Result<Ty, Fail>
    ensures { Reads (reads_front spec.TypeName tokens.old) result tokens.new }
{
    type_name(tokens)
}
