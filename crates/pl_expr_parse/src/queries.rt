//! Queries.

ghost use Rattle.pl_grammar.specs.Parser.{Reads};
ghost use Rattle.pl_expr_parse.specs.Grammar as spec;
ghost use Rattle.pl_expr_parse.specs.FirstFollow.{reads, reads_part};
ghost use Rattle.pl_expr_parse.specs.Nests.{Nests};
ghost use Rattle.pl_expr_parse.specs.Smaller as piece;

use crate::grammar::Grammar;
use crate::names::{alias, all_of, direction, label, nulls};
use crate::operators::is_all_of;
use crate::parts::{BehindFrom, BehindItems, Chosen, Ending, Inside, Kind, Ordered, Paging};
use crate::steps::{paired, some_boxed, until};
use crate::trees::{
    item_of, join_of, joined_of, joined_on_of, key_of, limited, query_of, source_of, subquery_of,
};
use pl_base::{Boxed, List};
use pl_grammar::{Fail, Mark, Tokens, list, many};
use pl_lex::{Keyword, Sign};
use pl_tree::{Argument, Expr, From, Item, Join, JoinKind, Key, Query};
use std::alloc::Global;

// What a join begins with.
const JOINS: [Mark; 4] = [
    Mark::Keyword(Keyword::Cross),
    Mark::Keyword(Keyword::Left),
    Mark::Keyword(Keyword::Inner),
    Mark::Keyword(Keyword::Join),
];

impl<F: Fn(Global, &mut Tokens<'_>, usize, Kind) -> Result<Inside, Fail>> Grammar<F> {
    #[tactic(auto, using(crate::proofs::Step::gives, crate::proofs::Step::then_reads, crate::proofs::Step::else_reads))]
    pub(crate) fn item(&self, tokens: &mut Tokens<'_>) -> Result<Item, Fail>
        requires { Nests self.now.depth (F.pre self.now.inside) (F.post self.now.inside) }
        ensures { Reads (reads_part self.now.depth spec.Item tokens.old) result tokens.new }
    {
        if tokens.eat(Mark::Sign(Sign::Star)) {
            return Ok(Item::All);
        }
        if is_all_of(tokens) {
            return all_of(tokens);
        }
        let value = self.inner(tokens)?;
        item_of(value, label(tokens))
    }

    // item {, item}
    #[tactic(auto, using(crate::proofs::Step::gives))]
    pub(crate) fn items(&self, tokens: &mut Tokens<'_>) -> Result<List<Item>, Fail>
        requires { Nests self.now.depth (F.pre self.now.inside) (F.post self.now.inside) }
        ensures { Reads (reads_part self.now.depth spec.Items tokens.old) result tokens.new }
    {
        list(
            self.alloc,
            tokens,
            Mark::Sign(Sign::Comma),
            |tokens| self.item(tokens),
        )
    }

    // [DISTINCT | ALL] item {, item}
    #[tactic(auto, using(crate::proofs::Step::gives))]
    pub(crate) fn selected(&self, tokens: &mut Tokens<'_>) -> Result<(bool, List<Item>), Fail>
        requires { Nests self.now.depth (F.pre self.now.inside) (F.post self.now.inside) }
        ensures { Reads (reads_part self.now.depth spec.Selected tokens.old) result tokens.new }
    {
        if tokens.eat(Mark::Keyword(Keyword::Distinct)) {
            return Ok((true, self.items(tokens)?));
        }
        tokens.eat(Mark::Keyword(Keyword::All));
        Ok((false, self.items(tokens)?))
    }

    // [FROM from {, from}]
    #[tactic(auto, using(crate::proofs::Step::gives))]
    pub(crate) fn sources(&self, tokens: &mut Tokens<'_>) -> Result<List<From>, Fail>
        requires { Nests self.now.depth (F.pre self.now.inside) (F.post self.now.inside) }
        ensures { Reads (reads_part self.now.depth spec.Sources tokens.old) result tokens.new }
    {
        if !tokens.eat(Mark::Keyword(Keyword::From)) {
            return Ok(List::new(self.alloc));
        }
        list(
            self.alloc,
            tokens,
            Mark::Sign(Sign::Comma),
            |tokens| self.source(tokens),
        )
    }

    // [GROUP BY e {, e}]
    #[tactic(auto, using(crate::proofs::Step::gives))]
    pub(crate) fn groups(&self, tokens: &mut Tokens<'_>) -> Result<List<Expr>, Fail>
        requires { Nests self.now.depth (F.pre self.now.inside) (F.post self.now.inside) }
        ensures { Reads (reads_part self.now.depth spec.Groups tokens.old) result tokens.new }
    {
        if !tokens.eat(Mark::Keyword(Keyword::Group)) {
            return Ok(List::new(self.alloc));
        }
        tokens.expect(Mark::Keyword(Keyword::By))?;
        self.expressions(tokens)
    }

    #[tactic(auto, using(crate::proofs::Step::gives))]
    pub(crate) fn key(&self, tokens: &mut Tokens<'_>) -> Result<Key, Fail>
        requires { Nests self.now.depth (F.pre self.now.inside) (F.post self.now.inside) }
        ensures { Reads (reads_part self.now.depth spec.Key tokens.old) result tokens.new }
    {
        let value = self.inner(tokens)?;
        let is_descending = direction(tokens);
        key_of(value, is_descending, nulls(tokens))
    }

    // [ORDER BY key {, key}]
    #[tactic(auto, using(crate::proofs::Step::gives))]
    pub(crate) fn order(&self, tokens: &mut Tokens<'_>) -> Result<List<Key>, Fail>
        requires { Nests self.now.depth (F.pre self.now.inside) (F.post self.now.inside) }
        ensures { Reads (reads_part self.now.depth spec.Order tokens.old) result tokens.new }
    {
        if !tokens.eat(Mark::Keyword(Keyword::Order)) {
            return Ok(List::new(self.alloc));
        }
        tokens.expect(Mark::Keyword(Keyword::By))?;
        list(
            self.alloc,
            tokens,
            Mark::Sign(Sign::Comma),
            |tokens| self.key(tokens),
        )
    }

    // ALL | e
    #[tactic(auto, using(crate::proofs::Step::gives))]
    pub(crate) fn limit(&self, tokens: &mut Tokens<'_>) -> Result<Option<Boxed<Expr>>, Fail>
        requires { Nests self.now.depth (F.pre self.now.inside) (F.post self.now.inside) }
        ensures { Reads (reads_part self.now.depth spec.Limit tokens.old) result tokens.new }
    {
        if tokens.eat(Mark::Keyword(Keyword::All)) {
            return Ok(None);
        }
        some_boxed(self.alloc, self.inner(tokens))
    }

    // [LIMIT limit] [OFFSET e], in either order
    #[tactic(auto, using(crate::proofs::Step::gives))]
    pub(crate) fn paging(&self, tokens: &mut Tokens<'_>) -> Result<Paging, Fail>
        requires { Nests self.now.depth (F.pre self.now.inside) (F.post self.now.inside) }
        ensures { Reads (reads_part self.now.depth spec.Paging tokens.old) result tokens.new }
    {
        if tokens.eat(Mark::Keyword(Keyword::Limit)) {
            let limit = self.limit(tokens)?;
            return paired(limit, self.optional(tokens, Mark::Keyword(Keyword::Offset)));
        }
        if !tokens.eat(Mark::Keyword(Keyword::Offset)) {
            return Ok((None, None));
        }
        let offset = some_boxed(self.alloc, self.inner(tokens))?;
        if tokens.eat(Mark::Keyword(Keyword::Limit)) {
            return limited(offset, self.limit(tokens));
        }
        Ok((None, offset))
    }

    // [ORDER BY ..] [LIMIT ..] [OFFSET ..]
    #[tactic(auto, using(crate::proofs::Step::gives))]
    pub(crate) fn ordered(&self, tokens: &mut Tokens<'_>) -> Result<Ordered, Fail>
        requires { Nests self.now.depth (F.pre self.now.inside) (F.post self.now.inside) }
        ensures { Reads (reads self.now.depth piece.ordered tokens.old) result tokens.new }
    {
        let order = self.order(tokens)?;
        paired(order, self.paging(tokens))
    }

    // [HAVING ..] [ORDER BY ..] [LIMIT ..] [OFFSET ..]
    #[tactic(auto, using(crate::proofs::Step::gives))]
    pub(crate) fn chosen(&self, tokens: &mut Tokens<'_>) -> Result<Chosen, Fail>
        requires { Nests self.now.depth (F.pre self.now.inside) (F.post self.now.inside) }
        ensures { Reads (reads self.now.depth piece.chosen tokens.old) result tokens.new }
    {
        let having = self.optional(tokens, Mark::Keyword(Keyword::Having))?;
        paired(having, self.ordered(tokens))
    }

    // [GROUP BY ..] [HAVING ..] [ORDER BY ..] [LIMIT ..] [OFFSET ..]
    pub(crate) fn ending(&self, tokens: &mut Tokens<'_>) -> Result<Ending, Fail>
        requires { Nests self.now.depth (F.pre self.now.inside) (F.post self.now.inside) }
        ensures { Reads (reads self.now.depth spec.ending tokens.old) result tokens.new }
    {
        let groups = self.groups(tokens)?;
        paired(groups, self.chosen(tokens))
    }

    // [WHERE ..] and what stands behind it.
    #[tactic(auto, using(crate::proofs::Step::gives))]
    pub(crate) fn behind_from(&self, tokens: &mut Tokens<'_>) -> Result<BehindFrom, Fail>
        requires { Nests self.now.depth (F.pre self.now.inside) (F.post self.now.inside) }
        ensures { Reads (reads self.now.depth piece.behind_from tokens.old) result tokens.new }
    {
        let condition = self.optional(tokens, Mark::Keyword(Keyword::Where))?;
        paired(condition, self.ending(tokens))
    }

    // [FROM ..] and what stands behind it.
    #[tactic(auto, using(crate::proofs::Step::gives))]
    pub(crate) fn behind_items(&self, tokens: &mut Tokens<'_>) -> Result<BehindItems, Fail>
        requires { Nests self.now.depth (F.pre self.now.inside) (F.post self.now.inside) }
        ensures { Reads (reads self.now.depth piece.behind_items tokens.old) result tokens.new }
    {
        let from = self.sources(tokens)?;
        paired(from, self.behind_from(tokens))
    }

    #[tactic(auto, using(crate::proofs::Step::gives))]
    pub(crate) fn query(&self, tokens: &mut Tokens<'_>) -> Result<Query, Fail>
        requires { Nests self.now.depth (F.pre self.now.inside) (F.post self.now.inside) }
        ensures { Reads (reads_part self.now.depth spec.Query tokens.old) result tokens.new }
    {
        tokens.expect(Mark::Keyword(Keyword::Select))?;
        let selected = self.selected(tokens)?;
        query_of(selected, self.behind_items(tokens))
    }

    // What stands in FROM.
    #[tactic(auto, using(crate::proofs::Step::gives))]
    pub(crate) fn source(&self, tokens: &mut Tokens<'_>) -> Result<From, Fail>
        requires { Nests self.now.depth (F.pre self.now.inside) (F.post self.now.inside) }
        ensures { Reads (reads_part self.now.depth spec.From tokens.old) result tokens.new }
    {
        let first = self.factor(tokens)?;
        let joins = many(self.alloc, tokens, &JOINS, |tokens| self.join(tokens));
        joined_of(self.alloc, first, joins)
    }

    // JOIN factor ON e
    #[tactic(auto, using(crate::proofs::Step::gives))]
    pub(crate) fn joined_on(&self, tokens: &mut Tokens<'_>) -> Result<(From, Boxed<Expr>), Fail>
        requires { Nests self.now.depth (F.pre self.now.inside) (F.post self.now.inside) }
        ensures { Reads (reads_part self.now.depth spec.JoinedOn tokens.old) result tokens.new }
    {
        tokens.expect(Mark::Keyword(Keyword::Join))?;
        let with = self.factor(tokens);
        let with = until(tokens, Mark::Keyword(Keyword::On), with)?;
        joined_on_of(self.alloc, with, self.inner(tokens))
    }

    #[tactic(auto, using(crate::proofs::Step::gives))]
    pub(crate) fn join(&self, tokens: &mut Tokens<'_>) -> Result<Join, Fail>
        requires { Nests self.now.depth (F.pre self.now.inside) (F.post self.now.inside) }
        ensures { Reads (reads_part self.now.depth spec.Join tokens.old) result tokens.new }
    {
        if tokens.eat(Mark::Keyword(Keyword::Cross)) {
            tokens.expect(Mark::Keyword(Keyword::Join))?;
            let with = self.factor(tokens)?;
            return Ok(Join {
                kind: JoinKind::Cross,
                with,
                condition: None,
            });
        }
        if tokens.eat(Mark::Keyword(Keyword::Left)) {
            tokens.eat(Mark::Word("outer"));
            return join_of(JoinKind::Left, self.joined_on(tokens));
        }
        tokens.eat(Mark::Keyword(Keyword::Inner));
        join_of(JoinKind::Inner, self.joined_on(tokens))
    }

    // [(arguments)]
    #[tactic(auto, using(crate::proofs::Step::gives))]
    pub(crate) fn call(&self, tokens: &mut Tokens<'_>) -> Result<Option<List<Argument>>, Fail>
        requires { Nests self.now.depth (F.pre self.now.inside) (F.post self.now.inside) }
        ensures { Reads (reads_part self.now.depth spec.Call tokens.old) result tokens.new }
    {
        if !tokens.eat(Mark::Sign(Sign::Open)) {
            return Ok(None);
        }
        Ok(Some(self.arguments(tokens)?))
    }

    #[tactic(auto, using(crate::proofs::Step::gives))]
    pub(crate) fn factor(&self, tokens: &mut Tokens<'_>) -> Result<From, Fail>
        requires { Nests self.now.depth (F.pre self.now.inside) (F.post self.now.inside) }
        ensures { Reads (reads_part self.now.depth spec.Factor tokens.old) result tokens.new }
    {
        if tokens.sees(Mark::Name) {
            let name = tokens.table_name()?;
            let arguments = self.call(tokens)?;
            return source_of(name, arguments, alias(tokens));
        }
        tokens.expect(Mark::Sign(Sign::Open))?;
        self.factor_in_brackets(tokens)
    }

    // (query) [[AS] name] | (from), behind the bracket.
    #[tactic(auto, using(crate::proofs::Step::gives))]
    pub(crate) fn factor_in_brackets(&self, tokens: &mut Tokens<'_>) -> Result<From, Fail>
        requires { Nests self.now.depth (F.pre self.now.inside) (F.post self.now.inside) }
        ensures { Reads (reads_part self.now.depth spec.FactorInBrackets tokens.old) result tokens.new }
    {
        if tokens.sees(Mark::Keyword(Keyword::Select)) {
            let query = self.inner_query(tokens);
            let query = until(tokens, Mark::Sign(Sign::Close), query)?;
            return subquery_of(self.alloc, query, alias(tokens));
        }
        let inner = self.inner_source(tokens);
        until(tokens, Mark::Sign(Sign::Close), inner)
    }
}
