//! The parser of one depth.

ghost use Rattle.pl_grammar.specs.Forms.{optional as optional_rule};
ghost use Rattle.pl_grammar.specs.Marks.{meant};
ghost use Rattle.pl_grammar.specs.Parser.{Reads};
ghost use Rattle.pl_grammar.specs.Rule.{inside as inside_rule};
ghost use Rattle.pl_expr_parse.specs.Grammar as spec;
ghost use Rattle.pl_expr_parse.specs.FirstFollow.{reads, reads_inside};
ghost use Rattle.pl_expr_parse.specs.Nests.{Nests};

use crate::parts::{Inside, Kind};
use crate::steps::some_boxed;
use pl_base::Boxed;
use pl_grammar::{Fail, Mark, Tokens};
use pl_tree::{Expr, From, Query};
use std::alloc::Global;

/// The parser of one depth. What stands inside is read by its function.
#[derive(Clone, Copy)]
pub struct Grammar<F> {
    pub alloc: Global,
    /// How many parts may still stand inside one another.
    pub depth: usize,
    pub inside: F,
}

impl<F: Fn(Global, &mut Tokens<'_>, usize, Kind) -> Result<Inside, Fail>> Grammar<F> {
    // An expression in brackets or behind a word.
    pub(crate) fn inner(&self, tokens: &mut Tokens<'_>) -> Result<Expr, Fail>
        requires { Nests self.now.depth (F.pre self.now.inside) (F.post self.now.inside) }
        ensures { Reads (reads_inside self.now.depth spec.Expression tokens.old) result tokens.new }
    {
        match (self.inside)(self.alloc, tokens, self.depth, Kind::Expression)? {
            Inside::Expression(expression) => Ok(expression),
            Inside::Query(_) | Inside::Source(_) => unreachable!(),
        }
    }

    // A query in brackets.
    pub(crate) fn inner_query(&self, tokens: &mut Tokens<'_>) -> Result<Query, Fail>
        requires { Nests self.now.depth (F.pre self.now.inside) (F.post self.now.inside) }
        ensures { Reads (reads_inside self.now.depth spec.Query tokens.old) result tokens.new }
    {
        match (self.inside)(self.alloc, tokens, self.depth, Kind::Query)? {
            Inside::Query(query) => Ok(query),
            Inside::Expression(_) | Inside::Source(_) => unreachable!(),
        }
    }

    // What FROM has in brackets.
    pub(crate) fn inner_source(&self, tokens: &mut Tokens<'_>) -> Result<From, Fail>
        requires { Nests self.now.depth (F.pre self.now.inside) (F.post self.now.inside) }
        ensures { Reads (reads_inside self.now.depth spec.From tokens.old) result tokens.new }
    {
        match (self.inside)(self.alloc, tokens, self.depth, Kind::Source)? {
            Inside::Source(source) => Ok(source),
            Inside::Expression(_) | Inside::Query(_) => unreachable!(),
        }
    }

    // [mark e]
    pub(crate) fn optional(
        &self,
        tokens: &mut Tokens<'_>,
        mark: Mark,
    ) -> Result<Option<Boxed<Expr>>, Fail>
        requires { Nests self.now.depth (F.pre self.now.inside) (F.post self.now.inside) }
        ensures { Reads (reads self.now.depth (optional_rule (meant mark) (inside_rule spec.Expression)) tokens.old)
            result tokens.new }
    {
        if !tokens.eat(mark) {
            return Ok(None);
        }
        some_boxed(self.alloc, self.inner(tokens))
    }
}
