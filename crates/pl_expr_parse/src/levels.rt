//! The levels of operators.

ghost use Rattle.std.specs.Prelude.{[], length};
ghost use Rattle.pl_grammar.specs.Parser.{Reads, links_from};
ghost use Rattle.pl_expr_parse.specs.Grammar as spec;
ghost use Rattle.pl_expr_parse.specs.Trees as tree;
ghost use Rattle.pl_expr_parse.specs.FirstFollow.{reads_part};
ghost use Rattle.pl_expr_parse.specs.Nests.{Nests};

use crate::grammar::Grammar;
use crate::names::type_name;
use crate::operators::{comparison_at, factor_at, nots, signs, term_at};
use crate::parts::{Inside, Kind, Question, Range};
use crate::steps::until;
use crate::trees::{
    bounds_of, comparison_of, concatenation_of, conjunction_of, conversion_of, disjunction_of,
    negation_of, product_of, range_of, signed_of, sum_of, test_of,
};
use pl_base::{List, Test};
use pl_grammar::{Fail, Mark, Tokens, links};
use pl_lex::{Keyword, Sign};
use pl_tree::{Expr, Factor, Term};
use std::alloc::Global;

impl<F: Fn(Global, &mut Tokens<'_>, usize, Kind) -> Result<Inside, Fail>> Grammar<F> {
    #[tactic(auto, using(crate::proofs::Step::gives))]
    pub(crate) fn disjunction(&self, tokens: &mut Tokens<'_>) -> Result<Expr, Fail>
        requires { Nests self.now.depth (F.pre self.now.inside) (F.post self.now.inside) }
        ensures { Reads (reads_part self.now.depth spec.Expression tokens.old) result tokens.new }
    {
        let first = self.conjunction(tokens)?;
        let more = links(
            self.alloc,
            tokens,
            Mark::Keyword(Keyword::Or),
            |tokens| self.conjunction(tokens),
        );
        disjunction_of(self.alloc, first, more)
    }

    #[tactic(auto, using(crate::proofs::Step::gives))]
    pub(crate) fn conjunction(&self, tokens: &mut Tokens<'_>) -> Result<Expr, Fail>
        requires { Nests self.now.depth (F.pre self.now.inside) (F.post self.now.inside) }
        ensures { Reads (reads_part self.now.depth spec.Conjunction tokens.old) result tokens.new }
    {
        let first = self.negation(tokens)?;
        let more = links(
            self.alloc,
            tokens,
            Mark::Keyword(Keyword::And),
            |tokens| self.negation(tokens),
        );
        conjunction_of(self.alloc, first, more)
    }

    #[tactic(auto, using(crate::proofs::Step::gives))]
    pub(crate) fn negation(&self, tokens: &mut Tokens<'_>) -> Result<Expr, Fail>
        requires { Nests self.now.depth (F.pre self.now.inside) (F.post self.now.inside) }
        ensures { Reads (reads_part self.now.depth spec.Negation tokens.old) result tokens.new }
    {
        let count = nots(tokens);
        negation_of(self.alloc, count, self.test(tokens))
    }

    #[tactic(auto, using(crate::proofs::Step::gives))]
    pub(crate) fn test(&self, tokens: &mut Tokens<'_>) -> Result<Expr, Fail>
        requires { Nests self.now.depth (F.pre self.now.inside) (F.post self.now.inside) }
        ensures { Reads (reads_part self.now.depth spec.Test tokens.old) result tokens.new }
    {
        let operand = self.comparison(tokens)?;
        if !tokens.eat(Mark::Keyword(Keyword::Is)) {
            return Ok(operand);
        }
        let is_negated = tokens.eat(Mark::Keyword(Keyword::Not));
        test_of(self.alloc, operand, is_negated, self.question(tokens))
    }

    // What IS asks.
    #[tactic(auto, using(crate::proofs::Step::gives))]
    pub(crate) fn question(&self, tokens: &mut Tokens<'_>) -> Result<Question, Fail>
        requires { Nests self.now.depth (F.pre self.now.inside) (F.post self.now.inside) }
        ensures { Reads (reads_part self.now.depth spec.Question tokens.old) result tokens.new }
    {
        if tokens.eat(Mark::Keyword(Keyword::Distinct)) {
            tokens.expect(Mark::Keyword(Keyword::From))?;
            return Ok(Question::DistinctFrom(self.comparison(tokens)?));
        }
        if tokens.eat(Mark::Keyword(Keyword::Null)) {
            return Ok(Question::Is(Test::Null));
        }
        if tokens.eat(Mark::Keyword(Keyword::True)) {
            return Ok(Question::Is(Test::True));
        }
        if tokens.eat(Mark::Keyword(Keyword::False)) {
            return Ok(Question::Is(Test::False));
        }
        tokens.expect(Mark::Word("unknown"))?;
        Ok(Question::Is(Test::Unknown))
    }

    #[tactic(auto, using(crate::proofs::Step::gives))]
    pub(crate) fn comparison(&self, tokens: &mut Tokens<'_>) -> Result<Expr, Fail>
        requires { Nests self.now.depth (F.pre self.now.inside) (F.post self.now.inside) }
        ensures { Reads (reads_part self.now.depth spec.Comparison tokens.old) result tokens.new }
    {
        let left = self.ranged(tokens)?;
        let comparison = match comparison_at(tokens) {
            Some(comparison) => comparison,
            None => return Ok(left),
        };
        tokens.skip();
        comparison_of(self.alloc, left, comparison, self.ranged(tokens))
    }

    #[tactic(auto, using(crate::proofs::Step::gives))]
    pub(crate) fn ranged(&self, tokens: &mut Tokens<'_>) -> Result<Expr, Fail>
        requires { Nests self.now.depth (F.pre self.now.inside) (F.post self.now.inside) }
        ensures { Reads (reads_part self.now.depth spec.Ranged tokens.old) result tokens.new }
    {
        let operand = self.concatenation(tokens)?;
        let is_negated = tokens.eat(Mark::Keyword(Keyword::Not));
        range_of(self.alloc, operand, is_negated, self.range(tokens))
    }

    // What stands behind an operand of level 7, if there is such a thing.
    #[tactic(auto, using(crate::proofs::Step::gives))]
    pub(crate) fn range(&self, tokens: &mut Tokens<'_>) -> Result<Option<Range>, Fail>
        requires { Nests self.now.depth (F.pre self.now.inside) (F.post self.now.inside) }
        ensures { Reads (reads_part self.now.depth spec.Range tokens.old) result tokens.new }
    {
        if tokens.eat(Mark::Keyword(Keyword::Between)) {
            let low = self.concatenation(tokens);
            let low = until(tokens, Mark::Keyword(Keyword::And), low)?;
            return bounds_of(low, self.concatenation(tokens));
        }
        if tokens.eat(Mark::Keyword(Keyword::Like)) {
            return Ok(Some(Range::Like(self.concatenation(tokens)?)));
        }
        if tokens.eat(Mark::Keyword(Keyword::In)) {
            return Ok(Some(self.members(tokens)?));
        }
        Ok(None)
    }

    // What IN has in brackets.
    #[tactic(auto, using(crate::proofs::Step::gives))]
    pub(crate) fn members(&self, tokens: &mut Tokens<'_>) -> Result<Range, Fail>
        requires { Nests self.now.depth (F.pre self.now.inside) (F.post self.now.inside) }
        ensures { Reads (reads_part self.now.depth spec.Members tokens.old) result tokens.new }
    {
        tokens.expect(Mark::Sign(Sign::Open))?;
        if tokens.sees(Mark::Keyword(Keyword::Select)) {
            let query = self.inner_query(tokens);
            let query = until(tokens, Mark::Sign(Sign::Close), query)?;
            return Ok(Range::InQuery(query));
        }
        let list = self.expressions(tokens);
        let list = until(tokens, Mark::Sign(Sign::Close), list)?;
        Ok(Range::InList(list))
    }

    #[tactic(auto, using(crate::proofs::Step::gives))]
    pub(crate) fn concatenation(&self, tokens: &mut Tokens<'_>) -> Result<Expr, Fail>
        requires { Nests self.now.depth (F.pre self.now.inside) (F.post self.now.inside) }
        ensures { Reads (reads_part self.now.depth spec.Concatenation tokens.old) result tokens.new }
    {
        let first = self.sum(tokens)?;
        let more = links(
            self.alloc,
            tokens,
            Mark::Sign(Sign::Concat),
            |tokens| self.sum(tokens),
        );
        concatenation_of(self.alloc, first, more)
    }

    // {(+ | -) product}
    pub(crate) fn terms(&self, tokens: &mut Tokens<'_>) -> Result<List<Term>, Fail>
        requires { Nests self.now.depth (F.pre self.now.inside) (F.post self.now.inside) }
        ensures { Reads (links_from spec.terms (reads_part self.now.depth spec.Product) tree.term_of (length tokens.old) [] tokens.old) result tokens.new }
    {
        let mut found = List::new(self.alloc);
        for _turn in 0..tokens.left() {
            let operator = match term_at(tokens) {
                Some(operator) => operator,
                None => return Ok(found),
            };
            tokens.skip();
            let operand = self.product(tokens)?;
            found.push(Term { operator, operand })?;
        }
        Ok(found)
    }

    #[tactic(auto, using(crate::proofs::Step::gives))]
    pub(crate) fn sum(&self, tokens: &mut Tokens<'_>) -> Result<Expr, Fail>
        requires { Nests self.now.depth (F.pre self.now.inside) (F.post self.now.inside) }
        ensures { Reads (reads_part self.now.depth spec.Sum tokens.old) result tokens.new }
    {
        let first = self.product(tokens)?;
        sum_of(self.alloc, first, self.terms(tokens))
    }

    // {(* | / | %) signed}
    pub(crate) fn factors(&self, tokens: &mut Tokens<'_>) -> Result<List<Factor>, Fail>
        requires { Nests self.now.depth (F.pre self.now.inside) (F.post self.now.inside) }
        ensures { Reads (links_from spec.factors (reads_part self.now.depth spec.Signed) tree.factor_of (length tokens.old) [] tokens.old) result tokens.new }
    {
        let mut found = List::new(self.alloc);
        for _turn in 0..tokens.left() {
            let operator = match factor_at(tokens) {
                Some(operator) => operator,
                None => return Ok(found),
            };
            tokens.skip();
            let operand = self.signed(tokens)?;
            found.push(Factor { operator, operand })?;
        }
        Ok(found)
    }

    #[tactic(auto, using(crate::proofs::Step::gives))]
    pub(crate) fn product(&self, tokens: &mut Tokens<'_>) -> Result<Expr, Fail>
        requires { Nests self.now.depth (F.pre self.now.inside) (F.post self.now.inside) }
        ensures { Reads (reads_part self.now.depth spec.Product tokens.old) result tokens.new }
    {
        let first = self.signed(tokens)?;
        product_of(self.alloc, first, self.factors(tokens))
    }

    #[tactic(auto, using(crate::proofs::Step::gives))]
    pub(crate) fn signed(&self, tokens: &mut Tokens<'_>) -> Result<Expr, Fail>
        requires { Nests self.now.depth (F.pre self.now.inside) (F.post self.now.inside) }
        ensures { Reads (reads_part self.now.depth spec.Signed tokens.old) result tokens.new }
    {
        let signs = signs(self.alloc, tokens)?;
        signed_of(self.alloc, signs, self.conversion(tokens))
    }

    #[tactic(auto, using(crate::proofs::Step::gives))]
    pub(crate) fn conversion(&self, tokens: &mut Tokens<'_>) -> Result<Expr, Fail>
        requires { Nests self.now.depth (F.pre self.now.inside) (F.post self.now.inside) }
        ensures { Reads (reads_part self.now.depth spec.Conversion tokens.old) result tokens.new }
    {
        let operand = self.primary(tokens)?;
        let types = links(
            self.alloc,
            tokens,
            Mark::Sign(Sign::Cast),
            |tokens| type_name(tokens),
        );
        conversion_of(self.alloc, operand, types)
    }
}
