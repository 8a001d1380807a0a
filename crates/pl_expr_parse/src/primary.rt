//! What operators stand between.

ghost use Rattle.pl_grammar.specs.Parser.{Reads};
ghost use Rattle.pl_expr_parse.specs.Grammar as spec;
ghost use Rattle.pl_expr_parse.specs.FirstFollow.{reads, reads_part};
ghost use Rattle.pl_expr_parse.specs.Nests.{Nests};
ghost use Rattle.pl_expr_parse.specs.Smaller.{called as called_rule, picked as picked_rule};

use crate::grammar::Grammar;
use crate::names::type_name;
use crate::operators::{is_named, past_name};
use crate::parts::{Inside, Kind, Suffix};
use crate::steps::{paired, until};
use crate::trees::{
    arm_of, case_of, cast_of, exists_of, named_of, null_if_of, query_value_of, searched_of,
};
use pl_base::{Boxed, List};
use pl_grammar::{Fail, Mark, Tokens, list};
use pl_lex::{Keyword, Sign};
use pl_tree::{Argument, Arm, Expr, Literal, Pick};
use std::alloc::Global;

impl<F: Fn(Global, &mut Tokens<'_>, usize, Kind) -> Result<Inside, Fail>> Grammar<F> {
    #[tactic(auto, using(crate::proofs::Step::gives))]
    pub(crate) fn primary(&self, tokens: &mut Tokens<'_>) -> Result<Expr, Fail>
        requires { Nests self.now.depth (F.pre self.now.inside) (F.post self.now.inside) }
        ensures { Reads (reads_part self.now.depth spec.Primary tokens.old) result tokens.new }
    {
        if tokens.sees(Mark::Number) {
            let size = tokens.number()?;
            return Ok(Expr::Literal(Literal::Number {
                is_negative: false,
                size,
            }));
        }
        if tokens.sees(Mark::Text) {
            return Ok(Expr::Literal(Literal::Text(tokens.text(self.alloc)?)));
        }
        if tokens.sees(Mark::Parameter) {
            return Ok(Expr::Parameter(tokens.parameter()?));
        }
        if tokens.sees(Mark::Name) {
            return self.named(tokens);
        }
        if tokens.eat(Mark::Sign(Sign::Open)) {
            return self.bracketed(tokens);
        }
        self.worded(tokens)
    }

    // What a bracket opens.
    #[tactic(auto, using(crate::proofs::Step::gives))]
    pub(crate) fn bracketed(&self, tokens: &mut Tokens<'_>) -> Result<Expr, Fail>
        requires { Nests self.now.depth (F.pre self.now.inside) (F.post self.now.inside) }
        ensures { Reads (reads_part self.now.depth spec.Bracketed tokens.old) result tokens.new }
    {
        if tokens.sees(Mark::Keyword(Keyword::Select)) {
            let query = self.inner_query(tokens);
            let query = until(tokens, Mark::Sign(Sign::Close), query);
            return query_value_of(self.alloc, query);
        }
        let inner = self.inner(tokens);
        until(tokens, Mark::Sign(Sign::Close), inner)
    }

    // What begins with a name.
    #[tactic(auto, using(crate::proofs::Step::gives))]
    pub(crate) fn named(&self, tokens: &mut Tokens<'_>) -> Result<Expr, Fail>
        requires { Nests self.now.depth (F.pre self.now.inside) (F.post self.now.inside) }
        ensures { Reads (reads_part self.now.depth spec.Named tokens.old) result tokens.new }
    {
        let name = tokens.name()?;
        named_of(name, self.suffix(tokens))
    }

    // What follows a name.
    #[tactic(auto, using(crate::proofs::Step::gives))]
    pub(crate) fn suffix(&self, tokens: &mut Tokens<'_>) -> Result<Suffix, Fail>
        requires { Nests self.now.depth (F.pre self.now.inside) (F.post self.now.inside) }
        ensures { Reads (reads_part self.now.depth spec.Suffix tokens.old) result tokens.new }
    {
        if tokens.eat(Mark::Sign(Sign::Dot)) {
            return Ok(Suffix::Column(tokens.name()?));
        }
        if !tokens.eat(Mark::Sign(Sign::Open)) {
            return Ok(Suffix::Nothing);
        }
        if tokens.eat(Mark::Sign(Sign::Star)) {
            tokens.expect(Mark::Sign(Sign::Close))?;
            return Ok(Suffix::AllRows);
        }
        Ok(Suffix::Call(self.arguments(tokens)?))
    }

    #[tactic(auto, using(crate::proofs::Step::gives, crate::proofs::Step::then_reads, crate::proofs::Step::else_reads))]
    pub(crate) fn argument(&self, tokens: &mut Tokens<'_>) -> Result<Argument, Fail>
        requires { Nests self.now.depth (F.pre self.now.inside) (F.post self.now.inside) }
        ensures { Reads (reads_part self.now.depth spec.Argument tokens.old) result tokens.new }
    {
        if is_named(tokens) {
            past_name(tokens)?;
            return Ok(Argument::FatalErrors(self.inner(tokens)?));
        }
        Ok(Argument::Value(self.inner(tokens)?))
    }

    // The arguments of a call, behind its bracket.
    #[tactic(auto, using(crate::proofs::Step::gives))]
    pub(crate) fn arguments(&self, tokens: &mut Tokens<'_>) -> Result<List<Argument>, Fail>
        requires { Nests self.now.depth (F.pre self.now.inside) (F.post self.now.inside) }
        ensures { Reads (reads_part self.now.depth spec.Arguments tokens.old) result tokens.new }
    {
        if tokens.eat(Mark::Sign(Sign::Close)) {
            return Ok(List::new(self.alloc));
        }
        let arguments = list(
            self.alloc,
            tokens,
            Mark::Sign(Sign::Comma),
            |tokens| self.argument(tokens),
        );
        until(tokens, Mark::Sign(Sign::Close), arguments)
    }

    // e {, e}
    #[tactic(auto, using(crate::proofs::Step::gives))]
    pub(crate) fn expressions(&self, tokens: &mut Tokens<'_>) -> Result<List<Expr>, Fail>
        requires { Nests self.now.depth (F.pre self.now.inside) (F.post self.now.inside) }
        ensures { Reads (reads_part self.now.depth spec.Expressions tokens.old) result tokens.new }
    {
        list(
            self.alloc,
            tokens,
            Mark::Sign(Sign::Comma),
            |tokens| self.inner(tokens),
        )
    }

    // (e {, e})
    #[tactic(auto, using(crate::proofs::Step::gives))]
    pub(crate) fn in_brackets(&self, tokens: &mut Tokens<'_>) -> Result<List<Expr>, Fail>
        requires { Nests self.now.depth (F.pre self.now.inside) (F.post self.now.inside) }
        ensures { Reads (reads_part self.now.depth spec.BracketedList tokens.old) result tokens.new }
    {
        tokens.expect(Mark::Sign(Sign::Open))?;
        let list = self.expressions(tokens);
        until(tokens, Mark::Sign(Sign::Close), list)
    }

    // What begins with a reserved word.
    #[tactic(auto, using(crate::proofs::Step::gives))]
    pub(crate) fn worded(&self, tokens: &mut Tokens<'_>) -> Result<Expr, Fail>
        requires { Nests self.now.depth (F.pre self.now.inside) (F.post self.now.inside) }
        ensures { Reads (reads_part self.now.depth spec.Worded tokens.old) result tokens.new }
    {
        if tokens.eat(Mark::Keyword(Keyword::True)) {
            return Ok(Expr::Literal(Literal::Bool(true)));
        }
        if tokens.eat(Mark::Keyword(Keyword::False)) {
            return Ok(Expr::Literal(Literal::Bool(false)));
        }
        if tokens.eat(Mark::Keyword(Keyword::Null)) {
            return Ok(Expr::Literal(Literal::Null));
        }
        self.called(tokens)
    }

    // The same, behind what is a literal.
    pub(crate) fn called(&self, tokens: &mut Tokens<'_>) -> Result<Expr, Fail>
        requires { Nests self.now.depth (F.pre self.now.inside) (F.post self.now.inside) }
        ensures { Reads (reads self.now.depth called_rule tokens.old) result tokens.new }
    {
        if tokens.eat(Mark::Keyword(Keyword::Exists)) {
            return self.exists(tokens);
        }
        if tokens.eat(Mark::Keyword(Keyword::Coalesce)) {
            return self.picked(tokens, Pick::Coalesce);
        }
        if tokens.eat(Mark::Keyword(Keyword::Greatest)) {
            return self.picked(tokens, Pick::Greatest);
        }
        if tokens.eat(Mark::Keyword(Keyword::Least)) {
            return self.picked(tokens, Pick::Least);
        }
        if tokens.eat(Mark::Keyword(Keyword::Nullif)) {
            return self.null_if(tokens);
        }
        if tokens.eat(Mark::Keyword(Keyword::Cast)) {
            return self.cast(tokens);
        }
        if tokens.eat(Mark::Keyword(Keyword::Row)) {
            return self.row(tokens);
        }
        self.case(tokens)
    }

    // (e {, e}), of which one is picked.
    pub(crate) fn picked(&self, tokens: &mut Tokens<'_>, pick: Pick) -> Result<Expr, Fail>
        requires { Nests self.now.depth (F.pre self.now.inside) (F.post self.now.inside) }
        ensures { Reads (reads self.now.depth (picked_rule pick) tokens.old) result tokens.new }
    {
        Ok(Expr::Pick {
            pick,
            list: self.in_brackets(tokens)?,
        })
    }

    // (query)
    #[tactic(auto, using(crate::proofs::Step::gives))]
    pub(crate) fn exists(&self, tokens: &mut Tokens<'_>) -> Result<Expr, Fail>
        requires { Nests self.now.depth (F.pre self.now.inside) (F.post self.now.inside) }
        ensures { Reads (reads_part self.now.depth spec.Exists tokens.old) result tokens.new }
    {
        tokens.expect(Mark::Sign(Sign::Open))?;
        let query = self.inner_query(tokens);
        let query = until(tokens, Mark::Sign(Sign::Close), query);
        exists_of(self.alloc, query)
    }

    // (e, e)
    #[tactic(auto, using(crate::proofs::Step::gives))]
    pub(crate) fn null_if(&self, tokens: &mut Tokens<'_>) -> Result<Expr, Fail>
        requires { Nests self.now.depth (F.pre self.now.inside) (F.post self.now.inside) }
        ensures { Reads (reads_part self.now.depth spec.NullIf tokens.old) result tokens.new }
    {
        tokens.expect(Mark::Sign(Sign::Open))?;
        let first = self.inner(tokens);
        let first = until(tokens, Mark::Sign(Sign::Comma), first)?;
        let second = self.inner(tokens);
        let second = until(tokens, Mark::Sign(Sign::Close), second);
        null_if_of(self.alloc, first, second)
    }

    // (e AS type)
    #[tactic(auto, using(crate::proofs::Step::gives))]
    pub(crate) fn cast(&self, tokens: &mut Tokens<'_>) -> Result<Expr, Fail>
        requires { Nests self.now.depth (F.pre self.now.inside) (F.post self.now.inside) }
        ensures { Reads (reads_part self.now.depth spec.Cast tokens.old) result tokens.new }
    {
        tokens.expect(Mark::Sign(Sign::Open))?;
        let operand = self.inner(tokens);
        let operand = until(tokens, Mark::Keyword(Keyword::As), operand)?;
        let ty = type_name(tokens);
        let ty = until(tokens, Mark::Sign(Sign::Close), ty);
        cast_of(self.alloc, operand, ty)
    }

    // ([e {, e}])
    #[tactic(auto, using(crate::proofs::Step::gives))]
    pub(crate) fn row(&self, tokens: &mut Tokens<'_>) -> Result<Expr, Fail>
        requires { Nests self.now.depth (F.pre self.now.inside) (F.post self.now.inside) }
        ensures { Reads (reads_part self.now.depth spec.Row tokens.old) result tokens.new }
    {
        tokens.expect(Mark::Sign(Sign::Open))?;
        if tokens.eat(Mark::Sign(Sign::Close)) {
            return Ok(Expr::Row(List::new(self.alloc)));
        }
        let list = self.expressions(tokens);
        let list = until(tokens, Mark::Sign(Sign::Close), list)?;
        Ok(Expr::Row(list))
    }

    // e THEN e
    #[tactic(auto, using(crate::proofs::Step::gives))]
    pub(crate) fn arm(&self, tokens: &mut Tokens<'_>) -> Result<Arm, Fail>
        requires { Nests self.now.depth (F.pre self.now.inside) (F.post self.now.inside) }
        ensures { Reads (reads_part self.now.depth spec.Arm tokens.old) result tokens.new }
    {
        let when = self.inner(tokens);
        let when = until(tokens, Mark::Keyword(Keyword::Then), when)?;
        arm_of(when, self.inner(tokens))
    }

    // The arms and ELSE.
    #[tactic(auto, using(crate::proofs::Step::gives))]
    pub(crate) fn arms(
        &self,
        tokens: &mut Tokens<'_>,
    ) -> Result<(List<Arm>, Option<Boxed<Expr>>), Fail>
        requires { Nests self.now.depth (F.pre self.now.inside) (F.post self.now.inside) }
        ensures { Reads (reads_part self.now.depth spec.Arms tokens.old) result tokens.new }
    {
        let arms = list(
            self.alloc,
            tokens,
            Mark::Keyword(Keyword::When),
            |tokens| self.arm(tokens),
        )?;
        let otherwise = self.optional(tokens, Mark::Keyword(Keyword::Else));
        let otherwise = until(tokens, Mark::Keyword(Keyword::End), otherwise);
        paired(arms, otherwise)
    }

    #[tactic(auto, using(crate::proofs::Step::gives))]
    pub(crate) fn case(&self, tokens: &mut Tokens<'_>) -> Result<Expr, Fail>
        requires { Nests self.now.depth (F.pre self.now.inside) (F.post self.now.inside) }
        ensures { Reads (reads_part self.now.depth spec.Case tokens.old) result tokens.new }
    {
        tokens.expect(Mark::Keyword(Keyword::Case))?;
        if tokens.eat(Mark::Keyword(Keyword::When)) {
            return searched_of(self.arms(tokens));
        }
        let operand = self.inner(tokens);
        let operand = until(tokens, Mark::Keyword(Keyword::When), operand)?;
        case_of(self.alloc, operand, self.arms(tokens))
    }
}
