//! Operators and prefixes.

ghost use Rattle.std.specs.Prelude.{[], ◌≡◌, length, replicate, Some};
ghost use Rattle.pl_grammar.specs.Parser.{Reads, and_then, expect, pure, joins, links_from};
ghost use Rattle.pl_grammar.specs.Forms.{alone, by};
ghost use Rattle.pl_grammar.specs.Words as w;
ghost use Rattle.pl_expr_parse.specs.Grammar as spec;

use pl_base::{Arithmetic, Comparison, List};
use pl_grammar::{Fail, Mark, Tokens};
use pl_lex::{Keyword, Sign};
use pl_tree::Sign as Prefix;
use std::alloc::Global;

#[tactic(auto, using(pl_grammar::proofs::Turns::joins_here, pl_grammar::proofs::Turns::joins_past, pl_grammar::proofs::Turns::joins_none))]
pub(crate) fn term_at(tokens: &Tokens<'_>) -> Option<Arithmetic>
    ensures { result ≡ joins spec.terms tokens.now }
{
    if tokens.sees(Mark::Sign(Sign::Plus)) {
        return Some(Arithmetic::Add);
    }
    if tokens.sees(Mark::Sign(Sign::Minus)) {
        return Some(Arithmetic::Subtract);
    }
    None
}

#[tactic(auto, using(pl_grammar::proofs::Turns::joins_here, pl_grammar::proofs::Turns::joins_past, pl_grammar::proofs::Turns::joins_none))]
pub(crate) fn factor_at(tokens: &Tokens<'_>) -> Option<Arithmetic>
    ensures { result ≡ joins spec.factors tokens.now }
{
    if tokens.sees(Mark::Sign(Sign::Star)) {
        return Some(Arithmetic::Multiply);
    }
    if tokens.sees(Mark::Sign(Sign::Slash)) {
        return Some(Arithmetic::Divide);
    }
    if tokens.sees(Mark::Sign(Sign::Percent)) {
        return Some(Arithmetic::Remainder);
    }
    None
}

#[tactic(auto, using(pl_grammar::proofs::Turns::joins_here, pl_grammar::proofs::Turns::joins_past, pl_grammar::proofs::Turns::joins_none))]
pub(crate) fn comparison_at(tokens: &Tokens<'_>) -> Option<Comparison>
    ensures { result ≡ joins spec.comparisons tokens.now }
{
    if tokens.sees(Mark::Sign(Sign::Equal)) {
        return Some(Comparison::Equal);
    }
    if tokens.sees(Mark::Sign(Sign::NotEqual)) {
        return Some(Comparison::NotEqual);
    }
    if tokens.sees(Mark::Sign(Sign::Less)) {
        return Some(Comparison::Less);
    }
    if tokens.sees(Mark::Sign(Sign::Greater)) {
        return Some(Comparison::Greater);
    }
    if tokens.sees(Mark::Sign(Sign::LessOrEqual)) {
        return Some(Comparison::LessOrEqual);
    }
    if tokens.sees(Mark::Sign(Sign::GreaterOrEqual)) {
        return Some(Comparison::GreaterOrEqual);
    }
    None
}

#[tactic(auto, using(pl_grammar::proofs::Turns::joins_here, pl_grammar::proofs::Turns::joins_past, pl_grammar::proofs::Turns::joins_none))]
fn sign_at(tokens: &Tokens<'_>) -> Option<Prefix>
    ensures { result ≡ joins spec.signs tokens.now }
{
    if tokens.sees(Mark::Sign(Sign::Plus)) {
        return Some(Prefix::Plus);
    }
    if tokens.sees(Mark::Sign(Sign::Minus)) {
        return Some(Prefix::Minus);
    }
    None
}

// {+ | -}
pub(crate) fn signs(alloc: Global, tokens: &mut Tokens<'_>) -> Result<List<Prefix>, Fail>
    ensures { Reads (links_from spec.signs (pure (tt {0})) (λ s _. s) (length tokens.old) [] tokens.old) result tokens.new }
{
    let mut found = List::new(alloc);
    for _turn in 0..tokens.left() {
        let sign = match sign_at(tokens) {
            Some(sign) => sign,
            None => return Ok(found),
        };
        tokens.skip();
        found.push(sign)?;
    }
    Ok(found)
}

// {NOT}: how many there are.
pub(crate) fn nots(tokens: &mut Tokens<'_>) -> usize
    ensures { links_from (by w.NOT) (pure (tt {0})) alone (length tokens.old) [] tokens.old ≡ Some (replicate result (tt {0}), tokens.new) }
{
    let left = tokens.left();
    for turn in 0..left {
        if !tokens.eat(Mark::Keyword(Keyword::Not)) {
            return turn;
        }
    }
    left
}

// Whether a named argument begins here.
pub(crate) fn is_named(tokens: &Tokens<'_>) -> bool
    ensures { result ≡ spec.is_named tokens.now }
{
    tokens.sees_two(Mark::Word("fatal_errors"), Mark::Sign(Sign::Arrow))
}

// fatal_errors =>
pub(crate) fn past_name(tokens: &mut Tokens<'_>) -> Result<(), Fail>
    ensures { Reads (and_then (expect w.FATAL_ERRORS tokens.old) (λ _ ts. expect w.ARROW ts))
        result tokens.new }
{
    tokens.expect(Mark::Word("fatal_errors"))?;
    tokens.expect(Mark::Sign(Sign::Arrow))
}

// Whether all columns of a name are asked for here.
pub(crate) fn is_all_of(tokens: &Tokens<'_>) -> bool
    ensures { result ≡ spec.is_all_of tokens.now }
{
    tokens.sees_three(Mark::Name, Mark::Sign(Sign::Dot), Mark::Sign(Sign::Star))
}
