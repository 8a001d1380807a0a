//! Names, types and words in which nothing else stands.

ghost use Rattle.std.specs.Prelude.{◌≡◌, ℕ, Some};
ghost use Rattle.pl_grammar.specs.Parser.{Reads};
ghost use Rattle.pl_expr_parse.specs.Grammar as spec;
ghost use Rattle.pl_expr_parse.specs.FirstFollow.{reads, reads_part};
ghost use Rattle.pl_expr_parse.specs.Smaller as piece;

use crate::trees::type_of;
use pl_base::{Name, Ty};
use pl_grammar::{Fail, Mark, Tokens};
use pl_lex::{Keyword, Sign};
use pl_tree::{Item, Nulls};

#[tactic(auto, using(crate::proofs::Step::gives))]
pub(crate) fn type_name(tokens: &mut Tokens<'_>) -> Result<Ty, Fail>
    ensures { (d : ℕ) → Reads (reads_part d spec.TypeName tokens.old) result tokens.new }
{
    let (in_quotes, name) = tokens.written_name()?;
    Ok(type_of(in_quotes, name))
}

// [AS label | name]
#[tactic(auto, using(crate::proofs::Step::gives))]
pub(crate) fn label(tokens: &mut Tokens<'_>) -> Result<Option<Name>, Fail>
    ensures { (d : ℕ) → Reads (reads_part d spec.Label tokens.old) result tokens.new }
{
    if tokens.eat(Mark::Keyword(Keyword::As)) {
        return Ok(Some(tokens.label()?));
    }
    if tokens.sees(Mark::Name) {
        return Ok(Some(tokens.bare_alias()?));
    }
    Ok(None)
}

// [[AS] name]
#[tactic(auto, using(crate::proofs::Step::gives))]
pub(crate) fn alias(tokens: &mut Tokens<'_>) -> Result<Option<Name>, Fail>
    ensures { (d : ℕ) → Reads (reads_part d spec.Alias tokens.old) result tokens.new }
{
    if tokens.eat(Mark::Keyword(Keyword::As)) {
        return Ok(Some(tokens.name()?));
    }
    if tokens.sees(Mark::Name) {
        return Ok(Some(tokens.bare_alias()?));
    }
    Ok(None)
}

// name.*
pub(crate) fn all_of(tokens: &mut Tokens<'_>) -> Result<Item, Fail>
    ensures { (d : ℕ) → Reads (reads d piece.all_of tokens.old) result tokens.new }
{
    let name = tokens.name()?;
    tokens.expect(Mark::Sign(Sign::Dot))?;
    tokens.expect(Mark::Sign(Sign::Star))?;
    Ok(Item::AllOf(name))
}

// [ASC | DESC]
#[tactic(auto, using(crate::proofs::Step::gives))]
pub(crate) fn direction(tokens: &mut Tokens<'_>) -> bool
    ensures { (d : ℕ) → reads_part d spec.Direction tokens.old ≡ Some (result, tokens.new) }
{
    if tokens.eat(Mark::Keyword(Keyword::Desc)) {
        return true;
    }
    tokens.eat(Mark::Keyword(Keyword::Asc));
    false
}

// [NULLS FIRST | NULLS LAST]
#[tactic(auto, using(crate::proofs::Step::gives))]
pub(crate) fn nulls(tokens: &mut Tokens<'_>) -> Result<Option<Nulls>, Fail>
    ensures { (d : ℕ) → Reads (reads_part d spec.Nulls tokens.old) result tokens.new }
{
    if !tokens.eat(Mark::Word("nulls")) {
        return Ok(None);
    }
    if tokens.eat(Mark::Word("first")) {
        return Ok(Some(Nulls::First));
    }
    tokens.expect(Mark::Word("last"))?;
    Ok(Some(Nulls::Last))
}
