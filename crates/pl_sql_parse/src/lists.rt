//! Pieces of commands in a row, and whole lists of tokens. How a piece is read stands at its type,
//! so that no function value is passed: each would be proved four times.

ghost use Rattle.std.specs.Prelude.{[], length, map};
ghost use Rattle.pl_grammar.specs.Forms.{alone, by};
ghost use Rattle.pl_grammar.specs.Marks.{kinds, meant};
ghost use Rattle.pl_grammar.specs.Parser.{Parser, Reads, ReadsAll, links_from, listed, many_from};
ghost use Rattle.pl_grammar.specs.Words as w;

use pl_base::List;
use pl_grammar::{Fail, Mark, Tokens};
use pl_lex::{Sign, Token};
use std::alloc::Global;

/// What is read at the front of tokens.
pub(crate) trait Piece: Drop + Sized {
    // How it is read.
    ghost reader: { Parser Self };

    fn read(alloc: Global, tokens: &mut Tokens<'_>) -> Result<Self, Fail>
        ensures { Reads (reader tokens.old) result tokens.new };
}

/// The pieces that were found, and those behind each comma.
pub(crate) fn more_pieces<T: Piece>(
    alloc: Global,
    mut found: List<T>,
    tokens: &mut Tokens<'_>,
) -> Result<List<T>, Fail>
    ensures { Reads (links_from (by w.COMMA) T.reader alone (length tokens.old) found tokens.old)
        result tokens.new }
{
    for _turn in 0..tokens.left() {
        if !tokens.eat(Mark::Sign(Sign::Comma)) {
            return Ok(found);
        }
        found.push(T::read(alloc, tokens)?)?;
    }
    Ok(found)
}

/// piece {, piece}
pub(crate) fn pieces<T: Piece>(alloc: Global, tokens: &mut Tokens<'_>) -> Result<List<T>, Fail>
    ensures { Reads (listed w.COMMA T.reader tokens.old) result tokens.new }
{
    let mut found = List::new(alloc);
    found.push(T::read(alloc, tokens)?)?;
    more_pieces(alloc, found, tokens)
}

/// {piece}: any number of them, which begin with one of these marks.
pub(crate) fn all_pieces<T: Piece>(
    alloc: Global,
    tokens: &mut Tokens<'_>,
    marks: &[Mark],
) -> Result<List<T>, Fail>
    ensures { Reads (many_from (map meant marks.now) T.reader (length tokens.old) [] tokens.old)
        result tokens.new }
{
    let mut found = List::new(alloc);
    for _turn in 0..tokens.left() {
        if !tokens.begins(marks) {
            return Ok(found);
        }
        found.push(T::read(alloc, tokens)?)?;
    }
    Ok(found)
}

/// The piece that all the tokens are.
pub(crate) fn whole_piece<T: Piece>(alloc: Global, tokens: &[Token]) -> Result<T, Fail>
    ensures { ReadsAll (T.reader (kinds tokens.now)) result }
{
    let mut rest = Tokens::new(tokens);
    let tree = T::read(alloc, &mut rest)?;
    if rest.left() != 0 {
        return Err(Fail::Syntax);
    }
    Ok(tree)
}
