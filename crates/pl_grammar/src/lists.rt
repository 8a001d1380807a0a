//! What stands in a row, and whole lists of tokens.

ghost use Rattle.std.specs.Prelude.{[], ◌∷◌, ◌≡◌, length, map, IfOk};
ghost use Rattle.pl_grammar.specs.Forms.{alone, by};
ghost use Rattle.pl_grammar.specs.Marks.{kinds, meant};
ghost use Rattle.pl_grammar.specs.Parser.{Parser, Reads, ReadBy, ReadsAll, Callable, listed, links_from, many_from};

use crate::{Fail, Mark, Tokens};
use pl_base::List;
use pl_lex::Token;
use std::alloc::{AllocError, Global};

/// The first item and those behind it.
pub fn joined<T: Drop>(alloc: Global, first: T, more: List<T>) -> Result<List<T>, AllocError>
    ensures { IfOk result (λ all. all ≡ first ∷ more) }
{
    let mut all = List::new(alloc);
    all.push(first)?;
    all.append(more)?;
    Ok(all)
}

// The items that were found, and those behind each of these marks.
fn links_behind<T: Drop, F: Fn(&mut Tokens<'_>) -> Result<T, Fail>>(
    mut found: List<T>,
    tokens: &mut Tokens<'_>,
    mark: Mark,
    item: F,
) -> Result<List<T>, Fail>
    requires callable { Callable (F.pre item) }
    ensures { (parser : Parser T) → ReadBy parser (F.post item)
        → Reads (links_from (by (meant mark)) parser alone (length tokens.old) found tokens.old) result tokens.new }
{
    for _turn in 0..tokens.left() {
        if !tokens.eat(mark) {
            return Ok(found);
        }
        found.push(item(tokens)?)?;
    }
    Ok(found)
}

/// `{mark item}`: what stands behind each of these marks.
pub fn links<T: Drop, F: Fn(&mut Tokens<'_>) -> Result<T, Fail>>(
    alloc: Global,
    tokens: &mut Tokens<'_>,
    mark: Mark,
    item: F,
) -> Result<List<T>, Fail>
    requires callable { Callable (F.pre item) }
    ensures { (parser : Parser T) → ReadBy parser (F.post item)
        → Reads (links_from (by (meant mark)) parser alone (length tokens.old) [] tokens.old) result tokens.new }
{
    links_behind(List::new(alloc), tokens, mark, item)
}

/// `item {mark item}`: at least one.
pub fn list<T: Drop, F: Fn(&mut Tokens<'_>) -> Result<T, Fail>>(
    alloc: Global,
    tokens: &mut Tokens<'_>,
    mark: Mark,
    item: F,
) -> Result<List<T>, Fail>
    requires callable { Callable (F.pre item) }
    ensures { (parser : Parser T) → ReadBy parser (F.post item)
        → Reads (listed (meant mark) parser tokens.old) result tokens.new }
{
    let mut found = List::new(alloc);
    found.push(item(tokens)?)?;
    links_behind(found, tokens, mark, item)
}

/// `{item}`: any number of items, which begin with one of these marks.
pub fn many<T: Drop, F: Fn(&mut Tokens<'_>) -> Result<T, Fail>>(
    alloc: Global,
    tokens: &mut Tokens<'_>,
    marks: &[Mark],
    item: F,
) -> Result<List<T>, Fail>
    requires callable { Callable (F.pre item) }
    ensures { (parser : Parser T) → ReadBy parser (F.post item)
        → Reads (many_from (map meant marks.now) parser (length tokens.old) [] tokens.old) result tokens.new }
{
    let mut found = List::new(alloc);
    for _turn in 0..tokens.left() {
        if !tokens.begins(marks) {
            return Ok(found);
        }
        found.push(item(tokens)?)?;
    }
    Ok(found)
}

/// What the function reads, which must be all the tokens.
pub fn whole<T: Drop, F: Fn(&mut Tokens<'_>) -> Result<T, Fail>>(
    tokens: &[Token],
    read: F,
) -> Result<T, Fail>
    requires callable { Callable (F.pre read) }
    ensures { (parser : Parser T) → ReadBy parser (F.post read)
        → ReadsAll (parser (kinds tokens.now)) result }
{
    let mut rest = Tokens::new(tokens);
    let tree = read(&mut rest)?;
    if rest.left() != 0 {
        return Err(Fail::Syntax);
    }
    Ok(tree)
}
