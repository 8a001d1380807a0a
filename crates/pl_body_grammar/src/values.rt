//! What is given values, and what gives them.

ghost use Rattle.std.specs.Prelude.{[], ◌≡◌, length};
ghost use Rattle.pl_expr_parse.specs.Finished.{reads_front};
ghost use Rattle.pl_expr_parse.specs.Grammar as x;
ghost use Rattle.pl_grammar.specs.Forms.{alone, by, optional};
ghost use Rattle.pl_grammar.specs.Marks.{meant};
ghost use Rattle.pl_grammar.specs.Parser.{Reads, links_from};
ghost use Rattle.pl_grammar.specs.Rule.{◌until◌};
ghost use Rattle.pl_grammar.specs.Words as w;
ghost use Rattle.pl_body_grammar.specs.Grammar as spec;
ghost use Rattle.pl_body_grammar.specs.FirstFollow.{reads, reads_part};
ghost use Rattle.pl_body_grammar.specs.Trees as trees;

use crate::steps::{either, until};
use pl_base::{Boxed, List, Name};
use pl_bodies::{Dynamic, IntoClause, Target};
use pl_expr_parse::read_expression;
use pl_grammar::{Fail, Mark, Tokens, links, list};
use pl_lex::{Keyword, Sign};
use pl_tree::Expr;
use std::alloc::Global;

/// `:=` or `=`
pub fn becomes(tokens: &mut Tokens<'_>) -> Result<(), Fail>
    ensures { Reads (reads_part spec.Becomes tokens.old) result tokens.new }
{
    either(tokens, Mark::Sign(Sign::Assign), Mark::Sign(Sign::Equal))
}

// A name, and the one behind a point: then the first is the qualifier.
fn target_of(first: Name, second: Option<Name>) -> Target
    ensures { result ≡ trees.target_of first second }
{
    match second {
        None => Target {
            qualifier: None,
            name: first,
        },
        Some(name) => Target {
            qualifier: Some(first),
            name,
        },
    }
}

/// name [. name]
pub fn target(tokens: &mut Tokens<'_>) -> Result<Target, Fail>
    ensures { Reads (reads_part spec.Target tokens.old) result tokens.new }
{
    let name = match tokens.name() {
        Ok(name) => name,
        Err(fail) => return Err(fail),
    };
    if tokens.eat(Mark::Sign(Sign::Dot)) {
        return match tokens.name() {
            Ok(second) => Ok(target_of(name, Some(second))),
            Err(fail) => Err(fail),
        };
    }
    Ok(target_of(name, None))
}

/// target {, target}
pub fn targets(alloc: Global, tokens: &mut Tokens<'_>) -> Result<List<Target>, Fail>
    ensures { Reads (reads_part spec.Targets tokens.old) result tokens.new }
{
    list(
        alloc,
        tokens,
        Mark::Sign(Sign::Comma),
        |tokens| target(tokens),
    )
}

/// [STRICT] targets, behind INTO.
pub fn into(alloc: Global, tokens: &mut Tokens<'_>) -> Result<IntoClause, Fail>
    ensures { Reads (reads_part spec.Into tokens.old) result tokens.new }
{
    let is_strict = tokens.eat(Mark::Keyword(Keyword::Strict));
    match targets(alloc, tokens) {
        Ok(targets) => Ok(IntoClause { is_strict, targets }),
        Err(fail) => Err(fail),
    }
}

/// [INTO into]
pub fn optional_into(alloc: Global, tokens: &mut Tokens<'_>) -> Result<Option<IntoClause>, Fail>
    ensures { Reads (reads spec.optional_into tokens.old) result tokens.new }
{
    if tokens.eat(Mark::Keyword(Keyword::Into)) {
        return match into(alloc, tokens) {
            Ok(into) => Ok(Some(into)),
            Err(fail) => Err(fail),
        };
    }
    Ok(None)
}

/// e {, e}
pub fn expressions(alloc: Global, tokens: &mut Tokens<'_>) -> Result<List<Expr>, Fail>
    ensures { Reads (reads_part spec.Expressions tokens.old) result tokens.new }
{
    list(
        alloc,
        tokens,
        Mark::Sign(Sign::Comma),
        |tokens| read_expression(alloc, tokens),
    )
}

/// {, e}
pub fn more_expressions(alloc: Global, tokens: &mut Tokens<'_>) -> Result<List<Expr>, Fail>
    ensures { Reads (links_from (by w.COMMA) (reads_front x.Expression) alone
        (length tokens.old) [] tokens.old) result tokens.new }
{
    links(
        alloc,
        tokens,
        Mark::Sign(Sign::Comma),
        |tokens| read_expression(alloc, tokens),
    )
}

/// [USING e {, e}]
pub fn using(alloc: Global, tokens: &mut Tokens<'_>) -> Result<List<Expr>, Fail>
    ensures { Reads (reads_part spec.Using tokens.old) result tokens.new }
{
    if tokens.eat(Mark::Keyword(Keyword::Using)) {
        return expressions(alloc, tokens);
    }
    Ok(List::new(alloc))
}

/// e [USING e {, e}]
pub fn dynamic(alloc: Global, tokens: &mut Tokens<'_>) -> Result<Dynamic, Fail>
    ensures { Reads (reads_part spec.Dynamic tokens.old) result tokens.new }
{
    match read_expression(alloc, tokens) {
        Ok(text) => match using(alloc, tokens) {
            Ok(arguments) => Ok(Dynamic { text, arguments }),
            Err(fail) => {
                drop(text);
                Err(fail)
            }
        },
        Err(fail) => Err(fail),
    }
}

/// [name]
pub fn optional_name(tokens: &mut Tokens<'_>) -> Result<Option<Name>, Fail>
    ensures { Reads (reads_part spec.OptionalName tokens.old) result tokens.new }
{
    if tokens.sees(Mark::Name) {
        return match tokens.name() {
            Ok(name) => Ok(Some(name)),
            Err(fail) => Err(fail),
        };
    }
    Ok(None)
}

/// e
pub fn boxed_expression(alloc: Global, tokens: &mut Tokens<'_>) -> Result<Boxed<Expr>, Fail>
    ensures { Reads (reads_front x.Expression tokens.old) result tokens.new }
{
    match read_expression(alloc, tokens) {
        Ok(value) => Ok(Boxed::new(alloc, value)?),
        Err(fail) => Err(fail),
    }
}

/// [mark e]
pub fn optional_expression(
    alloc: Global,
    tokens: &mut Tokens<'_>,
    mark: Mark,
) -> Result<Option<Boxed<Expr>>, Fail>
    ensures { Reads (reads (optional (meant mark) spec.expression) tokens.old)
        result tokens.new }
{
    if tokens.eat(mark) {
        return match boxed_expression(alloc, tokens) {
            Ok(value) => Ok(Some(value)),
            Err(fail) => Err(fail),
        };
    }
    Ok(None)
}

/// e and the mark behind it.
pub fn expression_until(alloc: Global, tokens: &mut Tokens<'_>, mark: Mark) -> Result<Expr, Fail>
    ensures { Reads (reads (spec.expression until meant mark) tokens.old) result tokens.new }
{
    let value = read_expression(alloc, tokens);
    until(value, tokens, mark)
}
