//! What is made of the result of the step before.

ghost use Rattle.std.specs.Prelude.{Some};
ghost use Rattle.pl_grammar.specs.Marks.{meant};
ghost use Rattle.pl_grammar.specs.Parser.{Outcome, Reads};
ghost use Rattle.pl_expr_parse.specs.Follows.{Follows, before};

use pl_base::Boxed;
use pl_grammar::{Fail, Mark, Tokens};
use std::alloc::Global;

/// The value, where the mark stands behind it.
pub(crate) fn until<T: Drop>(
    tokens: &mut Tokens<'_>,
    mark: Mark,
    value: Result<T, Fail>,
) -> Result<T, Fail>
    ensures { (o : Outcome T) → Reads o value tokens.old
        → Reads (before (meant mark) o) result tokens.new }
{
    let value = value?;
    tokens.expect(mark)?;
    Ok(value)
}

/// The value in a box, where there may be none.
pub(crate) fn some_boxed<T: Drop>(
    alloc: Global,
    value: Result<T, Fail>,
) -> Result<Option<Boxed<T>>, Fail>
    ensures { Follows value (λ x. Some (Some x)) result }
{
    Ok(Some(Boxed::new(alloc, value?)?))
}

/// The first value and the second.
pub(crate) fn paired<A: Drop, B: Drop>(first: A, second: Result<B, Fail>) -> Result<(A, B), Fail>
    ensures { Follows second (λ b. Some (first, b)) result }
{
    let second = second?;
    Ok((first, second))
}
