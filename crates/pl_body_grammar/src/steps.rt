//! Steps that rules share. What was read is passed on as it is, so a rule has no exit of its own
//! where a mark isn't there.

ghost use Rattle.std.specs.Prelude.{Some};
ghost use Rattle.pl_grammar.specs.Marks.{meant};
ghost use Rattle.pl_grammar.specs.Parser.{Outcome, Reads, and_then, expect};
ghost use Rattle.pl_grammar.specs.Rule.{fork, nothing, ◌before◌};
ghost use Rattle.pl_body_grammar.specs.FirstFollow.{reads};

use pl_base::Boxed;
use pl_grammar::{Fail, Mark, Tokens};
use std::alloc::Global;

/// What was read, and this mark behind it.
pub fn until<T: Drop>(read: Result<T, Fail>, tokens: &mut Tokens<'_>, mark: Mark) -> Result<T, Fail>
    ensures { (o : Outcome T) → Reads o read tokens.old
        → Reads (and_then o (λ a ts. and_then (expect (meant mark) ts) (λ _ ts. Some (a, ts))))
        result tokens.new }
{
    match read {
        Ok(value) => match tokens.expect(mark) {
            Ok(()) => Ok(value),
            Err(fail) => Err(fail),
        },
        Err(fail) => Err(fail),
    }
}

/// One of two marks.
pub fn either(tokens: &mut Tokens<'_>, first: Mark, second: Mark) -> Result<(), Fail>
    ensures { Reads (reads (fork (meant first) (nothing tt) (meant second before nothing tt))
        tokens.old) result tokens.new }
{
    if tokens.eat(first) {
        return Ok(());
    }
    tokens.expect(second)
}
