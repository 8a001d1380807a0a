//! Two tokens ahead.

ghost use Rattle.std.specs.Prelude.{◌≡◌, map};
ghost use Rattle.pl_grammar.specs.Marks.{meant};
ghost use Rattle.pl_body_grammar.specs.Ahead as spec;

use pl_grammar::{Mark, Tokens};

// Whether the first mark comes next, and one of the others behind it.
fn sees_with(tokens: &Tokens<'_>, first: Mark, second: &[Mark]) -> bool
    ensures { result ≡ spec.sees_with (meant first) (map meant second.now) tokens.now }
{
    for mark in second {
        if tokens.sees_two(first, *mark) {
            return true;
        }
    }
    false
}

fn sees_any(tokens: &Tokens<'_>, first: &[Mark], second: &[Mark]) -> bool
    ensures { result ≡ spec.sees_any (map meant first.now) (map meant second.now) tokens.now }
{
    for mark in first {
        if sees_with(tokens, *mark, second) {
            return true;
        }
    }
    false
}

/// Whether one of the first marks comes next, and one of the second behind it.
pub fn sees_pair(tokens: &Tokens<'_>, first: &[Mark], second: &[Mark]) -> bool
    ensures { result ≡ spec.sees_pair (map meant first.now) (map meant second.now) tokens.now }
{
    sees_any(tokens, first, second)
}
