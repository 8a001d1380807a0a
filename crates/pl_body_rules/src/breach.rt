//! What is found of a body that breaks a rule.

ghost use Rattle.std.specs.Prelude.{◌≡◌};
ghost use Rattle.pl_body_rules.specs.Rules as spec;

use pl_base::State;

/// A rule that is broken, and where.
#[derive(Clone, Copy)]
pub struct Breach {
    pub state: State,
    /// The line of the statement or the declaration that breaks it. That of a name behind END, and
    /// of a condition of a handler, is the line of the block's BEGIN, or the loop's.
    pub line: u32,
}

/// The breach of what stands on this line, where it breaks a rule.
pub(crate) fn at(line: u32, state: Option<State>) -> Option<Breach>
    ensures { result ≡ spec.at line state }
{
    match state {
        None => None,
        Some(state) => Some(Breach { state, line }),
    }
}
