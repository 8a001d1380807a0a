//! Why tokens are not read.

use std::alloc::AllocError;

/// Why a part of a grammar is not read.
#[derive(Debug, Drop, Clone, Copy)]
pub enum Fail {
    /// The tokens are no such part.
    Syntax,
    /// There was no memory.
    Memory,
}

impl From<AllocError> for Fail {
    ghost use Rattle.std.specs.Prelude.{◌≡◌};
    ghost use Rattle.pl_grammar.specs.declared.fail.Fail.TheVariants.{Memory};

    ghost from_gives = { λ _ e. e ≡ Memory };

    fn from(_error: AllocError) -> Fail {
        Fail::Memory
    }
}

/// Why the tokens of a command are not read.
#[derive(Debug, Drop, Clone, Copy)]
pub enum ParseFail {
    /// No tree is spelled by the tokens.
    Syntax,
    /// More than 100 parts are open at a token.
    TooDeep {
        /// The first such token, counted from 0.
        at: usize,
    },
    /// The tokens begin a command that is left out.
    NotSupported,
    /// There was no memory.
    Memory,
}
