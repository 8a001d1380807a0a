//! A script, piece by piece.

ghost use Rattle.std.specs.Prelude.{◌<◌, ◌≤◌, List, length, IfOk, IfSome};
ghost use Rattle.pl_reading.specs.Computed.{MeansAlike};
ghost use Rattle.pl_reading.specs.declared.reading.Reading.{Reading as OneReading};
ghost use Rattle.pl_session.specs.Scripts.{Left, IsNextReading};

use pl_base::Memory;
use pl_lex::cut;
use pl_reading::{Reading, read_piece};
use std::alloc::Global;

/// A piece of a script.
#[derive(Drop)]
pub struct Next {
    pub reading: Reading,
    /// Where the piece behind it is looked for: a byte of the script, counted from 0.
    pub after: usize,
}

/// The piece that stands from the byte `at` on, if more than blanks and comments is left.
pub fn read_next(alloc: Global, script: &str, at: usize) -> Result<Option<Next>, Memory>
    requires { at ≤ length script.now }
    ensures next { IfOk result (λ next. (readings : List OneReading) → Left script.now at readings
        → IsNextReading script.now readings next) }
    ensures on { IfOk result (λ next. IfSome next (λ n. (at < n.after)
        × (n.after ≤ length script.now))) }
    // A definition means by its own text what it means here.
    ensures alike { IfOk result (λ next. IfSome next (λ n. MeansAlike n.reading)) }
{
    let Some(piece) = cut(alloc, script, at)? else {
        return Ok(None);
    };
    let end = piece.end + 1;
    let after = end.min(script.len());
    let reading = read_piece(alloc, piece, script)?;
    Ok(Some(Next { reading, after }))
}
