//! The lines on which tokens begin.

ghost use Rattle.std.specs.Prelude.{◌≡◌, ◌<◌, ◌≤◌, ◌==◌, ◌-◌, ◌^◌, count_by, length, map, IfOk};
ghost use Rattle.pl_lex.specs.declared.token.Token.{Token as OneToken};
ghost use Rattle.pl_sql_parse.specs.Spells.{Placed};
ghost use Rattle.pl_body_parse.specs.Spells as spec;

use pl_base::List;
use pl_lex::Token;
use std::alloc::{AllocError, Global};

fn newlines(text: &[u8]) -> usize
    ensures count { result ≡ count_by (λ byte. byte == 10) text.now }
    ensures bound { result ≤ length text.now }
{
    text.iter().filter(|byte| **byte == b'\n').count()
}

/// For each token the line on which it begins, from 1.
pub(crate) fn lines_of(alloc: Global, tokens: &[Token], text: &str) -> Result<List<u32>, AllocError>
    requires placed { Placed text.now tokens.now }
    requires short { length text.now < 2 ^ 32 - 1 }
    ensures { IfOk result (λ lines. lines
        ≡ map (λ (t : OneToken). spec.line_at text.now t.start) tokens.now) }
{
    let mut lines = List::new(alloc);
    let mut line: u32 = 1;
    let mut at = 0;
    for token in tokens {
        line += newlines(&text.as_bytes()[at..token.start]) as u32;
        at = token.start;
        lines.push(line)?;
    }
    Ok(lines)
}
