//! Pieces at a place among the tokens of a body.

ghost use Rattle.std.specs.Prelude.{◌≡◌, ◌<◌, ◌≤◌, ◌+◌, drop, length, map, IfOk};
ghost use Rattle.pl_grammar.specs.Parser.{Makes, Reads};
ghost use Rattle.pl_lex.specs.declared.token.Token.{Token as OneToken};
ghost use Rattle.pl_body_parse.specs.Computed as computed;
ghost use Rattle.pl_body_parse.specs.Spells as spec;

use pl_base::Held;
use pl_body_items::Spot;
use pl_body_pieces::{Piece, block_piece, case_piece, declaration_piece};
use pl_grammar::{Fail, Tokens};
use pl_lex::Token;
use std::alloc::Global;

/// A body's text and tokens. The reader goes over these by their numbers, from 0.
#[derive(Drop)]
pub(crate) struct Source<'a> {
    pub(crate) text: &'a str,
    pub(crate) tokens: &'a [Token],
    /// For each token the line on which it begins, from 1.
    pub(crate) lines: &'a [u32],
    ghost lined: { lines.now ≡ map (λ (t : OneToken). spec.line_at text.now t.start) tokens.now },
}

// A piece where an arm of CASE may come, or where a handler may.
#[tactic(auto, unfolding(crate::specs::Computed::reads_piece))]
fn read_piece(alloc: Global, tokens: &mut Tokens<'_>, in_case: bool) -> Result<Piece, Fail>
    ensures { Reads (computed.reads_piece in_case tokens.old) result tokens.new }
{
    if in_case {
        return case_piece(alloc, tokens);
    }
    block_piece(alloc, tokens)
}

impl Source<'_> {
    /// The spot of the statement of this number that begins at a token.
    pub(crate) fn spot(&self, at: usize, ordinal: u32) -> Spot
        requires { at < length self.now.tokens.now }
        ensures { result ≡ spec.spot_of self.now.text.now ordinal (drop at self.now.tokens.now) }
    {
        Spot {
            line: self.lines[at],
            ordinal,
        }
    }

    /// The piece that begins at a token, and how many tokens it takes.
    pub(crate) fn piece(
        &self,
        alloc: Global,
        at: usize,
        in_case: bool,
    ) -> Result<(Held<Piece>, usize), Fail>
        requires { at ≤ length self.now.tokens.now }
        ensures is { Makes (computed.piece_at in_case (drop at self.now.tokens.now)) result }
        ensures some { IfOk result (λ p. 0 < p.1) }
        ensures within { IfOk result (λ p. at + p.1 ≤ length self.now.tokens.now) }
    {
        let mut rest = Tokens::new(&self.tokens[at..]);
        let all = rest.left();
        let piece = read_piece(alloc, &mut rest, in_case)?;
        Ok((Held::new(piece), all - rest.left()))
    }

    /// The declaration or BEGIN that begins at a token, and how many tokens it takes.
    pub(crate) fn declaration(&self, alloc: Global, at: usize) -> Result<(Held<Piece>, usize), Fail>
        requires { at ≤ length self.now.tokens.now }
        ensures is { Makes (computed.declared_at (drop at self.now.tokens.now)) result }
        ensures some { IfOk result (λ p. 0 < p.1) }
        ensures within { IfOk result (λ p. at + p.1 ≤ length self.now.tokens.now) }
    {
        let mut rest = Tokens::new(&self.tokens[at..]);
        let all = rest.left();
        let piece = declaration_piece(alloc, &mut rest)?;
        Ok((Held::new(piece), all - rest.left()))
    }
}
