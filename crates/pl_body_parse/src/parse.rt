//! Whole bodies.

ghost use Rattle.std.specs.Prelude.{◌≡◌, ◌<◌, ◌-◌, ◌^◌, length, IfOk};
ghost use Rattle.pl_bodies.specs.declared.statement.Body.{Body as Tree};
ghost use Rattle.pl_body_items.specs.Steps.{start};
ghost use Rattle.pl_grammar.specs.Parser.{Makes};
ghost use Rattle.pl_sql_parse.specs.Spells.{Placed};
ghost use Rattle.pl_body_parse.specs.Computed.{body_of_tokens, read_from};
ghost use Rattle.pl_body_parse.specs.Spells.{Answers, SpellsBody};

use crate::items::next;
use crate::lines::lines_of;
use crate::source::Source;
use pl_bodies::Body;
use pl_body_items::Making;
use pl_grammar::{Fail, ParseFail, deep};
use pl_lex::Token;
use std::alloc::Global;

// What the items of all tokens make.
fn made(alloc: Global, source: &Source<'_>) -> Result<Making, Fail>
    requires placed { Placed source.now.text.now source.now.tokens.now }
    requires short { length source.now.tokens.now < 2 ^ 32 - 1 }
    ensures { Makes (read_from source.now.text.now (length source.now.tokens.now) start 0
        source.now.tokens.now) result }
{
    let mut making = Making::new(alloc);
    let mut at = 0;
    let mut ordinal = 0;
    for _turn in 0..source.tokens.len() {
        if at == source.tokens.len() {
            return Ok(making);
        }
        let (item, taken) = source.item(alloc, at, ordinal, making.is_in_case())?;
        ordinal = next(&item, ordinal);
        making = making.taken(alloc, item)?;
        at += taken;
    }
    if at < source.tokens.len() {
        return Err(Fail::Syntax);
    }
    Ok(making)
}

// The body that the tokens spell, or Syntax.
#[tactic(auto, unfolding(crate::specs::Computed::body_of_tokens), using(crate::proofs::Places::placed_few))]
fn shallow_body(alloc: Global, tokens: &[Token], text: &str) -> Result<Body, Fail>
    requires placed { Placed text.now tokens.now }
    requires short { length text.now < 2 ^ 32 - 1 }
    ensures { Makes (body_of_tokens text.now tokens.now) result }
{
    let lines = lines_of(alloc, tokens, text)?;
    let source = Source {
        text,
        tokens,
        lines: lines.as_slice(),
    };
    match made(alloc, &source)?.body() {
        Some(body) => Ok(body),
        None => Err(Fail::Syntax),
    }
}

/// The body that the tokens spell. They stand in the text, in order. A line of it is one more than
/// the newlines of the text before it.
///
/// TooDeep comes at the first token at which more than 100 parts are open, then Syntax where the
/// tokens spell no body. Memory may come whatever they spell, and NotSupported never comes.
pub fn parse_body(alloc: Global, tokens: &[Token], text: &str) -> Result<Body, ParseFail>
    requires placed { Placed text.now tokens.now }
    requires short { length text.now < 2 ^ 32 - 1 }
    // What is read is spelled so.
    ensures found { IfOk result (λ body. SpellsBody text.now body tokens.now) }
    // No other tree spells the tokens.
    ensures only { IfOk result (λ body.
        (other : Tree) → SpellsBody text.now other tokens.now → other ≡ body) }
    // Which refusal it is.
    ensures exact { Answers text.now result tokens.now }
{
    match deep(alloc, tokens) {
        Ok(None) => {}
        Ok(Some(at)) => return Err(ParseFail::TooDeep { at }),
        Err(_) => return Err(ParseFail::Memory),
    }
    match shallow_body(alloc, tokens, text) {
        Ok(body) => Ok(body),
        Err(Fail::Syntax) => Err(ParseFail::Syntax),
        Err(Fail::Memory) => Err(ParseFail::Memory),
    }
}
