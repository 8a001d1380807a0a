//! Bodies, read from their text.

ghost use Rattle.std.specs.Prelude.{◌≡◌, ◌<◌, ◌-◌, ◌^◌, length, IfOk};
ghost use Rattle.pl_bodies.specs.declared.statement.Body.{Body as Tree};
ghost use Rattle.pl_body_parse.specs.Spells.{SpellsBody};
ghost use Rattle.pl_body_rules.specs.Heading.{routine};
ghost use Rattle.pl_sql_parse.specs.Spells.{Placed};
ghost use Rattle.pl_routine.specs.Keeping.{Keeps};
ghost use Rattle.pl_routine.specs.Reading as spec;

use pl_base::{Held, State};
use pl_bodies::Body;
use pl_body_parse::parse_body;
use pl_body_rules::{Breach, Heading, first_breach};
use pl_grammar::ParseFail;
use pl_lex::{Bad, LexFail, Token, lex};
use std::alloc::Global;

/// Why a text isn't read as the body of a routine.
#[derive(Clone, Copy)]
pub enum BodyFail {
    /// The first lexeme that is bad.
    Bad(Bad),
    /// More than 100 parts are open at a token.
    TooDeep {
        /// The first such token, counted from 0.
        at: usize,
    },
    /// No tree is spelled by the tokens.
    Syntax,
    /// The first rule that the tree breaks.
    Breach(Breach),
    /// There was no memory.
    Memory,
}

impl BodyFail {
    /// The SQLSTATE with which a routine of this body is refused. None where there was no memory.
    pub fn state(self) -> Option<State>
        ensures { result ≡ spec.state_of self }
    {
        match self {
            BodyFail::Bad(bad) => Some(bad.state),
            BodyFail::TooDeep { .. } => Some(State::STATEMENT_TOO_COMPLEX),
            BodyFail::Syntax => Some(State::SYNTAX_ERROR),
            BodyFail::Breach(breach) => Some(breach.state),
            BodyFail::Memory => None,
        }
    }
}

// The body, if it breaks no rule.
fn keeping(alloc: Global, body: Held<Body>, heading: &Heading<'_>) -> Result<Body, BodyFail>
    ensures { Keeps (routine heading.now) body result }
{
    match first_breach(alloc, heading, body.get()) {
        Ok(None) => Ok(body.into_inner()),
        Ok(Some(breach)) => Err(BodyFail::Breach(breach)),
        Err(_) => Err(BodyFail::Memory),
    }
}

// What the tokens of the text are read as.
#[tactic(auto, using(crate::proofs::Answered::kept, crate::proofs::Answered::kept_only))]
fn read_tokens(
    alloc: Global,
    tokens: &[Token],
    text: &str,
    heading: &Heading<'_>,
) -> Result<Body, BodyFail>
    requires placed { Placed text.now tokens.now }
    requires short { length text.now < 2 ^ 32 - 1 }
    ensures exact { spec.AnswersOf text.now tokens.now (routine heading.now) result }
    ensures only { IfOk result (λ body.
        (other : Tree) → SpellsBody text.now other tokens.now → other ≡ body) }
{
    match parse_body(alloc, tokens, text) {
        Ok(body) => keeping(alloc, Held::new(body), heading),
        Err(ParseFail::TooDeep { at }) => Err(BodyFail::TooDeep { at }),
        Err(ParseFail::Syntax | ParseFail::NotSupported) => Err(BodyFail::Syntax),
        Err(ParseFail::Memory) => Err(BodyFail::Memory),
    }
}

/// The text, read as the body of a routine of which this is declared.
///
/// `Bad` comes where a lexeme is bad, then `TooDeep` where more than 100 parts are open at a token,
/// then `Syntax` where the tokens spell no body, then `Breach` where the body breaks a rule that is
/// tested when its routine is created. `Memory` may come whatever the text is.
#[tactic(auto, using(crate::proofs::Answered::of_tokens))]
pub fn read_body(alloc: Global, text: &str, heading: &Heading<'_>) -> Result<Body, BodyFail>
    requires short { length text.now < 2 ^ 32 - 1 }
    ensures exact { spec.Answers text.now (routine heading.now) result }
    // No other tree is spelled by the text.
    ensures only { IfOk result (λ body.
        (other : Tree) → spec.IsTreeOf text.now other → other ≡ body) }
{
    match lex(alloc, text) {
        Ok(tokens) => read_tokens(alloc, tokens.as_slice(), text, heading),
        Err(LexFail::Bad { at, state }) => Err(BodyFail::Bad(Bad { at, state })),
        Err(LexFail::Memory) => Err(BodyFail::Memory),
    }
}
