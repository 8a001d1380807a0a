//! How deep parts nest, counted on tokens alone.

ghost use Rattle.std.specs.Prelude.{◌≡◌, length, OnOk, IfOk, IfSome, IfNone};
ghost use Rattle.pl_grammar.specs.Marks.{kinds};
ghost use Rattle.pl_grammar.specs.Deep as spec;
ghost use Rattle.pl_grammar.specs.Deep.{Deep, IsShallow};

use pl_base::{List, Memory};
use pl_lex::{Keyword, Sign, Token, TokenKind};
use std::alloc::Global;
use std::marker::Model;

/// How many parts may be open.
pub const MAX_PARTS: usize = 100;

/// What opened a part.
#[derive(Clone, Copy)]
enum Opened {
    Case,
    Loop,
    /// A bracket, BEGIN or IF.
    Other,
}

/// What stands directly before a token.
#[derive(Clone, Copy)]
enum Before {
    /// Nothing that matters.
    Nothing,
    /// AS, behind which a word is a name.
    As,
    /// `;`, THEN, ELSE, BEGIN or LOOP, behind which a statement may begin.
    Statement,
    /// An END that closed a CASE.
    EndOfCase,
    /// An END that closed a LOOP.
    EndOfLoop,
}

fn case_opens(before: Before) -> Option<Opened>
    ensures { result ≡ spec.case_opens before }
{
    match before {
        Before::As | Before::EndOfCase => None,
        _ => Some(Opened::Case),
    }
}

fn loop_opens(before: Before) -> Option<Opened>
    ensures { result ≡ spec.loop_opens before }
{
    match before {
        Before::As | Before::EndOfLoop => None,
        _ => Some(Opened::Loop),
    }
}

fn begin_opens(before: Before) -> Option<Opened>
    ensures { result ≡ spec.begin_opens before }
{
    match before {
        Before::As => None,
        _ => Some(Opened::Other),
    }
}

fn if_opens(before: Before) -> Option<Opened>
    ensures { result ≡ spec.if_opens before }
{
    match before {
        Before::Statement => Some(Opened::Other),
        _ => None,
    }
}

fn word_opens(before: Before, word: Keyword) -> Option<Opened>
    ensures { result ≡ spec.word_opens before word }
{
    match word {
        Keyword::Case => case_opens(before),
        Keyword::Loop => loop_opens(before),
        Keyword::Begin => begin_opens(before),
        Keyword::If => if_opens(before),
        _ => None,
    }
}

fn opens(before: Before, kind: &TokenKind) -> Option<Opened>
    ensures { result ≡ spec.opens before kind.now }
{
    match kind {
        TokenKind::Sign(Sign::Open) => Some(Opened::Other),
        TokenKind::Keyword(word) => word_opens(before, *word),
        _ => None,
    }
}

fn closes(before: Before, kind: &TokenKind) -> bool
    ensures { result ≡ spec.closes before kind.now }
{
    match kind {
        TokenKind::Sign(Sign::Close) => true,
        TokenKind::Keyword(Keyword::End) => !matches!(before, Before::As),
        _ => false,
    }
}

/// The parts that are open, and what stands before the next token.
#[derive(Drop)]
struct Parts {
    /// The newest last.
    stack: List<Opened>,
    before: Before,
}

impl Model for Parts {
    ghost use Rattle.std.specs.Prelude.{reverse};
    ghost use Rattle.pl_grammar.specs.Deep.{State};

    ghost Value = { State };

    ghost view = { λ p. record { parts = reverse p.stack; before = p.before } };
}

impl Parts {
    fn new(alloc: Global) -> Parts
        ensures { result ≡ spec.start }
    {
        Parts {
            stack: List::new(alloc),
            before: Before::Nothing,
        }
    }

    fn count(&self) -> usize
        ensures { result ≡ length self.now.parts }
    {
        self.stack.len()
    }

    fn after_end(&self) -> Before
        ensures { result ≡ spec.after_end self.now.before self.now.parts }
    {
        if matches!(self.before, Before::As) {
            return Before::Nothing;
        }
        match self.stack.as_slice().last() {
            Some(Opened::Case) => Before::EndOfCase,
            Some(Opened::Loop) => Before::EndOfLoop,
            _ => Before::Nothing,
        }
    }

    fn after_keyword(&self, word: Keyword) -> Before
        ensures { result ≡ spec.after_keyword self.now.before word self.now.parts }
    {
        match word {
            Keyword::As => Before::As,
            Keyword::Then | Keyword::Else | Keyword::Begin | Keyword::Loop => Before::Statement,
            Keyword::End => self.after_end(),
            _ => Before::Nothing,
        }
    }

    fn before_next(&self, kind: &TokenKind) -> Before
        ensures { result ≡ spec.before_next self.now kind.now }
    {
        match kind {
            TokenKind::Sign(Sign::Semicolon) => Before::Statement,
            TokenKind::Keyword(word) => self.after_keyword(*word),
            _ => Before::Nothing,
        }
    }

    fn turn(&mut self, new: Option<Opened>, closing: bool) -> Result<(), Memory>
        ensures parts { OnOk result (self.new.parts ≡ spec.parts_after new closing self.old.parts) }
        ensures before { OnOk result (self.new.before ≡ self.old.before) }
    {
        match new {
            Some(part) => self.stack.push(part)?,
            None => {
                if closing {
                    self.stack.pop();
                }
            }
        }
        Ok(())
    }

    #[tactic(auto, unfolding(crate::specs::Deep::step))]
    fn step(&mut self, kind: &TokenKind) -> Result<(), Memory>
        ensures { OnOk result (self.new ≡ spec.step self.old kind.now) }
    {
        let next = self.before_next(kind);
        let new = opens(self.before, kind);
        let closing = closes(self.before, kind);
        self.turn(new, closing)?;
        self.before = next;
        Ok(())
    }
}

/// The first token, counted from 0, at which more than 100 parts are open.
pub fn deep(alloc: Global, tokens: &[Token]) -> Result<Option<usize>, Memory>
    ensures some { IfOk result (λ found. IfSome found (λ at. Deep (kinds tokens.now) at)) }
    ensures none { IfOk result (λ found. IfNone found (IsShallow (kinds tokens.now))) }
{
    let mut parts = Parts::new(alloc);
    for (at, token) in tokens.iter().enumerate() {
        parts.step(&token.kind)?;
        if parts.count() > MAX_PARTS {
            return Ok(Some(at));
        }
    }
    Ok(None)
}
