//! A cursor over tokens.

ghost use Rattle.std.specs.Prelude.{◌≡◌, suc, [], ◌∷◌, length, drop, map, option_copied};
ghost use Rattle.pl_lex.specs.Keywords as keywords;
ghost use Rattle.pl_grammar.specs.Marks as spec;
ghost use Rattle.pl_grammar.specs.Parser as parser;
ghost use Rattle.pl_grammar.specs.Parser.{Reads};

use crate::{Fail, Mark};
use pl_base::{Name, Txt};
use pl_lex::{Keyword, Sign, Token, TokenKind, keyword_text};
use std::alloc::Global;
use std::marker::Model;

fn same_keyword(a: Keyword, b: Keyword) -> bool
    ensures { result ≡ spec.same_keyword a b }
{
    a == b
}

fn same_sign(a: Sign, b: Sign) -> bool
    ensures { result ≡ spec.same_sign a b }
{
    a == b
}

fn same_text(a: &[u8], b: &[u8]) -> bool
    ensures { result ≡ spec.same_text a.now b.now }
{
    a == b
}

fn is_keyword(kind: &TokenKind, word: Keyword) -> bool
    ensures { result ≡ spec.marked (spec.keyword word) kind.now }
{
    match kind {
        TokenKind::Keyword(found) => same_keyword(*found, word),
        _ => false,
    }
}

fn is_sign(kind: &TokenKind, sign: Sign) -> bool
    ensures { result ≡ spec.marked (spec.sign sign) kind.now }
{
    match kind {
        TokenKind::Sign(found) => same_sign(*found, sign),
        _ => false,
    }
}

fn is_word(kind: &TokenKind, word: &str) -> bool
    ensures { result ≡ spec.marked (spec.word word.now) kind.now }
{
    match kind {
        TokenKind::Word(name) => same_text(name.as_bytes(), word.as_bytes()),
        _ => false,
    }
}

fn is_name(kind: &TokenKind) -> bool
    ensures { result ≡ spec.marked spec.name kind.now }
{
    matches!(kind, TokenKind::Word(_) | TokenKind::Quoted(_))
}

fn is_number(kind: &TokenKind) -> bool
    ensures { result ≡ spec.marked spec.number kind.now }
{
    matches!(kind, TokenKind::Number(_))
}

fn is_text(kind: &TokenKind) -> bool
    ensures { result ≡ spec.marked spec.text kind.now }
{
    matches!(
        kind,
        TokenKind::Text(_) | TokenKind::EscapeText(_) | TokenKind::DollarText(_)
    )
}

fn is_parameter(kind: &TokenKind) -> bool
    ensures { result ≡ spec.marked spec.parameter kind.now }
{
    matches!(kind, TokenKind::Parameter(_))
}

fn is_label(kind: &TokenKind) -> bool
    ensures { result ≡ spec.marked spec.label kind.now }
{
    matches!(
        kind,
        TokenKind::Word(_) | TokenKind::Quoted(_) | TokenKind::Keyword(_)
    )
}

fn is_marked(kind: &TokenKind, mark: Mark) -> bool
    ensures { result ≡ spec.marked (spec.meant mark) kind.now }
{
    match mark {
        Mark::Keyword(word) => is_keyword(kind, word),
        Mark::Sign(sign) => is_sign(kind, sign),
        Mark::Word(word) => is_word(kind, word),
        Mark::Name => is_name(kind),
        Mark::Number => is_number(kind),
        Mark::Text => is_text(kind),
        Mark::Parameter => is_parameter(kind),
        Mark::Label => is_label(kind),
    }
}

fn is_among(kind: &TokenKind, marks: &[Mark]) -> bool
    ensures { result ≡ spec.among (map spec.meant marks.now) kind.now }
{
    for mark in marks {
        if is_marked(kind, *mark) {
            return true;
        }
    }
    false
}

fn is(name: Name, word: &str) -> bool
    ensures { result ≡ spec.same_text name word.now }
{
    same_text(name.as_bytes(), word.as_bytes())
}

// Whether a table may have this name without quotes.
fn names_table(name: Name) -> bool
    ensures { result ≡ spec.names_table name }
{
    !is(name, "only")
}

// Whether this word without quotes may be an alias or a label without AS.
fn is_bare_alias(name: Name) -> bool
    ensures { result ≡ spec.is_bare_alias name }
{
    !(is(name, "right")
        || is(name, "full")
        || is(name, "natural")
        || is(name, "isnull")
        || is(name, "notnull"))
}

// The reserved word as a name.
fn keyword_name(word: Keyword) -> Name
    ensures { result ≡ keywords.keyword_text word }
{
    Name::of(keyword_text(word)).unwrap()
}

/// The tokens that are left. Contracts see their kinds.
#[derive(Drop)]
pub struct Tokens<'a> {
    rest: &'a [Token],
}

impl<'a> Model for Tokens<'a> {
    ghost use Rattle.pl_grammar.specs.Marks.{Tokens as Kinds, kinds};

    ghost Value = { Kinds };

    ghost view = { λ t. kinds t.rest.now };
}

impl<'a> Tokens<'a> {
    pub fn new(rest: &'a [Token]) -> Tokens<'a>
        ensures { result ≡ spec.kinds rest.now }
    {
        Tokens { rest }
    }

    /// How many are left.
    pub fn left(&self) -> usize
        ensures { result ≡ length self.now }
    {
        self.rest.len()
    }

    /// One more than how many are left: parts of them stand inside one another less deep.
    pub fn depth_bound(&self) -> usize
        ensures { result ≡ suc (length self.now) }
    {
        self.rest.len() + 1
    }

    fn peek(&self) -> Option<&'a TokenKind>
        ensures { option_copied result ≡ parser.head self.now }
    {
        match self.rest.first() {
            Some(token) => Some(&token.kind),
            None => None,
        }
    }

    /// Past the next token, if there is one.
    pub fn skip(&mut self)
        ensures { self.new ≡ drop 1 self.old }
    {
        if !self.rest.is_empty() {
            self.rest = &self.rest[1..];
        }
    }

    /// Whether the next token is this.
    #[tactic(auto, unfolding(crate::specs::Marks::sees, crate::specs::Marks::begins))]
    pub fn sees(&self, mark: Mark) -> bool
        ensures seen { result ≡ spec.sees (spec.meant mark) self.now }
        ensures begun { result ≡ spec.begins (spec.meant mark ∷ []) self.now }
    {
        match self.peek() {
            Some(kind) => is_marked(kind, mark),
            None => false,
        }
    }

    /// Whether the next token is one of these.
    #[tactic(auto, unfolding(crate::specs::Marks::begins))]
    pub fn begins(&self, marks: &[Mark]) -> bool
        ensures { result ≡ spec.begins (map spec.meant marks.now) self.now }
    {
        match self.peek() {
            Some(kind) => is_among(kind, marks),
            None => false,
        }
    }

    /// Whether a word comes next, reserved or not.
    #[tactic(auto, unfolding(crate::specs::Marks::sees_any_word))]
    pub fn sees_any_word(&self) -> bool
        ensures { result ≡ spec.sees_any_word self.now }
    {
        match self.peek() {
            Some(TokenKind::Word(_)) => true,
            Some(TokenKind::Keyword(_)) => true,
            _ => false,
        }
    }

    /// Whether the next two tokens are these.
    #[tactic(auto, unfolding(crate::specs::Marks::sees_two))]
    pub fn sees_two(&self, first: Mark, second: Mark) -> bool
        ensures { result ≡ spec.sees_two (spec.meant first) (spec.meant second) self.now }
    {
        if self.rest.len() < 2 {
            return false;
        }
        is_marked(&self.rest[0].kind, first) && is_marked(&self.rest[1].kind, second)
    }

    /// Whether the next three tokens are these.
    #[tactic(auto, unfolding(crate::specs::Marks::sees_three))]
    pub fn sees_three(&self, first: Mark, second: Mark, third: Mark) -> bool
        ensures { result ≡ spec.sees_three (spec.meant first) (spec.meant second) (spec.meant third) self.now }
    {
        if self.rest.len() < 3 {
            return false;
        }
        is_marked(&self.rest[0].kind, first)
            && is_marked(&self.rest[1].kind, second)
            && is_marked(&self.rest[2].kind, third)
    }

    /// Takes the next token, if it is this.
    #[tactic(auto, unfolding(crate::specs::Marks::after))]
    pub fn eat(&mut self, mark: Mark) -> bool
        ensures result { result ≡ spec.sees (spec.meant mark) self.old }
        ensures new { self.new ≡ spec.after (spec.meant mark) self.old }
    {
        let seen = self.sees(mark);
        if seen {
            self.skip();
        }
        seen
    }

    /// Takes the next token, which must be this.
    #[tactic(auto, unfolding(crate::specs::Parser::expect))]
    pub fn expect(&mut self, mark: Mark) -> Result<(), Fail>
        ensures { Reads (parser.expect (spec.meant mark) self.old) result self.new }
    {
        if !self.sees(mark) {
            return Err(Fail::Syntax);
        }
        self.skip();
        Ok(())
    }

    /// Takes a name.
    #[tactic(auto, unfolding(crate::specs::Parser::take))]
    pub fn name(&mut self) -> Result<Name, Fail>
        ensures { Reads (parser.take spec.a_name self.old) result self.new }
    {
        let name = match self.peek() {
            Some(TokenKind::Word(name)) => *name,
            Some(TokenKind::Quoted(name)) => *name,
            _ => return Err(Fail::Syntax),
        };
        self.skip();
        Ok(name)
    }

    /// Takes a name: whether it stands in quotes, and it.
    #[tactic(auto, unfolding(crate::specs::Parser::take))]
    pub fn written_name(&mut self) -> Result<(bool, Name), Fail>
        ensures { Reads (parser.take spec.a_written_name self.old) result self.new }
    {
        let name = match self.peek() {
            Some(TokenKind::Word(name)) => (false, *name),
            Some(TokenKind::Quoted(name)) => (true, *name),
            _ => return Err(Fail::Syntax),
        };
        self.skip();
        Ok(name)
    }

    /// Takes the name of a table, which is not ONLY without quotes.
    #[tactic(auto, unfolding(crate::specs::Parser::take))]
    pub fn table_name(&mut self) -> Result<Name, Fail>
        ensures { Reads (parser.take spec.a_table_name self.old) result self.new }
    {
        let name = match self.peek() {
            Some(TokenKind::Word(name)) => {
                if !names_table(*name) {
                    return Err(Fail::Syntax);
                }
                *name
            }
            Some(TokenKind::Quoted(name)) => *name,
            _ => return Err(Fail::Syntax),
        };
        self.skip();
        Ok(name)
    }

    /// Takes an alias or a label that stands without AS.
    #[tactic(auto, unfolding(crate::specs::Parser::take))]
    pub fn bare_alias(&mut self) -> Result<Name, Fail>
        ensures { Reads (parser.take spec.a_bare_alias self.old) result self.new }
    {
        let name = match self.peek() {
            Some(TokenKind::Word(name)) => {
                if !is_bare_alias(*name) {
                    return Err(Fail::Syntax);
                }
                *name
            }
            Some(TokenKind::Quoted(name)) => *name,
            _ => return Err(Fail::Syntax),
        };
        self.skip();
        Ok(name)
    }

    /// Takes a name, or a reserved word in its place.
    #[tactic(auto, unfolding(crate::specs::Parser::take))]
    pub fn label(&mut self) -> Result<Name, Fail>
        ensures { Reads (parser.take spec.a_label self.old) result self.new }
    {
        let name = match self.peek() {
            Some(TokenKind::Word(name)) => *name,
            Some(TokenKind::Quoted(name)) => *name,
            Some(TokenKind::Keyword(word)) => keyword_name(*word),
            _ => return Err(Fail::Syntax),
        };
        self.skip();
        Ok(name)
    }

    /// Takes a number.
    #[tactic(auto, unfolding(crate::specs::Parser::take))]
    pub fn number(&mut self) -> Result<u64, Fail>
        ensures { Reads (parser.take spec.a_number self.old) result self.new }
    {
        let number = match self.peek() {
            Some(TokenKind::Number(number)) => *number,
            _ => return Err(Fail::Syntax),
        };
        self.skip();
        Ok(number)
    }

    /// Takes a parameter: its number.
    #[tactic(auto, unfolding(crate::specs::Parser::take))]
    pub fn parameter(&mut self) -> Result<u16, Fail>
        ensures { Reads (parser.take spec.a_parameter self.old) result self.new }
    {
        let number = match self.peek() {
            Some(TokenKind::Parameter(number)) => *number,
            _ => return Err(Fail::Syntax),
        };
        self.skip();
        Ok(number)
    }

    /// Takes a text, however it is written: a copy of it.
    #[tactic(auto, unfolding(crate::specs::Parser::take))]
    pub fn text(&mut self, alloc: Global) -> Result<Txt, Fail>
        ensures { Reads (parser.take spec.a_text self.old) result self.new }
    {
        let text = match self.peek() {
            Some(TokenKind::Text(text)) => text.copy(alloc)?,
            Some(TokenKind::EscapeText(text)) => text.copy(alloc)?,
            Some(TokenKind::DollarText(text)) => text.copy(alloc)?,
            _ => return Err(Fail::Syntax),
        };
        self.skip();
        Ok(text)
    }
}
