//! Items at a place among the tokens of a body.

ghost use Rattle.std.specs.Prelude.{◌≡◌, ◌<◌, ◌≤◌, ◌+◌, ◌-◌, ◌^◌, [], Some, drop, length, IfOk};
ghost use Rattle.pl_grammar.specs.Marks.{kinds};
ghost use Rattle.pl_grammar.specs.Parser.{Makes};
ghost use Rattle.pl_sql_parse.specs.Spells.{Placed};
ghost use Rattle.pl_body_parse.specs.Computed as computed;
ghost use Rattle.pl_body_parse.specs.Spells as spec;

use crate::source::Source;
use pl_base::{Held, List, Name};
use pl_bodies::{Declaration, Simple};
use pl_body_items::{Item, Spot, Word};
use pl_body_pieces::Piece;
use pl_grammar::Fail;
use pl_lex::{Keyword, Token, TokenKind};
use pl_sql_parse::source;
use pl_tree::{Command, Definition};
use std::alloc::Global;

// The name behind END, where that is all and no `;` follows.
fn bare_end(tokens: &[Token]) -> Option<Option<Name>>
    ensures { result ≡ spec.bare_end (kinds tokens.now) }
{
    if tokens.is_empty() || tokens.len() > 2 {
        return None;
    }
    if !matches!(tokens[0].kind, TokenKind::Keyword(Keyword::End)) {
        return None;
    }
    if tokens.len() == 1 {
        return Some(None);
    }
    match tokens[1].kind {
        TokenKind::Word(name) => Some(Some(name)),
        TokenKind::Quoted(name) => Some(Some(name)),
        _ => None,
    }
}

// The number of the next statement, behind the item.
pub(crate) fn next(item: &Item, ordinal: u32) -> u32
    requires { ordinal < 2 ^ 32 - 1 }
    ensures { result ≡ spec.next item.now ordinal }
{
    match item {
        Item::Simple { .. }
        | Item::Block { .. }
        | Item::If { .. }
        | Item::Case { .. }
        | Item::Loop { .. } => ordinal + 1,
        _ => ordinal,
    }
}

// The words that the piece is, if it holds no tree.
fn word_of(piece: &Piece) -> Option<Word>
    ensures { result ≡ computed.word_of piece.now }
{
    match piece {
        Piece::Else => Some(Word::Else),
        Piece::EndIf => Some(Word::EndIf),
        Piece::EndCase => Some(Word::EndCase),
        Piece::EndLoop(label) => Some(Word::EndLoop(*label)),
        Piece::End(label) => Some(Word::End(*label)),
        _ => None,
    }
}

// The item that the piece is by itself, if it holds a tree.
fn tree_item(spot: Spot, piece: Piece) -> Option<Item>
    ensures { result ≡ computed.tree_item spot piece }
{
    match piece {
        Piece::Exception(conditions) => Some(Item::Exception(conditions)),
        Piece::Handler(conditions) => Some(Item::Handler(conditions)),
        Piece::If(condition) => Some(Item::If {
            spot,
            condition: Held::new(condition),
        }),
        Piece::Elsif(condition) => Some(Item::Elsif(Held::new(condition))),
        Piece::Case { operand, values } => Some(Item::Case {
            spot,
            operand,
            values,
        }),
        Piece::Arm(values) => Some(Item::Arm(values)),
        Piece::Simple(simple) => Some(Item::Simple {
            spot,
            simple: Held::new(simple),
        }),
        piece => {
            let _piece = Held::new(piece);
            None
        }
    }
}

// The item that the piece is by itself.
#[tactic(auto, using(crate::proofs::Tables::word_item, crate::proofs::Tables::other_item))]
fn item_of(spot: Spot, piece: Held<Piece>) -> Option<Item>
    ensures { result ≡ spec.item_of spot piece }
{
    match word_of(piece.get()) {
        Some(word) => Some(Item::Word(word)),
        None => tree_item(spot, piece.into_inner()),
    }
}

// The same, with how many tokens it takes. A label stands before none of them.
fn plain(
    spot: Spot,
    label: Option<Name>,
    piece: Held<Piece>,
    taken: usize,
) -> Result<(Item, usize), Fail>
    ensures { Makes (computed.plain spot label piece taken) result }
{
    if label.is_some() {
        return Err(Fail::Syntax);
    }
    match item_of(spot, piece) {
        Some(item) => Ok((item, taken)),
        None => Err(Fail::Syntax),
    }
}

// The declaration on this line.
fn declared(line: u32, piece: Held<Piece>) -> Option<Declaration>
    ensures { result ≡ computed.declaration_of line piece }
{
    match piece.into_inner() {
        Piece::Declaration { name, kind } => Some(Declaration { line, name, kind }),
        piece => {
            let _piece = Held::new(piece);
            None
        }
    }
}

fn is_begin(piece: &Piece) -> bool
    ensures { result ≡ computed.is_begin piece.now }
{
    matches!(piece, Piece::Begin)
}

impl Source<'_> {
    // The rest of a block's head, behind DECLARE.
    fn declaring(
        &self,
        alloc: Global,
        at: usize,
        ordinal: u32,
        label: Option<Name>,
    ) -> Result<(Item, usize), Fail>
        requires { at ≤ length self.now.tokens.now }
        ensures is { Makes (computed.declaring self.now.text.now ordinal label
            (length (drop at self.now.tokens.now)) [] (drop at self.now.tokens.now)) result }
        ensures within { IfOk result (λ p. at + p.1 ≤ length self.now.tokens.now) }
    {
        let mut declarations = List::new(alloc);
        let mut here = at;
        for _turn in at..self.tokens.len() {
            let (piece, taken) = self.declaration(alloc, here)?;
            if is_begin(piece.get()) {
                let item = Item::Block {
                    spot: self.spot(here, ordinal),
                    label,
                    declarations,
                };
                return Ok((item, here - at + taken));
            }
            let Some(declaration) = declared(self.lines[here], piece) else {
                return Err(Fail::Syntax);
            };
            declarations.push(declaration)?;
            here += taken;
        }
        Err(Fail::Syntax)
    }

    // The item that begins at a token with a piece that is no LOOP and takes so many tokens.
    fn blocked(
        &self,
        alloc: Global,
        at: usize,
        ordinal: u32,
        label: Option<Name>,
        piece: Held<Piece>,
        taken: usize,
    ) -> Result<(Item, usize), Fail>
        requires begun { at < length self.now.tokens.now }
        requires held { at + taken ≤ length self.now.tokens.now }
        ensures is { Makes (computed.blocked self.now.text.now ordinal label piece taken
            (drop at self.now.tokens.now)) result }
        ensures within { IfOk result (λ p. at + p.1 ≤ length self.now.tokens.now) }
    {
        match piece.get() {
            Piece::Begin => {
                let item = Item::Block {
                    spot: self.spot(at, ordinal),
                    label,
                    declarations: List::new(alloc),
                };
                Ok((item, taken))
            }
            Piece::Declare => {
                let (item, more) = self.declaring(alloc, at + taken, ordinal, label)?;
                Ok((item, taken + more))
            }
            _ => plain(self.spot(at, ordinal), label, piece, taken),
        }
    }

    // The item that begins at a token with a piece, which takes so many tokens.
    #[tactic(auto, unfolding(crate::specs::Computed::headed))]
    fn headed(
        &self,
        alloc: Global,
        at: usize,
        ordinal: u32,
        label: Option<Name>,
        piece: Held<Piece>,
        taken: usize,
    ) -> Result<(Item, usize), Fail>
        requires begun { at < length self.now.tokens.now }
        requires held { at + taken ≤ length self.now.tokens.now }
        ensures is { Makes (computed.headed self.now.text.now ordinal label piece taken
            (drop at self.now.tokens.now)) result }
        ensures within { IfOk result (λ p. at + p.1 ≤ length self.now.tokens.now) }
    {
        match piece.into_inner() {
            Piece::Loop(head) => {
                let item = Item::Loop {
                    spot: self.spot(at, ordinal),
                    label,
                    head: Held::new(head),
                };
                Ok((item, taken))
            }
            piece => self.blocked(alloc, at, ordinal, label, Held::new(piece), taken),
        }
    }

    // The item behind a label.
    fn labelled(
        &self,
        alloc: Global,
        at: usize,
        ordinal: u32,
        label: Name,
    ) -> Result<(Item, usize), Fail>
        requires { at ≤ length self.now.tokens.now }
        ensures is { Makes (computed.labelled self.now.text.now ordinal label
            (drop at self.now.tokens.now)) result }
        ensures within { IfOk result (λ p. at + p.1 ≤ length self.now.tokens.now) }
    {
        let (piece, taken) = self.piece(alloc, at, false)?;
        self.headed(alloc, at, ordinal, Some(label), piece, taken)
    }

    // The definition, with its text.
    fn defined(
        &self,
        alloc: Global,
        at: usize,
        ordinal: u32,
        definition: Held<Definition>,
        taken: usize,
    ) -> Result<(Item, usize), Fail>
        requires placed { Placed self.now.text.now self.now.tokens.now }
        requires begun { at < length self.now.tokens.now }
        requires some { 0 < taken }
        requires held { at + taken ≤ length self.now.tokens.now }
        ensures is { Makes (computed.define self.now.text.now ordinal definition taken
            (drop at self.now.tokens.now)) result }
        ensures within { IfOk result (λ p. at + p.1 ≤ length self.now.tokens.now) }
    {
        let source = source(alloc, &self.tokens[at..at + taken - 1], self.text)?;
        let simple = Simple::Command(Command::Define {
            definition: definition.into_inner(),
            source,
        });
        let item = Item::Simple {
            spot: self.spot(at, ordinal),
            simple: Held::new(simple),
        };
        Ok((item, taken))
    }

    // The item that a piece without a label begins, which begins at a token and takes so many.
    fn unlabelled(
        &self,
        alloc: Global,
        at: usize,
        ordinal: u32,
        piece: Held<Piece>,
        taken: usize,
    ) -> Result<(Item, usize), Fail>
        requires placed { Placed self.now.text.now self.now.tokens.now }
        requires begun { at < length self.now.tokens.now }
        requires some { 0 < taken }
        requires held { at + taken ≤ length self.now.tokens.now }
        ensures is { Makes (computed.unlabelled self.now.text.now ordinal piece taken
            (drop at self.now.tokens.now)) result }
        ensures within { IfOk result (λ p. at + p.1 ≤ length self.now.tokens.now) }
    {
        match piece.into_inner() {
            Piece::Definition(definition) => {
                self.defined(alloc, at, ordinal, Held::new(definition), taken)
            }
            piece => self.headed(alloc, at, ordinal, None, Held::new(piece), taken),
        }
    }

    // The item that a piece begins, which begins at a token and takes so many.
    fn itemed(
        &self,
        alloc: Global,
        at: usize,
        ordinal: u32,
        piece: Held<Piece>,
        taken: usize,
    ) -> Result<(Item, usize), Fail>
        requires placed { Placed self.now.text.now self.now.tokens.now }
        requires begun { at < length self.now.tokens.now }
        requires some { 0 < taken }
        requires held { at + taken ≤ length self.now.tokens.now }
        ensures is { Makes (computed.itemed self.now.text.now ordinal
            (drop at self.now.tokens.now) (Some (piece, taken))) result }
        ensures within { IfOk result (λ p. at + p.1 ≤ length self.now.tokens.now) }
    {
        match piece.get() {
            Piece::Label(label) => {
                let (item, more) = self.labelled(alloc, at + taken, ordinal, *label)?;
                Ok((item, taken + more))
            }
            _ => self.unlabelled(alloc, at, ordinal, piece, taken),
        }
    }

    /// The item that begins at a token, and how many tokens it takes. If a statement begins with
    /// it, the statement has this number.
    #[tactic(auto, unfolding(crate::specs::Computed::item_at))]
    pub(crate) fn item(
        &self,
        alloc: Global,
        at: usize,
        ordinal: u32,
        in_case: bool,
    ) -> Result<(Item, usize), Fail>
        requires placed { Placed self.now.text.now self.now.tokens.now }
        requires begun { at ≤ length self.now.tokens.now }
        ensures is { Makes (computed.item_at self.now.text.now in_case ordinal
            (drop at self.now.tokens.now)) result }
        ensures within { IfOk result (λ p. at + p.1 ≤ length self.now.tokens.now) }
    {
        if let Some(label) = bare_end(&self.tokens[at..]) {
            return Ok((Item::Word(Word::End(label)), self.tokens.len() - at));
        }
        let (piece, taken) = self.piece(alloc, at, in_case)?;
        self.itemed(alloc, at, ordinal, piece, taken)
    }
}
