//! The pieces of a body.

ghost use Rattle.std.specs.Prelude.{◌≡◌, ◌++◌, Some};
ghost use Rattle.pl_grammar.specs.Fit.{Ends};
ghost use Rattle.pl_grammar.specs.Marks.{Tokens as Kinds};
ghost use Rattle.pl_grammar.specs.Parser.{Reads};
ghost use Rattle.pl_grammar.specs.Rule.{SpelledBy, fork, make, part, ◌before◌, ◌until◌};
ghost use Rattle.pl_grammar.specs.Words.{CASE, WHEN};
ghost use Rattle.pl_sql_parse.specs.Words.{FOR};
ghost use Rattle.pl_body_grammar.specs.Words.{SEMICOLON, WHILE};
ghost use Rattle.pl_body_grammar.specs.declared.parts.Piece.TheVariants as piece;
ghost use Rattle.pl_body_grammar.specs.Grammar as spec;
ghost use Rattle.pl_body_grammar.specs.FirstFollow.{follow_last, reads, reads_part};

use crate::marks::{ASSIGNING, CONTROL, CURSOR, DEFINITION, OPENING};
use pl_base::{Boxed, List, Name};
use pl_bodies::{LoopHead, Simple};
use pl_body_commands::{command, for_head};
use pl_body_control::{control, handler};
use pl_body_cursors::{cursor, declared};
use pl_body_grammar::{
    Piece, becomes, boxed_expression, expression_until, expressions, optional_name, sees_pair,
    target, until,
};
use pl_grammar::{Fail, Mark, Tokens};
use pl_lex::{Keyword, Sign};
use pl_sql_parse::read_definition;
use pl_tree::Expr;
use std::alloc::Global;

// ---- parts of statements that hold others

// e {, e} THEN
fn values(alloc: Global, tokens: &mut Tokens<'_>) -> Result<List<Expr>, Fail>
    ensures { Reads (reads_part spec.Values tokens.old) result tokens.new }
{
    let values = expressions(alloc, tokens);
    until(values, tokens, Mark::Keyword(Keyword::Then))
}

// [e] WHEN e {, e} THEN
fn first_arm(
    alloc: Global,
    tokens: &mut Tokens<'_>,
) -> Result<(Option<Boxed<Expr>>, List<Expr>), Fail>
    ensures { Reads (reads_part spec.FirstArm tokens.old) result tokens.new }
{
    if tokens.eat(Mark::Keyword(Keyword::When)) {
        return match values(alloc, tokens) {
            Ok(values) => Ok((None, values)),
            Err(fail) => Err(fail),
        };
    }
    let operand = boxed_expression(alloc, tokens);
    match until(operand, tokens, Mark::Keyword(Keyword::When)) {
        Ok(operand) => match values(alloc, tokens) {
            Ok(values) => Ok((Some(operand), values)),
            Err(fail) => Err(fail),
        },
        Err(fail) => Err(fail),
    }
}

// e LOOP, behind WHILE.
fn while_head(alloc: Global, tokens: &mut Tokens<'_>) -> Result<Piece, Fail>
    ensures { Reads (reads spec.while_head tokens.old) result tokens.new }
{
    match expression_until(alloc, tokens, Mark::Keyword(Keyword::Loop)) {
        Ok(condition) => Ok(Piece::Loop(LoopHead::While(condition))),
        Err(fail) => Err(fail),
    }
}

// ELSIF, behind that word.
fn elsif(alloc: Global, tokens: &mut Tokens<'_>) -> Result<Piece, Fail>
    ensures { Reads (reads (make piece.Elsif (part spec.Condition)) tokens.old)
        result tokens.new }
{
    match expression_until(alloc, tokens, Mark::Keyword(Keyword::Then)) {
        Ok(condition) => Ok(Piece::Elsif(condition)),
        Err(fail) => Err(fail),
    }
}

// CASE, WHILE or FOR.
fn case_or_loop(alloc: Global, tokens: &mut Tokens<'_>) -> Result<Piece, Fail>
    ensures { Reads (reads (fork CASE (make (λ p. piece.Case p.0 p.1) (part spec.FirstArm))
        (fork WHILE spec.while_head (FOR before make piece.Loop (part spec.For)))) tokens.old)
        result tokens.new }
{
    if tokens.eat(Mark::Keyword(Keyword::Case)) {
        return match first_arm(alloc, tokens) {
            Ok((operand, values)) => Ok(Piece::Case { operand, values }),
            Err(fail) => Err(fail),
        };
    }
    if tokens.eat(Mark::Keyword(Keyword::While)) {
        return while_head(alloc, tokens);
    }
    if tokens.eat(Mark::Keyword(Keyword::For)) {
        return match for_head(alloc, tokens) {
            Ok(head) => Ok(Piece::Loop(head)),
            Err(fail) => Err(fail),
        };
    }
    Err(Fail::Syntax)
}

// What opens a part of a statement that holds others.
fn opening(alloc: Global, tokens: &mut Tokens<'_>) -> Result<Piece, Fail>
    ensures { Reads (reads_part spec.Opening tokens.old) result tokens.new }
{
    if tokens.eat(Mark::Keyword(Keyword::If)) {
        return match expression_until(alloc, tokens, Mark::Keyword(Keyword::Then)) {
            Ok(condition) => Ok(Piece::If(condition)),
            Err(fail) => Err(fail),
        };
    }
    if tokens.eat(Mark::Word("elsif")) {
        return elsif(alloc, tokens);
    }
    if tokens.eat(Mark::Word("elseif")) {
        return elsif(alloc, tokens);
    }
    case_or_loop(alloc, tokens)
}

// [name];
fn ended_label(tokens: &mut Tokens<'_>) -> Result<Option<Name>, Fail>
    ensures { Reads (reads (part spec.OptionalName until SEMICOLON) tokens.old)
        result tokens.new }
{
    let label = optional_name(tokens);
    until(label, tokens, Mark::Sign(Sign::Semicolon))
}

// What is behind END.
fn ended(tokens: &mut Tokens<'_>) -> Result<Piece, Fail>
    ensures { Reads (reads_part spec.Ended tokens.old) result tokens.new }
{
    if tokens.eat(Mark::Keyword(Keyword::If)) {
        return match tokens.expect(Mark::Sign(Sign::Semicolon)) {
            Ok(()) => Ok(Piece::EndIf),
            Err(fail) => Err(fail),
        };
    }
    if tokens.eat(Mark::Keyword(Keyword::Case)) {
        return match tokens.expect(Mark::Sign(Sign::Semicolon)) {
            Ok(()) => Ok(Piece::EndCase),
            Err(fail) => Err(fail),
        };
    }
    if tokens.eat(Mark::Keyword(Keyword::Loop)) {
        return match ended_label(tokens) {
            Ok(label) => Ok(Piece::EndLoop(label)),
            Err(fail) => Err(fail),
        };
    }
    match ended_label(tokens) {
        Ok(label) => Ok(Piece::End(label)),
        Err(fail) => Err(fail),
    }
}

// ---- statements that hold no other

// target (:= | =) e;
fn assignment(alloc: Global, tokens: &mut Tokens<'_>) -> Result<Simple, Fail>
    ensures { Reads (reads_part spec.Assignment tokens.old) result tokens.new }
{
    let target = match target(tokens) {
        Ok(target) => target,
        Err(fail) => return Err(fail),
    };
    match becomes(tokens) {
        Ok(()) => match expression_until(alloc, tokens, Mark::Sign(Sign::Semicolon)) {
            Ok(value) => Ok(Simple::Assign { target, value }),
            Err(fail) => Err(fail),
        },
        Err(fail) => Err(fail),
    }
}

fn action(alloc: Global, tokens: &mut Tokens<'_>) -> Result<Simple, Fail>
    ensures { Reads (reads_part spec.Action tokens.old) result tokens.new }
{
    if tokens.begins(&CONTROL) {
        return control(alloc, tokens);
    }
    if tokens.begins(&CURSOR) {
        return cursor(alloc, tokens);
    }
    command(alloc, tokens)
}

// A statement that holds no other and is no assignment.
fn statement(alloc: Global, tokens: &mut Tokens<'_>) -> Result<Piece, Fail>
    ensures { Reads (reads_part spec.Statement tokens.old) result tokens.new }
{
    if tokens.eat(Mark::Keyword(Keyword::Null)) {
        return match tokens.expect(Mark::Sign(Sign::Semicolon)) {
            Ok(()) => Ok(Piece::Simple(Simple::Null)),
            Err(fail) => Err(fail),
        };
    }
    if tokens.begins(&DEFINITION) {
        let definition = read_definition(alloc, tokens);
        return match until(definition, tokens, Mark::Sign(Sign::Semicolon)) {
            Ok(definition) => Ok(Piece::Definition(definition)),
            Err(fail) => Err(fail),
        };
    }
    match action(alloc, tokens) {
        Ok(simple) => Ok(Piece::Simple(simple)),
        Err(fail) => Err(fail),
    }
}

// ---- pieces

// WHEN and the first handler, behind EXCEPTION.
fn exception(alloc: Global, tokens: &mut Tokens<'_>) -> Result<Piece, Fail>
    ensures { Reads (reads (WHEN before make piece.Exception (part spec.Handler)) tokens.old)
        result tokens.new }
{
    if tokens.eat(Mark::Keyword(Keyword::When)) {
        return match handler(alloc, tokens) {
            Ok(caught) => Ok(Piece::Exception(caught)),
            Err(fail) => Err(fail),
        };
    }
    Err(Fail::Syntax)
}

fn other_piece(alloc: Global, tokens: &mut Tokens<'_>) -> Result<Piece, Fail>
    ensures { Reads (reads_part spec.OtherPiece tokens.old) result tokens.new }
{
    if tokens.eat(Mark::Sign(Sign::OpenLabel)) {
        let label = tokens.name();
        return match until(label, tokens, Mark::Sign(Sign::CloseLabel)) {
            Ok(label) => Ok(Piece::Label(label)),
            Err(fail) => Err(fail),
        };
    }
    if tokens.eat(Mark::Word("exception")) {
        return exception(alloc, tokens);
    }
    if tokens.eat(Mark::Keyword(Keyword::End)) {
        return ended(tokens);
    }
    if tokens.begins(&OPENING) {
        return opening(alloc, tokens);
    }
    statement(alloc, tokens)
}

// An assignment, or a piece that begins with a word in capitals or with a label.
fn assignment_or_other(alloc: Global, tokens: &mut Tokens<'_>) -> Result<Piece, Fail>
    ensures { Reads (reads spec.assignment_or_other tokens.old) result tokens.new }
{
    if sees_pair(tokens, &[Mark::Name], &ASSIGNING) {
        return match assignment(alloc, tokens) {
            Ok(assigned) => Ok(Piece::Simple(assigned)),
            Err(fail) => Err(fail),
        };
    }
    other_piece(alloc, tokens)
}

fn piece(alloc: Global, tokens: &mut Tokens<'_>) -> Result<Piece, Fail>
    ensures { Reads (reads_part spec.Piece tokens.old) result tokens.new }
{
    if tokens.eat(Mark::Keyword(Keyword::Declare)) {
        return Ok(Piece::Declare);
    }
    if tokens.eat(Mark::Keyword(Keyword::Begin)) {
        return Ok(Piece::Begin);
    }
    if tokens.eat(Mark::Keyword(Keyword::Else)) {
        return Ok(Piece::Else);
    }
    if tokens.eat(Mark::Keyword(Keyword::Loop)) {
        return Ok(Piece::Loop(LoopHead::Forever));
    }
    assignment_or_other(alloc, tokens)
}

/// A piece of a block, in which WHEN begins a handler.
pub fn block_piece(alloc: Global, tokens: &mut Tokens<'_>) -> Result<Piece, Fail>
    ensures { Reads (reads_part spec.BlockPiece tokens.old) result tokens.new }
{
    if tokens.eat(Mark::Keyword(Keyword::When)) {
        return match handler(alloc, tokens) {
            Ok(caught) => Ok(Piece::Handler(caught)),
            Err(fail) => Err(fail),
        };
    }
    piece(alloc, tokens)
}

/// A piece of CASE, in which WHEN begins an arm.
pub fn case_piece(alloc: Global, tokens: &mut Tokens<'_>) -> Result<Piece, Fail>
    ensures { Reads (reads_part spec.CasePiece tokens.old) result tokens.new }
{
    if tokens.eat(Mark::Keyword(Keyword::When)) {
        return match values(alloc, tokens) {
            Ok(values) => Ok(Piece::Arm(values)),
            Err(fail) => Err(fail),
        };
    }
    piece(alloc, tokens)
}

/// A declaration, or BEGIN.
pub fn declaration_piece(alloc: Global, tokens: &mut Tokens<'_>) -> Result<Piece, Fail>
    ensures { Reads (reads_part spec.DeclarationPiece tokens.old) result tokens.new }
{
    if tokens.eat(Mark::Keyword(Keyword::Begin)) {
        return Ok(Piece::Begin);
    }
    match tokens.name() {
        Ok(name) => match declared(alloc, tokens) {
            Ok(kind) => Ok(Piece::Declaration { name, kind }),
            Err(fail) => Err(fail),
        },
        Err(fail) => Err(fail),
    }
}

/// What is read is spelled by the grammar, and what it spells is read.
pub fn pieces_are_read()
    ensures spelled { (p : spec.Part) (ts rest : Kinds) (x : spec.Tree p)
        → reads_part p ts ≡ Some (x, rest)
        → (front : Kinds) × (ts ≡ front ++ rest) × SpelledBy spec.rule p x front }
    ensures read { (p : spec.Part) (front rest : Kinds) (x : spec.Tree p)
        → SpelledBy spec.rule p x front → Ends (follow_last p) rest
        → reads_part p (front ++ rest) ≡ Some (x, rest) }
{}
