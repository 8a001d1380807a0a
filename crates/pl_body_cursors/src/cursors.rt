//! Statements on cursors: PostgreSQL manual, "Cursors".

ghost use Rattle.pl_bodies.specs.declared.simple.Direction.TheVariants as direction;
ghost use Rattle.pl_bodies.specs.declared.simple.OpenSource.TheVariants as opened;
ghost use Rattle.pl_bodies.specs.declared.simple.Simple.TheVariants as simple;
ghost use Rattle.pl_grammar.specs.Marks.{a_name};
ghost use Rattle.pl_grammar.specs.Parser.{Reads};
ghost use Rattle.pl_grammar.specs.Rule.{fork, make, one, part, ◌before◌, ◌then◌, ◌until◌};
ghost use Rattle.pl_body_grammar.specs.Grammar as spec;
ghost use Rattle.pl_body_grammar.specs.FirstFollow.{reads, reads_part};
ghost use Rattle.pl_body_grammar.specs.Words.{ABSOLUTE, RELATIVE, SEMICOLON};
ghost use Rattle.pl_sql_parse.specs.Words.{EXECUTE, FOR};

use crate::marks::FROM_OR_IN;
use pl_base::{List, Name};
use pl_bodies::{Direction, Motion, OpenSource, Simple};
use pl_body_grammar::{dynamic, either, expressions, sees_pair, targets, until};
use pl_expr_parse::{read_operand, read_query};
use pl_grammar::{Fail, Mark, Tokens};
use pl_lex::{Keyword, Sign};
use std::alloc::Global;

// ---- OPEN

// (query | EXECUTE dynamic); behind FOR.
fn opened_as(alloc: Global, tokens: &mut Tokens<'_>, can_scroll: bool) -> Result<OpenSource, Fail>
    ensures { Reads (reads (fork EXECUTE (make (opened.Execute can_scroll)
        (part spec.Dynamic until SEMICOLON)) (make (opened.Query can_scroll)
        (spec.query until SEMICOLON))) tokens.old) result tokens.new }
{
    if tokens.eat(Mark::Keyword(Keyword::Execute)) {
        let command = dynamic(alloc, tokens);
        return match until(command, tokens, Mark::Sign(Sign::Semicolon)) {
            Ok(command) => Ok(OpenSource::Execute {
                can_scroll,
                command,
            }),
            Err(fail) => Err(fail),
        };
    }
    let query = read_query(alloc, tokens);
    match until(query, tokens, Mark::Sign(Sign::Semicolon)) {
        Ok(query) => Ok(OpenSource::Query { can_scroll, query }),
        Err(fail) => Err(fail),
    }
}

// FOR and what is behind it without SCROLL.
fn for_not_scrolled(alloc: Global, tokens: &mut Tokens<'_>) -> Result<OpenSource, Fail>
    ensures { Reads (reads (FOR before part spec.NotScrolled) tokens.old) result tokens.new }
{
    if tokens.eat(Mark::Keyword(Keyword::For)) {
        return opened_as(alloc, tokens, false);
    }
    Err(Fail::Syntax)
}

// [[NO] SCROLL] FOR (query | EXECUTE dynamic);
fn opened_for(alloc: Global, tokens: &mut Tokens<'_>) -> Result<OpenSource, Fail>
    ensures { Reads (reads_part spec.OpenedFor tokens.old) result tokens.new }
{
    if tokens.eat(Mark::Word("no")) {
        if tokens.eat(Mark::Word("scroll")) {
            return for_not_scrolled(alloc, tokens);
        }
        return Err(Fail::Syntax);
    }
    if tokens.eat(Mark::Word("scroll")) {
        if tokens.eat(Mark::Keyword(Keyword::For)) {
            return opened_as(alloc, tokens, true);
        }
        return Err(Fail::Syntax);
    }
    for_not_scrolled(alloc, tokens)
}

// What is behind the cursor's name.
fn opened(alloc: Global, tokens: &mut Tokens<'_>) -> Result<OpenSource, Fail>
    ensures { Reads (reads_part spec.Opened tokens.old) result tokens.new }
{
    if tokens.eat(Mark::Sign(Sign::Semicolon)) {
        return Ok(OpenSource::Bound(List::new(alloc)));
    }
    if tokens.eat(Mark::Sign(Sign::Open)) {
        let arguments = expressions(alloc, tokens);
        let closed = until(arguments, tokens, Mark::Sign(Sign::Close));
        return match until(closed, tokens, Mark::Sign(Sign::Semicolon)) {
            Ok(arguments) => Ok(OpenSource::Bound(arguments)),
            Err(fail) => Err(fail),
        };
    }
    opened_for(alloc, tokens)
}

// ---- FETCH and MOVE

// A direction but for FORWARD and BACKWARD.
fn place(alloc: Global, tokens: &mut Tokens<'_>) -> Result<Direction, Fail>
    ensures { Reads (reads_part spec.Place tokens.old) result tokens.new }
{
    if tokens.eat(Mark::Word("next")) {
        return Ok(Direction::Next);
    }
    if tokens.eat(Mark::Word("prior")) {
        return Ok(Direction::Prior);
    }
    if tokens.eat(Mark::Word("first")) {
        return Ok(Direction::First);
    }
    if tokens.eat(Mark::Word("last")) {
        return Ok(Direction::Last);
    }
    counted_place(alloc, tokens)
}

// ABSOLUTE or RELATIVE, and a count.
fn counted_place(alloc: Global, tokens: &mut Tokens<'_>) -> Result<Direction, Fail>
    ensures { Reads (reads (fork ABSOLUTE (make direction.Absolute spec.operand)
        (RELATIVE before make direction.Relative spec.operand)) tokens.old) result tokens.new }
{
    if tokens.eat(Mark::Word("absolute")) {
        return match read_operand(alloc, tokens) {
            Ok(count) => Ok(Direction::Absolute(count)),
            Err(fail) => Err(fail),
        };
    }
    if tokens.eat(Mark::Word("relative")) {
        return match read_operand(alloc, tokens) {
            Ok(count) => Ok(Direction::Relative(count)),
            Err(fail) => Err(fail),
        };
    }
    Err(Fail::Syntax)
}

fn direction(alloc: Global, tokens: &mut Tokens<'_>) -> Result<Direction, Fail>
    ensures { Reads (reads_part spec.Direction tokens.old) result tokens.new }
{
    if tokens.eat(Mark::Word("forward")) {
        return Ok(Direction::Next);
    }
    if tokens.eat(Mark::Word("backward")) {
        return Ok(Direction::Prior);
    }
    place(alloc, tokens)
}

// (FROM | IN) name
fn from_name(tokens: &mut Tokens<'_>) -> Result<Name, Fail>
    ensures { Reads (reads_part spec.FromName tokens.old) result tokens.new }
{
    match either(
        tokens,
        Mark::Keyword(Keyword::From),
        Mark::Keyword(Keyword::In),
    ) {
        Ok(()) => tokens.name(),
        Err(fail) => Err(fail),
    }
}

// [direction (FROM | IN)] name INTO
fn fetched_from(alloc: Global, tokens: &mut Tokens<'_>) -> Result<(Direction, Name), Fail>
    ensures { Reads (reads_part spec.FetchedFrom tokens.old) result tokens.new }
{
    if sees_pair(tokens, &[Mark::Name], &[Mark::Keyword(Keyword::Into)]) {
        let cursor = tokens.name();
        return match until(cursor, tokens, Mark::Keyword(Keyword::Into)) {
            Ok(cursor) => Ok((Direction::Next, cursor)),
            Err(fail) => Err(fail),
        };
    }
    match direction(alloc, tokens) {
        Ok(direction) => {
            let cursor = from_name(tokens);
            match until(cursor, tokens, Mark::Keyword(Keyword::Into)) {
                Ok(cursor) => Ok((direction, cursor)),
                Err(fail) => {
                    drop(direction);
                    Err(fail)
                }
            }
        }
        Err(fail) => Err(fail),
    }
}

// FETCH, behind that word.
fn fetch(alloc: Global, tokens: &mut Tokens<'_>) -> Result<Simple, Fail>
    ensures { Reads (reads_part spec.Fetch tokens.old) result tokens.new }
{
    match fetched_from(alloc, tokens) {
        Ok((direction, cursor)) => {
            let targets = targets(alloc, tokens);
            match until(targets, tokens, Mark::Sign(Sign::Semicolon)) {
                Ok(targets) => Ok(Simple::Fetch {
                    cursor,
                    direction,
                    targets,
                }),
                Err(fail) => {
                    drop(direction);
                    Err(fail)
                }
            }
        }
        Err(fail) => Err(fail),
    }
}

// (FROM | IN) name, behind a motion.
fn moved(tokens: &mut Tokens<'_>, motion: Motion) -> Result<(Motion, Name), Fail>
    ensures { Reads (reads (make (λ n. (motion, n)) (part spec.FromName)) tokens.old)
        result tokens.new }
{
    match from_name(tokens) {
        Ok(cursor) => Ok((motion, cursor)),
        Err(fail) => {
            drop(motion);
            Err(fail)
        }
    }
}

// [ALL | e] (FROM | IN) name, behind FORWARD.
fn forward(alloc: Global, tokens: &mut Tokens<'_>) -> Result<(Motion, Name), Fail>
    ensures { Reads (reads_part spec.Forward tokens.old) result tokens.new }
{
    if tokens.eat(Mark::Keyword(Keyword::All)) {
        return moved(tokens, Motion::ForwardAll);
    }
    if tokens.begins(&FROM_OR_IN) {
        return moved(tokens, Motion::To(Direction::Next));
    }
    match read_operand(alloc, tokens) {
        Ok(count) => moved(tokens, Motion::Forward(count)),
        Err(fail) => Err(fail),
    }
}

// [ALL | e] (FROM | IN) name, behind BACKWARD.
fn backward(alloc: Global, tokens: &mut Tokens<'_>) -> Result<(Motion, Name), Fail>
    ensures { Reads (reads_part spec.Backward tokens.old) result tokens.new }
{
    if tokens.eat(Mark::Keyword(Keyword::All)) {
        return moved(tokens, Motion::BackwardAll);
    }
    if tokens.begins(&FROM_OR_IN) {
        return moved(tokens, Motion::To(Direction::Prior));
    }
    match read_operand(alloc, tokens) {
        Ok(count) => moved(tokens, Motion::Backward(count)),
        Err(fail) => Err(fail),
    }
}

// direction (FROM | IN) name
fn motion(alloc: Global, tokens: &mut Tokens<'_>) -> Result<(Motion, Name), Fail>
    ensures { Reads (reads_part spec.Motion tokens.old) result tokens.new }
{
    if tokens.eat(Mark::Keyword(Keyword::All)) {
        return moved(tokens, Motion::ForwardAll);
    }
    if tokens.eat(Mark::Word("forward")) {
        return forward(alloc, tokens);
    }
    if tokens.eat(Mark::Word("backward")) {
        return backward(alloc, tokens);
    }
    match place(alloc, tokens) {
        Ok(place) => moved(tokens, Motion::To(place)),
        Err(fail) => Err(fail),
    }
}

// MOVE, behind that word.
fn move_of(alloc: Global, tokens: &mut Tokens<'_>) -> Result<Simple, Fail>
    ensures { Reads (reads_part spec.Move tokens.old) result tokens.new }
{
    if sees_pair(tokens, &[Mark::Name], &[Mark::Sign(Sign::Semicolon)]) {
        let cursor = tokens.name();
        return match until(cursor, tokens, Mark::Sign(Sign::Semicolon)) {
            Ok(cursor) => Ok(Simple::Move {
                cursor,
                motion: Motion::To(Direction::Next),
            }),
            Err(fail) => Err(fail),
        };
    }
    let moved = motion(alloc, tokens);
    match until(moved, tokens, Mark::Sign(Sign::Semicolon)) {
        Ok((motion, cursor)) => Ok(Simple::Move { cursor, motion }),
        Err(fail) => Err(fail),
    }
}

// OPEN, behind that word.
fn open_of(alloc: Global, tokens: &mut Tokens<'_>) -> Result<Simple, Fail>
    ensures { Reads (reads (make (λ p. simple.Open p.0 p.1) (one a_name then part spec.Opened))
        tokens.old) result tokens.new }
{
    match tokens.name() {
        Ok(cursor) => match opened(alloc, tokens) {
            Ok(source) => Ok(Simple::Open { cursor, source }),
            Err(fail) => Err(fail),
        },
        Err(fail) => Err(fail),
    }
}

/// OPEN, FETCH, MOVE and CLOSE.
pub fn cursor(alloc: Global, tokens: &mut Tokens<'_>) -> Result<Simple, Fail>
    ensures { Reads (reads_part spec.Cursor tokens.old) result tokens.new }
{
    if tokens.eat(Mark::Word("open")) {
        return open_of(alloc, tokens);
    }
    if tokens.eat(Mark::Word("fetch")) {
        return fetch(alloc, tokens);
    }
    if tokens.eat(Mark::Word("move")) {
        return move_of(alloc, tokens);
    }
    if tokens.eat(Mark::Word("close")) {
        let cursor = tokens.name();
        return match until(cursor, tokens, Mark::Sign(Sign::Semicolon)) {
            Ok(cursor) => Ok(Simple::Close(cursor)),
            Err(fail) => Err(fail),
        };
    }
    Err(Fail::Syntax)
}
