//! Conditions, and RAISE: PostgreSQL manual, "Errors and Messages".

ghost use Rattle.pl_bodies.specs.declared.simple.Raised.TheVariants as raised;
ghost use Rattle.pl_grammar.specs.Parser.{Reads};
ghost use Rattle.pl_grammar.specs.Rule.{make, part, ◌then◌, ◌until◌};
ghost use Rattle.pl_body_grammar.specs.Grammar as spec;
ghost use Rattle.pl_body_grammar.specs.FirstFollow.{reads, reads_part};
ghost use Rattle.pl_body_grammar.specs.Trees.{raise_of};
ghost use Rattle.pl_body_grammar.specs.Words.{SEMICOLON};

use crate::marks::{LEVELS, RAISED};
use pl_base::{List, Txt};
use pl_bodies::{Caught, Condition, Level, Raise, RaiseOption, RaiseOptionKind, Raised, Simple};
use pl_body_grammar::{becomes, more_expressions, sees_pair, until};
use pl_expr_parse::read_expression;
use pl_grammar::{Fail, Mark, Tokens, list};
use pl_lex::{Keyword, Sign};
use pl_tree::Expr;
use std::alloc::Global;

// SQLSTATE text | name
fn condition_name(alloc: Global, tokens: &mut Tokens<'_>) -> Result<Condition, Fail>
    ensures { Reads (reads_part spec.ConditionName tokens.old) result tokens.new }
{
    if sees_pair(tokens, &[Mark::Word("sqlstate")], &[Mark::Text]) {
        if tokens.eat(Mark::Word("sqlstate")) {
            return match tokens.text(alloc) {
                Ok(code) => Ok(Condition::Code(code)),
                Err(fail) => Err(fail),
            };
        }
        return Err(Fail::Syntax);
    }
    match tokens.name() {
        Ok(name) => Ok(Condition::Name(name)),
        Err(fail) => Err(fail),
    }
}

// OTHERS | condition
fn caught(alloc: Global, tokens: &mut Tokens<'_>) -> Result<Caught, Fail>
    ensures { Reads (reads_part spec.Caught tokens.old) result tokens.new }
{
    if tokens.sees(Mark::Word("others")) {
        if tokens.eat(Mark::Word("others")) {
            return Ok(Caught::Others);
        }
        return Err(Fail::Syntax);
    }
    match condition_name(alloc, tokens) {
        Ok(condition) => Ok(Caught::Condition(condition)),
        Err(fail) => Err(fail),
    }
}

/// What a handler catches, and THEN.
pub fn handler(alloc: Global, tokens: &mut Tokens<'_>) -> Result<List<Caught>, Fail>
    ensures { Reads (reads_part spec.Handler tokens.old) result tokens.new }
{
    let conditions = list(
        alloc,
        tokens,
        Mark::Keyword(Keyword::Or),
        |tokens| caught(alloc, tokens),
    );
    until(conditions, tokens, Mark::Keyword(Keyword::Then))
}

fn level(tokens: &mut Tokens<'_>) -> Result<Level, Fail>
    ensures { Reads (reads_part spec.Level tokens.old) result tokens.new }
{
    if tokens.eat(Mark::Word("debug")) {
        return Ok(Level::Debug);
    }
    if tokens.eat(Mark::Word("log")) {
        return Ok(Level::Log);
    }
    if tokens.eat(Mark::Word("info")) {
        return Ok(Level::Info);
    }
    if tokens.eat(Mark::Word("notice")) {
        return Ok(Level::Notice);
    }
    if tokens.eat(Mark::Word("warning")) {
        return Ok(Level::Warning);
    }
    if tokens.eat(Mark::Word("exception")) {
        return Ok(Level::Exception);
    }
    Err(Fail::Syntax)
}

fn option_kind(tokens: &mut Tokens<'_>) -> Result<RaiseOptionKind, Fail>
    ensures { Reads (reads_part spec.OptionKind tokens.old) result tokens.new }
{
    if tokens.eat(Mark::Word("message")) {
        return Ok(RaiseOptionKind::Message);
    }
    if tokens.eat(Mark::Word("detail")) {
        return Ok(RaiseOptionKind::Detail);
    }
    if tokens.eat(Mark::Word("hint")) {
        return Ok(RaiseOptionKind::Hint);
    }
    if tokens.eat(Mark::Word("errcode")) {
        return Ok(RaiseOptionKind::Errcode);
    }
    Err(Fail::Syntax)
}

// option (:= | =) e
fn raise_option(alloc: Global, tokens: &mut Tokens<'_>) -> Result<RaiseOption, Fail>
    ensures { Reads (reads_part spec.RaiseOption tokens.old) result tokens.new }
{
    let kind = match option_kind(tokens) {
        Ok(kind) => kind,
        Err(fail) => return Err(fail),
    };
    match becomes(tokens) {
        Ok(()) => match read_expression(alloc, tokens) {
            Ok(value) => Ok(RaiseOption { kind, value }),
            Err(fail) => Err(fail),
        },
        Err(fail) => Err(fail),
    }
}

// option {, option};
fn last_options(alloc: Global, tokens: &mut Tokens<'_>) -> Result<List<RaiseOption>, Fail>
    ensures { Reads (reads (part spec.Options until SEMICOLON) tokens.old) result tokens.new }
{
    let options = list(
        alloc,
        tokens,
        Mark::Sign(Sign::Comma),
        |tokens| raise_option(alloc, tokens),
    );
    until(options, tokens, Mark::Sign(Sign::Semicolon))
}

// [USING options];
fn using_options(alloc: Global, tokens: &mut Tokens<'_>) -> Result<List<RaiseOption>, Fail>
    ensures { Reads (reads_part spec.UsingOptions tokens.old) result tokens.new }
{
    if tokens.eat(Mark::Sign(Sign::Semicolon)) {
        return Ok(List::new(alloc));
    }
    if tokens.eat(Mark::Keyword(Keyword::Using)) {
        return last_options(alloc, tokens);
    }
    Err(Fail::Syntax)
}

// text {, e}
fn format(alloc: Global, tokens: &mut Tokens<'_>) -> Result<(Txt, List<Expr>), Fail>
    ensures { Reads (reads_part spec.Format tokens.old) result tokens.new }
{
    match tokens.text(alloc) {
        Ok(format) => match more_expressions(alloc, tokens) {
            Ok(arguments) => Ok((format, arguments)),
            Err(fail) => Err(fail),
        },
        Err(fail) => Err(fail),
    }
}

// A text and options.
fn raised_text(alloc: Global, tokens: &mut Tokens<'_>) -> Result<(Raised, List<RaiseOption>), Fail>
    ensures { Reads (reads (make (λ p. (raised.Text p.0.0 p.0.1, p.1))
        (part spec.Format then part spec.UsingOptions)) tokens.old) result tokens.new }
{
    match format(alloc, tokens) {
        Ok((format, arguments)) => match using_options(alloc, tokens) {
            Ok(options) => Ok((Raised::Text { format, arguments }, options)),
            Err(fail) => Err(fail),
        },
        Err(fail) => Err(fail),
    }
}

// A condition and options.
fn raised_condition(
    alloc: Global,
    tokens: &mut Tokens<'_>,
) -> Result<(Raised, List<RaiseOption>), Fail>
    ensures { Reads (reads (make (λ p. (raised.Condition p.0, p.1))
        (part spec.ConditionName then part spec.UsingOptions)) tokens.old) result tokens.new }
{
    match condition_name(alloc, tokens) {
        Ok(condition) => match using_options(alloc, tokens) {
            Ok(options) => Ok((Raised::Condition(condition), options)),
            Err(fail) => {
                drop(condition);
                Err(fail)
            }
        },
        Err(fail) => Err(fail),
    }
}

// What is raised, its options and the semicolon.
fn raised(alloc: Global, tokens: &mut Tokens<'_>) -> Result<(Raised, List<RaiseOption>), Fail>
    ensures { Reads (reads_part spec.Raised tokens.old) result tokens.new }
{
    if tokens.eat(Mark::Keyword(Keyword::Using)) {
        return match last_options(alloc, tokens) {
            Ok(options) => Ok((Raised::Nothing, options)),
            Err(fail) => Err(fail),
        };
    }
    if tokens.sees(Mark::Text) {
        return raised_text(alloc, tokens);
    }
    raised_condition(alloc, tokens)
}

// RAISE, behind its level.
fn raised_at(alloc: Global, tokens: &mut Tokens<'_>, level: Level) -> Result<Simple, Fail>
    ensures { Reads (reads (make (λ p. raise_of level p.0 p.1) (part spec.Raised)) tokens.old)
        result tokens.new }
{
    match raised(alloc, tokens) {
        Ok((raised, options)) => Ok(Simple::Raise(Raise {
            level,
            raised,
            options,
        })),
        Err(fail) => Err(fail),
    }
}

/// RAISE, behind that word.
pub(crate) fn raise(alloc: Global, tokens: &mut Tokens<'_>) -> Result<Simple, Fail>
    ensures { Reads (reads_part spec.Raise tokens.old) result tokens.new }
{
    if tokens.eat(Mark::Sign(Sign::Semicolon)) {
        return Ok(Simple::RaiseAgain);
    }
    if sees_pair(tokens, &LEVELS, &RAISED) {
        return match level(tokens) {
            Ok(level) => raised_at(alloc, tokens, level),
            Err(fail) => Err(fail),
        };
    }
    raised_at(alloc, tokens, Level::Exception)
}
