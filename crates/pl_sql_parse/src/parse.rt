//! Whole commands.

ghost use Rattle.std.specs.Prelude.{◌≡◌, ◌↔◌, Some, List as Items, IfOk};
ghost use Rattle.pl_grammar.specs.Marks.{kinds};
ghost use Rattle.pl_grammar.specs.Parser.{Makes, ReadsAll};
ghost use Rattle.pl_lex.specs.Characters.{Text};
ghost use Rattle.pl_lex.specs.declared.token.Token.{Token as OneToken};
ghost use Rattle.pl_tree.specs.declared.command.Command.{Command as Tree};
ghost use Rattle.pl_sql_parse.specs.Grammar as spec;
ghost use Rattle.pl_sql_parse.specs.FirstFollow.{reads_part};
ghost use Rattle.pl_sql_parse.specs.Computed.{command_in};
ghost use Rattle.pl_sql_parse.specs.Spells.{Placed, SpellsCommand, Answers};
ghost use Rattle.pl_sql_parse.specs.Spells.{begins_definition};
ghost use Rattle.pl_lex.specs.Slices.{slice_of};

use crate::commands::command;
use crate::left_out::is_left_out;
use crate::lists::{Piece, whole_piece};
use crate::readers::read_definition;
use pl_base::{Held, Txt};
use pl_grammar::{Fail, Mark, ParseFail, Tokens, deep};
use pl_lex::{Keyword, Token};
use pl_tree::{Command, Definition};
use std::alloc::{AllocError, Global};

impl Piece for Command {
    ghost use Rattle.pl_sql_parse.specs.Grammar as spec;
    ghost use Rattle.pl_sql_parse.specs.FirstFollow.{reads_part};

    ghost reader = { reads_part spec.Command };

    fn read(alloc: Global, tokens: &mut Tokens<'_>) -> Result<Command, Fail> {
        command(alloc, tokens)
    }
}

// The whole list as one command that defines nothing.
fn whole_command(alloc: Global, tokens: &[Token]) -> Result<Command, Fail>
    ensures { ReadsAll (reads_part spec.Command (kinds tokens.now)) result }
{
    whole_piece(alloc, tokens)
}

impl Piece for Definition {
    ghost use Rattle.pl_sql_parse.specs.Grammar as spec;
    ghost use Rattle.pl_sql_parse.specs.FirstFollow.{reads_part};

    ghost reader = { reads_part spec.Definition };

    fn read(alloc: Global, tokens: &mut Tokens<'_>) -> Result<Definition, Fail> {
        read_definition(alloc, tokens)
    }
}

// The whole list as one definition.
fn whole_definition(alloc: Global, tokens: &[Token]) -> Result<Definition, Fail>
    ensures { ReadsAll (reads_part spec.Definition (kinds tokens.now)) result }
{
    whole_piece(alloc, tokens)
}

/// The text from the first byte of the first token to the last byte of the last.
pub fn source(alloc: Global, tokens: &[Token], text: &str) -> Result<Txt, AllocError>
    requires placed { Placed text.now tokens.now }
    ensures { IfOk result (λ source. source ≡ slice_of text.now tokens.now) }
{
    if tokens.is_empty() {
        return Txt::from_slice(alloc, b"");
    }
    let start = tokens[0].start;
    let end = tokens[tokens.len() - 1].end;
    Txt::from_slice(alloc, &text.as_bytes()[start..end])
}

// Whether the tokens begin with CREATE or DROP.
fn begins_definition(tokens: &[Token]) -> bool
    ensures { result ≡ begins_definition (kinds tokens.now) }
{
    let tokens = Tokens::new(tokens);
    tokens.sees(Mark::Keyword(Keyword::Create)) || tokens.sees(Mark::Word("drop"))
}

// The command that the tokens spell, or Syntax.
fn shallow_command(alloc: Global, tokens: &[Token], text: &str) -> Result<Command, Fail>
    requires placed { Placed text.now tokens.now }
    ensures { Makes (command_in text.now tokens.now) result }
{
    if !begins_definition(tokens) {
        return whole_command(alloc, tokens);
    }
    let definition = Held::new(whole_definition(alloc, tokens)?);
    let source = source(alloc, tokens, text)?;
    Ok(Command::Define {
        definition: definition.into_inner(),
        source,
    })
}

/// The command that the tokens spell. They stand in the text, in order.
///
/// NotSupported comes where the first words are of a command that is left out, then TooDeep where more
/// than 100 parts are open at a token, then Syntax where the tokens spell no command.
pub fn parse_command(alloc: Global, tokens: &[Token], text: &str) -> Result<Command, ParseFail>
    requires placed { Placed text.now tokens.now }
    // What is read is spelled so.
    ensures found { IfOk result (λ x. SpellsCommand text.now x tokens.now) }
    // No other tree spells the tokens.
    ensures only { IfOk result (λ x.
        (other : Tree) → SpellsCommand text.now other tokens.now → other ≡ x) }
    // Which refusal it is.
    ensures exact { Answers text.now result tokens.now }
{
    if is_left_out(tokens) {
        return Err(ParseFail::NotSupported);
    }
    match deep(alloc, tokens) {
        Ok(None) => {}
        Ok(Some(at)) => return Err(ParseFail::TooDeep { at }),
        Err(_) => return Err(ParseFail::Memory),
    }
    match shallow_command(alloc, tokens, text) {
        Ok(x) => Ok(x),
        Err(Fail::Syntax) => Err(ParseFail::Syntax),
        Err(Fail::Memory) => Err(ParseFail::Memory),
    }
}

/// Tokens spell one command or none: the one that `command_in` computes.
pub fn one_command()
    ensures is { (text : Text) (tokens : Items OneToken) (x : Tree)
        → (command_in text tokens ≡ Some x) ↔ SpellsCommand text x tokens }
{}
