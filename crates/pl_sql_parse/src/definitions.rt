//! Which definition a CREATE or a DROP is: PostgreSQL manual, "SQL Commands".

ghost use Rattle.pl_grammar.specs.Parser.{Reads};
ghost use Rattle.pl_sql_parse.specs.Grammar as spec;
ghost use Rattle.pl_sql_parse.specs.FirstFollow.{reads_part};

use crate::routines::new_routine;
use crate::tables::new_table;
use crate::triggers::new_trigger;
use pl_grammar::{Fail, Mark, Tokens};
use pl_lex::Keyword;
use pl_tree::Definition;
use std::alloc::Global;

// CREATE, behind that word.
pub(crate) fn create(alloc: Global, tokens: &mut Tokens<'_>) -> Result<Definition, Fail>
    ensures { Reads (reads_part spec.Create tokens.old) result tokens.new }
{
    if tokens.eat(Mark::Keyword(Keyword::Table)) {
        return new_table(alloc, tokens);
    }
    if tokens.eat(Mark::Word("trigger")) {
        return new_trigger(alloc, tokens);
    }
    new_routine(alloc, tokens)
}
