//! CREATE TRIGGER: PostgreSQL manual, "CREATE TRIGGER".

ghost use Rattle.pl_grammar.specs.Parser.{Reads};
ghost use Rattle.pl_sql_parse.specs.Grammar as spec;
ghost use Rattle.pl_sql_parse.specs.FirstFollow.{reads_part};

use pl_base::{List, Name};
use pl_grammar::{Fail, Mark, Tokens, list};
use pl_lex::{Keyword, Sign};
use pl_tree::{Definition, NewTrigger, Timing, TriggerEvent};
use std::alloc::Global;

// BEFORE | AFTER
pub(crate) fn timing(tokens: &mut Tokens<'_>) -> Result<Timing, Fail>
    ensures { Reads (reads_part spec.Timing tokens.old) result tokens.new }
{
    if tokens.eat(Mark::Word("before")) {
        return Ok(Timing::Before);
    }
    read!(tokens.expect(Mark::Word("after")));
    Ok(Timing::After)
}

// INSERT | UPDATE | DELETE
pub(crate) fn event(tokens: &mut Tokens<'_>) -> Result<TriggerEvent, Fail>
    ensures { Reads (reads_part spec.Event tokens.old) result tokens.new }
{
    if tokens.eat(Mark::Keyword(Keyword::Insert)) {
        return Ok(TriggerEvent::Insert);
    }
    if tokens.eat(Mark::Keyword(Keyword::Update)) {
        return Ok(TriggerEvent::Update);
    }
    read!(tokens.expect(Mark::Keyword(Keyword::Delete)));
    Ok(TriggerEvent::Delete)
}

// event {OR event}
pub(crate) fn events(alloc: Global, tokens: &mut Tokens<'_>) -> Result<List<TriggerEvent>, Fail>
    ensures { Reads (reads_part spec.Events tokens.old) result tokens.new }
{
    list(alloc, tokens, Mark::Keyword(Keyword::Or), event)
}

// (FUNCTION | PROCEDURE) name()
pub(crate) fn executed(tokens: &mut Tokens<'_>) -> Result<Name, Fail>
    ensures { Reads (reads_part spec.Executed tokens.old) result tokens.new }
{
    if tokens.eat(Mark::Word("function")) {
        let name = read!(tokens.name());
        read!(tokens.expect(Mark::Sign(Sign::Open)));
        read!(tokens.expect(Mark::Sign(Sign::Close)));
        return Ok(name);
    }
    read!(tokens.expect(Mark::Word("procedure")));
    let name = read!(tokens.name());
    read!(tokens.expect(Mark::Sign(Sign::Open)));
    read!(tokens.expect(Mark::Sign(Sign::Close)));
    Ok(name)
}

// CREATE TRIGGER, behind these words.
pub(crate) fn new_trigger(alloc: Global, tokens: &mut Tokens<'_>) -> Result<Definition, Fail>
    ensures { Reads (reads_part spec.NewTrigger tokens.old) result tokens.new }
{
    let name = read!(tokens.name());
    let timing = read!(timing(tokens));
    let events = read!(events(alloc, tokens));
    read!(tokens.expect(Mark::Keyword(Keyword::On)));
    let table = read!(tokens.table_name());
    read!(tokens.expect(Mark::Keyword(Keyword::For)));
    tokens.eat(Mark::Word("each"));
    read!(tokens.expect(Mark::Keyword(Keyword::Row)));
    read!(tokens.expect(Mark::Keyword(Keyword::Execute)));
    let routine = read!(executed(tokens));
    Ok(Definition::CreateTrigger(NewTrigger {
        name,
        timing,
        events,
        table,
        routine,
    }))
}
