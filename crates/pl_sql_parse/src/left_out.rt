//! Commands that are left out, as their first words tell.

ghost use Rattle.std.specs.Prelude.{◌≡◌, ◌&&◌};
ghost use Rattle.std.specs.List.{list_any};
ghost use Rattle.pl_grammar.specs.Marks.{after, kinds, sees, word};
ghost use Rattle.pl_sql_parse.specs.LeftOut as spec;
ghost use Rattle.pl_sql_parse.specs.Words as w;

use pl_grammar::{Mark, Tokens};
use pl_lex::{Keyword, Token};

// The reserved words that begin a command that is left out.
const RESERVED: [Mark; 5] = [
    Mark::Keyword(Keyword::Declare),
    Mark::Keyword(Keyword::Execute),
    Mark::Keyword(Keyword::Table),
    Mark::Keyword(Keyword::Values),
    Mark::Keyword(Keyword::With),
];

// The other words that do, in lower case.
const LEFT_OUT: [&str; 31] = [
    "alter",
    "analyze",
    "checkpoint",
    "close",
    "cluster",
    "comment",
    "copy",
    "deallocate",
    "discard",
    "explain",
    "fetch",
    "grant",
    "import",
    "listen",
    "load",
    "lock",
    "merge",
    "move",
    "notify",
    "prepare",
    "reassign",
    "refresh",
    "reindex",
    "reset",
    "revoke",
    "security",
    "set",
    "show",
    "truncate",
    "unlisten",
    "vacuum",
];

// What may stand behind CREATE.
const CREATED: [Mark; 5] = [
    Mark::Keyword(Keyword::Table),
    Mark::Word("function"),
    Mark::Word("procedure"),
    Mark::Word("trigger"),
    Mark::Keyword(Keyword::Or),
];

// What may stand behind DROP.
const DROPPED: [Mark; 4] = [
    Mark::Word("function"),
    Mark::Word("procedure"),
    Mark::Word("trigger"),
    Mark::Keyword(Keyword::Table),
];

// Whether one of the words comes next.
fn sees_one_of(tokens: &Tokens<'_>, words: &[&'static str]) -> bool
    ensures { result ≡ list_any (λ other. sees (word other.now) tokens.now) words.now }
{
    words.iter().any(|other| tokens.sees(Mark::Word(other)))
}

#[tactic(auto, using(crate::proofs::LeftOut::same_words), unfolding(crate::specs::LeftOut::begins_left_out))]
fn begins_left_out(tokens: &Tokens<'_>) -> bool
    ensures { result ≡ spec.begins_left_out tokens.now }
{
    tokens.begins(&RESERVED) || sees_one_of(tokens, &LEFT_OUT)
}

// Whether CREATE comes first, before a word that isn't known there.
fn creates_other(tokens: &[Token]) -> bool
    ensures { result ≡ (sees w.CREATE (kinds tokens.now)
        && spec.sees_other spec.created (after w.CREATE (kinds tokens.now))) }
{
    let mut rest = Tokens::new(tokens);
    if !rest.eat(Mark::Keyword(Keyword::Create)) {
        return false;
    }
    if !rest.sees_any_word() {
        return false;
    }
    !rest.begins(&CREATED)
}

// Whether DROP comes first, before a word that isn't known there.
fn drops_other(tokens: &[Token]) -> bool
    ensures { result ≡ (sees w.DROP (kinds tokens.now)
        && spec.sees_other spec.dropped (after w.DROP (kinds tokens.now))) }
{
    let mut rest = Tokens::new(tokens);
    if !rest.eat(Mark::Word("drop")) {
        return false;
    }
    if !rest.sees_any_word() {
        return false;
    }
    !rest.begins(&DROPPED)
}

/// Whether the tokens begin a command that is left out.
pub(crate) fn is_left_out(tokens: &[Token]) -> bool
    ensures { result ≡ spec.is_left_out (kinds tokens.now) }
{
    let first = Tokens::new(tokens);
    begins_left_out(&first) || creates_other(tokens) || drops_other(tokens)
}
