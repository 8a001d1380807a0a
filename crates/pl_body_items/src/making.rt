//! The tree of a body, item by item.

ghost use Rattle.std.specs.Prelude.{◌≡◌, ◌↔◌, [], ◌∷◌, List as Row, map, Some};
ghost use Rattle.pl_bodies.specs.declared.statement.Body.{Body as Tree};
ghost use Rattle.pl_grammar.specs.Parser.{Makes};
ghost use Rattle.pl_body_items.specs.Items.{item, body_said};
ghost use Rattle.pl_body_items.specs.Steps as spec;
ghost use Rattle.pl_body_items.specs.declared.parts.Section.TheVariants as section;
ghost use Rattle.pl_body_items.specs.declared.items.Item.{Item as OneItem};

use crate::closing::{block_ended, case_ended, if_ended, loop_ended, statement_of};
use crate::dividing::{arm, elsif, exception, handler, otherwise};
use crate::parts::{Around, Open, Section};
use crate::{Item, Spot, Word};
use pl_base::{Held, List};
use pl_bodies::{Body, Statement, StatementKind};
use pl_grammar::Fail;
use std::alloc::Global;

/// A body that is put together item by item. Its drop is one call.
pub struct Making {
    around: Around,
    inner: Open,
}

impl Drop for Making {
    fn drop(self) {
        let Making {
            around: _around,
            inner: _inner,
        } = self;
    }
}

// A statement behind the others of the innermost part.
fn added(around: Around, mut inner: Open, statement: Statement) -> Result<Making, Fail>
    ensures { Makes (Some (spec.added (spec.making_of around inner) statement)) result }
{
    inner.statements.push(statement)?;
    Ok(Making { around, inner })
}

// The innermost part as a statement of the one around it.
fn closed(mut around: Around, statement: Statement) -> Result<Making, Fail>
    ensures { Makes (spec.closed around statement) result }
{
    let statement = Held::new(statement);
    match around.pop() {
        Some(inner) => added(around, inner, statement.into_inner()),
        None => Err(Fail::Syntax),
    }
}

// A part inside the innermost one.
fn opened(mut around: Around, inner: Open, new: Open) -> Result<Making, Fail>
    ensures { Makes (Some (spec.making_of (inner ∷ around) new)) result }
{
    around.push(inner)?;
    Ok(Making { around, inner: new })
}

// With words that hold no tree.
fn with_word(alloc: Global, around: Around, inner: Open, word: Word) -> Result<Making, Fail>
    ensures { Makes (spec.word_step (spec.making_of around inner) word) result }
{
    match word {
        Word::Else => Ok(Making {
            around,
            inner: otherwise(alloc, inner)?,
        }),
        Word::EndIf => closed(around, if_ended(alloc, inner)?),
        Word::EndCase => closed(around, case_ended(alloc, inner)?),
        Word::EndLoop(label) => closed(around, loop_ended(inner, label)?),
        Word::End(label) => closed(around, block_ended(alloc, inner, label)?),
    }
}

// Whether it is the body itself that is open.
fn is_body(section: Held<Section>) -> bool
    ensures { result ≡ spec.is_body section }
{
    matches!(section.get(), Section::Body)
}

// The body, if the statement is a block that has no ordinal.
fn body_of(statement: Statement) -> Option<Body>
    ensures { result ≡ spec.statement_body statement }
{
    let Statement {
        line,
        ordinal,
        kind,
    } = statement;
    let kind = Held::new(kind);
    if ordinal != 0 {
        return None;
    }
    match kind.into_inner() {
        StatementKind::Block(block) => Some(Body { line, block }),
        kind => {
            let _kind = Held::new(kind);
            None
        }
    }
}

// The body, if its block is the one statement.
fn only_body(mut statements: List<Statement>) -> Option<Body>
    ensures { result ≡ spec.only_body [] section.Body statements }
{
    if statements.len() != 1 {
        return None;
    }
    body_of(statements.pop()?)
}

impl Making {
    /// A body without any item.
    pub fn new(alloc: Global) -> Making
        ensures { result ≡ spec.start }
    {
        Making {
            around: Around::new(alloc),
            inner: Open::new(
                alloc,
                Spot {
                    line: 0,
                    ordinal: 0,
                },
                Section::Body,
            ),
        }
    }

    /// Whether an arm of CASE may come next, and so no handler.
    pub fn is_in_case(&self) -> bool
        ensures { result ≡ spec.in_case self.now.inner.section }
    {
        matches!(self.inner.section.get(), Section::Case { .. })
    }

    /// With one item more, or Syntax, where the item can't stand there.
    #[tactic(auto, unfolding(crate::specs::Steps::step))]
    pub fn taken(self, alloc: Global, item: Item) -> Result<Making, Fail>
        ensures { Makes (spec.step self item) result }
    {
        let Making { around, inner } = self;
        match item {
            Item::Simple { spot, simple } => {
                let kind = StatementKind::Simple(simple.into_inner());
                added(around, inner, statement_of(spot, kind))
            }
            Item::Block {
                spot,
                label,
                declarations,
            } => opened(around, inner, Open::block(alloc, spot, label, declarations)),
            Item::If { spot, condition } => {
                opened(around, inner, Open::branch(alloc, spot, condition))
            }
            Item::Case {
                spot,
                operand,
                values,
            } => opened(around, inner, Open::case(alloc, spot, operand, values)),
            Item::Loop { spot, label, head } => {
                opened(around, inner, Open::turns(alloc, spot, label, head))
            }
            Item::Exception(conditions) => Ok(Making {
                around,
                inner: exception(alloc, inner, conditions)?,
            }),
            Item::Handler(conditions) => Ok(Making {
                around,
                inner: handler(alloc, inner, conditions)?,
            }),
            Item::Elsif(condition) => Ok(Making {
                around,
                inner: elsif(alloc, inner, condition)?,
            }),
            Item::Arm(values) => Ok(Making {
                around,
                inner: arm(alloc, inner, values)?,
            }),
            Item::Word(word) => with_word(alloc, around, inner, word),
        }
    }

    /// The body, if it is whole.
    pub fn body(self) -> Option<Body>
        ensures { result ≡ spec.body_of self }
    {
        let Making { around, inner } = self;
        let Open {
            section,
            statements,
            ..
        } = inner;
        let is_whole = is_body(section);
        if !is_whole || !around.is_empty() {
            return None;
        }
        only_body(statements)
    }
}

/// The body of a row of items is the one that has these items, in this order, if there is one.
pub fn one_tree()
    ensures is { (xs : Row OneItem) (body : Tree)
        → (spec.made xs ≡ Some body) ↔ (body_said body ≡ map item xs) }
{}
