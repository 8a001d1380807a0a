//! A turn of a loop by the acts of its statements.

ghost use Rattle.std.specs.Prelude.{◌≡◌, [], ℕ, IfSome, List, None, Option};
ghost use Rattle.pl_bodies.specs.declared.statement.Statement.{Statement};
ghost use Rattle.pl_engine.specs.Engines.{kept, world};
ghost use Rattle.pl_engine.specs.pl_world.World.{World};
ghost use Rattle.pl_quick.specs.Acts.{AreFor, RoundFits};
ghost use Rattle.pl_quick.specs.Computing.{IsAsked, OnlyComputed, TurnedAs};
ghost use Rattle.pl_quick.specs.Old.{undone_in};
ghost use Rattle.pl_quick.specs.Scratch.{in_world};
ghost use Rattle.pl_tree.specs.declared.tree.Expr.{Expr};

use crate::act::Act;
use crate::acting::{End, act_all, holds};
use crate::old::undo;
use crate::scratch::Scratch;
use pl_base::{List, Shared};
use pl_direct::pl_scope::ResolvedExpr;
use pl_engine::Engine;
use std::mem;

/// What came of a round of a loop: its condition is asked, if it has one, and there is a turn where
/// it is true.
#[derive(Clone, Copy)]
pub enum Turned {
    /// It is done, and the loop goes on.
    On,
    /// It is done, and the loop is over.
    Over,
    /// Nothing of it is done.
    Left,
}

/// What the rounds of a loop do, with names resolved.
#[derive(Drop)]
pub(crate) struct Round {
    /// WHILE
    pub condition: Option<Shared<ResolvedExpr>>,
    pub acts: List<Act>,
}

// ---- over the variables alone

// All is again as it was.
fn take_back(scratch: &mut Scratch, steps: u64)
    ensures values { scratch.new.values ≡ undone_in scratch.old }
    ensures steps { scratch.new.steps ≡ steps }
{
    undo(scratch);
    scratch.steps = steps;
}

// A turn, which takes a step, and its statements. Where one of them can't be done so, nothing is;
// nor where one is a RETURN, which ends more than the loop.
fn turn_in(acts: &[Act], scratch: &mut Scratch, inner: &mut Scratch) -> Turned
    requires none { scratch.old.olds.items ≡ [] }
    ensures { (w : World) (n : ℕ) (body : List Statement) → AreFor n acts.now body w
        → TurnedAs result None body (in_world scratch.old w) (in_world scratch.new w) }
{
    let steps = scratch.steps;
    if !scratch.take_step() {
        return Turned::Left;
    }
    match act_all(acts, scratch, inner) {
        End::Next => Turned::On,
        End::Continue => Turned::On,
        End::Exit => Turned::Over,
        End::Return(_) => {
            take_back(scratch, steps);
            Turned::Left
        }
        End::Left => {
            take_back(scratch, steps);
            Turned::Left
        }
    }
}

// Whether there is a turn. None where that isn't read at once.
#[inline(always)]
fn asked(condition: &Option<Shared<ResolvedExpr>>, scratch: &Scratch) -> Option<bool>
    ensures { IfSome result (λ b. (w : World) → IsAsked condition.now b (in_world scratch.now w)) }
{
    match condition {
        None => Some(true),
        Some(condition) => holds(scratch, condition),
    }
}

fn round_in(round: &Round, scratch: &mut Scratch, inner: &mut Scratch) -> Turned
    requires none { scratch.old.olds.items ≡ [] }
    ensures { (w : World) (condition : Option Expr) (body : List Statement)
        → RoundFits round.now condition body w
        → TurnedAs result condition body (in_world scratch.old w) (in_world scratch.new w) }
{
    match asked(&round.condition, &*scratch) {
        Some(true) => turn_in(round.acts.as_slice(), scratch, inner),
        Some(false) => Turned::Over,
        None => Turned::Left,
    }
}

// ---- over the engine

// The variables of the newest call, and the steps that are left.
fn take(engine: &mut Engine, scratch: &mut Scratch)
    ensures is { in_world scratch.new (world engine.new) ≡ world engine.old }
    ensures none { scratch.new.olds.items ≡ [] }
    ensures keeps { kept engine.new ≡ kept engine.old }
{
    let none = List::new(engine.alloc());
    scratch.olds.clear();
    scratch.steps = engine.steps();
    scratch.values = engine.exchange_values(none);
}

// They are the engine's again.
fn give(engine: &mut Engine, scratch: &mut Scratch)
    ensures is { world engine.new ≡ in_world scratch.old (world engine.old) }
    ensures keeps { kept engine.new ≡ kept engine.old }
{
    let none = List::new(engine.alloc());
    let values = mem::replace(&mut scratch.values, none);
    engine.exchange_values(values);
    engine.give_steps(scratch.steps);
}

/// A round by what it does.
pub(crate) fn round_by(
    round: &Round,
    engine: &mut Engine,
    scratch: &mut Scratch,
    inner: &mut Scratch,
) -> Turned
    ensures turned { (condition : Option Expr) (body : List Statement)
        → RoundFits round.now condition body (world engine.old)
        → TurnedAs result condition body (world engine.old) (world engine.new) }
    ensures only { OnlyComputed (world engine.old) (world engine.new) }
    ensures keeps { kept engine.new ≡ kept engine.old }
{
    take(engine, scratch);
    let turned = round_in(round, scratch, inner);
    give(engine, scratch);
    turned
}
