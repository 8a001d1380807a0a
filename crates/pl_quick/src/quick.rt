//! How the rounds of one loop are done quickly.

ghost use Rattle.std.specs.Prelude.{◌≡◌, IfSome, List, Option};
ghost use Rattle.std.specs.Option.{option_copied};
ghost use Rattle.pl_bodies.specs.declared.statement.Statement.{Statement};
ghost use Rattle.pl_engine.specs.Engines.{kept, world};
ghost use Rattle.pl_engine.specs.pl_world.World.{World};
ghost use Rattle.pl_quick.specs.Acts.{PlanFits, RoundFits, Suits};
ghost use Rattle.pl_quick.specs.Computing.{OnlyComputed, TurnedAs};
ghost use Rattle.pl_quick.specs.declared.turning.Turned.TheVariants as turned;
ghost use Rattle.pl_tree.specs.declared.tree.Expr.{Expr};

use crate::making::{DEPTH, acts_for, asked_for};
use crate::scratch::Scratch;
use crate::turning::{Round, Turned, round_by};
use pl_bodies::Statement;
use pl_engine::{Engine, Spot};
use pl_tree::Expr;
use std::alloc::Global;

/// What the rounds of a loop do, where they only compute.
#[derive(Drop)]
enum Plan {
    /// It is made behind so many rounds, so that a loop of few needs none.
    Waiting(u32),
    Made(Round),
    /// There is none, or a round couldn't be done by it.
    GivenUp,
}

/// So many rounds of a loop are made without a plan.
const EARLY_ROUNDS: u32 = 2;

/// The rounds of a loop that only compute, done at once over the variables.
#[derive(Drop)]
pub struct Quick {
    plan: Plan,
    scratch: Scratch,
    /// Of calls.
    inner: Scratch,
}

// None where a statement does more than compute, or something isn't resolved.
fn round_for(
    engine: &mut Engine,
    at: Spot,
    condition: Option<&Expr>,
    body: &[Statement],
) -> Option<Round>
    ensures fits { IfSome result (λ round. RoundFits round (option_copied condition.entry) body.now
        (world engine.old)) }
    ensures is { world engine.new ≡ world engine.old }
    ensures keeps { kept engine.new ≡ kept engine.old }
{
    let acts = acts_for(engine, body, DEPTH, true)?;
    let condition = asked_for(engine, at, condition)?;
    Some(Round { condition, acts })
}

#[inline(never)]
fn made(engine: &mut Engine, at: Spot, condition: Option<&Expr>, body: &[Statement]) -> Plan
    ensures fits { PlanFits result (option_copied condition.entry) body.now (world engine.old) }
    ensures is { world engine.new ≡ world engine.old }
    ensures keeps { kept engine.new ≡ kept engine.old }
{
    match round_for(engine, at, condition, body) {
        Some(round) => Plan::Made(round),
        None => Plan::GivenUp,
    }
}

impl Quick {
    /// Before the first round of a loop.
    pub fn new(alloc: Global) -> Quick
        ensures { (condition : Option Expr) (body : List Statement) (w : World)
            → Suits result condition body w }
    {
        Quick {
            plan: Plan::Waiting(EARLY_ROUNDS),
            scratch: Scratch::new(alloc),
            inner: Scratch::new(alloc),
        }
    }

    /// The next round of the loop at this spot, of this condition and body, if it can be done at
    /// once. Where it can't, nothing of it is done, and the body's statements may change whatever
    /// they will.
    pub fn try_turn(
        &mut self,
        engine: &mut Engine,
        at: Spot,
        condition: Option<&Expr>,
        body: &[Statement],
    ) -> Turned
        requires suits { Suits self.old (option_copied condition) body.now
            (world engine.old) }
        ensures turned { TurnedAs result (option_copied condition.entry) body.now
            (world engine.old) (world engine.new) }
        ensures only { OnlyComputed (world engine.old) (world engine.new) }
        ensures suits { Suits self.new (option_copied condition.entry) body.now
            (world engine.new) }
        ensures left { result ≡ turned.Left
            → (w : World) → Suits self.new (option_copied condition.entry) body.now w }
        ensures keeps { kept engine.new ≡ kept engine.old }
    {
        self.wait(engine, at, condition, body);
        match &self.plan {
            Plan::Made(round) => match round_by(round, engine, &mut self.scratch, &mut self.inner) {
                Turned::Left => {
                    self.plan = Plan::GivenUp;
                    Turned::Left
                }
                other => other,
            },
            Plan::Waiting(_) => Turned::Left,
            Plan::GivenUp => Turned::Left,
        }
    }

    // Where the plan isn't made yet, a round less is waited for, or it is time for it.
    #[inline(always)]
    fn wait(&mut self, engine: &mut Engine, at: Spot, condition: Option<&Expr>, body: &[Statement])
        requires suits { Suits self.old (option_copied condition) body.now
            (world engine.old) }
        ensures suits { Suits self.new (option_copied condition.entry) body.now
            (world engine.old) }
        ensures is { world engine.new ≡ world engine.old }
        ensures keeps { kept engine.new ≡ kept engine.old }
    {
        match self.plan {
            Plan::Waiting(0) => self.plan = made(engine, at, condition, body),
            Plan::Waiting(rounds) => self.plan = Plan::Waiting(rounds - 1),
            _ => {}
        }
    }
}
