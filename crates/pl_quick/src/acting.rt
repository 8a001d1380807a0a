//! What acts do, over the variables of the newest call.

ghost use Rattle.std.specs.Prelude.{◌≡◌, ℕ, Bool, IfSome, List, None, Option, Some};
ghost use Rattle.pl_bodies.specs.declared.simple.Simple.TheVariants as simple;
ghost use Rattle.pl_bodies.specs.declared.simple.Target.{Target};
ghost use Rattle.pl_bodies.specs.declared.statement.Branch.{Branch};
ghost use Rattle.pl_bodies.specs.declared.statement.Otherwise.{Otherwise};
ghost use Rattle.pl_bodies.specs.declared.statement.Statement.{Statement};
ghost use Rattle.pl_direct.specs.Known.{value_of};
ghost use Rattle.pl_engine.specs.pl_world.Assigning as assigning;
ghost use Rattle.pl_engine.specs.pl_world.Control.{jumped, jumps, returns};
ghost use Rattle.pl_engine.specs.pl_world.Errors.{Spot};
ghost use Rattle.pl_engine.specs.pl_world.Running.{Runner};
ghost use Rattle.pl_engine.specs.pl_world.Statements.{Layer, simple_form};
ghost use Rattle.pl_engine.specs.pl_world.World.{World, ends};
ghost use Rattle.pl_quick.specs.Acts.{AreFor, AreForBranches, IsForForm, IsForOne, IsGiven};
ghost use Rattle.pl_quick.specs.Acts.{IsReadIf, IsReturned};
ghost use Rattle.pl_quick.specs.Calling.{given_to};
ghost use Rattle.pl_quick.specs.Chosen.{AreFalse};
ghost use Rattle.pl_quick.specs.Computing as spec;
ghost use Rattle.pl_quick.specs.Old.{Tracked};
ghost use Rattle.pl_quick.specs.Scratch.{in_world};
ghost use Rattle.pl_tree.specs.declared.tree.Expr.{Expr};

use crate::act::{Act, Arm, Assign};
use crate::calls::{enter, leave_call};
use crate::old::assign;
use crate::reading::{number_or_truth, truth};
use crate::scratch::Scratch;
use pl_base::Shared;
use pl_bodies::Jump;
use pl_direct::Known;
use pl_direct::pl_scope::ResolvedExpr;
use pl_engine::Moment;

/// How acts ended.
#[derive(Clone, Copy)]
pub(crate) enum End {
    /// All of them were done.
    Next,
    /// EXIT of the loop itself.
    Exit,
    /// CONTINUE of the loop itself.
    Continue,
    /// RETURN
    Return(Known),
    /// One of them can't be done so: there is no step left, or a value is null, fails, or is none
    /// of those that are read at once.
    Left,
}

#[inline(always)]
fn known_value(scratch: &Scratch, e: &Shared<ResolvedExpr>) -> Option<Known>
    ensures { IfSome result (λ known. spec.IsValue e.now known scratch.now.values) }
{
    number_or_truth::<Moment>(e.get().typed.tree.get(), scratch.values.as_slice())
}

/// Whether a condition is true. None where that isn't read at once.
#[inline(always)]
pub(crate) fn holds(scratch: &Scratch, e: &Shared<ResolvedExpr>) -> Option<bool>
    ensures { IfSome result (λ b. spec.IsValue e.now (Known.Bool b) scratch.now.values) }
{
    truth::<Moment>(e.get().typed.tree.get(), scratch.values.as_slice())
}

// ---- statements that hold no other

/// A number or a truth goes into a variable.
pub(crate) fn put(known: Known, a: &Assign, scratch: &mut Scratch) -> End
    ensures computes { (w : World) → IfSome (spec.outcome_of result) (λ o.
        (at : Spot) (is_required : Bool)
        → assigning.put (given_to a.now is_required) (value_of known) at (in_world scratch.old w)
        ≡ ends o (in_world scratch.new w)) }
    ensures tracked { Tracked scratch.old scratch.new }
    ensures steps { scratch.new.steps ≡ scratch.old.steps }
{
    let Some(value) = known.fitted(&a.ty) else {
        return End::Left;
    };
    if assign(scratch, a.column, value) {
        End::Next
    } else {
        End::Left
    }
}

fn give(a: &Assign, scratch: &mut Scratch) -> End
    ensures computes { (w : World) → IfSome (spec.outcome_of result) (λ o.
        (r : Runner) (at : Spot) (t : Target) (e : Expr) → IsGiven a.now t e w
        → simple_form r at (simple.Assign t e) (in_world scratch.old w)
        ≡ ends o (in_world scratch.new w)) }
    ensures tracked { Tracked scratch.old scratch.new }
    ensures steps { scratch.new.steps ≡ scratch.old.steps }
{
    match known_value(&*scratch, &a.value) {
        Some(known) => put(known, a, scratch),
        None => End::Left,
    }
}

fn returned(value: &Shared<ResolvedExpr>, scratch: &Scratch) -> End
    ensures { (w : World) → IfSome (spec.outcome_of result) (λ o.
        (r : Runner) (at : Spot) (e : Expr) → IsReturned value.now e w
        → returns r at (Some e) (in_world scratch.now w) ≡ ends o (in_world scratch.now w)) }
{
    match known_value(scratch, value) {
        Some(known) => End::Return(known),
        None => End::Left,
    }
}

fn end_of(jump: Jump) -> End
    ensures { spec.outcome_of result ≡ Some (jumped jump None) }
{
    match jump {
        Jump::Exit => End::Exit,
        Jump::Continue => End::Continue,
    }
}

fn leave(jump: Jump, condition: &Option<Shared<ResolvedExpr>>, scratch: &Scratch) -> End
    ensures { (w : World) → IfSome (spec.outcome_of result) (λ o.
        (r : Runner) (at : Spot) (e : Option Expr) → IsReadIf condition.now e w
        → jumps r at jump None e (in_world scratch.now w) ≡ ends o (in_world scratch.now w)) }
{
    match condition {
        None => end_of(jump),
        Some(condition) => match holds(scratch, condition) {
            Some(true) => end_of(jump),
            Some(false) => End::Next,
            None => End::Left,
        },
    }
}

// ---- all of them

// An act, behind its step.
#[cycle(acting)]
#[inline(always)]
fn act_form(act: &Act, scratch: &mut Scratch, inner: &mut Scratch) -> End
    ensures computes { (w : World) → IfSome (spec.outcome_of result) (λ o.
        (n : ℕ) (k : Layer) → IsForForm n act.now k w
        → spec.FormComputes k o (in_world scratch.old w) (in_world scratch.new w)) }
    ensures tracked { Tracked scratch.old scratch.new }
{
    match act {
        Act::Nothing => End::Next,
        Act::Assign(a) => give(a, scratch),
        Act::Jump { jump, condition } => leave(*jump, condition, &*scratch),
        Act::Choose { arms, otherwise } => match choose(arms.as_slice(), scratch, inner) {
            Some(end) => end,
            None => act_all(otherwise.as_slice(), scratch, inner),
        },
        Act::Call { assign, ty, acts } => {
            if !enter(&assign.value, &*scratch, inner) {
                return End::Left;
            }
            let mut none = Scratch::new(inner.alloc);
            let end = act_all(acts.as_slice(), inner, &mut none);
            leave_call(end, assign, ty, inner.steps, scratch)
        }
        Act::Return(value) => returned(value, &*scratch),
    }
}

#[cycle(acting)]
#[inline(always)]
fn act_once(act: &Act, scratch: &mut Scratch, inner: &mut Scratch) -> End
    ensures computes { (w : World) → IfSome (spec.outcome_of result) (λ o.
        (n : ℕ) (s : Statement) → IsForOne n act.now s w
        → spec.OneComputes s o (in_world scratch.old w) (in_world scratch.new w)) }
    ensures tracked { Tracked scratch.old scratch.new }
{
    if !scratch.take_step() {
        return End::Left;
    }
    act_form(act, scratch, inner)
}

/// Acts one after another, up to the first that doesn't end with Next. What stands in the third
/// parameter doesn't matter: it lends its room to calls.
#[cycle(acting)]
pub(crate) fn act_all(acts: &[Act], scratch: &mut Scratch, inner: &mut Scratch) -> End
    ensures computes { (w : World) → IfSome (spec.outcome_of result) (λ o.
        (n : ℕ) (ss : List Statement) → AreFor n acts.now ss w
        → spec.AllCompute ss o (in_world scratch.old w) (in_world scratch.new w)) }
    ensures tracked { Tracked scratch.old scratch.new }
{
    for act in acts {
        match act_once(act, scratch, inner) {
            End::Next => {}
            other => return other,
        }
    }
    End::Next
}

// The acts of the first arm whose condition is true. None where there is no such arm, and then
// nothing is done.
#[cycle(acting)]
fn choose(arms: &[Arm], scratch: &mut Scratch, inner: &mut Scratch) -> Option<End>
    ensures chosen { (w : World) → IfSome result (λ end. IfSome (spec.outcome_of end) (λ o.
        (n : ℕ) (bs : List Branch) (e : Option Otherwise) → AreForBranches n arms.now bs w
        → spec.BranchesCompute bs e o (in_world scratch.old w) (in_world scratch.new w))) }
    ensures none { result ≡ None → AreFalse arms.now scratch.old scratch.new }
    ensures tracked { Tracked scratch.old scratch.new }
{
    for arm in arms {
        match holds(&*scratch, &arm.condition) {
            Some(true) => return Some(act_all(arm.acts.as_slice(), scratch, inner)),
            Some(false) => {}
            None => return Some(End::Left),
        }
    }
    None
}
