//! What the tree of a place was resolved to.

ghost use Rattle.std.specs.Prelude.{◌≡◌, true, List, IfOk, IfSome};
ghost use Rattle.pl_catalog.specs.declared.object.Object.{Object};
ghost use Rattle.pl_plans.specs.Plans.{AreMade, IsMade, IsOf};

use crate::scopes::{is_same_scope, share_scope};
use crate::trees::Tree;
use pl_base::Shared;
use pl_names::Scope;
use std::alloc::{AllocError, Global};

/// What the tree of a place was resolved to.
#[derive(Drop)]
pub struct Plan<T, R> {
    /// Any number: plans of other places are passed by without a look at their trees. It also
    /// chooses the plan that makes room for this one, where no more are kept.
    pub(crate) place: u64,
    pub(crate) tree: T,
    /// The scope that it was resolved in.
    pub(crate) scope: Shared<Scope>,
    pub(crate) made: Shared<R>,
    /// So many others are turned away before it makes room for one. It has all of them again
    /// whenever it is found.
    pub(crate) chances: u32,
}

/// So many plans are kept at the most.
const LIMIT: usize = 64;

/// The chances of a plan that is new or was found. With none, a loop of more statements than plans
/// are kept would replace each before it is found.
const CHANCES: u32 = 4;

// Whether the plan is for this tree in this scope.
fn is_for<T: Tree<R>, R>(plan: &Plan<T, R>, scope: &Scope, tree: &T) -> bool
    ensures { result ≡ true → IsOf scope.now tree.now plan.now }
{
    plan.tree.is_same(tree) && is_same_scope(plan.scope.get(), scope)
}

// What the plan is for, one owner more. The plan has all its chances again.
fn share<T: Tree<R>, R: Drop>(plan: &mut Plan<T, R>, scope: &Scope, tree: &T) -> Option<Shared<R>>
    ensures gives { IfSome result (λ made. (objects : List Object)
        → IsMade T.meaning objects plan.old
        → T.meaning objects scope.now tree.now ≡ Ok made) }
    ensures made { (objects : List Object) → IsMade T.meaning objects plan.old
        → IsMade T.meaning objects plan.new }
{
    if !is_for(plan, scope, tree) {
        return None;
    }
    plan.chances = CHANCES;
    plan.made.share().ok()
}

/// What the tree of this place was resolved to, where it is kept.
pub(crate) fn find<T: Tree<R>, R: Drop>(
    plans: &mut Vec<Plan<T, R>>,
    place: u64,
    scope: &Scope,
    tree: &T,
) -> Option<Shared<R>>
    ensures gives { IfSome result (λ made. (objects : List Object)
        → AreMade T.meaning objects plans.old.items
        → T.meaning objects scope.now tree.now ≡ Ok made) }
    ensures made { (objects : List Object) → AreMade T.meaning objects plans.old.items
        → AreMade T.meaning objects plans.new.items }
{
    for plan in plans.iter_mut() {
        if plan.place == place {
            if let Some(made) = share(plan, scope, tree) {
                return Some(made);
            }
        }
    }
    None
}

// A plan with a copy of the tree, which shares the scope.
fn plan_for<T: Tree<R>, R: Drop>(
    alloc: Global,
    newest: &mut Option<Shared<Scope>>,
    place: u64,
    scope: &Scope,
    tree: &T,
    made: &Shared<R>,
) -> Result<Plan<T, R>, AllocError>
    ensures { IfOk result (λ plan. (objects : List Object)
        → T.meaning objects scope.now tree.now ≡ Ok made.now
        → IsMade T.meaning objects plan) }
{
    Ok(Plan {
        place,
        tree: tree.copy(alloc)?,
        scope: share_scope(alloc, newest, scope)?,
        made: made.share()?,
        chances: CHANCES,
    })
}

// Which plan makes room for one of this place. The factor, 2^64 by the golden ratio, spreads places
// whatever their distance.
fn room_of(place: u64) -> usize {
    let spread = place.wrapping_mul(0x9E37_79B9_7F4A_7C15) >> 32;
    (spread % LIMIT as u64) as usize
}

/// Keeps what the tree of this place was resolved to, behind the others or over one that has no
/// chances left. Where that one has some, it loses one, and nothing is copied.
pub(crate) fn keep<T: Tree<R>, R: Drop>(
    alloc: Global,
    plans: &mut Vec<Plan<T, R>>,
    newest: &mut Option<Shared<Scope>>,
    place: u64,
    scope: &Scope,
    tree: &T,
    made: &Shared<R>,
) -> Result<(), AllocError>
    ensures { (objects : List Object) → T.meaning objects scope.now tree.now ≡ Ok made.now
        → AreMade T.meaning objects plans.old.items → AreMade T.meaning objects plans.new.items }
{
    if plans.len() < LIMIT {
        let plan = plan_for(alloc, newest, place, scope, tree, made)?;
        plans.push(plan)?;
        return Ok(());
    }
    if let Some(older) = plans.get_mut(room_of(place)) {
        if older.chances > 0 {
            older.chances -= 1;
        } else {
            *older = plan_for(alloc, newest, place, scope, tree, made)?;
        }
    }
    Ok(())
}
