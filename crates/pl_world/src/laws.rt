//! Laws that the definitions keep.

ghost use Rattle.std.specs.Prelude.{◌≡◌, ◌++◌, ◌∷◌, [], Bool, false, length, List, Option};
ghost use Rattle.std.specs.Prelude.{ℕ, Some, suc, true};
ghost use Rattle.pl_base.specs.declared.fail.Fail.{Fail};
ghost use Rattle.pl_base.specs.declared.value.Value.{Value};
ghost use Rattle.pl_bodies.specs.declared.statement.Caught.{Caught};
ghost use Rattle.pl_bodies.specs.declared.statement.Handler.{Handler};
ghost use Rattle.pl_bodies.specs.declared.statement.Statement.{Statement};
ghost use Rattle.pl_meaning.specs.pl_catalog.declared.object.Routine.{Routine};
ghost use Rattle.pl_world.specs.Blocks.{deeper, handling, protected, sqlerrm_of, sqlstate_of};
ghost use Rattle.pl_world.specs.Calls.{Callee, can_be_called, left, popped};
ghost use Rattle.pl_world.specs.Running.{Bodies, Runner, Task, all};
ghost use Rattle.pl_meaning.specs.pl_names.Names.{Name};
ghost use Rattle.pl_world.specs.Conditions.{is_out_of_steps, matches};
ghost use Rattle.pl_world.specs.Laws.{IsFail, end_of, events, goes_on, world_behind};
ghost use Rattle.pl_world.specs.Sessions.{Save, place_of, saved};
ghost use Rattle.pl_world.specs.Statements.{run_within};
ghost use Rattle.pl_world.specs.World.{Ran, World, and_then};
ghost use Rattle.pl_world.specs.declared.outcome.Outcome.{Outcome};

/// What a run tells comes in the order of its parts, and so does the world that it leaves.
pub fn runs_join()
    ensures events { (ran : Ran Outcome) (k : Outcome → World → Ran Outcome)
        → events (and_then ran k) ≡ events ran ++ events (goes_on ran k) }
    ensures world { (ran : Ran Outcome) (k : Outcome → World → Ran Outcome)
        → world_behind (and_then ran k) ≡ world_behind (goes_on ran k) }
{}

/// A handler begins with the database of its block's entry, and with the variables, the steps and
/// ROW_COUNT of the failure.
pub fn handlers_begin()
    ensures database { (label : Option Name) (entry : World) (f : Fail) (w : World)
        → (handling label entry f w).database ≡ entry.database }
    ensures variables { (label : Option Name) (entry : World) (f : Fail) (w : World)
        → (handling label entry f w).frame.values
        ≡ (w.frame.values ++ sqlstate_of f ∷ []) ++ sqlerrm_of f ∷ [] }
    ensures steps { (label : Option Name) (entry : World) (f : Fail) (w : World)
        → (handling label entry f w).steps ≡ w.steps }
    ensures row_count { (label : Option Name) (entry : World) (f : Fail) (w : World)
        → (handling label entry f w).frame.row_count ≡ w.frame.row_count }
    ensures handled { (label : Option Name) (entry : World) (f : Fail) (w : World)
        → (handling label entry f w).frame.handled ≡ f ∷ w.frame.handled }
{}

/// A protected block whose statements don't fail leaves the database that they left.
pub fn protection_keeps()
    ensures database { (r : Runner) (label : Option Name) (ss : List Statement) (h : Handler)
        (hs : List Handler) (w : World) → (IsFail (end_of (all r ss (deeper w))) → ⊥)
        → (world_behind (protected r label ss (h ∷ hs) w)).database
        ≡ (world_behind (all r ss (deeper w))).database }
{}

/// Whatever a body ends with, its call is gone behind it, and nothing else of the world is changed.
pub fn calls_end()
    ensures world { (c : Callee) (o : Outcome) (w : World)
        → world_behind (left c o w) ≡ popped w }
{}

/// A routine that is called by its name has a value for each of its parameters.
pub fn parameters_have_values()
    ensures each { (is_command : Bool) (values : List Value) (r : Routine)
        → can_be_called is_command values r ≡ true → length values ≡ length r.heading.params }
{}

/// No condition of a handler matches the error that no step is left.
pub fn steps_end_all()
    ensures unmatched { (c : Caught) (f : Fail) → is_out_of_steps f ≡ true
        → matches c f ≡ false }
{}

/// Where no step is left it doesn't matter how deep tasks may stand: the number by which tasks are
/// defined ends nothing before the steps do.
pub fn steps_end_at_any_depth()
    ensures same { (bodies : Bodies) (n : ℕ) (t : Task) (w : World) → w.steps ≡ 0
        → run_within bodies (suc n) t w ≡ run_within bodies 0 t w }
{}

/// A savepoint that was just made is the one of its name, whichever savepoints there were before.
pub fn savepoints_are_found()
    ensures newest { (name : Name) (w : World) (saves : List Save)
        → place_of name (saves ++ saved name w ∷ []) ≡ Some (length saves) }
{}
