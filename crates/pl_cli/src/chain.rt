//! How the promises of several runs over one store join.

ghost use Rattle.std.specs.Prelude.{◌≡◌, ◌∷◌, List, ℕ, Ok};
ghost use Rattle.pl_base.specs.Image.{Image};
ghost use Rattle.pl_undo.specs.Database.{Database};
ghost use Rattle.pl_session.specs.pl_world.Opening.{opens};
ghost use Rattle.pl_cli.specs.Covers.{CoveredRun, IsChain, Known, Ran};

use pl_disk::Host;

/// What holds of runs in a row, each of which began where the one before it was killed, lost its
/// power or came to its end.
pub fn joins<H: Host>()
    // At each moment of the last run, what was printed and what a crash leaves are known by them.
    ensures joins { (first : H) (run : Ran H) (earlier : List (Ran H))
        → IsChain H.view first earlier run.old
        → CoveredRun (H.view run.old) (H.view run.new) run.events run.db
        → (printed : List ℕ) (image : Image)
        → (H.view run.new).since (H.view run.old).moment printed image
        → Known H.view first (run ∷ earlier) printed image }

    // So are they where the next one begins.
    ensures begins { (first : H) (runs : List (Ran H)) (later : H) → IsChain H.view first runs later
        → (image : Image) → (H.view later).may_leave image
        → Known H.view first runs (H.view later).printed image }

    // Where the files opened at first, whatever a crash had left of them, they always do.
    ensures opens { (first : H) (runs : List (Ran H))
        → ((image : Image) → (H.view first).may_leave image
        → (db : Database) × (opens image ≡ Ok db))
        → (printed : List ℕ) (image : Image) → Known H.view first runs printed image
        → (db : Database) × (opens image ≡ Ok db) }
{}
