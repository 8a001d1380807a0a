//! Where the script comes from.
ghost use Rattle.std.specs.Prelude.{◌≡◌, ◌≤◌, ◌++◌, ◌∷◌, ◌⊎◌, [], List, ℕ, length, take, drop, Option, Some, IfOk, OnOk, IsErr};
ghost use Rattle.pl_disk.specs.Disk.{Rises};

use crate::Failed;

/// A script that is read once, from its front. A call fails only where the count of failures rose.
pub trait Source {
    /// What is left, where that is told.
    ghost left: { Self → Option (List ℕ) };

    /// These names, in order, may be all that `attach` was given so far.
    ghost attached: { Self → List (List ℕ) → Type 0 };

    /// That a script is attached, so that it may be read. `attach` alone gives it.
    ghost is_attached: { Self → Type 0 };

    /// How often it failed.
    ghost faults: { Self → ℕ };

    /// Takes the script of this name, before any other call. It reads nothing.
    fn attach(&mut self, script: &str) -> Result<(), Failed>
        ensures attached { (names : List (List ℕ)) → attached self.old names
            → attached self.new (names ++ script.now ∷ []) }
        ensures is_attached { OnOk result (is_attached self.new) }
        ensures left { OnOk result (left self.new ≡ left self.old) }
        ensures faults { faults self.old ≤ faults self.new }
        ensures cause { IsErr result → Rises (faults self.old) (faults self.new) };

    /// Moves the next bytes to the front of the buffer, at most as many as it has room for, and gives
    /// their number. Zero for a buffer that isn't empty is the end.
    fn take(&mut self, into: &mut [u8]) -> Result<usize, Failed>
        requires { is_attached self.old }
        ensures attached { (names : List (List ℕ)) → attached self.old names
            → attached self.new names }
        ensures is_attached { is_attached self.new }
        ensures within { IfOk result (λ n. n ≤ length into.old) }
        ensures moved { (rest : List ℕ) → left self.old ≡ Some rest → IfOk result (λ n.
            (n ≤ length rest)
            × (into.new ≡ take n rest ++ drop n into.old)
            × (left self.new ≡ Some (drop n rest))
            × (n ≡ 0 → (length into.old ≡ 0) ⊎ (rest ≡ []))) }
        ensures faults { faults self.old ≤ faults self.new }
        ensures cause { IsErr result → Rises (faults self.old) (faults self.new) };
}
