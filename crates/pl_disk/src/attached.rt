//! The names that a host or a script in memory was given.
ghost use Rattle.std.specs.Prelude.{ℕ, List, [], ◌∷◌, ◌++◌};

use std::alloc::Global;

/// The names that `attach` was given, as far as they are kept.
#[derive(Drop)]
pub enum Attached {
    Nothing,
    Once(Vec<u8>),
    /// One, which isn't kept.
    Lost,
    /// Two or more, which aren't kept.
    More,
}

impl Attached {
    ghost use Rattle.pl_disk.specs.Attached.{AreAttached, IsGiven};

    /// Takes one name more. Where there is no memory for it, it isn't kept.
    pub fn add(&mut self, alloc: Global, name: &str)
        ensures names { (names : List (List ℕ)) → AreAttached self.old names
            → AreAttached self.new (names ++ name.now ∷ []) }
        ensures some { IsGiven (AreAttached self.new) }
    {
        *self = match self {
            Attached::Nothing => match name.as_bytes().to_vec(alloc) {
                Ok(kept) => Attached::Once(kept),
                Err(_) => Attached::Lost,
            },
            _ => Attached::More,
        };
    }

    /// Takes one name more without keeping it.
    pub fn add_lost(&mut self)
        ensures names { (name : List ℕ) (names : List (List ℕ)) → AreAttached self.old names
            → AreAttached self.new (names ++ name ∷ []) }
        ensures some { IsGiven (AreAttached self.new) }
    {
        *self = match self {
            Attached::Nothing => Attached::Lost,
            _ => Attached::More,
        };
    }
}
