//! Keys at places, and the undoing of changes.

ghost use Rattle.std.specs.Prelude.{◌≡◌, ◌<◌, ◌≤◌, ◌∷◌, ◌++◌, ◌↔◌, ℕ, [], Some, length};
ghost use Rattle.std.specs.Prelude.{slice_get, slice_set, IfOk, OnOk, OnErr};
ghost use Rattle.std.specs.Option.{ForSome};
ghost use Rattle.pl_history.specs.History.{back, changed, settled};
ghost use Rattle.pl_unique.specs.Key.{IsFree, IsFreeBeside};
ghost use Rattle.pl_unique.specs.Numbered.{known};

use crate::known::Keys;
use crate::{KeyParts, Part};
use pl_history::Pairs;
use std::alloc::{AllocError, Global};
use std::marker::Model;

/// Keys at places, each at one place at most. Places count from 0.
#[derive(Drop)]
pub struct KeyMap {
    /// Each key that a place has or had.
    keys: Keys,
    /// The number of each place's key.
    numbers: Pairs,
}

impl Model for KeyMap {
    ghost use Rattle.std.specs.Prelude.{◌≤◌, ◌∷◌, List, Option, length};
    ghost use Rattle.std.specs.Coded.{codes};
    ghost use Rattle.std.specs.List.{AllByRecursion};
    ghost use Rattle.pl_history.specs.History.{History, seen_as};
    ghost use Rattle.pl_unique.specs.declared.key.Part as key;
    ghost use Rattle.pl_unique.specs.contracts.key.Part as part;
    ghost use Rattle.pl_unique.specs.Numbered.{keys_at, Known};

    ghost Value = { History (List (Option (List key.Part))) };

    ghost coded = { Prim.hlevel (codes, part.the_row.coded) };

    ghost view = { λ m. seen_as (keys_at m.keys) m.numbers.numbers };

    ghost invariant = { λ m. (length m.keys ≤ m.numbers.count)
        × AllByRecursion (Known (length m.keys))
        (m.numbers.numbers.current ∷ m.numbers.numbers.past) };
}

impl KeyMap {
    /// No places.
    pub fn new(alloc: Global) -> KeyMap
        ensures current { result.current ≡ [] }
        ensures past { result.past ≡ [] }
    {
        KeyMap {
            keys: Keys::new(alloc),
            numbers: Pairs::new(alloc),
        }
    }

    /// How many places there are.
    pub fn len(&self) -> usize
        ensures { result ≡ length self.now.current }
    {
        self.numbers.len()
    }

    /// The place that has this key. None where no place has it.
    #[inline]
    pub fn place_of(&self, key: &[Part]) -> Option<usize>
        ensures { (at : _) → (result ≡ Some at)
            ↔ (slice_get self.now.current at ≡ Some (Some key.now)) }
    {
        match self.keys.number_of(key) {
            Some(number) => self.numbers.place_of(number),
            None => None,
        }
    }

    /// A place more, behind the others, with this key or none.
    pub fn push(&mut self, key: Option<KeyParts>) -> Result<(), AllocError>
        requires free { ForSome key (λ k. IsFree k self.old.current) }
        ensures ok { OnOk result (self.new
            ≡ changed (self.old.current ++ key ∷ []) self.old) }
        ensures err { OnErr result (self.new ≡ self.old) }
    {
        let number = number_for(&mut self.keys, &mut self.numbers, key)?;
        self.numbers.push(number)?;
        Ok(())
    }

    /// Gives the place another key, or none.
    pub fn set(&mut self, at: usize, key: Option<KeyParts>) -> Result<(), AllocError>
        requires there { at < length self.old.current }
        requires free { ForSome key (λ k. IsFreeBeside at k self.old.current) }
        ensures ok { OnOk result (self.new
            ≡ changed (slice_set self.old.current at key) self.old) }
        ensures err { OnErr result (self.new ≡ self.old) }
    {
        let number = number_for(&mut self.keys, &mut self.numbers, key)?;
        self.numbers.set(at, number)?;
        Ok(())
    }

    /// Undoes the newest change, if there is one.
    pub fn undo(&mut self)
        ensures back { self.new ≡ back self.old }
    {
        self.numbers.undo();
    }

    /// No change can be undone from now on.
    pub fn forget(&mut self)
        ensures settled { self.new ≡ settled self.old }
    {
        self.numbers.forget();
    }
}

// The number of the key, which is added where it isn't there.
fn number_for(
    keys: &mut Keys,
    numbers: &mut Pairs,
    key: Option<KeyParts>,
) -> Result<Option<usize>, AllocError>
    requires { length keys.old ≤ numbers.old.count }
    ensures numbers { numbers.new.numbers ≡ numbers.old.numbers }
    ensures room { length keys.new ≤ numbers.new.count }
    ensures more { length keys.old ≤ length keys.new }
    ensures kept { (n : ℕ) → n < length keys.old → slice_get keys.new n ≡ slice_get keys.old n }
    ensures within { IfOk result (λ number. ForSome number (λ n. n < length keys.new)) }
    ensures is { IfOk result (λ number. known keys.new number ≡ key) }
{
    let Some(key) = key else {
        return Ok(None);
    };
    if let Some(number) = keys.number_of(key.as_slice()) {
        return Ok(Some(number));
    }
    numbers.widen()?;
    let number = keys.add(key)?;
    Ok(Some(number))
}
