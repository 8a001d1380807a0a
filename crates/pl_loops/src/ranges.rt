//! The numbers of a FOR.

ghost use Rattle.std.specs.Prelude.{◌≡◌, ◌<◌, ◌≤◌, IfSome, int_le, pos, false};
ghost use Rattle.pl_loops.specs.Ranges.{AreIntegers, Gives, numbers_in};
ghost use Rattle.pl_engine.specs.pl_world.Control as spec;

/// The numbers that are left, in the order of a FOR, each so far from the one before.
#[derive(Clone, Copy)]
pub(crate) struct Counting {
    pub(crate) first: i32,
    pub(crate) step: i32,
    pub(crate) count: u64,
}

impl Counting {
    /// The next number, if one is left.
    pub(crate) fn next(&mut self) -> Option<i32>
        requires integers { AreIntegers (numbers_in self.old) }
        ensures gives { Gives (numbers_in self.old) result (numbers_in self.new) }
        ensures fewer { IfSome result (λ _. self.new.count < self.old.count) }
        ensures integers { AreIntegers (numbers_in self.new) }
    {
        if self.count == 0 {
            return None;
        }
        let number = self.first;
        self.count -= 1;
        if self.count > 0 {
            self.first += self.step;
        }
        Some(number)
    }
}

// How many numbers there are from the low one to the high one, where every so many counts.
fn how_many(low: i32, high: i32, by: u32) -> u64
    requires by { 1 ≤ by }
    ensures { result ≡ spec.how_many low high by }
{
    if low > high {
        return 0;
    }
    u64::from(high.abs_diff(low) / by) + 1
}

/// The numbers from the first bound to the last one.
pub(crate) fn range(is_reverse: bool, first: i32, last: i32, by: i32) -> Counting
    requires by { int_le by (pos 0) ≡ false }
    ensures { numbers_in result ≡ spec.numbers is_reverse first last by }
{
    if is_reverse {
        return Counting {
            first,
            step: -by,
            count: how_many(last, first, by.unsigned_abs()),
        };
    }
    Counting {
        first,
        step: by,
        count: how_many(first, last, by.unsigned_abs()),
    }
}
