//! Two lists, each of which says where a number stands in the other one.

ghost use Rattle.std.specs.Prelude.{◌≡◌, ◌<◌, ◌-◌, Some, None, length, take, slice_get, slice_set};
ghost use Rattle.pl_history.specs.Pairs.{Inverse, IsFree, IsFreeBeside};
ghost use Rattle.std.specs.Option.{ForSome};

use crate::links::Link;

/// Empties the place, and what it had has no place.
pub(crate) fn release(numbers: &mut Vec<Link>, places: &mut Vec<Link>, at: usize)
    requires there { at < length numbers.old.items }
    requires inverse { Inverse numbers.old.items places.old.items }
    ensures numbers { numbers.new.items ≡ slice_set numbers.old.items at None }
    ensures inverse { Inverse numbers.new.items places.new.items }
    ensures len { length places.new.items ≡ length places.old.items }
{
    if let Some(number) = numbers[at].get() {
        places[number] = Link::NONE;
        numbers[at] = Link::NONE;
    }
}

/// Puts the number, which is nowhere, at an empty place.
pub(crate) fn occupy(numbers: &mut Vec<Link>, places: &mut Vec<Link>, at: usize, number: usize)
    requires empty { slice_get numbers.old.items at ≡ Some None }
    requires known { number < length places.old.items }
    requires free { IsFree number numbers.old.items }
    requires inverse { Inverse numbers.old.items places.old.items }
    ensures numbers { numbers.new.items ≡ slice_set numbers.old.items at (Some number) }
    ensures inverse { Inverse numbers.new.items places.new.items }
    ensures len { length places.new.items ≡ length places.old.items }
{
    let there = Link::to(number, places.len());
    let back = Link::to(at, numbers.len());
    numbers[at] = there;
    places[number] = back;
}

/// Gives the place this number, or none.
pub(crate) fn put(numbers: &mut Vec<Link>, places: &mut Vec<Link>, at: usize, number: Option<usize>)
    requires there { at < length numbers.old.items }
    requires known { ForSome number (λ n. n < length places.old.items) }
    requires free { ForSome number (λ n. IsFreeBeside at n numbers.old.items) }
    requires inverse { Inverse numbers.old.items places.old.items }
    ensures numbers { numbers.new.items ≡ slice_set numbers.old.items at number }
    ensures inverse { Inverse numbers.new.items places.new.items }
    ensures len { length places.new.items ≡ length places.old.items }
{
    release(numbers, places, at);
    if let Some(number) = number {
        occupy(numbers, places, at, number);
    }
}

/// Takes the last place away, if there is one.
pub(crate) fn drop_last(numbers: &mut Vec<Link>, places: &mut Vec<Link>)
    requires inverse { Inverse numbers.old.items places.old.items }
    ensures numbers { numbers.new.items ≡ take (length numbers.old.items - 1) numbers.old.items }
    ensures inverse { Inverse numbers.new.items places.new.items }
    ensures len { length places.new.items ≡ length places.old.items }
{
    match numbers.pop() {
        None => {}
        Some(last) => match last.get() {
            Some(number) => places[number] = Link::NONE,
            None => {}
        },
    }
}
