//! Lists that are the same, one for one.

ghost use Rattle.std.specs.Prelude.{◌≡◌, true};

use crate::words::{same_name, same_sign, same_type};
use pl_base::{Name, Ty};
use pl_tree::Sign;

/// What lists are compared of, where it stands outside of the trees that hold one another.
pub(crate) trait Alike {
    fn is_alike(&self, other: &Self) -> bool
        ensures { result ≡ true → self.now ≡ other.now };
}

/// Whether both lists have the same items in the same order, by a function that says whether two
/// items are the same.
pub fn all_same<T, F: Fn(&T, &T) -> bool>(a: &[T], b: &[T], same: F) -> bool
    requires callable { (x y : _) → F.pre same x y }
    requires equal { (x y : _) (is : _) → F.post same x y is → is ≡ true → x.now ≡ y.now }
    ensures { result ≡ true → a.now ≡ b.now }
{
    let mut rest = b;
    for first in a {
        let Some((other, others)) = rest.split_first() else {
            return false;
        };
        if !same(first, other) {
            return false;
        }
        rest = others;
    }
    rest.is_empty()
}

pub(crate) fn all_alike<T: Alike>(a: &[T], b: &[T]) -> bool
    ensures { result ≡ true → a.now ≡ b.now }
{
    all_same(a, b, |first, other| first.is_alike(other))
}

impl Alike for Name {
    fn is_alike(&self, other: &Name) -> bool {
        same_name(self, other)
    }
}

impl Alike for Ty {
    fn is_alike(&self, other: &Ty) -> bool {
        same_type(self, other)
    }
}

impl Alike for Sign {
    fn is_alike(&self, other: &Sign) -> bool {
        same_sign(*self, *other)
    }
}
