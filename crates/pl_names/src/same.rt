//! Names that are the same.

ghost use Rattle.std.specs.Prelude.{◌≡◌, bytes_eq};

use pl_base::Name;

/// Whether two names are one. Most that aren't differ in their first bytes.
pub fn is_same(a: &Name, b: &Name) -> bool
    ensures { result ≡ bytes_eq a.now b.now }
{
    let mut left = a.as_bytes();
    let mut right = b.as_bytes();
    while let [x, more @ ..] = left {
        match right {
            [y, rest @ ..] => {
                if *x != *y {
                    return false;
                }
                left = more;
                right = rest;
            }
            [] => return false,
        }
    }
    match right {
        [] => true,
        [_, ..] => false,
    }
}
