//! Copies of lists whose items own memory.

ghost use Rattle.std.specs.Prelude.{◌≡◌, Contains, IfOk};

use crate::List;
use std::alloc::{AllocError, Global};

/// A copy of the list, by a function that copies its items.
pub fn copy_each<T: Drop, F: Fn(&T) -> Result<T, AllocError>>(
    alloc: Global,
    list: &[T],
    copy: F,
) -> Result<List<T>, AllocError>
    requires callable { (item : _) → Contains list.now item.now → F.pre copy item }
    requires equal { (item : _) (made : _) → F.post copy item made → IfOk made (λ copied. copied ≡ item.now) }
    ensures { IfOk result (λ copied. copied ≡ list.now) }
{
    let mut copied = List::new(alloc);
    for item in list {
        copied.push(copy(item)?)?;
    }
    Ok(copied)
}
