//! What is copied at the cost of memory.

ghost use Rattle.std.specs.Prelude.{◌≡◌, IfOk};

use pl_base::{List, copy_each};
use std::alloc::{AllocError, Global};

/// A value that is copied at the cost of memory.
pub trait Copied: Drop {
    /// A copy, which equals its source.
    fn copy(&self, alloc: Global) -> Result<Self, AllocError>
        ensures { IfOk result (λ copied. copied ≡ self.now) };
}

/// A copy of the list.
pub fn copy_list<T: Copied>(alloc: Global, list: &[T]) -> Result<List<T>, AllocError>
    ensures { IfOk result (λ copied. copied ≡ list.now) }
{
    copy_each(alloc, list, |item| item.copy(alloc))
}
