//! Tables, as queries read them.

ghost use Rattle.std.specs.Prelude.{◌≡◌, IfOk, IfSome, List, ℕ};
ghost use Rattle.pl_base.specs.declared.value.Value as base;
ghost use Rattle.pl_query.specs.LeftOut.{LeavesOut};
ghost use Rattle.pl_value.specs.Frames.{rows_of};

use pl_base::Name;
use pl_resolved::RExpr;
use pl_value::Lent;
use std::alloc::{AllocError, Global};

/// The tables that queries read. They stay as they are while a query runs.
pub trait Tables {
    /// The rows of the table of a name, in the order of their ids; none of a table that is absent.
    ghost table: { Self → List ℕ → List (List base.Value) };

    /// Lends the rows of the table of this name.
    fn read<'t>(&'t self, alloc: Global, name: Name) -> Result<Vec<Lent<'t>>, AllocError>
        ensures { IfOk result (λ lent. rows_of lent.items ≡ table self.now name) };

    /// Lends the rows of the table of this name that a condition may pass behind the rows around,
    /// where they are found without the others: the others it turns down. None where they aren't.
    fn read_for<'t, 'e, C>(
        &'t self,
        alloc: Global,
        name: Name,
        condition: &'e RExpr,
        around: &[Lent<'e>],
    ) -> Result<Option<Vec<Lent<'t>>>, AllocError>
        ensures { IfOk result (λ few. IfSome few (λ lent. LeavesOut C condition.now
            (rows_of around.now) (table self.now name) (rows_of lent.items))) };
}
