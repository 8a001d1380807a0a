//! Headings of columns whose expressions have no name.

ghost use Rattle.std.specs.Prelude.{◌≡◌, ◌<◌, ◌≤◌, length};
ghost use Rattle.pl_typing.specs.Headings as spec;

use pl_base::{Name, Ty};
use pl_tree::Pick;

fn word(text: &str) -> Name
    requires { (0 < length text.now) × (length text.now ≤ 63) }
    ensures { result ≡ text.now }
{
    Name::of(text).unwrap()
}

pub(crate) fn exists_heading() -> Name
    ensures { result ≡ spec.exists_heading }
{
    word("exists")
}

pub(crate) fn case_heading() -> Name
    ensures { result ≡ spec.case_heading }
{
    word("case")
}

pub(crate) fn row_heading() -> Name
    ensures { result ≡ spec.row_heading }
{
    word("row")
}

pub(crate) fn null_if_heading() -> Name
    ensures { result ≡ spec.null_if_heading }
{
    word("nullif")
}

pub(crate) fn pick_heading(pick: Pick) -> Name
    ensures { result ≡ spec.pick_heading pick }
{
    match pick {
        Pick::Coalesce => word("coalesce"),
        Pick::Greatest => word("greatest"),
        Pick::Least => word("least"),
    }
}

/// The heading of a cast to the type: a cast to no type of a value has none.
fn type_heading(ty: &Ty) -> Name
    ensures { result ≡ spec.type_heading ty.now }
{
    match ty {
        Ty::Int => word("int4"),
        Ty::Big => word("int8"),
        Ty::Text => word("text"),
        Ty::Bool => word("bool"),
        Ty::Row(name) => *name,
        Ty::Unknown | Ty::Rec | Ty::Void | Ty::Trigger => Name::NONE,
    }
}

/// The heading of a cast: its operand's, or else the type's.
pub(crate) fn cast_heading(head: &Name, ty: &Ty) -> Name
    ensures { result ≡ spec.cast_heading head.now ty.now }
{
    if head.as_bytes().is_empty() {
        type_heading(ty)
    } else {
        *head
    }
}
