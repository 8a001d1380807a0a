//! Variables by their names. Nothing of a variable is copied while they are sought.

ghost use Rattle.std.specs.Prelude.{◌≡◌, ◌+◌, ◌<◌, ◌^◌, false, is_some, length, true, IfSome};
ghost use Rattle.pl_direct.specs.Search.{column_of, ty_of};
ghost use Rattle.pl_names.specs.Names as spec;

use pl_base::Name;
use pl_names::{Seen, Visible, is_same};

/// A variable that was found.
#[derive(Clone, Copy)]
pub struct Spot<'a> {
    /// Its place among the variables, counted from 0.
    pub column: usize,
    pub seen: &'a Seen,
}

// One more variable that has the name. None where there is one already.
fn also<'a>(found: Option<Spot<'a>>, column: usize, seen: &'a Seen) -> Option<Option<Spot<'a>>>
    ensures { IfSome result (λ all.
        spec.here (is_some all) 0 (column_of all) (ty_of all) false
        ≡ spec.also
        (spec.here (is_some found.entry) 0 (column_of found.entry) (ty_of found.entry) false)
        (spec.here true 0 column seen.now.ty false)) }
{
    match found {
        None => Some(Some(Spot { column, seen })),
        Some(_) => None,
    }
}

// What further in hides.
fn nearer<'a>(inner: Option<Spot<'a>>, outer: Option<Spot<'a>>) -> Option<Spot<'a>>
    ensures { spec.here (is_some result) 0 (column_of result) (ty_of result) false
        ≡ spec.nearer
        (spec.here (is_some inner.entry) 0 (column_of inner.entry) (ty_of inner.entry) false)
        (spec.here (is_some outer.entry) 0 (column_of outer.entry) (ty_of outer.entry) false) }
{
    match inner {
        None => outer,
        Some(spot) => Some(spot),
    }
}

// None where several have the name.
fn variables_named<'a>(name: &Name, place: usize, variables: &'a [Seen]) -> Option<Option<Spot<'a>>>
    requires room { place + length variables.now < 2 ^ 64 }
    ensures { IfSome result (λ found.
        spec.here (is_some found) 0 (column_of found) (ty_of found) false
        ≡ spec.variables_named name.now place variables.now) }
{
    let mut found = None;
    let mut at = place;
    let mut rest = variables;
    while let [variable, more @ ..] = rest {
        if is_same(&variable.name, name) {
            found = also(found, at, variable)?;
        }
        at += 1;
        rest = more;
    }
    Some(found)
}

/// The variable that the name means in these blocks, if it means one. None where several of a block
/// have the name, or where there are more than memory can hold.
pub(crate) fn variables_within<'a>(name: &Name, frames: &'a [Visible]) -> Option<Option<Spot<'a>>>
    ensures { IfSome result (λ found.
        spec.here (is_some found) 0 (column_of found) (ty_of found) false
        ≡ spec.variables_within name.now 0 frames.now) }
{
    let mut found = None;
    let mut place: usize = 0;
    let mut rest = frames;
    while let [frame, more @ ..] = rest {
        let next = place.checked_add(frame.variables.len())?;
        let here = variables_named(name, place, frame.variables.as_slice())?;
        found = nearer(here, found);
        place = next;
        rest = more;
    }
    Some(found)
}
