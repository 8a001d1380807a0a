//! What was found of a name.

ghost use Rattle.std.specs.Prelude.{◌≡◌};
ghost use Rattle.pl_names.specs.Names as spec;
ghost use Rattle.pl_typing.specs.Resolved.{Gives};

use pl_base::{State, Ty};
use pl_typing::ScopeFail;

/// What a name means: a place of the rows that stand, both numbers counted from 0.
#[derive(Clone, Copy)]
pub struct Meaning {
    pub row: usize,
    pub column: usize,
    pub ty: Ty,
    /// Whether it may not be named here.
    pub is_barred: bool,
}

/// What was found of a name.
#[derive(Clone, Copy)]
pub(crate) enum Found {
    Nothing,
    One(Meaning),
    Several,
}

impl Found {
    /// What both have together.
    pub(crate) fn also(self, other: Found) -> Found
        ensures { result ≡ spec.also self other }
    {
        match (self, other) {
            (Found::Nothing, other) => other,
            (found, Found::Nothing) => found,
            _ => Found::Several,
        }
    }

    /// What further in hides.
    pub(crate) fn nearer(self, outer: Found) -> Found
        ensures { result ≡ spec.nearer self outer }
    {
        match self {
            Found::Nothing => outer,
            inner => inner,
        }
    }

    /// Whether there is any.
    pub(crate) fn is_any(self) -> bool
        ensures { result ≡ spec.is_any self }
    {
        match self {
            Found::Nothing => false,
            Found::One(_) => true,
            Found::Several => true,
        }
    }

    /// The one meaning. 42703 where there is none, 42702 where there are several, 42P10 where it
    /// may not be named here.
    pub(crate) fn the_one(self) -> Result<Meaning, ScopeFail>
        ensures { Gives result (spec.the_one self) }
    {
        match self {
            Found::Nothing => Err(ScopeFail::State(State::UNDEFINED_COLUMN)),
            Found::One(meaning) => meaning.allowed(),
            Found::Several => Err(ScopeFail::State(State::AMBIGUOUS_COLUMN)),
        }
    }
}

impl Meaning {
    fn allowed(self) -> Result<Meaning, ScopeFail>
        ensures { Gives result (spec.allowed self) }
    {
        if self.is_barred {
            return Err(ScopeFail::State(State::INVALID_COLUMN_REFERENCE));
        }
        Ok(self)
    }
}

/// What two look-ups of a qualified name found together.
pub(crate) fn both(one: Option<Found>, other: Option<Found>) -> Option<Found>
    ensures { result ≡ spec.both one other }
{
    match (one, other) {
        (None, other) => other,
        (one, None) => one,
        (Some(one), Some(other)) => Some(one.also(other)),
    }
}

/// What further in hides, where something has the qualifier's name.
pub(crate) fn nearer_one(inner: Option<Found>, outer: Option<Found>) -> Option<Found>
    ensures { result ≡ spec.nearer_one inner outer }
{
    match inner {
        None => outer,
        inner => inner,
    }
}

/// What further in hides of one label: what it has itself.
pub(crate) fn nearer_labelled(inner: Option<Found>, outer: Option<Found>) -> Option<Found>
    ensures { result ≡ spec.nearer_labelled inner outer }
{
    match (inner, outer) {
        (None, outer) => outer,
        (inner, None) => inner,
        (Some(inner), Some(outer)) => Some(inner.nearer(outer)),
    }
}

/// The one meaning. 42P01 where nothing has the qualifier's name.
pub(crate) fn known_one(found: Option<Found>) -> Result<Meaning, ScopeFail>
    ensures { Gives result (spec.known_one found) }
{
    match found {
        None => Err(ScopeFail::State(State::UNDEFINED_TABLE)),
        Some(found) => found.the_one(),
    }
}
