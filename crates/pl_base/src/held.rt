//! A value that is held while other calls may fail.

ghost use Rattle.std.specs.Prelude.{◌≡◌};

use std::marker::Model;

/// A value, seen by contracts as itself. Its drop is one call, so that a value of a large enum that
/// is held in it across a `?` is cheap to prove; at run time it is the value alone.
pub struct Held<T> {
    inner: T,
}

impl<T> Model for Held<T> {
    ghost Value = { T };

    ghost coded = { T.code };

    ghost view = { λ held. held.inner };
}

impl<T: Drop> Drop for Held<T> {
    fn drop(self) {
        let Held { inner: _inner } = self;
    }
}

impl<T: Drop> Held<T> {
    pub fn new(value: T) -> Held<T>
        ensures { result ≡ value }
    {
        Held { inner: value }
    }

    pub fn into_inner(self) -> T
        ensures { result ≡ self }
    {
        let Held { inner } = self;
        inner
    }

    pub fn get(&self) -> &T
        ensures { result.now ≡ self.now }
    {
        &self.inner
    }
}
