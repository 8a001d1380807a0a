//! The objects, lent one after the other.

ghost use Rattle.std.specs.Prelude.{◌≡◌, drop, slice_get};
ghost use Rattle.std.specs.Option.{option_copied};
ghost use Rattle.pl_catalog.specs.Entries.{there};

use crate::Object;
use crate::entries::{Entry, first_there};
use std::marker::Model;

/// The objects that are still to be lent, in the order in which they were created. Contracts see
/// them.
#[derive(Drop)]
pub struct Objects<'a> {
    entries: &'a [Entry],
}

impl<'a> Model for Objects<'a> {
    ghost use Rattle.std.specs.Prelude.{List};
    ghost use Rattle.std.specs.Coded.{codes};
    ghost use Rattle.pl_catalog.specs.Entries.{there};
    ghost use Rattle.pl_catalog.specs.contracts.object.Object as object;
    ghost use Rattle.pl_catalog.specs.declared.object.Object as declared;

    ghost Value = { List declared.Object };

    ghost coded = { Prim.hlevel (codes, object.the_row.coded) };

    ghost view = { λ o. there o.entries.now };
}

impl<'a> Objects<'a> {
    pub(crate) fn new(entries: &'a [Entry]) -> Objects<'a>
        ensures { result ≡ there entries.now }
    {
        Objects { entries }
    }

    /// Lends the next one. None where none is left.
    pub fn lend(&mut self) -> Option<&'a Object>
        ensures lent { option_copied result ≡ slice_get self.old 0 }
        ensures rest { self.new ≡ drop 1 self.old }
    {
        match first_there(self.entries) {
            None => None,
            Some((object, rest)) => {
                self.entries = rest;
                Some(object)
            }
        }
    }
}
