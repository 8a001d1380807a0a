//! A number or none, in one word.

ghost use Rattle.std.specs.Prelude.{◌≡◌, ◌<◌, Some};

use std::marker::Model;

/// A number, or none.
#[derive(Clone, Copy)]
pub struct Link {
    /// 0 for none, else one more than the number.
    word: usize,
}

impl Model for Link {
    ghost use Rattle.std.specs.Prelude.{ℕ, Option};
    ghost use Rattle.pl_history.specs.Links.{number_in, word_of, word_back};

    ghost Value = { Option ℕ };

    ghost view = { λ l. number_in l.word };

    ghost inverse = { λ number. record { word = word_of number } };

    ghost inverse_ok = { λ l h i. record { word = word_back l.word i } };
}

impl Link {
    /// No number.
    pub(crate) const NONE: Link = Link { word: 0 };

    /// This number, which is one of so many.
    pub(crate) fn to(number: usize, count: usize) -> Link
        requires { number < count }
        ensures { result ≡ Some number }
    {
        Link { word: number + 1 }
    }

    /// The number, if there is one.
    pub(crate) fn get(self) -> Option<usize>
        ensures { result ≡ self }
    {
        if self.word == 0 {
            None
        } else {
            Some(self.word - 1)
        }
    }
}
