//! What a grammar asks of a token.

use pl_lex::{Keyword, Sign};

/// What a token may be.
#[derive(Clone, Copy)]
pub enum Mark {
    /// This reserved word.
    Keyword(Keyword),
    /// This sign.
    Sign(Sign),
    /// This word, which is not reserved. It is given in lower case.
    Word(&'static str),
    /// A name: a word that is not reserved, or one in quotes.
    Name,
    /// A number.
    Number,
    /// A text, however it is written.
    Text,
    /// A parameter.
    Parameter,
    /// A name, or a reserved word in its place.
    Label,
}
