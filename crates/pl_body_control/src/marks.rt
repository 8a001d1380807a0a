//! The marks that parts of the grammar begin with.

use pl_grammar::Mark;
use pl_lex::{Keyword, Sign};

// A semicolon, or an expression.
pub(crate) const RETURNED: [Mark; 20] = [
    Mark::Sign(Sign::Semicolon),
    Mark::Keyword(Keyword::Not),
    Mark::Sign(Sign::Plus),
    Mark::Sign(Sign::Minus),
    Mark::Number,
    Mark::Text,
    Mark::Parameter,
    Mark::Name,
    Mark::Sign(Sign::Open),
    Mark::Keyword(Keyword::True),
    Mark::Keyword(Keyword::False),
    Mark::Keyword(Keyword::Null),
    Mark::Keyword(Keyword::Exists),
    Mark::Keyword(Keyword::Coalesce),
    Mark::Keyword(Keyword::Greatest),
    Mark::Keyword(Keyword::Least),
    Mark::Keyword(Keyword::Nullif),
    Mark::Keyword(Keyword::Cast),
    Mark::Keyword(Keyword::Row),
    Mark::Keyword(Keyword::Case),
];

pub(crate) const LEVELS: [Mark; 6] = [
    Mark::Word("debug"),
    Mark::Word("log"),
    Mark::Word("info"),
    Mark::Word("notice"),
    Mark::Word("warning"),
    Mark::Word("exception"),
];

// What may stand behind the level of RAISE.
pub(crate) const RAISED: [Mark; 4] = [
    Mark::Keyword(Keyword::Using),
    Mark::Word("sqlstate"),
    Mark::Name,
    Mark::Text,
];
