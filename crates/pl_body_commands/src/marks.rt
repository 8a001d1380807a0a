//! The marks that parts of the grammar begin with.

use pl_grammar::Mark;
use pl_lex::{Keyword, Sign};

// An expression.
pub(crate) const EXPRESSION: [Mark; 19] = [
    Mark::Keyword(Keyword::Not),
    Mark::Sign(Sign::Plus),
    Mark::Sign(Sign::Minus),
    Mark::Number,
    Mark::Text,
    Mark::Parameter,
    Mark::Name,
    Mark::Sign(Sign::Open),
    Mark::Keyword(Keyword::True),
    Mark::Keyword(Keyword::False),
    Mark::Keyword(Keyword::Null),
    Mark::Keyword(Keyword::Exists),
    Mark::Keyword(Keyword::Coalesce),
    Mark::Keyword(Keyword::Greatest),
    Mark::Keyword(Keyword::Least),
    Mark::Keyword(Keyword::Nullif),
    Mark::Keyword(Keyword::Cast),
    Mark::Keyword(Keyword::Row),
    Mark::Keyword(Keyword::Case),
];

pub(crate) const TRANSACTION: [Mark; 2] = [Mark::Word("commit"), Mark::Word("rollback")];

pub(crate) const CHANGE: [Mark; 3] = [
    Mark::Keyword(Keyword::Insert),
    Mark::Keyword(Keyword::Update),
    Mark::Keyword(Keyword::Delete),
];
