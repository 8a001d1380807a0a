//! The marks that parts of the grammar begin with.

use pl_grammar::Mark;
use pl_lex::{Keyword, Sign};

// Where the name of a cursor comes.
pub(crate) const FROM_OR_IN: [Mark; 2] = [Mark::Keyword(Keyword::From), Mark::Keyword(Keyword::In)];

// What a cursor's declaration has behind its name, and what stands behind that.
pub(crate) const CURSOR_WORDS: [Mark; 3] = [
    Mark::Word("no"),
    Mark::Word("scroll"),
    Mark::Word("cursor"),
];

pub(crate) const BEHIND_CURSOR_WORDS: [Mark; 5] = [
    Mark::Word("scroll"),
    Mark::Word("cursor"),
    Mark::Sign(Sign::Open),
    Mark::Keyword(Keyword::For),
    Mark::Keyword(Keyword::Is),
];
