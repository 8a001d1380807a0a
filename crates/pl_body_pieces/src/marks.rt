//! The marks that parts of the grammar begin with.

use pl_grammar::Mark;
use pl_lex::{Keyword, Sign};

// What opens a part of a statement that holds others.
pub(crate) const OPENING: [Mark; 6] = [
    Mark::Keyword(Keyword::If),
    Mark::Word("elsif"),
    Mark::Word("elseif"),
    Mark::Keyword(Keyword::Case),
    Mark::Keyword(Keyword::While),
    Mark::Keyword(Keyword::For),
];

// Statements that go elsewhere, and RAISE, ASSERT and GET.
pub(crate) const CONTROL: [Mark; 6] = [
    Mark::Word("exit"),
    Mark::Word("continue"),
    Mark::Word("return"),
    Mark::Word("raise"),
    Mark::Word("assert"),
    Mark::Word("get"),
];

// Statements on cursors.
pub(crate) const CURSOR: [Mark; 4] = [
    Mark::Word("open"),
    Mark::Word("fetch"),
    Mark::Word("move"),
    Mark::Word("close"),
];

pub(crate) const DEFINITION: [Mark; 2] = [Mark::Keyword(Keyword::Create), Mark::Word("drop")];

// What makes a name the variable that is assigned.
pub(crate) const ASSIGNING: [Mark; 3] = [
    Mark::Sign(Sign::Dot),
    Mark::Sign(Sign::Assign),
    Mark::Sign(Sign::Equal),
];
