//! What the parsers share: rules of a grammar as values, a cursor over tokens, and how deep parts
//! nest.
#![tactic(auto)]

mod depth;
mod fail;
mod lists;
mod marks;
mod tokens;

pub use depth::{MAX_PARTS, deep};
pub use fail::{Fail, ParseFail};
pub use lists::{joined, links, list, many, whole};
pub use marks::Mark;
pub use tokens::Tokens;
