//! RAISE, ASSERT and GET STACKED DIAGNOSTICS: PostgreSQL manual, "PL/pgSQL", "Errors and Messages",
//! "Trapping Errors".
#![tactic(auto)]

mod asserting;
mod diagnostics;
mod formatting;
mod handled;
mod raising;
mod repeating;
mod reports;
mod settling;
mod telling;
mod texts;

pub use asserting::assert;
pub use diagnostics::diagnose_stacked;
pub use raising::raise;
pub use repeating::again;
