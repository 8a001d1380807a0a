//! The rules that a table sets for each row by itself: NOT NULL and CHECK.
#![tactic(auto)]

mod rules;

pub use rules::{RuleFail, check_row, holding_rows_break_nothing};
