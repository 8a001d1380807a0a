//! The operations of a commit as bytes, and back, and what a store can hold.
#![tactic(auto)]

mod input;
mod operations;
mod payload;
mod storable;
mod values;

pub use operations::decode_all;
pub use payload::{encode, encode_all, push_define, push_next, push_put, push_remove};
pub use storable::{is_define_text, is_table_name, is_text};
