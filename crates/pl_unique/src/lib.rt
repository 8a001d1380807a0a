//! Keys of rows at places, each found by a map: what UNIQUE and PRIMARY KEY forbid to stand twice.
#![tactic(auto)]

mod key;
mod key_map;
mod key_parts;
mod known;
mod row_keys;

pub use key::{Letters, Part, key_of};
pub use key_map::KeyMap;
pub use key_parts::KeyParts;
pub use row_keys::{Key, KeyFail, change_keys, forget_keys, new_keys, undo_keys};
