//! What a host in memory notes of its calls.

use crate::Area;

/// What a call changed.
#[derive(Drop)]
pub enum Change {
    Wrote { area: Area, at: u64, bytes: Vec<u8> },
    Synced,
    Said { text: Vec<u8> },
}

/// A change, and the number of the call that made it, counted from 0. A call that changed nothing
/// has no note.
#[derive(Drop)]
pub struct Note {
    pub call: u64,
    pub change: Change,
}
