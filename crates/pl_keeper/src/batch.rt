//! What one commit stored.

use pl_base::Op;

/// What one commit stored, as it is read back.
#[derive(Drop)]
pub struct Batch {
    /// The place of its frame's gate, as a byte of the area's file, counted from 0.
    pub at: u64,
    pub ops: Vec<Op>,
}
