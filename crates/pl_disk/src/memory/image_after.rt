//! What a crash may leave, followed from the notes of a host in memory.
ghost use Rattle.std.specs.Prelude.{◌≡◌, ◌≤◌, IfOk, length, take};
ghost use Rattle.pl_disk.specs.Replay.{image_of};
ghost use Rattle.pl_disk.specs.Picks.{chosen, notes_until, picked, picked_images, left_by};

use super::files::Files;
use super::note::{Change, Note};
use crate::Area;
use std::alloc::{AllocError, Global};

/// Which bytes a crash leaves where nothing is settled, that is in the ranges written since the last
/// sync.
#[derive(Clone, Copy, Debug, PartialEq, Eq)]
pub enum Pick {
    /// Those of the last sync, and the length of then.
    Old,
    /// Those that were written.
    New,
    /// This byte throughout.
    Fill(u8),
}

/// The files as reads give them, and as a crash leaves them by a pick.
#[derive(Drop)]
pub struct Picked {
    pub seen: Files,
    pub left: Files,
}

// The files that a crash leaves after one more write.
fn choose(
    alloc: Global,
    left: &Files,
    pick: Pick,
    area: Area,
    at: u64,
    bytes: &[u8],
) -> Result<Files, AllocError>
    ensures { IfOk result (λ next.
        image_of next ≡ chosen pick area at bytes.now (image_of left.now)) }
{
    match pick {
        Pick::Old => left.copied(alloc),
        Pick::New => left.put_in(alloc, area, at, bytes),
        Pick::Fill(byte) => {
            let filled = vec![in alloc; byte; bytes.len()]?;
            left.put_in(alloc, area, at, &filled)
        }
    }
}

// Both after one more change.
fn step(alloc: Global, before: &Picked, pick: Pick, change: &Change) -> Result<Picked, AllocError>
    ensures { IfOk result (λ after.
        picked_images after ≡ picked pick (picked_images before.now) change.now) }
{
    match change {
        Change::Wrote { area, at, bytes } => {
            let seen = before.seen.put_in(alloc, *area, *at, bytes)?;
            let left = choose(alloc, &before.left, pick, *area, *at, bytes)?;
            Ok(Picked { seen, left })
        }
        Change::Synced => {
            let seen = before.seen.copied(alloc)?;
            let left = before.seen.copied(alloc)?;
            Ok(Picked { seen, left })
        }
        Change::Said { .. } => {
            let seen = before.seen.copied(alloc)?;
            let left = before.left.copied(alloc)?;
            Ok(Picked { seen, left })
        }
    }
}

// How many notes were made until just after a call.
fn count_until(notes: &[Note], call: u64) -> usize
    ensures within { result ≤ length notes.now }
    ensures count { take result notes.now ≡ notes_until call notes.now }
{
    for (i, note) in notes.iter().enumerate() {
        if note.call > call {
            return i;
        }
    }
    notes.len()
}

/// What a crash just after a call leaves of the files that a host began with.
pub fn left_after(
    alloc: Global,
    first: &Files,
    notes: &[Note],
    call: u64,
    pick: Pick,
) -> Result<Files, AllocError>
    ensures { IfOk result (λ left.
        image_of left ≡ left_by pick (image_of first.now) (notes_until call notes.now)) }
{
    let count = count_until(notes, call);
    let seen = first.copied(alloc)?;
    let left = first.copied(alloc)?;
    let mut files = Picked { seen, left };
    for note in &notes[..count] {
        files = step(alloc, &files, pick, &note.change)?;
    }
    Ok(files.left)
}
