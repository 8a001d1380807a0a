//! What the front of a file tells, so that another file isn't taken for a store.
ghost use Rattle.std.specs.Prelude.{◌≡◌, ◌↔◌, IsTrue};
ghost use Rattle.pl_files.specs.Front.{front_of, MayBeStore};

/// The gate of an area.
const OPEN: u8 = 1;

const CLOSED: u8 = 0;

/// The word behind the gate.
const WORD: &[u8] = b"PLPGST01";

/// How many bytes at a file's front tell what it is.
pub(crate) const FRONT_LEN: usize = 9;

/// The greatest length in bytes of an area that was never opened.
const MAX_UNOPENED_LEN: u64 = 18;

/// What the front of a file tells.
#[derive(Clone, Copy, Debug, PartialEq, Eq)]
pub enum Front {
    /// It begins as an open area.
    Open,
    /// An area that was never opened may begin so and be so long.
    Unopened,
    /// Neither.
    Other,
}

impl Front {
    /// What is told by the length of a file in bytes and by its front: `FRONT_LEN` bytes, or all of
    /// a shorter file.
    pub(crate) fn of(len: u64, bytes: &[u8]) -> Front
        ensures { result ≡ front_of len bytes.now }
    {
        let behind_gate = if bytes.is_empty() { bytes } else { &bytes[1..] };
        if bytes.starts_with(&[OPEN]) {
            Front::Open
        } else if len <= MAX_UNOPENED_LEN
            && (bytes.starts_with(&[CLOSED]) || WORD.starts_with(behind_gate))
        {
            Front::Unopened
        } else {
            Front::Other
        }
    }
}

/// Whether two files that begin so may be the areas of a store. Each crash leaves an open one, or
/// two that were never opened.
pub(crate) fn may_be_store(a: Front, b: Front) -> bool
    ensures { IsTrue result ↔ MayBeStore a b }
{
    matches!(
        (a, b),
        (Front::Open, _) | (_, Front::Open) | (Front::Unopened, Front::Unopened)
    )
}
