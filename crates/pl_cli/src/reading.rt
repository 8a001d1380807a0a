//! How the script is read.

ghost use Rattle.std.specs.Prelude.{◌≡◌, ◌<◌, ◌≤◌, ◌++◌, ◌∷◌, [], List, ℕ, length, Some, IfOk, IsErrOf, MatchOption, string_bytes};
ghost use Rattle.std.specs.Str.{IsUtf8, IsValidUpTo};
ghost use Rattle.pl_disk.specs.Disk.{Rises};
ghost use Rattle.pl_cli.specs.Script.{IsFirst, IsFlaw, IsScriptRead, IsTaken, script_text};
ghost use Rattle.pl_cli.specs.declared.reading.ReadFail.TheVariants.{Fault, Memory};

use memchr::memchr;
use pl_disk::Source;
use pl_lex::read_utf8;
use std::alloc::{AllocError, Global};

/// Why a script wasn't read.
#[derive(Clone, Copy, Debug, PartialEq, Eq)]
pub enum ReadFail {
    /// A call of the source failed.
    Fault,
    /// From this offset on it is no script: it isn't UTF-8 there, has a zero byte, or is longer
    /// than 16 MiB. Offsets are in bytes and count from 0.
    Refused { at: u64 },
    Memory,
}

impl From<AllocError> for ReadFail {
    ghost from_gives = { λ _ e. e ≡ Memory };

    fn from(_: AllocError) -> Self {
        ReadFail::Memory
    }
}

/// The most bytes of a script.
const MAX_SCRIPT: usize = 16_777_216;

/// The most bytes of a character.
const MAX_CHARACTER: usize = 4;

// All that is left, or more of it than a script has.
fn take_all<S: Source>(alloc: Global, source: &mut S) -> Result<Vec<u8>, ReadFail>
    requires { S.is_attached source.old }
    ensures attached { (names : List (List ℕ)) → S.attached source.old names
        → S.attached source.new names }
    ensures read { (left : List ℕ) → S.left source.old ≡ Some left
        → IsTaken left (S.left source.new) result }
    ensures fault { IsErrOf result ReadFail.Fault
        → Rises (S.faults source.old) (S.faults source.new) }
    ensures faults { S.faults source.old ≤ S.faults source.new }
{
    let mut text = Vec::new(alloc);
    let mut buffer = [0; 4096];
    'turns: loop {
        // A character that begins before the limit is there with all its bytes.
        if text.len() >= MAX_SCRIPT + MAX_CHARACTER {
            return Ok(text);
        }
        let Ok(taken) = source.take(&mut buffer) else {
            return Err(ReadFail::Fault);
        };
        if taken == 0 {
            return Ok(text);
        }
        text.extend_from_slice(&buffer[..taken])?;
    }
}

// How many bytes from the front are UTF-8.
fn text_end(bytes: &[u8]) -> usize
    ensures within { result ≤ length bytes.now }
    ensures ends { result < length bytes.now → IsValidUpTo bytes.now result }
    ensures text { result ≡ length bytes.now → IsUtf8 bytes.now }
    ensures least { (k : ℕ) → IsValidUpTo bytes.now k → result ≤ k }
{
    match read_utf8(bytes) {
        Ok(_) => bytes.len(),
        Err(error) => error.at,
    }
}

// The first offset from which on the bytes are no text.
fn first_flaw(bytes: &[u8]) -> Option<usize>
    ensures { MatchOption result (IsUtf8 bytes.now × ((k : ℕ) → IsFlaw bytes.now k → ⊥))
        (IsFirst (IsFlaw bytes.now)) }
{
    let end = text_end(bytes);
    match memchr(0, &bytes[..end]) {
        Some(at) => Some(at),
        None if end < bytes.len() => Some(end),
        None => None,
    }
}

/// A byte order mark in UTF-8.
const MARK: &str = "\u{feff}";

/// A script without the byte order mark that it may begin with.
pub fn without_mark(script: &str) -> &str
    ensures { result.now ≡ script_text script.now }
{
    match script.strip_prefix(MARK) {
        Some(rest) => rest,
        None => script,
    }
}

/// The script that is left in the source of this name, if it is one.
pub fn read_script<S: Source>(
    alloc: Global,
    source: &mut S,
    script: &str,
) -> Result<String, ReadFail>
    ensures short { IfOk result (λ text. length (string_bytes text) ≤ 16777216) }
    ensures attached { (names : List (List ℕ)) → S.attached source.old names
        → S.attached source.new (names ++ script.now ∷ []) }
    ensures read { (left : List ℕ) → S.left source.old ≡ Some left
        → IsScriptRead left (S.left source.new) result }
    ensures fault { IsErrOf result ReadFail.Fault
        → Rises (S.faults source.old) (S.faults source.new) }
    ensures faults { S.faults source.old ≤ S.faults source.new }
{
    let Ok(()) = source.attach(script) else {
        return Err(ReadFail::Fault);
    };
    let bytes = take_all(alloc, source)?;
    match first_flaw(&bytes) {
        Some(at) if at < MAX_SCRIPT => Err(ReadFail::Refused { at: at as u64 }),
        None if bytes.len() <= MAX_SCRIPT => {
            let Ok(script) = String::from_utf8(bytes) else {
                unreachable!()
            };
            Ok(script)
        }
        _ => Err(ReadFail::Refused {
            at: MAX_SCRIPT as u64,
        }),
    }
}
