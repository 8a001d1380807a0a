//! What came of a run, as a text.

use std::alloc::Global;
use std::str::from_utf8;

/// A text that no test wants.
const LACKING: &str = "no memory, or no text";

/// A text that is written bit by bit. No call fails: where there was no memory for some of it, the
/// text is `LACKING` in the end.
#[derive(Drop)]
pub struct Report {
    alloc: Global,
    bytes: Vec<u8>,
    is_whole: bool,
}

impl Report {
    pub fn new(alloc: Global) -> Report {
        Report {
            alloc,
            bytes: Vec::new(alloc),
            is_whole: true,
        }
    }

    /// A text of which something is lacking.
    pub fn lacking(alloc: Global) -> Report {
        let mut report = Report::new(alloc);
        report.spoil();
        report
    }

    /// All that was written.
    pub fn text(&self) -> &str {
        if !self.is_whole {
            return LACKING;
        }
        from_utf8(self.bytes.as_slice()).unwrap_or(LACKING)
    }

    /// Notes that something is lacking.
    pub fn spoil(&mut self) {
        self.is_whole = false;
    }

    pub fn push(&mut self, bytes: &[u8]) {
        if self.bytes.extend_from_slice(bytes).is_err() {
            self.spoil();
        }
    }

    /// The number in digits.
    pub fn push_number(&mut self, number: u64) {
        match format!(in self.alloc; "{number}") {
            Ok(digits) => self.push(digits.as_bytes()),
            Err(_) => self.spoil(),
        }
    }

    /// The number and a blank.
    pub fn number(&mut self, number: u64) {
        self.push_number(number);
        self.push(b" ");
    }
}
