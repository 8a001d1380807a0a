//! An outline that is written word by word.

use pl_base::{Name, Ty};
use std::alloc::Global;
use std::str::from_utf8;

/// A text that no table wants.
const LACKING: &str = "no memory, or no text";

/// Words with blanks between them. No call fails: where there was no memory for a word, the text is
/// `LACKING` in the end.
#[derive(Drop)]
pub(crate) struct Words {
    alloc: Global,
    bytes: Vec<u8>,
    is_whole: bool,
}

impl Words {
    pub(crate) fn new(alloc: Global) -> Words {
        Words {
            alloc,
            bytes: Vec::new(alloc),
            is_whole: true,
        }
    }

    /// All that was written.
    pub(crate) fn text(&self) -> &str {
        if !self.is_whole {
            return LACKING;
        }
        from_utf8(self.bytes.as_slice()).unwrap_or(LACKING)
    }

    /// Notes that something is lacking.
    pub(crate) fn spoil(&mut self) {
        self.is_whole = false;
    }

    /// Goes on with the word that was begun.
    pub(crate) fn push(&mut self, bytes: &[u8]) {
        if self.bytes.extend_from_slice(bytes).is_err() {
            self.spoil();
        }
    }

    /// Goes on with the number in digits.
    pub(crate) fn push_number(&mut self, number: u64) {
        match format!(in self.alloc; "{number}") {
            Ok(digits) => self.push(digits.as_bytes()),
            Err(_) => self.spoil(),
        }
    }

    // Begins a word: with a blank, unless it is the first.
    fn begin(&mut self) {
        if !self.bytes.is_empty() {
            self.push(b" ");
        }
    }

    pub(crate) fn word(&mut self, word: &str) {
        self.begin();
        self.push(word.as_bytes());
    }

    /// The word, where there is what it tells.
    pub(crate) fn word_if(&mut self, is_there: bool, word: &str) {
        if is_there {
            self.word(word);
        }
    }

    pub(crate) fn number(&mut self, number: u64) {
        self.begin();
        self.push_number(number);
    }

    pub(crate) fn name(&mut self, name: &Name) {
        self.begin();
        self.push(name.as_bytes());
    }

    /// The name behind the word, where there is one.
    pub(crate) fn name_behind(&mut self, word: &str, name: &Option<Name>) {
        if let Some(name) = name {
            self.word(word);
            self.name(name);
        }
    }

    /// The bytes in quotes, those within doubled.
    pub(crate) fn quoted(&mut self, bytes: &[u8]) {
        self.begin();
        self.push(b"'");
        for byte in bytes {
            if *byte == b'\'' {
                self.push(b"'");
            }
            self.push(&[*byte]);
        }
        self.push(b"'");
    }

    /// `(word`, to be closed behind the parts.
    pub(crate) fn open(&mut self, word: &str) {
        self.begin();
        self.push(b"(");
        self.push(word.as_bytes());
    }

    /// `(line`
    pub(crate) fn open_line(&mut self, line: u32) {
        self.open("");
        self.push_number(u64::from(line));
    }

    pub(crate) fn close(&mut self) {
        self.push(b")");
    }
}

fn write_row_type(out: &mut Words, table: &Name) {
    out.begin();
    out.push(b"\"");
    out.push(table.as_bytes());
    out.push(b"\"");
}

/// The type by its name, that of a table's rows in quotes.
pub(crate) fn write_type(out: &mut Words, ty: &Ty) {
    match ty {
        Ty::Unknown => out.word("no-type"),
        Ty::Int => out.word("integer"),
        Ty::Big => out.word("bigint"),
        Ty::Text => out.word("text"),
        Ty::Bool => out.word("boolean"),
        Ty::Row(table) => write_row_type(out, table),
        Ty::Rec => out.word("record"),
        Ty::Void => out.word("void"),
        Ty::Trigger => out.word("trigger"),
    }
}
