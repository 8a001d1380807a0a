//! A tree that is written word by word.

use std::alloc::Global;
use std::str::from_utf8;

/// A text that no tree has, and that has no tree: its quote isn't closed.
const LACKING: &str = "'no memory";

/// The forms that a tree is written in.
#[derive(Clone, Copy)]
pub(crate) enum Form {
    /// The head of each node before its parts.
    Prefix,
    /// SQL with each part in brackets.
    Sql,
}

/// Words with blanks between them. No call fails: where there was no memory for a word, the text is
/// `LACKING` in the end.
#[derive(Drop)]
pub(crate) struct Words {
    alloc: Global,
    form: Form,
    bytes: Vec<u8>,
    is_whole: bool,
}

impl Words {
    pub(crate) fn new(alloc: Global, form: Form) -> Words {
        Words {
            alloc,
            form,
            bytes: Vec::new(alloc),
            is_whole: true,
        }
    }

    /// All that was written.
    pub(crate) fn text(&self) -> &str {
        if !self.is_whole {
            return LACKING;
        }
        from_utf8(self.bytes.as_slice()).unwrap_or(LACKING)
    }

    /// Notes that something is lacking.
    pub(crate) fn spoil(&mut self) {
        self.is_whole = false;
    }

    pub(crate) fn is_sql(&self) -> bool {
        matches!(self.form, Form::Sql)
    }

    /// Goes on with the word that was begun.
    pub(crate) fn push(&mut self, bytes: &[u8]) {
        if self.bytes.extend_from_slice(bytes).is_err() {
            self.spoil();
        }
    }

    fn push_byte(&mut self, byte: u8) {
        if self.bytes.push(byte).is_err() {
            self.spoil();
        }
    }

    /// Begins a word: with a blank, unless it is the first.
    pub(crate) fn begin(&mut self) {
        if !self.bytes.is_empty() {
            self.push(b" ");
        }
    }

    /// A whole word, in both forms.
    pub(crate) fn word(&mut self, word: &str) {
        self.begin();
        self.push(word.as_bytes());
    }

    /// A whole word of SQL, which isn't in the prefix form.
    pub(crate) fn sql(&mut self, word: &str) {
        if self.is_sql() {
            self.word(word);
        }
    }

    /// `(head` of the prefix form, to be closed behind the parts.
    pub(crate) fn open(&mut self, head: &str) {
        if !self.is_sql() {
            self.begin();
            self.push(b"(");
            self.push(head.as_bytes());
        }
    }

    /// `)` of the prefix form.
    pub(crate) fn close(&mut self) {
        if !self.is_sql() {
            self.push(b")");
        }
    }

    /// Goes on with the number in digits.
    pub(crate) fn push_number(&mut self, number: u64) {
        match format!(in self.alloc; "{number}") {
            Ok(digits) => self.push(digits.as_bytes()),
            Err(_) => self.spoil(),
        }
    }

    /// Goes on with the bytes in quotes of the given kind, those within doubled.
    pub(crate) fn push_quoted(&mut self, quote: u8, bytes: &[u8]) {
        self.push_byte(quote);
        for byte in bytes {
            if *byte == quote {
                self.push_byte(quote);
            }
            self.push_byte(*byte);
        }
        self.push_byte(quote);
    }
}
