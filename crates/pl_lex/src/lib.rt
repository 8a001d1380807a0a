//! Cuts a text into tokens and into commands.
#![tactic(auto)]

mod characters;
mod command;
mod comments;
mod dollars;
mod escapes;
mod keyword;
mod lexer;
mod numbers;
mod quotes;
mod read;
mod scan;
mod sign;
mod signs;
#[cfg(test)]
mod tests;
mod token;
mod utf8;

pub use command::{commands_join, cut, slices_lex_alike};
pub use keyword::{Keyword, keyword_text};
pub use lexer::{LexFail, lex, one_reading};
pub use sign::Sign;
pub use token::{Bad, Piece, Token, TokenKind};
pub use utf8::{NotText, read_utf8};
