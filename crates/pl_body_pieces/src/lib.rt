//! The pieces of a body, read from tokens: PostgreSQL manual, "PL/pgSQL".
//!
//! A body is a row of pieces. Each is read by the rules of a grammar.
#![tactic(auto)]

mod marks;
mod pieces;

pub use pieces::{block_piece, case_piece, declaration_piece, pieces_are_read};
pub use pl_body_grammar::Piece;
