//! Tests of bodies as they are read with their rules: 710 bodies with an outline of their tree, or
//! with why they are refused. `tools/body-cases` asks a PostgreSQL server of each.
//!
//! An outline has the kind of each statement, with its line and its number:
//!
//! - `(body 2 (1 declare x integer) (3.1 assign x))`: BEGIN on line 2, a declaration on line 1, the
//!   first statement on line 3; `label l` and `end l` are the names before and behind
//! - `(2.1 if (then ..) (then ..) (else ..))`: IF, its ELSIF, ELSE
//! - `(2.1 case of (when 2 ..) (else ..))`: CASE with an operand, and two values behind WHEN
//! - `(2.1 loop label l range i reverse by ..)`: a loop, its label and what stands before LOOP
//! - `(when others '22012' ..)`: a handler, with a name or a code for each condition
//! - `(2.1 execute 3 into strict x y)`: what is no name is told by its number alone, here three
//!   values behind USING, or that it is there
//!
//! A refusal has its SQLSTATE. Behind it stands the first byte of a bad lexeme, the first token at
//! which too many parts are open, or the line of what breaks a rule.
#![tactic(auto)]

#[cfg(test)]
mod answers;
#[cfg(test)]
mod depths;
#[cfg(test)]
mod read_blocks;
#[cfg(test)]
mod read_statements;
#[cfg(test)]
mod refused_rules;
#[cfg(test)]
mod refused_texts;
#[cfg(test)]
mod script_bodies;
#[cfg(test)]
mod tests;
#[cfg(test)]
mod words;
#[cfg(test)]
mod written_bodies;
#[cfg(test)]
mod written_statements;
