//! Commands, read from tokens: PostgreSQL manual, "SQL Commands".
#![tactic(auto)]

// What was read, or the same refusal handed on. It is `?` without its conversion of the error,
// whose proof would be paid for at each of 170 places.
macro_rules! read {
    ($outcome:expr) => {
        match $outcome {
            Ok(value) => value,
            Err(fail) => return Err(fail),
        }
    };
}

mod changes;
mod commands;
mod definitions;
mod drops;
mod left_out;
mod lists;
mod parse;
mod parts;
mod readers;
mod routines;
mod tables;
mod trees;
mod triggers;

pub use parse::{one_command, parse_command, source};
pub use readers::{
    read_call, read_definition, read_delete, read_do_body, read_insert, read_savepoint_name,
    read_update,
};
