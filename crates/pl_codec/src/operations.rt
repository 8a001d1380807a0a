//! From a payload to its operations.

ghost use Rattle.std.specs.Prelude.{◌≡◌, ◌∷◌, true, option_map, IfOk, IfSome};
ghost use Rattle.pl_codec.specs.Spelling.{op_bytes, is_stored_op, ops_bytes, are_stored};
ghost use Rattle.pl_codec.specs.Reading.{define_front, put_front, remove_front, next_front, op_front, operations_of};
ghost use Rattle.pl_codec.specs.Reads.{Reads, Takes};

use crate::input::Input;
use crate::values::read_values;
use pl_base::{Op, Txt};
use std::alloc::{AllocError, Global};

// The Define behind a 1.
fn read_define(alloc: Global, input: &mut Input<'_>) -> Result<Option<Op>, AllocError>
    ensures read { IfOk result (λ found. Reads (define_front input.old) found input.new) }
    ensures taken { IfOk result (λ found.
        Takes op_bytes is_stored_op (1 ∷ input.old) found input.new) }
{
    let Some(text) = input.text() else {
        return Ok(None);
    };
    let text = Txt::from_slice(alloc, text)?;
    Ok(Some(Op::Define { text }))
}

// The Put behind a 2.
fn read_put(alloc: Global, input: &mut Input<'_>) -> Result<Option<Op>, AllocError>
    ensures read { IfOk result (λ found. Reads (put_front input.old) found input.new) }
    ensures taken { IfOk result (λ found.
        Takes op_bytes is_stored_op (2 ∷ input.old) found input.new) }
{
    let Some(table) = input.name() else {
        return Ok(None);
    };
    let Some(id) = input.row_id() else {
        return Ok(None);
    };
    let Some(count) = input.byte() else {
        return Ok(None);
    };
    let Some(row) = read_values(alloc, input, count as usize)? else {
        return Ok(None);
    };
    Ok(Some(Op::Put { table, id, row }))
}

// The Remove behind a 3.
fn read_remove(input: &mut Input<'_>) -> Option<Op>
    ensures read { Reads (remove_front input.old) result input.new }
    ensures taken { Takes op_bytes is_stored_op (3 ∷ input.old) result input.new }
{
    let Some(table) = input.name() else {
        return None;
    };
    let Some(id) = input.number_of_64_bits() else {
        return None;
    };
    Some(Op::Remove { table, id })
}

// The Next behind a 4.
fn read_next(input: &mut Input<'_>) -> Option<Op>
    ensures read { Reads (next_front input.old) result input.new }
    ensures taken { Takes op_bytes is_stored_op (4 ∷ input.old) result input.new }
{
    let Some(table) = input.name() else {
        return None;
    };
    let Some(next) = input.number_of_64_bits() else {
        return None;
    };
    Some(Op::Next { table, next })
}

// The operation in front.
#[tactic(auto, unfolding(crate::specs::Reading::op_front))]
fn read_op(alloc: Global, input: &mut Input<'_>) -> Result<Option<Op>, AllocError>
    ensures read { IfOk result (λ found. Reads (op_front input.old) found input.new) }
    ensures taken { IfOk result (λ found. Takes op_bytes is_stored_op input.old found input.new) }
{
    let Some(kind) = input.byte() else {
        return Ok(None);
    };
    match kind {
        1 => read_define(alloc, input),
        2 => read_put(alloc, input),
        3 => Ok(read_remove(input)),
        4 => Ok(read_next(input)),
        _ => Ok(None),
    }
}

/// The operations that a whole payload spells. None where it spells none.
pub fn decode_all(alloc: Global, payload: &[u8]) -> Result<Option<Vec<Op>>, AllocError>
    ensures read { IfOk result (λ found.
        option_map (λ ops. ops.items) found ≡ operations_of payload.now) }

    // What is read is spelled so, and only so: see `encode_all`.
    ensures spelled { IfOk result (λ found.
        IfSome found (λ ops. payload.now ≡ ops_bytes ops.items)) }
    ensures stored { IfOk result (λ found. IfSome found (λ ops. are_stored ops.items ≡ true)) }
{
    let mut input = Input::new(payload);
    let mut ops = Vec::new(alloc);
    'ops: while input.left() > 0 {
        let Some(op) = read_op(alloc, &mut input)? else {
            return Ok(None);
        };
        ops.push(op)?;
    }
    Ok(Some(ops))
}
