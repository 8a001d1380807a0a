//! From operations to their payload.

ghost use Rattle.std.specs.Prelude.{◌≡◌, ◌<◌, ◌++◌, ◌∷◌, [], true, length, Some, IfOk, OnOk};
ghost use Rattle.std.specs.List.{flat_map, list_all};
ghost use Rattle.pl_base.specs.declared.operation.Op.TheVariants.{Define, Put, Remove, Next};
ghost use Rattle.pl_base.specs.declared.value.Value.TheVariants as value;
ghost use Rattle.pl_codec.specs.Spelling.{is_define_text, is_table_name, is_row_id, text_bytes, name_bytes, value_bytes, is_stored_value, op_bytes, is_stored_op, ops_bytes, are_stored};
ghost use Rattle.pl_codec.specs.Reading.{operations_of};
ghost use Rattle.pl_codec.specs.ReadBack.{ValueReadsBack, ValuesReadBack, OpReadsBack};

use pl_base::{Bytes, List, Name, Op, Value};
use std::alloc::{AllocError, Global};

/// The payload of these operations, in order.
pub fn encode_all(alloc: Global, ops: &[Op]) -> Result<Bytes, AllocError>
    requires { are_stored ops.now ≡ true }
    ensures spelled { IfOk result (λ payload. payload ≡ ops_bytes ops.now) }
    ensures read_back { IfOk result (λ payload. operations_of payload ≡ Some ops.now) }
{
    let mut bytes = Vec::new(alloc);
    for op in ops {
        push_op(&mut bytes, op)?;
    }
    Ok(List::from_vec(bytes))
}

/// The payload of one operation.
pub fn encode(alloc: Global, op: &Op) -> Result<Bytes, AllocError>
    requires { is_stored_op op.now ≡ true }
    ensures spelled { IfOk result (λ payload. payload ≡ op_bytes op.now) }
    ensures read_back { IfOk result (λ payload. operations_of payload ≡ Some (op.now ∷ [])) }
{
    let mut bytes = Vec::new(alloc);
    push_op(&mut bytes, op)?;
    Ok(List::from_vec(bytes))
}

fn push_op(bytes: &mut Vec<u8>, op: &Op) -> Result<(), AllocError>
    requires { is_stored_op op.now ≡ true }
    ensures spelled { OnOk result (bytes.new.items ≡ bytes.old.items ++ op_bytes op.now) }
    ensures read_back { OnOk result (OpReadsBack op.now) }
{
    match op {
        Op::Define { text } => push_define(bytes, text.as_bytes()),
        Op::Put { table, id, row } => push_put(bytes, table, *id, row.as_slice()),
        Op::Remove { table, id } => push_remove(bytes, table, *id),
        Op::Next { table, next } => push_next(bytes, table, *next),
    }
}

/// Puts the spelling of a Define of this text behind the bytes.
pub fn push_define(bytes: &mut Vec<u8>, text: &[u8]) -> Result<(), AllocError>
    requires { is_define_text text.now ≡ true }
    ensures spelled { OnOk result (
        bytes.new.items ≡ bytes.old.items ++ op_bytes (Define text.now)) }
    ensures read_back { OnOk result (OpReadsBack (Define text.now)) }
{
    bytes.push(1)?;
    push_text(bytes, text)?;
    Ok(())
}

/// Puts the spelling of a Put of this row behind the bytes.
pub fn push_put(bytes: &mut Vec<u8>, table: &Name, id: u64, row: &[Value]) -> Result<(), AllocError>
    requires named { is_table_name table.now ≡ true }
    requires numbered { is_row_id id ≡ true }
    requires counted { length row.now < 256 }
    requires stored { list_all is_stored_value row.now ≡ true }
    ensures spelled { OnOk result (
        bytes.new.items ≡ bytes.old.items ++ op_bytes (Put table.now id row.now)) }
    ensures read_back { OnOk result (OpReadsBack (Put table.now id row.now)) }
{
    bytes.push(2)?;
    push_name(bytes, table)?;
    bytes.extend_from_slice(&id.to_be_bytes())?;
    bytes.push(row.len() as u8)?;
    push_values(bytes, row)?;
    Ok(())
}

/// Puts the spelling of a Remove of the row of this id behind the bytes.
pub fn push_remove(bytes: &mut Vec<u8>, table: &Name, id: u64) -> Result<(), AllocError>
    requires { is_table_name table.now ≡ true }
    ensures spelled { OnOk result (
        bytes.new.items ≡ bytes.old.items ++ op_bytes (Remove table.now id)) }
    ensures read_back { OnOk result (OpReadsBack (Remove table.now id)) }
{
    bytes.push(3)?;
    push_name(bytes, table)?;
    bytes.extend_from_slice(&id.to_be_bytes())?;
    Ok(())
}

/// Puts the spelling of a Next, the id of the next new row, behind the bytes.
pub fn push_next(bytes: &mut Vec<u8>, table: &Name, next: u64) -> Result<(), AllocError>
    requires { is_table_name table.now ≡ true }
    ensures spelled { OnOk result (
        bytes.new.items ≡ bytes.old.items ++ op_bytes (Next table.now next)) }
    ensures read_back { OnOk result (OpReadsBack (Next table.now next)) }
{
    bytes.push(4)?;
    push_name(bytes, table)?;
    bytes.extend_from_slice(&next.to_be_bytes())?;
    Ok(())
}

fn push_name(bytes: &mut Vec<u8>, name: &Name) -> Result<(), AllocError>
    ensures { OnOk result (bytes.new.items ≡ bytes.old.items ++ name_bytes name.now) }
{
    let name = name.as_bytes();
    bytes.push(name.len() as u8)?;
    bytes.extend_from_slice(name)
}

fn push_text(bytes: &mut Vec<u8>, text: &[u8]) -> Result<(), AllocError>
    requires { is_define_text text.now ≡ true }
    ensures { OnOk result (bytes.new.items ≡ bytes.old.items ++ text_bytes text.now) }
{
    bytes.extend_from_slice(&(text.len() as u32).to_be_bytes())?;
    bytes.extend_from_slice(text)
}

fn push_values(bytes: &mut Vec<u8>, values: &[Value]) -> Result<(), AllocError>
    requires { list_all is_stored_value values.now ≡ true }
    ensures spelled { OnOk result (
        bytes.new.items ≡ bytes.old.items ++ flat_map value_bytes values.now) }
    ensures read_back { OnOk result (ValuesReadBack values.now) }
{
    for value in values {
        push_value(bytes, value)?;
    }
    Ok(())
}

fn push_value(bytes: &mut Vec<u8>, value: &Value) -> Result<(), AllocError>
    requires { is_stored_value value.now ≡ true }
    ensures spelled { OnOk result (bytes.new.items ≡ bytes.old.items ++ value_bytes value.now) }
    ensures read_back { OnOk result (ValueReadsBack value.now) }
{
    match value {
        Value::Null => push_null(bytes),
        Value::Int(number) => push_int(bytes, *number),
        Value::Big(number) => push_big(bytes, *number),
        Value::Text(text) => push_text_value(bytes, text.as_bytes()),
        Value::Bool(truth) => push_truth(bytes, *truth),
        Value::Row(_) => unreachable!(),
    }
}

fn push_null(bytes: &mut Vec<u8>) -> Result<(), AllocError>
    ensures spelled { OnOk result (bytes.new.items ≡ bytes.old.items ++ value_bytes value.Null) }
    ensures read_back { OnOk result (ValueReadsBack value.Null) }
{
    bytes.push(0)?;
    Ok(())
}

fn push_int(bytes: &mut Vec<u8>, number: i32) -> Result<(), AllocError>
    ensures spelled { OnOk result (
        bytes.new.items ≡ bytes.old.items ++ value_bytes (value.Int number)) }
    ensures read_back { OnOk result (ValueReadsBack (value.Int number)) }
{
    bytes.push(1)?;
    bytes.extend_from_slice(&number.to_be_bytes())?;
    Ok(())
}

fn push_big(bytes: &mut Vec<u8>, number: i64) -> Result<(), AllocError>
    ensures spelled { OnOk result (
        bytes.new.items ≡ bytes.old.items ++ value_bytes (value.Big number)) }
    ensures read_back { OnOk result (ValueReadsBack (value.Big number)) }
{
    bytes.push(2)?;
    bytes.extend_from_slice(&number.to_be_bytes())?;
    Ok(())
}

fn push_text_value(bytes: &mut Vec<u8>, text: &[u8]) -> Result<(), AllocError>
    requires { is_define_text text.now ≡ true }
    ensures spelled { OnOk result (
        bytes.new.items ≡ bytes.old.items ++ value_bytes (value.Text text.now)) }
    ensures read_back { OnOk result (ValueReadsBack (value.Text text.now)) }
{
    bytes.push(3)?;
    push_text(bytes, text)?;
    Ok(())
}

fn push_truth(bytes: &mut Vec<u8>, truth: bool) -> Result<(), AllocError>
    ensures spelled { OnOk result (
        bytes.new.items ≡ bytes.old.items ++ value_bytes (value.Bool truth)) }
    ensures read_back { OnOk result (ValueReadsBack (value.Bool truth)) }
{
    bytes.push(4)?;
    bytes.push(u8::from(truth))?;
    Ok(())
}
