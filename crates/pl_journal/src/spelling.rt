//! Spellings of operations, put behind a payload. One on a row is first made in a list that is kept
//! from row to row, so that it takes no memory for each.

ghost use Rattle.std.specs.Prelude.{◌≡◌, ◌<◌, ◌++◌, true, length, OnOk, OnErr};
ghost use Rattle.std.specs.List.{list_all};
ghost use Rattle.pl_base.specs.declared.operation.Op.TheVariants.{Define, Put, Remove};
ghost use Rattle.pl_codec.specs.ReadBack.{OpReadsBack};
ghost use Rattle.pl_codec.specs.Spelling.{is_define_text, is_row_id, is_stored_value};
ghost use Rattle.pl_codec.specs.Spelling.{is_table_name, op_bytes};

use pl_base::{Name, Value};
use pl_codec::{push_define, push_put, push_remove};
use std::alloc::{AllocError, Global};

/// A Define of this text.
pub(crate) fn spell_define(
    alloc: Global,
    payload: &mut Vec<u8>,
    text: &[u8],
) -> Result<(), AllocError>
    requires { is_define_text text.now ≡ true }
    ensures ok { OnOk result (payload.new.items
        ≡ payload.old.items ++ op_bytes (Define text.now)) }
    ensures read_back { OnOk result (OpReadsBack (Define text.now)) }
    ensures err { OnErr result (payload.new.items ≡ payload.old.items) }
{
    let mut spelling = Vec::new(alloc);
    push_define(&mut spelling, text)?;
    payload.extend_from_slice(spelling.as_slice())
}

/// A Put of this row.
pub(crate) fn spell_put(
    spelling: &mut Vec<u8>,
    payload: &mut Vec<u8>,
    table: &Name,
    id: u64,
    row: &[Value],
) -> Result<(), AllocError>
    requires named { is_table_name table.now ≡ true }
    requires numbered { is_row_id id ≡ true }
    requires counted { length row.now < 256 }
    requires stored { list_all is_stored_value row.now ≡ true }
    ensures ok { OnOk result (payload.new.items
        ≡ payload.old.items ++ op_bytes (Put table.now id row.now)) }
    ensures read_back { OnOk result (OpReadsBack (Put table.now id row.now)) }
    ensures err { OnErr result (payload.new.items ≡ payload.old.items) }
{
    spelling.clear();
    push_put(spelling, table, id, row)?;
    payload.extend_from_slice(spelling.as_slice())
}

/// A Remove of the row of this id.
pub(crate) fn spell_remove(
    spelling: &mut Vec<u8>,
    payload: &mut Vec<u8>,
    table: &Name,
    id: u64,
) -> Result<(), AllocError>
    requires { is_table_name table.now ≡ true }
    ensures ok { OnOk result (payload.new.items
        ≡ payload.old.items ++ op_bytes (Remove table.now id)) }
    ensures read_back { OnOk result (OpReadsBack (Remove table.now id)) }
    ensures err { OnErr result (payload.new.items ≡ payload.old.items) }
{
    spelling.clear();
    push_remove(spelling, table, id)?;
    payload.extend_from_slice(spelling.as_slice())
}
