//! The texts of values: PostgreSQL manual, "Boolean Type", "Composite Types".

ghost use Rattle.std.specs.Prelude.{◌≡◌, ◌++◌, codes, IfOk, OnOk};
ghost use Rattle.std.specs.List.{flat_map, join_by, list_any};
ghost use Rattle.pl_print.specs.TextForm.{doubled, field_text, in_quotes, is_quote, is_special};
ghost use Rattle.pl_print.specs.TextForm.{needs_quotes, output, row_text};

use pl_base::{Field, Memory, Txt, Value};
use std::alloc::{AllocError, Global};

/// What is printed of a value: booleans as `t` and `f`, nothing for null.
pub fn text_of(alloc: Global, value: &Value) -> Result<Txt, Memory>
    ensures { IfOk result (λ text. text ≡ output value.now) }
{
    let mut text = Vec::new(alloc);
    push_value(alloc, &mut text, value)?;
    Ok(Txt::from_vec(text))
}

/// Writes the text of a value at the end of `out`.
#[cycle(output)]
pub fn push_value(alloc: Global, out: &mut Vec<u8>, value: &Value) -> Result<(), AllocError>
    ensures { OnOk result (out.new.items ≡ out.old.items ++ output value.now) }
{
    match value {
        Value::Null => Ok(()),
        Value::Int(number) => out.extend_from_slice(format!(in alloc; "{number}")?.as_bytes()),
        Value::Big(number) => out.extend_from_slice(format!(in alloc; "{number}")?.as_bytes()),
        Value::Text(text) => out.extend_from_slice(text.as_bytes()),
        Value::Bool(true) => out.extend_from_slice(b"t"),
        Value::Bool(false) => out.extend_from_slice(b"f"),
        Value::Row(fields) => push_row(alloc, out, fields.as_slice()),
    }
}

#[cycle(output)]
fn push_row(alloc: Global, out: &mut Vec<u8>, fields: &[Field]) -> Result<(), AllocError>
    ensures { OnOk result (out.new.items ≡ out.old.items ++ row_text fields.now) }
{
    out.extend_from_slice(b"(")?;
    push_fields(alloc, out, fields)?;
    out.extend_from_slice(b")")
}

#[cycle(output)]
fn push_fields(alloc: Global, out: &mut Vec<u8>, fields: &[Field]) -> Result<(), AllocError>
    ensures { OnOk result
        (out.new.items ≡ out.old.items ++ join_by field_text (codes ",") fields.now) }
{
    let mut separator: &[u8] = b"";
    for field in fields {
        out.extend_from_slice(separator)?;
        push_field(alloc, out, field)?;
        separator = b",";
    }
    Ok(())
}

#[cycle(output)]
fn push_field(alloc: Global, out: &mut Vec<u8>, field: &Field) -> Result<(), AllocError>
    ensures { OnOk result (out.new.items ≡ out.old.items ++ field_text field.now) }
{
    let mut text = Vec::new(alloc);
    push_value(alloc, &mut text, &field.value)?;
    match field.value {
        Value::Null => Ok(()),
        _ if needs_quotes(text.as_slice()) => push_quoted(out, text.as_slice()),
        _ => out.extend_from_slice(text.as_slice()),
    }
}

fn needs_quotes(text: &[u8]) -> bool
    ensures { result ≡ needs_quotes text.now }
{
    text.is_empty() || has_special(text)
}

fn has_special(text: &[u8]) -> bool
    ensures { result ≡ list_any is_special text.now }
{
    text.iter().any(|b| is_special(*b))
}

fn is_special(b: u8) -> bool
    ensures { result ≡ is_special b }
{
    is_quote(b) || b"(),".contains(&b) || b" \t\n\x0b\x0c\r".contains(&b)
}

fn is_quote(b: u8) -> bool
    ensures { result ≡ is_quote b }
{
    b"\"\\".contains(&b)
}

fn push_quoted(out: &mut Vec<u8>, text: &[u8]) -> Result<(), AllocError>
    ensures { OnOk result (out.new.items ≡ out.old.items ++ in_quotes text.now) }
{
    out.extend_from_slice(b"\"")?;
    push_doubled(out, text)?;
    out.extend_from_slice(b"\"")
}

// The bytes, with quotes and backslashes twice.
fn push_doubled(out: &mut Vec<u8>, text: &[u8]) -> Result<(), AllocError>
    ensures { OnOk result (out.new.items ≡ out.old.items ++ flat_map doubled text.now) }
{
    for b in text {
        if is_quote(*b) {
            out.push(*b)?;
        }
        out.push(*b)?;
    }
    Ok(())
}
