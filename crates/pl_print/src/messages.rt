//! Errors and notices (PostgreSQL manual, "Error and Notice Message Fields").

ghost use Rattle.std.specs.Prelude.{◌≡◌, ◌++◌, IfOk, OnOk};
ghost use Rattle.std.specs.Option.{option_copied};
ghost use Rattle.pl_print.specs.Messages.{condition_name, fail_bytes, labelled, labelled_if_given};
ghost use Rattle.pl_print.specs.Messages.{level_label, message_text, notice_bytes, parts};

use crate::Level;
use pl_base::{Bytes, Fail, Memory, Message, State, Txt, name_of};
use std::alloc::{AllocError, Global};

/// `ERROR:  SQLSTATE: message`, then DETAIL and HINT where they are given, each on a line of its
/// own. The message that stands for the condition is its name, and the SQLSTATE again where it has
/// no name.
pub fn fail(alloc: Global, fail: &Fail) -> Result<Bytes, Memory>
    ensures { IfOk result (λ bytes. bytes ≡ fail_bytes fail.now) }
{
    let mut out = Vec::new(alloc);
    out.extend_from_slice(b"ERROR:  ")?;
    out.extend_from_slice(&fail.state.code)?;
    out.extend_from_slice(b": ")?;
    push_message(&mut out, fail)?;
    out.extend_from_slice(b"\n")?;
    push_parts(&mut out, fail.detail.as_ref(), fail.hint.as_ref())?;
    Ok(Bytes::from_vec(out))
}

/// `LEVEL:  text`, then DETAIL and HINT where they are given, each on a line of its own.
pub fn notice(
    alloc: Global,
    level: Level,
    text: &Txt,
    detail: Option<&Txt>,
    hint: Option<&Txt>,
) -> Result<Bytes, Memory>
    ensures { IfOk result (λ bytes.
        bytes ≡
        notice_bytes level text.now (option_copied detail.entry) (option_copied hint.entry)) }
{
    let mut out = Vec::new(alloc);
    push_labelled(&mut out, label(level), text)?;
    push_parts(&mut out, detail, hint)?;
    Ok(Bytes::from_vec(out))
}

fn label(level: Level) -> &'static str
    ensures { result.now ≡ level_label level }
{
    match level {
        Level::Info => "INFO",
        Level::Notice => "NOTICE",
        Level::Warning => "WARNING",
    }
}

fn push_message(out: &mut Vec<u8>, fail: &Fail) -> Result<(), AllocError>
    ensures { OnOk result
        (out.new.items ≡ out.old.items ++ message_text fail.now.state.code fail.now.message) }
{
    match &fail.message {
        Message::Standard => push_name(out, fail.state),
        Message::Text(text) => out.extend_from_slice(text.as_bytes()),
    }
}

fn push_name(out: &mut Vec<u8>, state: State) -> Result<(), AllocError>
    ensures { OnOk result (out.new.items ≡ out.old.items ++ condition_name state.code) }
{
    match name_of(state) {
        Some(name) => out.extend_from_slice(name.as_bytes()),
        None => out.extend_from_slice(&state.code),
    }
}

fn push_parts(out: &mut Vec<u8>, detail: Option<&Txt>, hint: Option<&Txt>) -> Result<(), AllocError>
    ensures { OnOk result (out.new.items ≡
        out.old.items ++ parts (option_copied detail.entry) (option_copied hint.entry)) }
{
    push_if_given(out, "DETAIL", detail)?;
    push_if_given(out, "HINT", hint)
}

fn push_if_given(out: &mut Vec<u8>, label: &str, text: Option<&Txt>) -> Result<(), AllocError>
    ensures { OnOk result (out.new.items ≡
        out.old.items ++ labelled_if_given label.now (option_copied text.entry)) }
{
    match text {
        Some(text) => push_labelled(out, label, text),
        None => Ok(()),
    }
}

// The text behind its label, on a line.
fn push_labelled(out: &mut Vec<u8>, label: &str, text: &Txt) -> Result<(), AllocError>
    ensures { OnOk result (out.new.items ≡ out.old.items ++ labelled label.now text.now) }
{
    out.extend_from_slice(label.as_bytes())?;
    out.extend_from_slice(b":  ")?;
    out.extend_from_slice(text.as_bytes())?;
    out.extend_from_slice(b"\n")
}
