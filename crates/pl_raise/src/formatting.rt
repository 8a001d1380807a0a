//! Texts with percent signs: PostgreSQL manual, "PL/pgSQL", "Reporting Errors and Messages".

ghost use Rattle.std.specs.Prelude.{◌≡◌, drop, IfOk};
ghost use Rattle.pl_raise.specs.Texts as texts;
ghost use Rattle.pl_world.specs.Raising as spec;

use pl_base::Txt;
use std::alloc::{AllocError, Global};

fn first_text(texts: &[Txt]) -> &[u8]
    ensures { result.now ≡ spec.first_text texts.now }
{
    match texts {
        [text, ..] => text.as_bytes(),
        [] => &[],
    }
}

fn others<T>(list: &[T]) -> &[T]
    ensures { result.now ≡ drop 1 list.now }
{
    match list {
        [_, rest @ ..] => rest,
        [] => list,
    }
}

fn starts_with_percent(format: &[u8]) -> bool
    ensures { result ≡ texts.starts_with_percent format.now }
{
    match format {
        [byte, ..] => *byte == b'%',
        [] => false,
    }
}

/// Each `%` is the next of these texts, and `%%` is a percent sign.
pub(crate) fn format(alloc: Global, format: &[u8], texts: &[Txt]) -> Result<Txt, AllocError>
    ensures { IfOk result (λ text. text ≡ spec.formatted format.now texts.now) }
{
    let mut made = Vec::new(alloc);
    let mut left = format;
    let mut next = texts;
    while !left.is_empty() {
        let byte = left[0];
        let rest = others(left);
        if byte != b'%' {
            made.push(byte)?;
            left = rest;
        } else if starts_with_percent(rest) {
            made.push(b'%')?;
            left = others(rest);
        } else {
            made.extend_from_slice(first_text(next))?;
            left = rest;
            next = others(next);
        }
    }
    Ok(Txt::from_vec(made))
}
