//! RAISE: PostgreSQL manual, PL/pgSQL, "Reporting Errors and Messages".

ghost use Rattle.std.specs.Prelude.{◌≡◌, ◌==◌, false};
ghost use Rattle.pl_body_rules.specs.Raising as spec;

use crate::conditions::is_known;
use pl_base::State;
use pl_bodies::{Raise, RaiseOption, RaiseOptionKind, Raised};

fn is_same(kind: RaiseOptionKind, other: RaiseOptionKind) -> bool
    ensures { result ≡ spec.is_same kind other }
{
    match kind {
        RaiseOptionKind::Message => matches!(other, RaiseOptionKind::Message),
        RaiseOptionKind::Detail => matches!(other, RaiseOptionKind::Detail),
        RaiseOptionKind::Hint => matches!(other, RaiseOptionKind::Hint),
        RaiseOptionKind::Errcode => matches!(other, RaiseOptionKind::Errcode),
    }
}

fn has(kind: RaiseOptionKind, options: &[RaiseOption]) -> bool
    ensures { result ≡ spec.has kind options.now }
{
    for option in options {
        if is_same(kind, option.kind) {
            return true;
        }
    }
    false
}

fn has_twice(mut options: &[RaiseOption]) -> bool
    ensures { result ≡ spec.has_twice options.entry.now }
{
    while let [option, rest @ ..] = options {
        if has(option.kind, rest) {
            return true;
        }
        options = rest;
    }
    false
}

// Whether the text has as many places for arguments. `%%` is a percent sign.
fn has_places(format: &[u8], count: usize) -> bool
    ensures { result ≡ (spec.places false format.now == count) }
{
    let mut left = count;
    let mut is_open = false;
    for byte in format {
        if is_open && *byte != b'%' {
            if left == 0 {
                return false;
            }
            left -= 1;
        }
        is_open = *byte == b'%' && !is_open;
    }
    if is_open { left == 1 } else { left == 0 }
}

fn is_well_formed(raise: &Raise) -> bool
    ensures { result ≡ spec.is_well_formed raise.now }
{
    let options = raise.options.as_slice();
    if has_twice(options) {
        return false;
    }
    match &raise.raised {
        Raised::Text { format, arguments } => {
            has_places(format.as_bytes(), arguments.len())
                && !has(RaiseOptionKind::Message, options)
        }
        Raised::Condition(_) => !has(RaiseOptionKind::Errcode, options),
        Raised::Nothing => true,
    }
}

/// 42601 where arguments or options are wrong, else 42704 where the condition isn't known.
pub(crate) fn raise_state(raise: &Raise) -> Option<State>
    ensures { result ≡ spec.raise_state raise.now }
{
    if !is_well_formed(raise) {
        return Some(State::SYNTAX_ERROR);
    }
    match &raise.raised {
        Raised::Condition(condition) => {
            if is_known(condition) {
                None
            } else {
                Some(State::UNDEFINED_OBJECT)
            }
        }
        Raised::Text { .. } | Raised::Nothing => None,
    }
}
