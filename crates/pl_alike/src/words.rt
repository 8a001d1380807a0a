//! Names, texts, types, operators and words that are the same.

ghost use Rattle.std.specs.Prelude.{◌≡◌, true};

use pl_base::{Arithmetic, Comparison, Name, Test, Txt, Ty};
use pl_tree::{JoinKind, Literal, Nulls, Pick, Sign};

// Most bytes that aren't the same differ early.
fn same_bytes(a: &[u8], b: &[u8]) -> bool
    ensures { result ≡ true → a.entry.now ≡ b.entry.now }
{
    let mut left = a;
    let mut right = b;
    while let [x, more @ ..] = left {
        match right {
            [y, rest @ ..] => {
                if *x != *y {
                    return false;
                }
                left = more;
                right = rest;
            }
            [] => return false,
        }
    }
    match right {
        [] => true,
        [_, ..] => false,
    }
}

/// Whether both names have the same bytes.
pub fn same_name(a: &Name, b: &Name) -> bool
    ensures { result ≡ true → a.now ≡ b.now }
{
    same_bytes(a.as_bytes(), b.as_bytes())
}

pub(crate) fn same_alias(a: &Option<Name>, b: &Option<Name>) -> bool
    ensures { result ≡ true → a.now ≡ b.now }
{
    match (a, b) {
        (None, None) => true,
        (Some(a), Some(b)) => same_name(a, b),
        _ => false,
    }
}

fn same_text(a: &Txt, b: &Txt) -> bool
    ensures { result ≡ true → a.now ≡ b.now }
{
    same_bytes(a.as_bytes(), b.as_bytes())
}

// Both or neither.
pub(crate) fn same_flag(a: bool, b: bool) -> bool
    ensures { result ≡ true → a ≡ b }
{
    if a { b } else { !b }
}

pub(crate) fn same_literal(a: &Literal, b: &Literal) -> bool
    ensures { result ≡ true → a.now ≡ b.now }
{
    match (a, b) {
        (Literal::Null, Literal::Null) => true,
        (Literal::Bool(a), Literal::Bool(b)) => same_flag(*a, *b),
        (
            Literal::Number { is_negative, size },
            Literal::Number {
                is_negative: other_negative,
                size: other_size,
            },
        ) => *size == *other_size && same_flag(*is_negative, *other_negative),
        (Literal::Text(a), Literal::Text(b)) => same_text(a, b),
        _ => false,
    }
}

/// Whether both types are the same.
pub fn same_type(a: &Ty, b: &Ty) -> bool
    ensures { result ≡ true → a.now ≡ b.now }
{
    match (a, b) {
        (Ty::Unknown, Ty::Unknown) => true,
        (Ty::Int, Ty::Int) => true,
        (Ty::Big, Ty::Big) => true,
        (Ty::Text, Ty::Text) => true,
        (Ty::Bool, Ty::Bool) => true,
        (Ty::Row(a), Ty::Row(b)) => same_name(a, b),
        (Ty::Rec, Ty::Rec) => true,
        (Ty::Void, Ty::Void) => true,
        (Ty::Trigger, Ty::Trigger) => true,
        _ => false,
    }
}

// ---- operators

pub(crate) fn same_arithmetic(a: Arithmetic, b: Arithmetic) -> bool
    ensures { result ≡ true → a ≡ b }
{
    match (a, b) {
        (Arithmetic::Add, Arithmetic::Add) => true,
        (Arithmetic::Subtract, Arithmetic::Subtract) => true,
        (Arithmetic::Multiply, Arithmetic::Multiply) => true,
        (Arithmetic::Divide, Arithmetic::Divide) => true,
        (Arithmetic::Remainder, Arithmetic::Remainder) => true,
        _ => false,
    }
}

pub(crate) fn same_comparison(a: Comparison, b: Comparison) -> bool
    ensures { result ≡ true → a ≡ b }
{
    match (a, b) {
        (Comparison::Equal, Comparison::Equal) => true,
        (Comparison::NotEqual, Comparison::NotEqual) => true,
        (Comparison::Less, Comparison::Less) => true,
        (Comparison::Greater, Comparison::Greater) => true,
        (Comparison::LessOrEqual, Comparison::LessOrEqual) => true,
        (Comparison::GreaterOrEqual, Comparison::GreaterOrEqual) => true,
        _ => false,
    }
}

pub(crate) fn same_test(a: Test, b: Test) -> bool
    ensures { result ≡ true → a ≡ b }
{
    match (a, b) {
        (Test::Null, Test::Null) => true,
        (Test::True, Test::True) => true,
        (Test::False, Test::False) => true,
        (Test::Unknown, Test::Unknown) => true,
        _ => false,
    }
}

pub(crate) fn same_sign(a: Sign, b: Sign) -> bool
    ensures { result ≡ true → a ≡ b }
{
    match (a, b) {
        (Sign::Plus, Sign::Plus) => true,
        (Sign::Minus, Sign::Minus) => true,
        _ => false,
    }
}

// ---- words

pub(crate) fn same_pick(a: Pick, b: Pick) -> bool
    ensures { result ≡ true → a ≡ b }
{
    match (a, b) {
        (Pick::Coalesce, Pick::Coalesce) => true,
        (Pick::Greatest, Pick::Greatest) => true,
        (Pick::Least, Pick::Least) => true,
        _ => false,
    }
}

pub(crate) fn same_nulls(a: Option<Nulls>, b: Option<Nulls>) -> bool
    ensures { result ≡ true → a ≡ b }
{
    match (a, b) {
        (None, None) => true,
        (Some(Nulls::First), Some(Nulls::First)) => true,
        (Some(Nulls::Last), Some(Nulls::Last)) => true,
        _ => false,
    }
}

pub(crate) fn same_kind(a: JoinKind, b: JoinKind) -> bool
    ensures { result ≡ true → a ≡ b }
{
    match (a, b) {
        (JoinKind::Inner, JoinKind::Inner) => true,
        (JoinKind::Left, JoinKind::Left) => true,
        (JoinKind::Cross, JoinKind::Cross) => true,
        _ => false,
    }
}
