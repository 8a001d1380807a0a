//! Texts with many brackets.

use crate::answers::Kind;

/// What a text is read as, what stands in front of the brackets, how many open, what stands behind
/// those, how many close, and what is answered. Behind `!deep` stands the token, counted from 0, at
/// which the text is too deep.
pub(crate) type Depth = (Kind, &'static str, usize, &'static str, usize, &'static str);

pub(crate) const DEPTHS: [Depth; 29] = [
    // A hundred are read and no more.
    (Kind::Expression, "", 100, "a", 100, "a"),
    (Kind::Expression, "", 101, "a", 101, "!deep 100"),
    (Kind::Query, "SELECT ", 100, "1", 100, "(select 1)"),
    (Kind::Query, "SELECT ", 101, "1", 101, "!deep 101"),
    (Kind::Command, "SELECT ", 100, "1", 100, "(select 1)"),
    (Kind::Command, "SELECT ", 101, "1", 101, "!deep 101"),
    (
        Kind::Command,
        "DELETE FROM t WHERE ",
        100,
        "1",
        100,
        "(delete t (where 1))",
    ),
    (
        Kind::Command,
        "DELETE FROM t WHERE ",
        101,
        "1",
        101,
        "!deep 104",
    ),
    (Kind::Command, "CALL f", 100, "1", 100, "(call f 1)"),
    (
        Kind::Command,
        "UPDATE t SET a = ",
        101,
        "1",
        101,
        "!deep 105",
    ),
    (
        Kind::Command,
        "CREATE TABLE t (a integer DEFAULT ",
        100,
        "1",
        100,
        "!deep 106",
    ),
    (
        Kind::Command,
        "CREATE TABLE t (a integer CHECK ",
        100,
        "1",
        100,
        "!deep 106",
    ),
    // Depth is told before syntax.
    (Kind::Expression, "", 101, "a b", 101, "!deep 100"),
    (Kind::Query, "SELECT ", 101, "FROM", 101, "!deep 101"),
    (Kind::Command, "", 101, "", 0, "!deep 100"),
    (Kind::Command, "a b ", 101, "", 0, "!deep 102"),
    (Kind::Command, "SELECT FROM ", 101, "", 0, "!deep 102"),
    (Kind::Command, "DROP TABLE t ", 101, "", 0, "!deep 103"),
    (
        Kind::Command,
        "CREATE OR REPLACE TABLE t ",
        101,
        "",
        0,
        "!deep 105",
    ),
    (Kind::Command, "CREATE \"index\" ", 101, "", 0, "!deep 102"),
    (Kind::Command, "CREATE ", 101, "", 0, "!deep 101"),
    (Kind::Command, "\"grant\" ", 101, "", 0, "!deep 101"),
    // A text that is no deeper is refused for its syntax.
    (Kind::Expression, "", 100, "a b", 100, "!syntax"),
    (Kind::Query, "SELECT ", 100, "FROM", 100, "!syntax"),
    (Kind::Command, "", 100, "", 0, "!syntax"),
    (Kind::Command, "a b ", 100, "", 0, "!syntax"),
    (Kind::Command, "SELECT FROM ", 100, "", 0, "!syntax"),
    (Kind::Command, "DROP TABLE t ", 100, "", 0, "!syntax"),
    (Kind::Command, "CREATE \"index\" ", 100, "", 0, "!syntax"),
];
