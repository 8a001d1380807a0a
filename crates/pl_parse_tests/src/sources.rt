//! Definitions with their source texts.

/// What stands round a definition, and its text from its first token to its last.
pub(crate) const SOURCES: [(&str, &str); 22] = [
    ("CREATE TABLE t (a integer)", "CREATE TABLE t (a integer)"),
    ("  CREATE TABLE t (a integer)", "CREATE TABLE t (a integer)"),
    ("CREATE TABLE t (a integer)  ", "CREATE TABLE t (a integer)"),
    (
        " \t\r\n create TABLE t(a integer)\n\n",
        "create TABLE t(a integer)",
    ),
    (
        "/* x */ CREATE TABLE t (a integer) /* y */",
        "CREATE TABLE t (a integer)",
    ),
    (
        "-- x\nCREATE TABLE t (a integer) -- y",
        "CREATE TABLE t (a integer)",
    ),
    (
        "/* a /* b */ DROP */DROP TABLE t/* c */-- d",
        "DROP TABLE t",
    ),
    (
        "CREATE /* x */ TABLE t -- y\n (a\tinteger)",
        "CREATE /* x */ TABLE t -- y\n (a\tinteger)",
    ),
    (
        "\nCREATE\nTABLE\nt\n(\na\ninteger\n)\n",
        "CREATE\nTABLE\nt\n(\na\ninteger\n)",
    ),
    ("DROP TABLE t ", "DROP TABLE t"),
    (" DROP TABLE \"t \" ", "DROP TABLE \"t \""),
    (
        " DROP FUNCTION f ( integer ) ",
        "DROP FUNCTION f ( integer )",
    ),
    (
        "DROP TRIGGER g ON t RESTRICT -- g",
        "DROP TRIGGER g ON t RESTRICT",
    ),
    ("DROP TABLE café", "DROP TABLE café"),
    (" DROP TABLE café ", "DROP TABLE café"),
    ("/* é */DROP TABLE café/* ü */", "DROP TABLE café"),
    (
        "-- größer\n CREATE TABLE \"größe\" (ä text DEFAULT 'ü€𝄞') -- ö\n",
        "CREATE TABLE \"größe\" (ä text DEFAULT 'ü€𝄞')",
    ),
    (
        "/*€*/ CREATE /*€*/ TABLE t (a 𝄞) /*€*/",
        "CREATE /*€*/ TABLE t (a 𝄞)",
    ),
    (
        "\n\nCREATE FUNCTION f() AS $$\n BEGIN -- é\n END $$\n\n",
        "CREATE FUNCTION f() AS $$\n BEGIN -- é\n END $$",
    ),
    (
        " CREATE FUNCTION f() LANGUAGE plpgsql AS 'it''s' ",
        "CREATE FUNCTION f() LANGUAGE plpgsql AS 'it''s'",
    ),
    (
        " create Procedure p() as E'\\n' stable ",
        "create Procedure p() as E'\\n' stable",
    ),
    (
        "CREATE TRIGGER g BEFORE INSERT ON t FOR EACH ROW EXECUTE FUNCTION f ( ) --",
        "CREATE TRIGGER g BEFORE INSERT ON t FOR EACH ROW EXECUTE FUNCTION f ( )",
    ),
];

/// A script, and where a definition is looked for in it, with its text.
pub(crate) const SOURCE_SCRIPT: &str =
    "SELECT 'é';  DROP TABLE t ; /* ; */CREATE TABLE größe (a integer)/* ü */; DROP FUNCTION f";

pub(crate) const SCRIPT_SOURCES: [(usize, &str); 3] = [
    (12, "DROP TABLE t"),
    (28, "CREATE TABLE größe (a integer)"),
    (77, "DROP FUNCTION f"),
];
