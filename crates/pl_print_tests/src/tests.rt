//! Printed replies against what psql prints of a PostgreSQL server's answers.

use pl_base::{
    Bytes, Fail, Field, Fields, List, Memory, Message, Name, Origin, Place, State, Txt, Ty, Value,
};
use pl_print::{Grid, Level, Tag, fail, notice, tag, text_of};
use std::alloc::{AllocError, Global};

fn text(alloc: Global, text: &str) -> Result<Value, AllocError> {
    Ok(Value::Text(Txt::from_slice(alloc, text.as_bytes())?))
}

fn is_text(bytes: &Bytes, expected: &str) -> bool {
    bytes.as_slice() == expected.as_bytes()
}

fn push_field(fields: &mut Fields, value: Value) -> Result<(), AllocError> {
    fields.push(Field {
        name: Name::NONE,
        ty: Ty::Text,
        value,
    })
}

// A row of a text, a null and a truth.
fn row(alloc: Global, first: &str) -> Result<Value, AllocError> {
    let mut fields = List::new(alloc);
    push_field(&mut fields, text(alloc, first)?)?;
    push_field(&mut fields, Value::Null)?;
    push_field(&mut fields, Value::Bool(true))?;
    Ok(Value::Row(fields))
}

// A row of such a row and a number.
fn nested(alloc: Global, first: &str) -> Result<Value, AllocError> {
    let mut fields = List::new(alloc);
    push_field(&mut fields, row(alloc, first)?)?;
    push_field(&mut fields, Value::Int(-5))?;
    Ok(Value::Row(fields))
}

// A result of one column `p`, with these values.
// The result of one row, with a value of each kind.
fn one_row(alloc: Global) -> Result<Grid, AllocError> {
    let mut heads = List::new(alloc);
    for head in ["a", "b", "c", "d", "e"] {
        heads.push(Txt::from_slice(alloc, head.as_bytes())?)?;
    }
    let mut cells = List::new(alloc);
    cells.push(Value::Int(1))?;
    cells.push(Value::Big(2_147_483_648))?;
    cells.push(Value::Null)?;
    cells.push(text(alloc, "x")?)?;
    cells.push(Value::Bool(false))?;
    let mut rows = List::new(alloc);
    rows.push(cells)?;
    Ok(Grid {
        heads,
        types: List::new(alloc),
        rows,
    })
}

// The result of a column `p`, with such rows.
fn rows_of(alloc: Global, texts: &[&str]) -> Result<Grid, AllocError> {
    let mut heads = List::new(alloc);
    heads.push(Txt::from_slice(alloc, b"p")?)?;
    let mut rows = List::new(alloc);
    for text in texts {
        let mut cells = List::new(alloc);
        cells.push(nested(alloc, text)?)?;
        rows.push(cells)?;
    }
    Ok(Grid {
        heads,
        types: List::new(alloc),
        rows,
    })
}

fn is_printed(grid: &Result<Grid, AllocError>, alloc: Global, expected: &str) -> bool {
    let Ok(printed) = grid else { return false };
    matches!(&pl_print::grid(alloc, printed), Ok(bytes) if is_text(bytes, expected))
}

#[test]
fn results_are_printed_as_psql_prints_them(rt: HostRuntime) {
    let alloc = rt.alloc();
    assert!(rt;
        is_printed(
            &one_row(alloc),
            alloc,
            "a|b|c|d|e\n1|2147483648||x|f\n(1 row)\n"
        )
    );
    assert!(rt; is_printed(&rows_of(alloc, &[]), alloc, "p\n(0 rows)\n"));
    let two = "p\n(\"(ab,,t)\",-5)\n(\"(\"\"\"\",,t)\",-5)\n(2 rows)\n";
    assert!(rt; is_printed(&rows_of(alloc, &["ab", ""]), alloc, two));
}

fn is_quoted(alloc: Global, first: &str, expected: &str) -> bool {
    let Ok(value) = nested(alloc, first) else {
        return false
    };
    matches!(&text_of(alloc, &value), Ok(text) if text.as_bytes() == expected.as_bytes())
}

#[test]
fn rows_are_quoted_as_the_server_quotes_them(rt: HostRuntime) {
    let alloc = rt.alloc();
    let forms = [
        ("x\"\\y", "(\"(\"\"x\"\"\"\"\\\\\\\\y\"\",,t)\",-5)"),
        ("", "(\"(\"\"\"\",,t)\",-5)"),
        ("a,b", "(\"(\"\"a,b\"\",,t)\",-5)"),
        ("é", "(\"(é,,t)\",-5)"),
        ("a)", "(\"(\"\"a)\"\",,t)\",-5)"),
        ("\t", "(\"(\"\"\t\"\",,t)\",-5)"),
        ("a\x0bb", "(\"(\"\"a\x0bb\"\",,t)\",-5)"),
        ("a'b", "(\"(a'b,,t)\",-5)"),
    ];
    for (first, expected) in forms {
        assert!(rt; is_quoted(alloc, first, expected), "row {expected}");
    }
}

#[test]
fn tags_are_the_servers(rt: HostRuntime) {
    let alloc = rt.alloc();
    let tags = [
        (Tag::Insert(3), "INSERT 0 3\n"),
        (Tag::Update(2), "UPDATE 2\n"),
        (Tag::Delete(0), "DELETE 0\n"),
        (Tag::CreateTable, "CREATE TABLE\n"),
        (Tag::CreateFunction, "CREATE FUNCTION\n"),
        (Tag::CreateProcedure, "CREATE PROCEDURE\n"),
        (Tag::CreateTrigger, "CREATE TRIGGER\n"),
        (Tag::DropTable, "DROP TABLE\n"),
        (Tag::DropFunction, "DROP FUNCTION\n"),
        (Tag::DropProcedure, "DROP PROCEDURE\n"),
        (Tag::DropTrigger, "DROP TRIGGER\n"),
        (Tag::Do, "DO\n"),
        (Tag::Call, "CALL\n"),
        (Tag::Begin, "BEGIN\n"),
        (Tag::StartTransaction, "START TRANSACTION\n"),
        (Tag::Commit, "COMMIT\n"),
        (Tag::Rollback, "ROLLBACK\n"),
        (Tag::Savepoint, "SAVEPOINT\n"),
        (Tag::Release, "RELEASE\n"),
    ];
    for (done, expected) in tags {
        assert!(rt;
            matches!(&tag(alloc, &done), Ok(bytes) if is_text(bytes, expected)),
            "tag {expected}"
        );
    }
}

fn failure(code: [u8; 5], message: Message, detail: Option<Txt>, hint: Option<Txt>) -> Fail {
    Fail {
        state: State { code },
        message,
        detail,
        hint,
        origin: Origin::Engine,
        place: Place {
            routine: Name::NONE,
            line: 1,
            ordinal: 1,
        },
    }
}

fn full_failure(alloc: Global) -> Result<Fail, AllocError> {
    let message = Message::Text(Txt::from_slice(alloc, b"a <NULL> b %")?);
    let detail = Txt::from_slice(alloc, b"d")?;
    let hint = Txt::from_slice(alloc, b"h")?;
    Ok(failure(*b"23505", message, Some(detail), Some(hint)))
}

fn fails_with(alloc: Global, failure: &Result<Fail, AllocError>, expected: &str) -> bool {
    let Ok(failure) = failure else { return false };
    matches!(&fail(alloc, failure), Ok(bytes) if is_text(bytes, expected))
}

#[test]
fn errors_are_printed_as_psql_prints_them(rt: HostRuntime) {
    let alloc = rt.alloc();
    let full = "ERROR:  23505: a <NULL> b %\nDETAIL:  d\nHINT:  h\n";
    assert!(rt; fails_with(alloc, &full_failure(alloc), full));
    let named = Ok(failure(*b"22012", Message::Standard, None, None));
    assert!(rt; fails_with(alloc, &named, "ERROR:  22012: division_by_zero\n"));
    let unnamed = Ok(failure(*b"99999", Message::Standard, None, None));
    assert!(rt; fails_with(alloc, &unnamed, "ERROR:  99999: 99999\n"));
}

fn notices(alloc: Global) -> Result<Bytes, Memory> {
    let text = Txt::from_slice(alloc, b"m")?;
    let more = Txt::from_slice(alloc, b"d")?;
    let mut all = notice(alloc, Level::Warning, &text, Some(&more), Some(&text))?;
    all.append(notice(alloc, Level::Notice, &more, None, Some(&text))?)?;
    all.append(notice(alloc, Level::Info, &text, Some(&more), None)?)?;
    Ok(all)
}

#[test]
fn notices_are_printed_as_psql_prints_them(rt: HostRuntime) {
    let expected =
        "WARNING:  m\nDETAIL:  d\nHINT:  m\nNOTICE:  d\nHINT:  m\nINFO:  m\nDETAIL:  d\n";
    assert!(rt; matches!(&notices(rt.alloc()), Ok(all) if is_text(all, expected)));
}
