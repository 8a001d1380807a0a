//! Texts with their tokens or their first bad lexeme, by the lexical rules.

use crate::command::cut;
use crate::keyword::Keyword;
use crate::lexer::{LexFail, lex};
use crate::sign::Sign;
use crate::token::{Token, TokenKind};
use crate::utf8::{NotText, read_utf8};
use pl_base::{Name, State, Txt};
use std::alloc::{AllocError, Global};
use std::str::from_utf8;

fn name(name: &Name) -> &str {
    from_utf8(name.as_bytes()).unwrap_or("?")
}

fn text(text: &Txt) -> &str {
    from_utf8(text.as_bytes()).unwrap_or("?")
}

fn state(state: &State) -> &str {
    from_utf8(&state.code).unwrap_or("?")
}

/// A token as its kind's letter, its value, and its places.
fn describe(alloc: Global, token: &Token) -> Result<String, AllocError> {
    let (start, end) = (token.start, token.end);
    match &token.kind {
        TokenKind::Word(word) => {
            let word = name(word);
            format!(in alloc; "w({word}){start}-{end}")
        }
        TokenKind::Keyword(keyword) => format!(in alloc; "k({keyword:?}){start}-{end}"),
        TokenKind::Quoted(quoted) => {
            let quoted = name(quoted);
            format!(in alloc; "q({quoted}){start}-{end}")
        }
        TokenKind::Number(number) => format!(in alloc; "n({number}){start}-{end}"),
        TokenKind::Text(contents) => {
            let contents = text(contents);
            format!(in alloc; "t({contents}){start}-{end}")
        }
        TokenKind::EscapeText(contents) => {
            let contents = text(contents);
            format!(in alloc; "e({contents}){start}-{end}")
        }
        TokenKind::DollarText(contents) => {
            let contents = text(contents);
            format!(in alloc; "d({contents}){start}-{end}")
        }
        TokenKind::Parameter(number) => format!(in alloc; "p({number}){start}-{end}"),
        TokenKind::Sign(sign) => format!(in alloc; "{sign:?}{start}-{end}"),
    }
}

fn describe_all(alloc: Global, tokens: &[Token]) -> Result<String, AllocError> {
    let mut all = String::new(alloc);
    for token in tokens {
        if !all.is_empty() {
            all.push_str(" ")?;
        }
        let one = describe(alloc, token)?;
        all.push_str(one.as_str())?;
    }
    Ok(all)
}

/// The tokens of a text, or the state and the place of its first bad lexeme.
fn reading(alloc: Global, text: &str) -> Result<String, AllocError> {
    match lex(alloc, text) {
        Ok(tokens) => describe_all(alloc, tokens.as_slice()),
        Err(LexFail::Bad { at, state: code }) => {
            let code = state(&code);
            format!(in alloc; "{code} at {at}")
        }
        Err(LexFail::Memory) => Err(AllocError),
    }
}

/// The first text of a table that is read otherwise than there.
fn first_other<'a>(alloc: Global, table: &[(&'a str, &'a str)]) -> Option<&'a str> {
    for (text, want) in table {
        match reading(alloc, text) {
            Ok(read) if read.as_str() == *want => {}
            _ => return Some(text),
        }
    }
    None
}

// In the tables stands beside each text what its tokens are, with their places, or the state and
// the place of its first bad lexeme. Words, keywords, names in quotes, numbers, texts, E-texts,
// dollar texts and parameters are written w, k, q, n, t, e, d and p, and a sign by its name.

/// No token.
const BLANKS: [(&str, &str); 5] = [
    ("", ""),
    (" ", ""),
    ("\t\n\r\x0c", ""),
    (" a ", "w(a)1-2"),
    ("\x0b", "42601 at 0"),
];

/// Words and keywords.
const WORDS: [(&str, &str); 21] = [
    ("a", "w(a)0-1"),
    ("aB_9$", "w(ab_9$)0-5"),
    ("_", "w(_)0-1"),
    ("SeLeCt", "k(Select)0-6"),
    ("selects", "w(selects)0-7"),
    ("a$b$c", "w(a$b$c)0-5"),
    ("café", "w(café)0-5"),
    ("É", "w(É)0-2"),
    ("ÀB", "w(Àb)0-3"),
    ("日本", "w(日本)0-6"),
    ("x日$1", "w(x日$1)0-6"),
    ("next", "w(next)0-4"),
    ("returns", "w(returns)0-7"),
    ("E", "w(e)0-1"),
    ("e1", "w(e1)0-2"),
    ("a b", "w(a)0-1 w(b)2-3"),
    (
        "xxxxxxxxxxxxxxxxxxxxxxxxxxxxxxxxxxxxxxxxxxxxxxxxxxxxxxxxxxxxxxx",
        "w(xxxxxxxxxxxxxxxxxxxxxxxxxxxxxxxxxxxxxxxxxxxxxxxxxxxxxxxxxxxxxxx)0-63",
    ),
    (
        "xxxxxxxxxxxxxxxxxxxxxxxxxxxxxxxxxxxxxxxxxxxxxxxxxxxxxxxxxxxxxxxx",
        "42622 at 0",
    ),
    ("éééééééééééééééééééééééééééééééé", "42622 at 0"),
    (
        "éééééééééééééééééééééééééééééééa",
        "w(éééééééééééééééééééééééééééééééa)0-63",
    ),
    (
        "a BBBBBBBBBBBBBBBBBBBBBBBBBBBBBBBBBBBBBBBBBBBBBBBBBBBBBBBBBBBBBBBB",
        "42622 at 2",
    ),
];

/// Names in quotes.
const QUOTED_NAMES: [(&str, &str); 18] = [
    ("\"A\"", "q(A)0-3"),
    ("\"select\"", "q(select)0-8"),
    ("\"a\"\"b\"", "q(a\"b)0-6"),
    ("\"\"\"\"", "q(\")0-4"),
    ("\"a b;c\"", "q(a b;c)0-7"),
    ("\"é\"", "q(é)0-4"),
    (
        "\"yyyyyyyyyyyyyyyyyyyyyyyyyyyyyyyyyyyyyyyyyyyyyyyyyyyyyyyyyyyyyyy\"",
        "q(yyyyyyyyyyyyyyyyyyyyyyyyyyyyyyyyyyyyyyyyyyyyyyyyyyyyyyyyyyyyyyy)0-65",
    ),
    (
        "\"yyyyyyyyyyyyyyyyyyyyyyyyyyyyyyyyyyyyyyyyyyyyyyyyyyyyyyyyyyyyyyyy\"",
        "42622 at 0",
    ),
    (
        "\"\"\"\"\"\"\"\"\"\"\"\"\"\"\"\"\"\"\"\"\"\"\"\"\"\"\"\"\"\"\"\"\"\"\"\"\"\"\"\"\"\"\"\"\"\"\"\"\"\"\"\"\"\"\"\"\"\"\"\"\"\"\"\"\"\"\"\"\"\"\"\"\"\"\"\"\"\"\"\"\"\"\"\"\"\"\"\"\"\"\"\"\"\"\"\"\"\"\"\"\"\"\"\"\"\"\"\"\"\"\"\"\"\"\"\"\"\"\"\"\"\"\"\"\"\"\"\"",
        "q(\"\"\"\"\"\"\"\"\"\"\"\"\"\"\"\"\"\"\"\"\"\"\"\"\"\"\"\"\"\"\"\"\"\"\"\"\"\"\"\"\"\"\"\"\"\"\"\"\"\"\"\"\"\"\"\"\"\"\"\"\"\"\")0-128",
    ),
    (
        "\"\"\"\"\"\"\"\"\"\"\"\"\"\"\"\"\"\"\"\"\"\"\"\"\"\"\"\"\"\"\"\"\"\"\"\"\"\"\"\"\"\"\"\"\"\"\"\"\"\"\"\"\"\"\"\"\"\"\"\"\"\"\"\"\"\"\"\"\"\"\"\"\"\"\"\"\"\"\"\"\"\"\"\"\"\"\"\"\"\"\"\"\"\"\"\"\"\"\"\"\"\"\"\"\"\"\"\"\"\"\"\"\"\"\"\"\"\"\"\"\"\"\"\"\"\"\"\"\"\"",
        "42622 at 0",
    ),
    ("\"\"", "42601 at 0"),
    ("a \"\" b", "42601 at 2"),
    ("\"a", "42601 at 0"),
    ("\"", "42601 at 0"),
    ("\"a\"\"", "42601 at 0"),
    ("\"\"\"", "42601 at 0"),
    ("\"a\"b", "q(a)0-3 w(b)3-4"),
    ("\"a\\n\"", "q(a\\n)0-5"),
];

/// Numbers.
const NUMBERS: [(&str, &str); 33] = [
    ("0", "n(0)0-1"),
    ("007", "n(7)0-3"),
    ("9223372036854775807", "n(9223372036854775807)0-19"),
    ("9223372036854775808", "n(9223372036854775808)0-19"),
    ("9223372036854775809", "22003 at 0"),
    ("18446744073709551616", "22003 at 0"),
    ("92233720368547758080", "22003 at 0"),
    ("00000000000000000000001", "n(1)0-23"),
    ("12ab", "42601 at 0"),
    ("1_000", "42601 at 0"),
    ("1$", "42601 at 0"),
    ("1é", "42601 at 0"),
    ("0x1F", "42601 at 0"),
    ("1e5", "42601 at 0"),
    ("1 12ab", "42601 at 2"),
    ("1.5", "0A000 at 0"),
    ("1.", "0A000 at 0"),
    (".5", "0A000 at 0"),
    ("1.5x", "0A000 at 0"),
    ("99999999999999999999.5", "0A000 at 0"),
    ("1.a", "0A000 at 0"),
    ("12ab.5", "42601 at 0"),
    ("1..3", "n(1)0-1 DotDot1-3 n(3)3-4"),
    ("1..", "n(1)0-1 DotDot1-3"),
    ("1...3", "0A000 at 3"),
    ("1.5..3", "0A000 at 0"),
    ("...5", "0A000 at 2"),
    ("1...", "n(1)0-1 DotDot1-3 Dot3-4"),
    ("....", "DotDot0-2 DotDot2-4"),
    ("-1", "Minus0-1 n(1)1-2"),
    ("a.b", "w(a)0-1 Dot1-2 w(b)2-3"),
    ("a.1", "0A000 at 1"),
    ("1+2", "n(1)0-1 Plus1-2 n(2)2-3"),
];

/// Texts in quotes.
const TEXTS: [(&str, &str); 18] = [
    ("''", "t()0-2"),
    ("'a'", "t(a)0-3"),
    ("'it''s'", "t(it's)0-7"),
    ("''''", "t(')0-4"),
    ("'a\\'", "t(a\\)0-4"),
    ("'a\nb'", "t(a\nb)0-5"),
    ("'é'", "t(é)0-4"),
    ("'a' 'b'", "t(a)0-3 t(b)4-7"),
    ("'a'\"b\"", "t(a)0-3 q(b)3-6"),
    ("';'", "t(;)0-3"),
    ("'--'", "t(--)0-4"),
    ("'/*'", "t(/*)0-4"),
    ("'", "42601 at 0"),
    ("'a", "42601 at 0"),
    ("'a''", "42601 at 0"),
    ("'''", "42601 at 0"),
    ("x 'a", "42601 at 2"),
    ("x'a'", "w(x)0-1 t(a)1-4"),
];

/// Texts with backslashes.
const ESCAPE_TEXTS: [(&str, &str); 28] = [
    ("E''", "e()0-3"),
    ("e'a'", "e(a)0-4"),
    ("E'\\\\'", "e(\\)0-5"),
    ("E'\\''", "e(')0-5"),
    ("E'a''b'", "e(a'b)0-7"),
    ("E'\\n\\t\\r\\b\\f'", "e(\n\t\r\x08\x0c)0-13"),
    ("E'\\a\\8\\9\\\"\\é'", "e(a89\"é)0-14"),
    ("E'\\N\\X'", "e(NX)0-7"),
    ("E'\\\\x1'", "e(\\x1)0-7"),
    ("E'''\\''''", "e(''')0-9"),
    ("E'\\01'", "0A000 at 0"),
    ("E'\\71'", "0A000 at 0"),
    ("E'\\x1'", "0A000 at 0"),
    ("E'\\u1'", "0A000 at 0"),
    ("E'\\U1'", "0A000 at 0"),
    ("E'a\\6b' x", "0A000 at 0"),
    ("a E'\\x'", "0A000 at 2"),
    ("E'\\x", "42601 at 0"),
    ("E'", "42601 at 0"),
    ("E'a", "42601 at 0"),
    ("E'\\", "42601 at 0"),
    ("E'\\'", "42601 at 0"),
    ("E'a''", "42601 at 0"),
    ("E'\\\\\\'", "42601 at 0"),
    ("e 'a'", "w(e)0-1 t(a)2-5"),
    ("be'a'", "w(be)0-2 t(a)2-5"),
    ("E'a'b", "e(a)0-4 w(b)4-5"),
    ("'E'", "t(E)0-3"),
];

/// Dollar texts and parameters.
const DOLLARS: [(&str, &str); 38] = [
    ("$$$$", "d()0-4"),
    ("$$a$$", "d(a)0-5"),
    ("$q$a$q$", "d(a)0-7"),
    ("$q$a$Q$b$q$", "d(a$Q$b)0-11"),
    ("$q$ $$ $qq$ $q$", "d( $$ $qq$ )0-15"),
    ("$f$ 'x; -- $f$", "d( 'x; -- )0-14"),
    ("$_1é$x$_1é$", "d(x)0-13"),
    ("$$a$b$$", "d(a$b)0-7"),
    ("$q$$q$", "d()0-6"),
    ("$a$$a$a$a$", "d()0-6 w(a$a$)6-10"),
    ("$q$a$q$q$q$", "d(a)0-7 w(q$q$)7-11"),
    ("$$a", "42601 at 0"),
    ("$$", "42601 at 0"),
    ("$q$a$Q$", "42601 at 0"),
    ("$q$a$q", "42601 at 0"),
    ("$$a$", "42601 at 0"),
    ("$$$$$", "42601 at 4"),
    ("$", "42601 at 0"),
    ("$a", "42601 at 0"),
    ("$ $", "42601 at 0"),
    ("a $b c", "42601 at 2"),
    ("a$$", "w(a$$)0-3"),
    ("a$q$b$q$", "w(a$q$b$q$)0-8"),
    ("1 $q$b$q$", "n(1)0-1 d(b)2-9"),
    ("$1", "p(1)0-2"),
    ("$65535", "p(65535)0-6"),
    ("$007", "p(7)0-4"),
    ("$0", "42601 at 0"),
    ("$00", "42601 at 0"),
    ("$65536", "42601 at 0"),
    ("$99999999999999999999", "42601 at 0"),
    ("$1$x$", "42601 at 2"),
    ("$1$x$a$x$", "p(1)0-2 d(a)2-9"),
    ("$12abc", "p(12)0-3 w(abc)3-6"),
    ("$1$2", "p(1)0-2 p(2)2-4"),
    ("$1..$2", "p(1)0-2 DotDot2-4 p(2)4-6"),
    ("$1.a", "p(1)0-2 Dot2-3 w(a)3-4"),
    ("$1.5", "0A000 at 2"),
];

/// Comments.
const COMMENTS: [(&str, &str); 29] = [
    ("--", ""),
    ("-- a", ""),
    ("--a\nb", "w(b)4-5"),
    ("--a\rb", "w(b)4-5"),
    ("a--b", "w(a)0-1"),
    ("- -", "Minus0-1 Minus2-3"),
    ("---", ""),
    ("--'\n'a'", "t(a)4-7"),
    ("/**/", ""),
    ("/* a */b", "w(b)7-8"),
    ("/*/**/*/", ""),
    ("/* a /* b */ c */x", "w(x)17-18"),
    ("/*-- */", ""),
    ("/*'*/a", "w(a)5-6"),
    ("/*/*/**/*/*/", ""),
    ("a/**/b", "w(a)0-1 w(b)5-6"),
    ("--/*\n1", "n(1)5-6"),
    ("/***/", ""),
    ("*/", "Star0-1 Slash1-2"),
    ("//", "Slash0-1 Slash1-2"),
    ("/*/ */", ""),
    ("/**//**/", ""),
    ("/*é*/", ""),
    ("/*", "42601 at 0"),
    ("/* a", "42601 at 0"),
    ("/*/", "42601 at 0"),
    ("/* a /* b */ c", "42601 at 0"),
    ("x /**/ /*", "42601 at 7"),
    ("/**/*/*", "42601 at 5"),
];

/// Signs, alone and next to each that could be read with them, and what begins no token.
const SIGNS: [(&str, &str); 95] = [
    ("(", "Open0-1"),
    (")", "Close0-1"),
    (",", "Comma0-1"),
    (";", "Semicolon0-1"),
    (".", "Dot0-1"),
    (":", "Colon0-1"),
    ("=", "Equal0-1"),
    ("<", "Less0-1"),
    (">", "Greater0-1"),
    ("+", "Plus0-1"),
    ("-", "Minus0-1"),
    ("*", "Star0-1"),
    ("/", "Slash0-1"),
    ("%", "Percent0-1"),
    ("..", "DotDot0-2"),
    (":=", "Assign0-2"),
    ("::", "Cast0-2"),
    ("=>", "Arrow0-2"),
    ("<>", "NotEqual0-2"),
    ("!=", "NotEqual0-2"),
    ("<=", "LessOrEqual0-2"),
    (">=", "GreaterOrEqual0-2"),
    ("<<", "OpenLabel0-2"),
    (">>", "CloseLabel0-2"),
    ("||", "Concat0-2"),
    (". .", "Dot0-1 Dot2-3"),
    (": :", "Colon0-1 Colon2-3"),
    (": =", "Colon0-1 Equal2-3"),
    ("= >", "Equal0-1 Greater2-3"),
    ("< >", "Less0-1 Greater2-3"),
    ("< =", "Less0-1 Equal2-3"),
    ("> =", "Greater0-1 Equal2-3"),
    ("< <", "Less0-1 Less2-3"),
    ("> >", "Greater0-1 Greater2-3"),
    (":==", "Assign0-2 Equal2-3"),
    ("::=", "Cast0-2 Equal2-3"),
    (":=>", "Assign0-2 Greater2-3"),
    (":::=", "Cast0-2 Assign2-4"),
    (":::", "Cast0-2 Colon2-3"),
    ("==", "Equal0-1 Equal1-2"),
    ("=>=", "Arrow0-2 Equal2-3"),
    ("=>>", "Arrow0-2 Greater2-3"),
    ("=<>", "Equal0-1 NotEqual1-3"),
    ("=<=", "Equal0-1 LessOrEqual1-3"),
    ("<>=", "NotEqual0-2 Equal2-3"),
    ("<>>", "NotEqual0-2 Greater2-3"),
    ("<=>", "LessOrEqual0-2 Greater2-3"),
    ("<==", "LessOrEqual0-2 Equal2-3"),
    ("<<=", "OpenLabel0-2 Equal2-3"),
    ("<<<", "OpenLabel0-2 Less2-3"),
    ("<<>>", "OpenLabel0-2 CloseLabel2-4"),
    ("<<l>>", "OpenLabel0-2 w(l)2-3 CloseLabel3-5"),
    (">==", "GreaterOrEqual0-2 Equal2-3"),
    (">=>", "GreaterOrEqual0-2 Greater2-3"),
    (">>=", "CloseLabel0-2 Equal2-3"),
    (">>>", "CloseLabel0-2 Greater2-3"),
    ("><", "Greater0-1 Less1-2"),
    ("><>", "Greater0-1 NotEqual1-3"),
    (">><<", "CloseLabel0-2 OpenLabel2-4"),
    ("!==", "NotEqual0-2 Equal2-3"),
    ("!=>", "NotEqual0-2 Greater2-3"),
    ("<!=", "Less0-1 NotEqual1-3"),
    ("...", "DotDot0-2 Dot2-3"),
    ("..:=", "DotDot0-2 Assign2-4"),
    ("||||", "Concat0-2 Concat2-4"),
    ("-/", "Minus0-1 Slash1-2"),
    ("-+", "Minus0-1 Plus1-2"),
    ("**", "Star0-1 Star1-2"),
    ("/-", "Slash0-1 Minus1-2"),
    ("%%", "Percent0-1 Percent1-2"),
    ("(*)", "Open0-1 Star1-2 Close2-3"),
    ("!", "42601 at 0"),
    ("! =", "42601 at 0"),
    ("|", "42601 at 0"),
    ("|||", "42601 at 2"),
    ("| |", "42601 at 0"),
    ("a!b", "42601 at 1"),
    ("!!=", "42601 at 0"),
    ("<!", "42601 at 1"),
    ("#", "42601 at 0"),
    ("&", "42601 at 0"),
    ("?", "42601 at 0"),
    ("@", "42601 at 0"),
    ("[", "42601 at 0"),
    ("]", "42601 at 0"),
    ("^", "42601 at 0"),
    ("`", "42601 at 0"),
    ("{", "42601 at 0"),
    ("}", "42601 at 0"),
    ("~", "42601 at 0"),
    ("\\", "42601 at 0"),
    ("\x01", "42601 at 0"),
    ("\x7f", "42601 at 0"),
    ("\x00", "42601 at 0"),
    ("\u{a0}", "w(\u{a0})0-2"),
];

/// Two bad lexemes, and longer texts.
const COMMANDS: [(&str, &str); 8] = [
    ("1.5 ''' ", "0A000 at 0"),
    ("a ! \"", "42601 at 2"),
    ("\"\" 12ab", "42601 at 0"),
    ("'a' $0 1.5", "42601 at 4"),
    (
        "SELECT a.b, 'it''s' -- end",
        "k(Select)0-6 w(a)7-8 Dot8-9 w(b)9-10 Comma10-11 t(it's)12-19",
    ),
    (
        "a:=1..2 <<l::b;",
        "w(a)0-1 Assign1-3 n(1)3-4 DotDot4-6 n(2)6-7 OpenLabel8-10 w(l)10-11 Cast11-13 w(b)13-14 Semicolon14-15",
    ),
    (
        "all and as asc begin between by case cast check coalesce constraint create cross declare default delete desc distinct do else end execute exists false for foreign from greatest group having if in inner insert",
        "k(All)0-3 k(And)4-7 k(As)8-10 k(Asc)11-14 k(Begin)15-20 k(Between)21-28 k(By)29-31 k(Case)32-36 k(Cast)37-41 k(Check)42-47 k(Coalesce)48-56 k(Constraint)57-67 k(Create)68-74 k(Cross)75-80 k(Declare)81-88 k(Default)89-96 k(Delete)97-103 k(Desc)104-108 k(Distinct)109-117 k(Do)118-120 k(Else)121-125 k(End)126-129 k(Execute)130-137 k(Exists)138-144 k(False)145-150 k(For)151-154 k(Foreign)155-162 k(From)163-167 k(Greatest)168-176 k(Group)177-182 k(Having)183-189 k(If)190-192 k(In)193-195 k(Inner)196-201 k(Insert)202-208",
    ),
    (
        "INTO IS JOIN LEAST LEFT LIKE LIMIT LOOP NOT NULL NULLIF OFFSET ON OR ORDER PRIMARY REFERENCES RETURNING ROW SELECT STRICT TABLE THEN TO TRUE UNION UNIQUE UPDATE USING VALUES WHEN WHERE WHILE WITH",
        "k(Into)0-4 k(Is)5-7 k(Join)8-12 k(Least)13-18 k(Left)19-23 k(Like)24-28 k(Limit)29-34 k(Loop)35-39 k(Not)40-43 k(Null)44-48 k(Nullif)49-55 k(Offset)56-62 k(On)63-65 k(Or)66-68 k(Order)69-74 k(Primary)75-82 k(References)83-93 k(Returning)94-103 k(Row)104-107 k(Select)108-114 k(Strict)115-121 k(Table)122-127 k(Then)128-132 k(To)133-135 k(True)136-140 k(Union)141-146 k(Unique)147-153 k(Update)154-160 k(Using)161-166 k(Values)167-173 k(When)174-178 k(Where)179-184 k(While)185-190 k(With)191-195",
    ),
];

#[test]
fn texts_are_read_as_tokens(rt: HostRuntime) {
    assert_eq!(rt; first_other(rt.alloc(), &BLANKS), None);
    assert_eq!(rt; first_other(rt.alloc(), &WORDS), None);
    assert_eq!(rt; first_other(rt.alloc(), &QUOTED_NAMES), None);
    assert_eq!(rt; first_other(rt.alloc(), &NUMBERS), None);
    assert_eq!(rt; first_other(rt.alloc(), &TEXTS), None);
    assert_eq!(rt; first_other(rt.alloc(), &ESCAPE_TEXTS), None);
    assert_eq!(rt; first_other(rt.alloc(), &DOLLARS), None);
    assert_eq!(rt; first_other(rt.alloc(), &COMMENTS), None);
    assert_eq!(rt; first_other(rt.alloc(), &SIGNS), None);
    assert_eq!(rt; first_other(rt.alloc(), &COMMANDS), None);
}

/// The next command of a text: its tokens or its first bad lexeme, and its places.
fn command(alloc: Global, text: &str, from: usize) -> Result<String, AllocError> {
    let piece = match cut(alloc, text, from.min(text.len())) {
        Ok(Some(piece)) => piece,
        Ok(None) => return format!(in alloc; "none"),
        Err(_) => return Err(AllocError),
    };
    let (start, end) = (piece.start, piece.end);
    match &piece.tokens {
        Ok(tokens) => {
            let tokens = describe_all(alloc, tokens.as_slice())?;
            format!(in alloc; "{start}-{end}: {tokens}")
        }
        Err(bad) => {
            let (at, code) = (bad.at, state(&bad.state));
            format!(in alloc; "{start}-{end}: {code} at {at}")
        }
    }
}

#[test]
fn commands_end_at_semicolons(rt: HostRuntime) {
    let script = "a 'x;y';1b $0;; ';' /* ; */ ; -- ;";
    let cases = [
        (0, "0-7: w(a)0-1 t(x;y)2-7"),
        (8, "8-13: 42601 at 8"),
        (14, "14-14: "),
        (15, "15-28: t(;)16-19"),
        (29, "none"),
        (34, "none"),
    ];
    for (from, want) in cases {
        let cut = command(rt.alloc(), script, from);
        let cut = cut.as_ref().map_or("no memory", |text| text.as_str());
        assert_eq!(rt; cut, want, "from {from}");
    }
}

/// Whether the tokens are the word `next`, another, the keyword NULL and a semicolon.
fn are_told_apart(tokens: &[Token]) -> bool {
    match tokens {
        [word, quoted, keyword, sign] => {
            word.is_word("next")
                && !quoted.is_word("next")
                && keyword.is_keyword(Keyword::Null)
                && sign.is_sign(Sign::Semicolon)
        }
        _ => false,
    }
}

#[test]
fn words_names_keywords_and_signs_are_told_apart(rt: HostRuntime) {
    let told = match lex(rt.alloc(), "NEXT \"next\" Null;") {
        Ok(tokens) => are_told_apart(tokens.as_slice()),
        Err(_) => false,
    };
    assert!(rt; told);
}

#[test]
fn bytes_are_read_as_text(rt: HostRuntime) {
    assert_eq!(rt; read_utf8("aé".as_bytes()), Ok("aé"));
    assert_eq!(rt; read_utf8(b"a\xc3\xa9\xff"), Err(NotText { at: 3 }));
    assert_eq!(rt; read_utf8(b"a\xc3"), Err(NotText { at: 1 }));
}
