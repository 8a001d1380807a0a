//! The body of a new routine, read from its text.

ghost use Rattle.std.specs.Prelude.{◌≡◌, ◌<◌, ◌-◌, ◌^◌, length};
ghost use Rattle.pl_routine.specs.pl_body_rules.Heading.{routine};
ghost use Rattle.pl_define.specs.Bodies as spec;
ghost use Rattle.pl_define.specs.Views.{fail_by};
ghost use Rattle.pl_routine.specs.Reading.{state_of};
ghost use Rattle.pl_routine_ddl.specs.pl_typing.Resolved.{Gives};

use pl_base::{Held, State, Txt};
use pl_bodies::Body;
use pl_codec::is_text;
use pl_lex::read_utf8;
use pl_routine::pl_body_rules::{Heading, Kind};
use pl_routine::{BodyFail, read_body};
use pl_routine_ddl::pl_typing::ScopeFail;
use pl_tree::{NewRoutine, ResultType, RoutineKind};
use std::alloc::Global;

/// A body of so many bytes isn't read: each place in a text is counted in 4 bytes.
const TOO_MANY_BYTES: u64 = (1 << 32) - 1;

fn kind_of(kind: RoutineKind) -> Kind
    ensures { result ≡ spec.kind_of kind }
{
    match kind {
        RoutineKind::Function => Kind::Function,
        RoutineKind::Procedure => Kind::Procedure,
    }
}

fn heading_of(new: &NewRoutine) -> Heading<'_>
    ensures { routine result ≡ spec.heading_of new.now }
{
    Heading {
        name: Some(new.name),
        kind: kind_of(new.kind),
        params: new.params.as_slice(),
        result: &new.result,
    }
}

fn fail_of(fail: BodyFail) -> ScopeFail
    ensures { result ≡ fail_by (state_of fail) }
{
    match fail.state() {
        Some(state) => ScopeFail::State(state),
        None => ScopeFail::Memory,
    }
}

fn read_text(alloc: Global, text: &str, heading: &Heading<'_>) -> Result<Held<Body>, ScopeFail>
    requires { length text.now < 2 ^ 32 - 1 }
    ensures { Gives result (spec.body_in text.now (routine heading.now)) }
{
    match read_body(alloc, text, heading) {
        Ok(body) => Ok(Held::new(body)),
        Err(fail) => Err(fail_of(fail)),
    }
}

fn is_body_text(text: &[u8]) -> bool
    ensures { result ≡ spec.is_body_text text.now }
{
    is_text(text) && (text.len() as u64) < TOO_MANY_BYTES
}

fn read(alloc: Global, text: &[u8], heading: &Heading<'_>) -> Result<Held<Body>, ScopeFail>
    ensures { Gives result (spec.body_of_text text.now (routine heading.now)) }
{
    if !is_body_text(text) {
        return Err(ScopeFail::State(State::PROGRAM_LIMIT_EXCEEDED));
    }
    match read_utf8(text) {
        Ok(text) => read_text(alloc, text, heading),
        Err(_) => unreachable!(),
    }
}

/// The body of a new routine. 42P13 where it has none, 54000 where its text has 2^32 - 1 bytes or
/// more; else the SQLSTATE of the first lexeme that is bad, 54001 where more than 100 parts stand
/// inside one another, 42601 where the text is no body, or the SQLSTATE of the first rule that the
/// body breaks.
pub(crate) fn body_of(alloc: Global, new: &NewRoutine) -> Result<Held<Body>, ScopeFail>
    ensures { Gives result (spec.body_of new.now) }
{
    match &new.body {
        Some(text) => read(alloc, text.as_bytes(), &heading_of(new)),
        None => Err(ScopeFail::State(State::INVALID_FUNCTION_DEFINITION)),
    }
}

/// The body that the text of a DO is: PostgreSQL manual, "DO". 54000 where the text has 2^32 - 1
/// bytes or more; else the SQLSTATE of the first lexeme that is bad, 54001 where more than 100
/// parts stand inside one another, 42601 where the text is no body, or the SQLSTATE of the first
/// rule that the body breaks.
pub fn read_do_text(alloc: Global, text: &Txt) -> Result<Held<Body>, ScopeFail>
    ensures { Gives result (spec.body_of_text text.now spec.nameless) }
{
    let result = ResultType::Absent;
    let heading = Heading {
        name: None,
        kind: Kind::Do,
        params: &[],
        result: &result,
    };
    read(alloc, text.as_bytes(), &heading)
}
