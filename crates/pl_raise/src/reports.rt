//! What is known of what RAISE raises: PostgreSQL manual, "PL/pgSQL", "Reporting Errors and
//! Messages".

ghost use Rattle.std.specs.Prelude.{◌≡◌, IfOk};
ghost use Rattle.pl_world.specs.Conditions as conditions;
ghost use Rattle.pl_world.specs.Raising as spec;

use pl_base::{State, Txt};
use pl_bodies::{Condition, RaiseOptionKind};
use pl_conditions::{code_of, code_or_name};
use std::alloc::{AllocError, Global};
use std::marker::Model;

/// What is known so far of what RAISE raises.
#[derive(Drop)]
pub(crate) struct Report {
    pub state: Option<State>,
    /// The condition, as it was written.
    pub written: Option<Txt>,
    pub message: Option<Txt>,
    pub detail: Option<Txt>,
    pub hint: Option<Txt>,
}

impl Model for Report {
    ghost use Rattle.pl_world.specs.Raising as raising;

    ghost Value = { raising.Report };

    ghost view = { λ r. record {
      state = r.state;
      written = r.written;
      message = r.message;
      detail = r.detail;
      hint = r.hint;
    } };
}

fn as_written(alloc: Global, condition: &Condition) -> Result<Txt, AllocError>
    ensures { IfOk result (λ text. text ≡ spec.as_written condition.now) }
{
    match condition {
        Condition::Name(name) => Txt::from_slice(alloc, name.as_bytes()),
        Condition::Code(text) => text.copy(alloc),
    }
}

impl Report {
    /// Nothing is known yet.
    pub fn new() -> Report
        ensures { result ≡ spec.nothing_said }
    {
        Report {
            state: None,
            written: None,
            message: None,
            detail: None,
            hint: None,
        }
    }

    /// What is said is known.
    pub fn with_text(text: Txt) -> Report
        ensures { result ≡ spec.with_text text }
    {
        let mut report = Report::new();
        report.message = Some(text);
        report
    }

    // The condition is known, if there is one of this text. 42704
    fn with_condition(mut self, state: Option<State>, written: Txt) -> Result<Report, State>
        ensures { result ≡ spec.with_condition state written self }
    {
        let Some(state) = state else {
            return Err(State::UNDEFINED_OBJECT);
        };
        self.state = Some(state);
        self.written = Some(written);
        Ok(self)
    }

    /// The condition alone is known. 42704 where there is none.
    pub fn of_condition(
        alloc: Global,
        condition: &Condition,
    ) -> Result<Result<Report, State>, AllocError>
        ensures { IfOk result (λ report.
            report ≡ spec.with_condition (conditions.code_of condition.now)
            (spec.as_written condition.now) spec.nothing_said) }
    {
        let written = as_written(alloc, condition)?;
        Ok(Report::new().with_condition(code_of(condition), written))
    }

    /// What one more option says is known. 42704 where it is to be a condition and is none.
    pub fn with_option(mut self, kind: RaiseOptionKind, text: Txt) -> Result<Report, State>
        ensures { result ≡ spec.with_option kind text self }
    {
        match kind {
            RaiseOptionKind::Message => self.message = Some(text),
            RaiseOptionKind::Detail => self.detail = Some(text),
            RaiseOptionKind::Hint => self.hint = Some(text),
            RaiseOptionKind::Errcode => {
                let state = code_or_name(text.as_bytes());
                return self.with_condition(state, text);
            }
        }
        Ok(self)
    }
}
