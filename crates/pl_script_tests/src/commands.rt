//! Sessions that are given one command after the other.

ghost use Rattle.std.specs.Prelude.{◌≡◌, None, IfOk, OnOk};
ghost use Rattle.pl_cli.specs.pl_session.State.{IsReady};

use crate::report::Report;
use pl_base::Memory;
use pl_cli::pl_session::{Halt, Outcome, SessionState, StartFail, Stop};
use pl_disk::{Area, Host, MemoryHost};
use std::alloc::Global;

/// The steps of a command.
const STEPS: u64 = 1000;

fn open<H: Host>(alloc: Global, host: &mut H) -> Result<SessionState, StartFail>
    ensures { IfOk result (λ session. IsReady (H.view host.new) session) }
{
    if host.attach("shop.store").is_err() {
        return Err(StartFail::Disk);
    }
    SessionState::start(alloc, host)
}

fn command<H: Host>(session: &mut SessionState, host: &mut H, text: &str) -> Result<Outcome, Halt>
    requires { session.old.failed ≡ None → IsReady (H.view host.old) session.old }
    ensures { OnOk result (IsReady (H.view host.new) session.new) }
{
    session.run_command(host, text, STEPS)
}

fn stop_word(stop: Stop) -> &'static str {
    match stop {
        Stop::Disk => "disk",
        Stop::Say => "say",
        Stop::Memory => "memory",
    }
}

fn write_halt(out: &mut Report, halt: Halt) {
    match halt {
        Halt::Stopped(stop) => {
            out.push(b"stopped by ");
            out.push(stop_word(stop).as_bytes());
        }
        Halt::Closed(stop) => {
            out.push(b"closed by ");
            out.push(stop_word(stop).as_bytes());
        }
    }
}

fn write_answer(out: &mut Report, answer: Result<Outcome, Halt>) {
    match answer {
        Ok(Outcome::Fine) => out.push(b"fine"),
        Ok(Outcome::Errored) => out.push(b"errored"),
        Err(halt) => write_halt(out, halt),
    }
    out.push(b", ");
}

// Whether the session goes on.
fn write_state(out: &mut Report, session: &SessionState) {
    match session.failed() {
        None => out.push(b"open: "),
        Some(stop) => {
            out.push(stop_word(stop).as_bytes());
            out.push(b": ");
        }
    }
}

// ---- commands one after the other

const FIRST: &str = "CREATE TABLE n (c integer)";

/// The second command is the last that runs.
const SECOND: &str = "INSERT INTO n VALUES (1); INSERT INTO m VALUES (2); INSERT INTO n VALUES (3)";

const THIRD: &str = "INSERT INTO n VALUES (4);";

fn write_three<H: Host>(
    out: &mut Report,
    session: &mut SessionState,
    host: &mut H,
) -> Result<(), Halt>
    requires { IsReady (H.view host.old) session.old }
{
    let first = command(session, host, FIRST)?;
    write_answer(out, Ok(first));
    let second = command(session, host, SECOND)?;
    write_answer(out, Ok(second));
    write_answer(out, command(session, host, THIRD));
    Ok(())
}

fn write_session<H: Host>(out: &mut Report, alloc: Global, host: &mut H) {
    let Ok(mut session) = open(alloc, host) else {
        return out.spoil();
    };
    if write_three(out, &mut session, host).is_err() {
        out.spoil();
    }
    write_state(out, &session);
}

// ---- a session that stops

fn write_stop<H: Host>(out: &mut Report, alloc: Global, host: &mut H) {
    let Ok(mut session) = open(alloc, host) else {
        return out.spoil();
    };
    write_answer(out, command(&mut session, host, FIRST));
    if session.failed().is_some() {
        write_answer(out, command(&mut session, host, THIRD));
    }
    write_state(out, &session);
}

// ---- both over a host in memory

fn fresh(alloc: Global, fail: &[u64]) -> Result<MemoryHost, Memory> {
    MemoryHost::new(alloc, Vec::new(alloc), Vec::new(alloc), fail.to_vec(alloc)?)
}

// How many calls there were, how long the store is, and what was printed.
fn write_host(out: &mut Report, host: &MemoryHost) {
    out.number(host.calls());
    out.number(host.area(Area::A).len() as u64);
    out.push(host.printed());
}

fn answers(alloc: Global) -> Report {
    let mut out = Report::new(alloc);
    let Ok(mut host) = fresh(alloc, &[]) else {
        return Report::lacking(alloc);
    };
    write_session(&mut out, alloc, &mut host);
    write_host(&mut out, &host);
    out
}

// The call of this number fails.
fn answers_to_a_fault(alloc: Global, call: u64) -> Report {
    let mut out = Report::new(alloc);
    let Ok(mut host) = fresh(alloc, &[call]) else {
        return Report::lacking(alloc);
    };
    write_stop(&mut out, alloc, &mut host);
    write_host(&mut out, &host);
    out
}

#[test]
fn commands_are_answered_one_by_one(rt: HostRuntime) {
    // One call attaches, twelve make a store, a change makes five and an error one.
    assert_eq!(rt;
        answers(rt.alloc()).text(),
        "fine, errored, fine, open: 29 110 CREATE TABLE\nINSERT 0 1\n\
ERROR:  42P01: undefined_table\nINSERT 0 1\n"
    );
}

#[test]
fn a_session_that_stopped_is_closed(rt: HostRuntime) {
    // Call 0 attaches, 1 to 12 make a store, 13 to 16 commit a table, and 17 prints the reply.
    assert_eq!(rt;
        answers_to_a_fault(rt.alloc(), 17).text(),
        "stopped by say, closed by say, say: 18 58 "
    );
}
