//! `plpg STORE SCRIPT` runs an SQL script over a store of two files and prints its replies. Where a
//! file, the output or the memory fails it, a line on standard error says what failed and why.
#![tactic(auto)]

use pl_cli::{Ending, FileHost, FileSource, Line, Problem, read_words, refuse_words, run};
use std::env;
use std::io::{self, ErrorKind};
use std::process::ExitCode;

const NO_MEMORY: &str = "plpg: out of memory";

fn explain_problem(rt: &HostRuntime, problem: Option<Problem>, name: &str) -> io::Result<()> {
    match problem {
        Some(problem) => eprintln!(rt; "plpg: {}", problem.named(name)),
        None => Ok(()),
    }
}

// Says what failed. Of words and a script that are refused, and of a damaged store, the output has
// a line already.
fn explain(
    rt: &HostRuntime,
    ending: Ending,
    line: Line<'_>,
    host: &FileHost,
    source: &FileSource,
) -> io::Result<()> {
    match ending {
        Ending::Disk => explain_problem(rt, host.disk_problem(), line.store),
        Ending::Source => explain_problem(rt, source.problem(), line.script),
        Ending::Say => explain_problem(rt, host.say_problem(), line.store),
        Ending::Memory => eprintln!(rt; "{NO_MEMORY}"),
        Ending::Whole | Ending::Usage | Ending::AtError | Ending::Damaged | Ending::Refused => Ok(
            (),
        ),
    }
}

fn run_words(rt: HostRuntime, words: &[String]) -> u8 {
    let mut host = FileHost::new(rt);
    let mut source = FileSource::new(rt);
    let finish = run(rt.alloc(), words, &mut host, &mut source);
    // Where standard error fails too, the status alone says it.
    let _ = match read_words(rt.alloc(), words) {
        Ok(line) => explain(&rt, finish.ending, line, &host, &source),
        Err(_) => explain_refused(&rt, finish.ending, &host),
    };
    finish.status
}

// The same where the words are no line.
fn explain_refused(rt: &HostRuntime, ending: Ending, host: &FileHost) -> io::Result<()> {
    match ending {
        Ending::Say => explain_problem(rt, host.say_problem(), ""),
        Ending::Memory => eprintln!(rt; "{NO_MEMORY}"),
        Ending::Whole
        | Ending::Usage
        | Ending::AtError
        | Ending::Disk
        | Ending::Source
        | Ending::Damaged
        | Ending::Refused => Ok(()),
    }
}

fn refuse(rt: HostRuntime) -> u8 {
    let mut host = FileHost::new(rt);
    let finish = refuse_words(&mut host);
    let _ = explain_refused(&rt, finish.ending, &host);
    finish.status
}

fn all_words(rt: &HostRuntime) -> io::Result<Vec<String>> {
    Ok(env::args(rt)?.collect(rt.alloc())?)
}

fn main(rt: HostRuntime) -> ExitCode {
    let status = match all_words(&rt) {
        Ok(words) => run_words(rt, &words),
        Err(error) if error.kind() == ErrorKind::OutOfMemory => {
            let _ = eprintln!(rt; "{NO_MEMORY}");
            Ending::Memory.status()
        }
        // A word isn't UTF-8.
        Err(_) => refuse(rt),
    };
    ExitCode::from(status)
}
