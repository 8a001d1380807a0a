//! Bodies and the rules that they break.

use crate::bodies::{assigns, body, constant, exit, loops, not_null, nothing, raises, returns};
use pl_base::{Held, List, Memory};
use pl_bodies::Body;
use pl_body_rules::{Breach, Heading, Kind, first_breach};
use pl_tree::ResultType;
use std::alloc::Global;

#[derive(Clone, Copy)]
enum Sample {
    Nothing,
    Exit,
    ExitOfLoop,
    NoVariable,
    Constant,
    NotNull,
    Known,
    Unknown,
    Value,
}

/// What each sample breaks: a SQLSTATE and a line, or none.
const VERDICTS: [(Sample, &str, u32); 9] = [
    (Sample::Nothing, "", 0),
    (Sample::Exit, "42601", 3),
    (Sample::ExitOfLoop, "", 0),
    (Sample::NoVariable, "42601", 3),
    (Sample::Constant, "22005", 3),
    (Sample::NotNull, "22004", 1),
    (Sample::Known, "", 0),
    (Sample::Unknown, "42704", 3),
    (Sample::Value, "42804", 3),
];

fn body_of(alloc: Global, sample: Sample) -> Result<Held<Body>, Memory> {
    match sample {
        Sample::Nothing => body(alloc, List::new(alloc), nothing()),
        Sample::Exit => body(alloc, List::new(alloc), exit()),
        Sample::ExitOfLoop => body(alloc, List::new(alloc), loops(alloc, exit())?),
        Sample::NoVariable => body(alloc, List::new(alloc), assigns("x")?),
        Sample::Constant => body(alloc, constant(alloc)?, assigns("x")?),
        Sample::NotNull => body(alloc, not_null(alloc)?, nothing()),
        Sample::Known => body(alloc, List::new(alloc), raises(alloc, "division_by_zero")?),
        Sample::Unknown => body(alloc, List::new(alloc), raises(alloc, "nosuch")?),
        Sample::Value => body(alloc, List::new(alloc), returns(alloc)?),
    }
}

fn verdict(alloc: Global, which: Sample) -> Result<Option<Breach>, Memory> {
    let body = body_of(alloc, which)?;
    let result = ResultType::Absent;
    let heading = Heading {
        name: None,
        kind: Kind::Do,
        params: &[],
        result: &result,
    };
    Ok(first_breach(alloc, &heading, body.get())?)
}

fn is_told(alloc: Global, which: Sample, state: &str, line: u32) -> bool {
    match verdict(alloc, which) {
        Ok(None) => state.is_empty(),
        Ok(Some(breach)) => {
            breach.state.code.as_slice() == state.as_bytes() && breach.line == line
        }
        Err(Memory) => false,
    }
}

#[test]
fn bodies_break_the_rules_that_the_table_says(rt: HostRuntime) {
    for (which, state, line) in VERDICTS {
        assert!(rt; is_told(rt.alloc(), which, state, line), "{state} {line}");
    }
}
