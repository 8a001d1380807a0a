//! Each call once.

ghost use Rattle.std.specs.Prelude.{◌≡◌};
ghost use Rattle.pl_variables.specs.Frames.{with_call};

use pl_base::{List, Value};
use pl_variables::Frames;
use std::alloc::{AllocError, Global};
use std::test::Fail;

fn one(alloc: Global, number: i32) -> Result<List<Value>, AllocError> {
    let mut values = List::new(alloc);
    values.push(Value::Int(number))?;
    Ok(values)
}

// The integer at this place of the newest call.
fn number_at(frames: &Frames<u8>, at: usize) -> Option<i32> {
    match frames.newest().values.get(at) {
        Some(Value::Int(number)) => Some(*number),
        _ => None,
    }
}

// FOUND, where there is one argument.
fn found(frames: &Frames<u8>) -> Option<bool> {
    match frames.newest().values.get(1) {
        Some(Value::Bool(truth)) => Some(*truth),
        _ => None,
    }
}

fn rename(frames: &mut Frames<u8>, call: u8)
    ensures { frames.new ≡ with_call call frames.old }
{
    *frames.call_mut() = call;
}

// A call is entered in the block of another one, changes its variables, and is left.
fn call_inside(alloc: Global, frames: &mut Frames<u8>) -> Result<(), AllocError> {
    frames.enter(2, one(alloc, 20)?)?;
    frames.set(0, Value::Int(21));
    frames.count(1, 0);
    frames.leave();
    Ok(())
}

#[test]
fn each_call_has_its_variables(rt: HostRuntime) -> Result<(), Fail> {
    let alloc = rt.alloc();
    let mut frames = Frames::new(alloc, 0);
    frames.enter(1, one(alloc, 10)?)?;
    assert_eq!(rt; found(&frames), Some(false));
    frames.count(1, 3);
    frames.declare(Value::Int(5))?;
    call_inside(alloc, &mut frames)?;
    assert_eq!(rt; frames.depth(), 1);
    assert_eq!(rt; frames.newest().call, 1);
    assert_eq!(rt; frames.newest().row_count, 3);
    assert_eq!(rt; found(&frames), Some(true));
    assert_eq!(rt; number_at(&frames, 0), Some(10));
    assert_eq!(rt; number_at(&frames, 2), Some(5));
    frames.close(2);
    assert_eq!(rt; number_at(&frames, 2), None);
    rename(&mut frames, 4);
    assert_eq!(rt; frames.newest().call, 4);
    frames.leave();
    assert_eq!(rt; frames.depth(), 0);
    Ok(())
}
