//! Each call once.

ghost use Rattle.std.specs.Prelude.{◌≡◌, true};
ghost use Rattle.pl_history.specs.Pairs.{IsFree};

use pl_history::Pairs;
use std::alloc::AllocError;
use std::test::Fail;

fn is_free(pairs: &Pairs, number: usize) -> bool
    ensures { result ≡ true → IsFree number pairs.now.numbers.current }
{
    pairs.place_of(number).is_none()
}

// Puts the number behind the others. False where it can't be.
fn push(pairs: &mut Pairs, number: usize) -> Result<bool, AllocError> {
    if number >= pairs.count() || !is_free(pairs, number) {
        return Ok(false);
    }
    pairs.push(Some(number))?;
    Ok(true)
}

// Empties the place. False where there is none.
fn empty(pairs: &mut Pairs, at: usize) -> Result<bool, AllocError> {
    if at >= pairs.len() {
        return Ok(false);
    }
    pairs.set(at, None)?;
    Ok(true)
}

#[test]
fn numbers_are_found_and_come_back(rt: HostRuntime) -> Result<(), Fail> {
    let mut pairs = Pairs::new(rt.alloc());
    assert!(rt; !push(&mut pairs, 0)?);
    pairs.widen()?;
    pairs.widen()?;
    assert_eq!(rt; pairs.count(), 2);
    assert!(rt; push(&mut pairs, 1)?);
    assert!(rt; push(&mut pairs, 0)?);
    assert!(rt; !push(&mut pairs, 1)?);
    assert_eq!(rt; pairs.len(), 2);
    assert_eq!(rt; pairs.place_of(1), Some(0));
    assert!(rt; empty(&mut pairs, 0)?);
    assert_eq!(rt; pairs.place_of(1), None);
    pairs.undo();
    assert_eq!(rt; pairs.place_of(1), Some(0));
    pairs.undo();
    assert_eq!(rt; pairs.place_of(0), None);
    pairs.forget();
    pairs.undo();
    assert_eq!(rt; pairs.place_of(1), Some(0));
    Ok(())
}
