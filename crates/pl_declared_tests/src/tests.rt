//! Each call once.

use pl_base::{Name, Ty};
use pl_declared::Static;
use pl_tree::{Param, Way};
use std::alloc::{AllocError, Global};
use std::test::Fail;

fn name(text: &str) -> Option<Name> {
    Name::of(text)
}

// Of a routine `f(a integer)` that returns text.
fn entered(alloc: Global) -> Result<Static, AllocError> {
    let param = Param {
        way: Way::In,
        name: name("a"),
        ty: Ty::Int,
    };
    Static::entering(
        alloc,
        name("f").unwrap_or(Name::NONE),
        &[param],
        Some(Ty::Text),
    )
}

// How many variables the newest block has.
fn in_newest(s: &Static) -> Option<usize> {
    let blocks = s.scope().frames.as_slice();
    Some(blocks.last()?.variables.len())
}

#[test]
fn blocks_come_and_go(rt: HostRuntime) -> Result<(), Fail> {
    let alloc = rt.alloc();
    let outside = Static::outside(alloc);
    assert_eq!(rt; outside.count(), 0);
    let mut s = entered(alloc)?;
    assert_eq!(rt; s.count(), 2);
    assert!(rt; s.result() == Some(Ty::Text));
    s.open(alloc, None)?;
    s.declare(Name::NONE, Ty::Big, true)?;
    assert_eq!(rt; in_newest(&s), Some(1));
    assert_eq!(rt; s.count(), 3);
    assert!(rt; s.is_required(2));
    assert!(rt; !s.is_required(1));
    s.close();
    assert_eq!(rt; s.count(), 2);
    assert_eq!(rt; in_newest(&s), Some(1));
    Ok(())
}
