//! Blocks and their variables.

ghost use Rattle.std.specs.Prelude.{◌≡◌, ◌-◌, [], length, take, OnOk};
ghost use Rattle.pl_world.specs.Variables as spec;

use pl_base::{List, Name, Ty};
use pl_world::pl_names::{Seen, Shape, Visible};
use std::alloc::{AllocError, Global};

/// A block without variables.
pub(crate) fn block(alloc: Global, label: Name) -> Visible
    ensures { result ≡ spec.visible label [] }
{
    Visible {
        label,
        variables: List::new(alloc),
    }
}

pub(crate) fn variable(name: Name, ty: Ty) -> Seen
    ensures { result ≡ spec.seen name ty }
{
    Seen {
        name,
        ty,
        shape: Shape::Plain,
    }
}

/// The newest block has one variable more.
#[tactic(auto, using(crate::proofs::Newest::declared_last))]
pub(crate) fn declare(blocks: &mut List<Visible>, variable: Seen) -> Result<(), AllocError>
    ensures { OnOk result (blocks.new ≡ spec.with_variable variable blocks.old) }
{
    if let Some(newest) = blocks.pop() {
        let mut newest = newest;
        newest.variables.push(variable)?;
        blocks.push(newest)?;
    }
    Ok(())
}

/// The newest block is gone.
#[tactic(auto, using(pl_history::specs::HistoryLaws::before_last))]
pub(crate) fn drop_newest(blocks: &mut List<Visible>)
    ensures { blocks.new ≡ take (length blocks.old - 1) blocks.old }
{
    match blocks.pop() {
        Some(_newest) => {}
        None => {}
    }
}

/// How many of so many variables are more than these blocks have.
pub(crate) fn beyond(count: usize, blocks: &[Visible]) -> usize
    ensures { result ≡ count - spec.variables_of blocks.now }
{
    let mut beyond = count;
    for block in blocks {
        beyond = beyond.saturating_sub(block.variables.len());
    }
    beyond
}
