//! Variables that are given values.

ghost use Rattle.std.specs.Prelude.{◌≡◌};
ghost use Rattle.pl_bodies.specs.declared.simple.Target as declared;
ghost use Rattle.pl_body_rules.specs.Frames as scope;
ghost use Rattle.pl_body_rules.specs.Simple as spec;

use crate::{Frame, Variable, VariableKind};
use pl_base::{Name, State};
use pl_bodies::{IntoClause, StackedTarget, Target};

fn if_row(variable: Option<Variable>) -> Option<Variable>
    ensures { result ≡ scope.if_row variable }
{
    match variable {
        None => None,
        Some(variable) => match variable.kind {
            VariableKind::Row => Some(variable),
            VariableKind::Plain | VariableKind::Cursor | VariableKind::Bound { .. } => None,
        },
    }
}

/// Whether the frame has this label.
pub(crate) fn is_labelled(name: Name, frame: &Frame) -> bool
    ensures { result ≡ scope.is_labelled name frame.now }
{
    match frame.label {
        None => false,
        Some(label) => label == name,
    }
}

fn of_label(label: Name, name: Name, frame: &Frame) -> Option<Variable>
    ensures { result ≡ scope.of_label label name frame.now }
{
    if is_labelled(label, frame) {
        frame.variables.get(name)
    } else {
        None
    }
}

fn variable_in(target: &Target, frame: &Frame) -> Option<Variable>
    ensures { result ≡ scope.target_in target.now frame.now }
{
    match target.qualifier {
        None => frame.variables.get(target.name),
        Some(qualifier) => {
            if_row(frame.variables.get(qualifier)).or(of_label(qualifier, target.name, frame))
        }
    }
}

/// The variable that the target is, or is a field of. None where there is none.
#[tactic(auto, using(crate::proofs::Options::nearest))]
pub(crate) fn variable_at(target: &Target, mut frames: &[Frame]) -> Option<Variable>
    ensures { result ≡ scope.innermost (scope.target_in target.now) frames.entry.now }
{
    let mut found = None;
    while let [frame, inner @ ..] = frames {
        found = variable_in(target, frame).or(found);
        frames = inner;
    }
    found
}

/// The variable of this name. None where there is none.
pub(crate) fn variable_named(name: Name, frames: &[Frame]) -> Option<Variable>
    ensures { result ≡ scope.variable_named name frames.now }
{
    let target = Target {
        qualifier: None,
        name,
    };
    variable_at(&target, frames)
}

/// What is given a value by its target.
pub(crate) trait Given {
    ghost target_of: { Self → declared.Target };

    fn target(&self) -> Target
        ensures { result ≡ target_of self.now };
}

impl Given for Target {
    ghost target_of = { λ target. target };

    fn target(&self) -> Target {
        *self
    }
}

impl Given for StackedTarget {
    ghost target_of = { λ given. given.target };

    fn target(&self) -> Target {
        self.target
    }
}

/// 42601 where one of them is no variable, else 22005 where one is a constant.
pub(crate) fn targets_state<G: Given>(list: &[G], frames: &[Frame]) -> Option<State>
    ensures { result ≡ spec.targets_state G.target_of list.now frames.now }
{
    let mut has_constant = false;
    for given in list {
        match variable_at(&given.target(), frames) {
            None => return Some(State::SYNTAX_ERROR),
            Some(variable) => has_constant = has_constant || variable.is_constant,
        }
    }
    if has_constant {
        Some(State::ERROR_IN_ASSIGNMENT)
    } else {
        None
    }
}

/// The same of the targets of INTO, where there is one.
pub(crate) fn into_state(into: &Option<IntoClause>, frames: &[Frame]) -> Option<State>
    ensures { result ≡ spec.into_state into.now frames.now }
{
    match into {
        None => None,
        Some(into) => targets_state(into.targets.as_slice(), frames),
    }
}
