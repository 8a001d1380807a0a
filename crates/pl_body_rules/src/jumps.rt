//! EXIT, CONTINUE and the names behind END.

ghost use Rattle.std.specs.Prelude.{◌≡◌};
ghost use Rattle.pl_body_rules.specs.Frames as scope;
ghost use Rattle.pl_body_rules.specs.Simple as spec;

use crate::targets::is_labelled;
use crate::{Frame, FrameKind};
use pl_base::{Name, State};
use pl_bodies::Jump;

fn if_loop(kind: FrameKind) -> Option<FrameKind>
    ensures { result ≡ scope.if_loop kind }
{
    match kind {
        FrameKind::Loop => Some(FrameKind::Loop),
        FrameKind::Routine | FrameKind::Block | FrameKind::Handler => None,
    }
}

fn if_statement(kind: FrameKind) -> Option<FrameKind>
    ensures { result ≡ scope.if_statement kind }
{
    match kind {
        FrameKind::Block => Some(FrameKind::Block),
        FrameKind::Loop => Some(FrameKind::Loop),
        FrameKind::Routine | FrameKind::Handler => None,
    }
}

fn goal_in(label: &Option<Name>, frame: &Frame) -> Option<FrameKind>
    ensures { result ≡ scope.goal_in label.now frame.now }
{
    match label {
        None => if_loop(frame.kind),
        Some(label) => {
            if is_labelled(*label, frame) {
                if_statement(frame.kind)
            } else {
                None
            }
        }
    }
}

// What a jump goes to: of two of one label the inner one.
#[tactic(auto, using(crate::proofs::Options::nearest))]
fn goal_of(label: &Option<Name>, mut frames: &[Frame]) -> Option<FrameKind>
    ensures { result ≡ scope.innermost (scope.goal_in label.now) frames.entry.now }
{
    let mut found = None;
    while let [frame, inner @ ..] = frames {
        found = goal_in(label, frame).or(found);
        frames = inner;
    }
    found
}

/// 42601 where there is nothing to go to.
pub(crate) fn jump_state(jump: Jump, label: &Option<Name>, frames: &[Frame]) -> Option<State>
    ensures { result ≡ spec.jump_state jump label.now frames.now }
{
    match (jump, goal_of(label, frames)) {
        (_, None) => Some(State::SYNTAX_ERROR),
        (Jump::Continue, Some(FrameKind::Block)) => Some(State::SYNTAX_ERROR),
        (_, Some(_)) => None,
    }
}

/// 42601 where the name behind END isn't the label.
pub(crate) fn end_state(label: &Option<Name>, end_label: &Option<Name>) -> Option<State>
    ensures { result ≡ spec.end_state label.now end_label.now }
{
    match (label, end_label) {
        (_, None) => None,
        (None, Some(_)) => Some(State::SYNTAX_ERROR),
        (Some(label), Some(end_label)) => {
            if *label == *end_label {
                None
            } else {
                Some(State::SYNTAX_ERROR)
            }
        }
    }
}
