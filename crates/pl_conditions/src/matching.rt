//! The errors that conditions match: PostgreSQL manual, "PL/pgSQL", "Trapping Errors".

ghost use Rattle.std.specs.Prelude.{◌≡◌};
ghost use Rattle.pl_bodies.specs.declared.statement.Caught.TheVariants as caught;
ghost use Rattle.pl_world.specs.Conditions as spec;

use crate::codes::code_of;
use pl_base::{Fail, Origin, State};
use pl_bodies::{Caught, Condition};

fn is_state(s: State, t: State) -> bool
    ensures { result ≡ spec.is_state s t }
{
    s.code.as_slice() == t.code.as_slice()
}

fn is_engine(origin: Origin) -> bool
    ensures { result ≡ spec.is_engine origin }
{
    match origin {
        Origin::Engine => true,
        Origin::Raise => false,
    }
}

// No step is left: nothing matches that.
fn is_out_of_steps(f: &Fail) -> bool
    ensures { result ≡ spec.is_out_of_steps f.now }
{
    is_engine(f.origin) && is_state(f.state, State::QUERY_CANCELED)
}

// A code that ends in 000 stands for its class.
fn is_class(s: State) -> bool
    ensures { result ≡ spec.is_class s }
{
    &s.code[2..] == b"000".as_slice()
}

fn is_in_class(s: State, t: State) -> bool
    ensures { result ≡ spec.is_in_class s t }
{
    is_class(s) && &s.code[..2] == &t.code[..2]
}

fn covers(code: Option<State>, state: State) -> bool
    ensures { result ≡ spec.covers code state }
{
    match code {
        None => false,
        Some(code) => is_state(code, state) || is_in_class(code, state),
    }
}

// OTHERS matches all but a cancelled query and a failed assertion.
fn is_other(state: State) -> bool
    ensures { result ≡ spec.is_other state }
{
    !(is_state(state, State::QUERY_CANCELED) || is_state(state, State::ASSERT_FAILURE))
}

#[tactic(auto, unfolding(pl_world::specs::Conditions::matches))]
fn is_covered(condition: &Condition, f: &Fail) -> bool
    ensures { result ≡ spec.matches (caught.Condition condition.now) f.now }
{
    !is_out_of_steps(f) && covers(code_of(condition), f.state)
}

#[tactic(auto, unfolding(pl_world::specs::Conditions::matches))]
fn matches(caught: &Caught, f: &Fail) -> bool
    ensures { result ≡ spec.matches caught.now f.now }
{
    match caught {
        Caught::Others => is_other(f.state),
        Caught::Condition(condition) => is_covered(condition, f),
    }
}

/// The error is one that some of these match.
pub fn matches_one(list: &[Caught], f: &Fail) -> bool
    ensures { result ≡ spec.matches_one list.now f.now }
{
    list.iter().any(|caught| matches(caught, f))
}
