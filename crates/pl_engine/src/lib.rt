//! What statements of bodies are run by: the engine, which stands for a world, the port that takes
//! what is printed and committed, and how the answers of functions over both stand to a run.
#![tactic(auto)]

mod asking;
mod bodies;
mod call;
mod changing;
mod committing;
mod counting;
mod defining;
mod engine;
mod entering;
mod handling;
mod held;
mod messages;
mod moment;
mod port;
mod raising;
mod recorder;
mod resolving;
mod runner;
mod spot;
mod stop;
mod telling;
mod variables;

pub use asking::Ask;
pub use bodies::{BodyRunner, Calls};
pub use call::Call;
pub use engine::Engine;
pub use held::Held;
pub use messages::message_text;
pub use moment::Moment;
pub use pl_declared;
pub use pl_planned::pl_targets;
pub use pl_undo::Mark;
pub use pl_world;
pub use pl_world::{pl_change, pl_define, pl_inside, pl_journal, pl_scope};
pub use port::{Port, PortFail};
pub use recorder::Recorder;
pub use runner::{Runner, Task, all, ask};
pub use spot::Spot;
pub use stop::Stop;
pub use telling::{commit, say};
