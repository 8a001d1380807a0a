//! What statements make of their expressions: whether a condition is true, the bound of a FOR, a
//! variable that is declared or given a value, what RETURN gives, and CASE with an operand. An
//! expression is resolved when it is reached, or else read off its tree.
#![tactic(auto)]

mod answering;
mod answers;
mod assigning;
mod cases;
mod conditions;
mod converting;
mod declaring;
mod direct;
mod placing;
mod resolving;
mod values;
mod variable;

pub use answering::answer;
pub use answers::value_of;
pub use assigning::assign;
pub use cases::case_operand;
pub use conditions::{bound, test};
pub use converting::raise_in_run;
pub use declaring::declare;
pub use pl_calling;
pub use pl_calling::pl_engine;
pub use pl_direct::pl_scope;
pub use pl_flow;
pub use placing::{diagnose, put_all, put_at};
pub use resolving::{aim, aim_all};
pub use values::{returns, value};
pub use variable::Variable;
