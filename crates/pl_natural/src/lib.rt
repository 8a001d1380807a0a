//! Laws of a state of which less is kept: expressions and queries need no more of it than the calls
//! of routines do.
#![tactic(auto)]

mod laws;

pub use laws::{answers_tell, rows_agree, values_agree};
pub use pl_query;
