//! What words answer where a step passes a limit.
#![tactic(auto)]

mod step_limits;

pub use step_limits::limit_output;
