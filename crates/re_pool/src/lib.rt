//! Views as numbers: a pool of nodes in which equal trees have one number.
#![tactic(auto)]

mod laws;
mod placing;
mod pool;
mod rule;
mod shape;
mod turning;

pub use laws::{keep_law, narrow_law, pool_law};
pub use pool::Pool;
pub use rule::Rule;
pub use shape::{Link, NodeId, Shape};
