//! Problems of the field that have names: colourings, matchings, orientations, independent sets that can't be larger.
#![tactic(auto)]

mod making;
mod naming;
pub mod types;

pub use making::{config_of, family, family_problem, put};
pub use types::{Family, FamilyFault};
