//! Local algorithms on finite forests with unique identifiers: what decides how many rounds a problem takes, and the classes of problems.
//! Laws alone, no code.
#![tactic(auto)]

mod classes;
mod flexible;
mod from_views;
mod to_views;
mod trimmed;

pub use classes::{
    above_law, above_linear_law, apart_law, below_law, below_linear_law, below_log_law,
    below_log_star_law, constant_law, never_law, nothing_between_law, paths_law, sinkless_law,
    three_colours_law, two_colours_law, weaker_law,
};
pub use flexible::{
    all_seen_law, fast_paths_law, full_surroundings_law, labels_law, linear_law, no_solution_law,
    order_log_law, paths_log_star_law, solved_or_not_law, still_solved_law, trimmed_on_forests_law,
    trimmed_set_law, turning_law, two_coloured_paths_law, whole_paths_law,
};
pub use from_views::{
    coloured_on_forests_law, few_colours_on_forests_law, given_on_forests_law,
    local_on_forests_law, ports_on_forests_law,
};
pub use to_views::{
    above_log_on_forests_law, above_log_star_on_forests_law, fewer_on_forests_law, link_law,
    more_than_constant_on_forests_law,
};
pub use trimmed::{nothing_left_law, trimmed_problem_law};
