//! The word `judge`: texts of evidence of what is said of a problem, part by part, and what follows from the parts together.
//!
//! `judge_law` says that where the answer is Done each line is true of the problem of the first part. What has to be believed of it is what its words say:
//! - what a problem is, and when an algorithm of so many rounds solves one with port numbers alone: `re_problem`, `re_laws`;
//! - what identifiers and finite forests add: `re_local`, `re_classes`, `re_forests`;
//! - what a claim and a class say of a problem, and in which words: `Holds`, `ClassHolds`, `ClassOnForests`, `claim_text` and `class_text` of `re_evidence`;
//! - how a text is cut into parts, and which problem a part is on: `Joints`, and the readers of problems and of certificates that `PartVerdicts` names.
//! How a part is judged, what it says and what follows from all of them needs no belief: each step between is proved.
//!
//! No crate below computes a step of round elimination or searches for a bound, as `crates.txt` shows (`tools/paths.py re_judging` lists them). Bounds are
//! checked clause by clause, given an input problem too; flexible sets and levels of labels are computed from the problem; solutions of a graph, sets by which
//! an upper step leads to an input problem, and what a node may see are tried, with limits. Two of the crates below have words that search, too, `re_graph` and
//! `re_graph_words` for a graph, and `re_greedy` has a search for multisets: nothing here calls these.
#![tactic(auto)]

mod bound_parts;
mod facts;
mod flexible_parts;
mod graph_parts;
mod greedy_parts;
mod joints;
mod judging;
mod label_lines;
mod level_parts;
mod part_faults;
mod parts;
mod same;
mod types;
mod words;

ghost use Rattle.re_judging.specs.Facts.{KnownLaw, TrueLaw};

pub use joints::{behind_joint, first_part, joint_at};
pub use judging::{judge, judge_behind, judge_law};
pub use part_faults::{part_fault, parts_fault};
pub use parts::{judge_part, kind_of};
use re_gap::{above_log_on_views_law, not_flexible_law};
pub use same::are_same;
pub use types::{Fact, Judged, Known, Part, PartKind};
pub use words::{Judge, judge_help, names_judge};

/// What is known is true with one fact more that is.
pub fn known_law()
    ensures { KnownLaw }
{
    not_flexible_law();
    above_log_on_views_law();
}

/// What follows from true facts together, as claim and as class, is true.
pub fn true_law()
    ensures { TrueLaw }
{
    not_flexible_law();
}
