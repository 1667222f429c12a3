//! Searches for a fixed point behind relaxations and through a library of fixed points.
//!
//! A relaxation of a problem is what it becomes where labels of one class are one label, or where a label may stand for another one. Each is looked
//! at once, under whatever names, and not where it is solvable without communication. In this order it is tried:
//!
//! - where the chain's last problem has at most 8 labels, all partitions of them into 2 classes, then into 3: the step to the derived problem of the relaxation, and the
//!   closure behind it, or behind one or two derived problems more, of at most 16 labels each;
//! - there, too, each diagram of one edge: the closure of the problem that it raises (`re_closure`);
//! - the problem itself, the one behind 2 steps and the one behind 4, each of at most 8 labels, under all partitions of them, those into most classes
//!   first: whether the relaxation comes back to itself, by a lower step from its derived problem or from that of three steps.
//!
//! The library has problems that have names (`Member`), each in the degrees of the chain's last problem and in these exchanged, as far as there is one, and
//! for each the fixed point that its closure gives, or that behind one or two derived problems, of at most 16 labels each. For one of these after another it is
//! asked:
//!
//! - where the degrees are those of the chain's last problem: whether this one relaxes to it by a map of the labels; then a step leads to its derived problem, and
//!   so to the problem behind the first step of the fixed point;
//! - for each problem of the fixed point of the other degrees, of at most 100,000 configurations of each side: whether a step leads to it (`re_bridge`).
//!
//! Where there is one, the steps of the fixed point go once round behind it. First it is asked of the chain's last problem, then of the problem behind it, and
//! then of the one behind two steps, of at most 32 labels each.
//!
//! Nothing of these two has a clause: what they find is judged by `re_shaping::extended`.
#![tactic(auto)]

mod classes;
mod closing;
mod finding;
mod into;
mod known;
pub mod library;
mod members;
mod relaxing;
mod returning;
mod through;
mod types;
mod walk;

pub use finding::find_relaxed;
pub use library::{Member, member_name, member_named};
pub use through::{MAX_TRIES, find_through};
pub use types::{MAX_RELAXATIONS, Relaxed};
