//! The words of `re`: the command that they name, and what each command answers to the bytes that it reads.
#![tactic(auto)]

mod answer;
mod check;
mod command;
mod counting;
mod extracting;
mod making;
mod mapping;
mod reading;
mod running;
mod searching;
mod tabling;
mod working;

pub use answer::stream;
pub use command::{Command, Making, Mapping, Reading, Streaming, command_from};
pub use extracting::Extracting;
pub use making::make;
pub use running::{Running, passive_nodes};
pub use tabling::Tabling;
