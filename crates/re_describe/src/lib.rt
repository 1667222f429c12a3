//! A report on a certificate, in Markdown or in LaTeX: what `check` says of it, in words too, its problems in few rows, and what the labels of its
//! steps stand for; the same given an input problem; a report on a graph without a solution; the word `describe`; and the word `condense`, which
//! writes the same in groups.
#![tactic(auto)]

mod answering;
mod blocks;
mod class_answering;
mod class_blocks;
mod class_parts;
mod class_reporting;
mod condensing;
mod endings;
mod given_answering;
mod given_blocks;
mod given_heads;
mod given_reporting;
mod graph_answering;
mod graph_blocks;
mod graph_lines;
mod graph_reporting;
mod group_answering;
mod groups;
mod groups_evidence;
mod groups_given;
mod groups_graph;
mod heads;
mod input_names;
mod items;
mod joining;
mod labelled_answering;
mod labelled_blocks;
mod labelled_reporting;
mod latex;
mod marks;
mod meanings;
mod orders;
mod pictures;
mod pieces;
mod problems;
mod reporting;
mod same_graphs;
mod same_parts;
mod steps;
mod words;

pub use blocks::{Block, report_of};
pub use class_blocks::ClassBlock;
pub use class_reporting::class_markdown;
pub use condensing::{MOST_LISTED, condensed};
pub use given_blocks::{GivenBlock, given_report_of};
pub use given_reporting::{given_markdown, given_report};
pub use graph_blocks::GraphBlock;
pub use graph_reporting::graph_markdown;
pub use labelled_blocks::LabelledBlock;
pub use labelled_reporting::labelled_markdown;
pub use meanings::{Meaning, meaning_of};
pub use reporting::{markdown, report};
pub use words::{DescribeWord, ReportForm, describe_help, describe_word};
