//! What programs of words share: how a run ended, what a command puts out, the lines of faults, limits, verdicts and searches, the reading of a
//! whole input into an answer, or into one of the answers that a search may have, and the putting of its text.
#![tactic(auto)]

mod answering;
mod finding;
mod output;
mod putting;
mod search_lines;
mod status;
mod text;
mod text_faults;
mod verdicts;

pub use answering::{Answering, answer_input};
pub use finding::{Finding, find_input};
pub use output::{Output, OutputFault, done, limit_of, limited, refused, too_long};
pub use putting::put_output;
pub use search_lines::{not_found_output, not_lower_output, not_upper_output, solvable_output};
pub use status::{Answer, Status};
pub use text::{begun, push_number, push_words};
pub use text_faults::fault_output;
pub use verdicts::verdict_output;
