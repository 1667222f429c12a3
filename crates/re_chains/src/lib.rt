//! Chains of steps, which are certificates whose END and BACK aren't asked for: their types, and their texts, alone and with a second problem:
//! read, judged step by step, and printed.
#![tactic(auto)]

mod chain_text;
mod chains;
mod copies;
mod cutting;
mod forms;
mod one_kind;
mod over_chains;
mod printing;
mod reading;
mod sound;
mod two_text_laws;

ghost use Rattle.re_chains.specs.Chains.{ChainLaw};

pub use chain_text::{is_certificate_text, problem_chain, read_bound, read_chain};
pub use chains::Chain;
pub use copies::{
    chain, chain_kind, copied_entries, copied_image, copied_images, copied_map, copied_rows,
    copied_step, copied_steps,
};
pub use cutting::{Cut, cut_at, has_line};
pub use forms::{have_row_maps, next_number};
pub use one_kind::{LowerChain, UpperChain};
pub use over_chains::{
    ChainRead, StepsRead, certificate_output, judged_chain, problem_output, read_any, read_sound,
    steps_refusal,
};
pub use printing::print_given;
pub use reading::{TwoTexts, at_line, read_chain_two, read_problem_at, read_two};
pub use sound::over_problems;
pub use two_text_laws::given_text_law;

/// The chain that a certificate stands for is as sound as the certificate.
pub fn chain_law()
    ensures { ChainLaw }
{}
