// The command `extract`.
ghost use Rattle.re_check.specs.Verdicts.{verdict_of};
ghost use Rattle.re_words.specs.Command.{judges};
ghost use Rattle.re_words.specs.Extracting.{algorithm_outcome, extracted_from, extracting_outcome};
ghost use Rattle.re_frame.specs.Outcomes.{done as done_with, outcome_of};
ghost use Rattle.re_words.specs.Tabling.{tabling_outcome};
ghost use Rattle.re_extract.specs.UpperTables.{listed_table};
ghost use Rattle.std.specs.Prelude.{◌≡◌, ◌≤◌, ℕ, List, [], codes, length, IfOk, IsErrOf, true};

use crate::command::Command;
use re_algo::MAX_VIEWS;
use re_cert::{Certificate, read_certificate};
use re_check::{Kind, Verdict, check, upper_steps};
use re_extract::{Extractor, upper_table};
use re_frame::{
    Answer, Answering, Output, begun, done, fault_output, limit_of, refused, verdict_output,
};
use re_io::MAX_BYTES;
use re_labels::NoMemory;
use re_problem::TextFault;
use re_table_texts::{TableForm, print_table};
use std::alloc::Global;

// The table of an upper bound.
fn algorithm_output(alloc: Global, extractor: &mut Extractor) -> Result<Output, NoMemory>
    ensures output { IfOk result (λ output. outcome_of output ≡ algorithm_outcome extractor.old.first (listed_table extractor.old)) }
    ensures yes { IfOk result (λ output. output.answer ≡ Answer.Done → tabling_outcome TableForm.Plain output.text.items ≡ done_with (codes "yes\n")) }
{
    match upper_table(alloc, extractor)? {
        Some(table) => Ok(done(print_table(alloc, extractor.certificate().first(), &table)?)),
        None => limit_of(alloc, MAX_VIEWS as usize, "views"),
    }
}

// The table of a certificate of an upper bound, or why there is none.
fn certificate_output(alloc: Global, certificate: Certificate) -> Result<Output, NoMemory>
    ensures output { IfOk result (λ output. outcome_of output ≡ extracted_from certificate (verdict_of certificate)) }
    ensures yes { IfOk result (λ output. output.answer ≡ Answer.Done → tabling_outcome TableForm.Plain output.text.items ≡ done_with (codes "yes\n")) }
{
    match check(&certificate) {
        Verdict::Accepted {
            kind: Kind::Upper,
            ..
        } => {
            upper_steps(&certificate);
            let mut extractor = Extractor::new(certificate);
            algorithm_output(alloc, &mut extractor)
        }
        Verdict::Accepted { .. } => Ok(refused(begun(alloc, "no: not an upper bound\n")?)),
        Verdict::Refused { step, clause } => {
            Ok(verdict_output(alloc, Verdict::Refused { step, clause })?)
        }
    }
}

#[tactic(auto, unfolding(crate::specs::Extracting::extracting_outcome))]
fn text_output(alloc: Global, text: &[u8]) -> Result<Output, NoMemory>
    requires { length text.now ≤ MAX_BYTES }
    ensures output { IfOk result (λ output. outcome_of output ≡ extracting_outcome text.now) }
    ensures yes { IfOk result (λ output. output.answer ≡ Answer.Done → tabling_outcome TableForm.Plain output.text.items ≡ done_with (codes "yes\n")) }
{
    match read_certificate(alloc, text) {
        Ok(certificate) => certificate_output(alloc, certificate),
        Err(TextFault::Bad(fault)) => Ok(fault_output(alloc, fault)?),
        Err(TextFault::NoMemory) => Err(NoMemory),
    }
}

/// The command that writes out the table of the algorithm of an upper bound. The word `table` says yes to it.
#[derive(Clone, Copy)]
pub struct Extracting;

impl Answering for Extracting {
    ghost use Rattle.re_words.specs.Extracting.{extracting_outcome};
    ghost use Rattle.re_words.specs.Tabling.{tabling_outcome};
    ghost use Rattle.re_table_texts.specs.declared.table_texts.TableForm.TheVariants.{Plain};

    ghost fits = { λ _. Unit {0} };

    ghost outcome = { λ _. extracting_outcome };

    ghost worth = { λ _ text. tabling_outcome Plain text ≡ done_with (codes "yes\n") };

    ghost judging = { λ _. true };

    fn answer(&self, alloc: Global, text: Vec<u8>) -> Result<Output, NoMemory> {
        text_output(alloc, text.as_slice())
    }
}
