// The command `run`: the algorithm of a certificate at work on a finite tree.
ghost use Rattle.re_cert.specs.declared.certificate.Kind.TheVariants.{Upper};
ghost use Rattle.re_check.specs.Verdicts.{verdict_of};
ghost use Rattle.re_check.specs.declared.verdict.Verdict.TheVariants.{Accepted};
ghost use Rattle.re_words.specs.Command.{judges};
ghost use Rattle.re_frame.specs.Outcomes.{done as finished, outcome_of, refused as refused_with};
ghost use Rattle.re_words.specs.Running.{AreNamed, PassiveNodesGet, delivered, node_line, nodes_from, running_outcome, verified};
ghost use Rattle.re_texts.specs.SetTexts.{named_text};
ghost use Rattle.re_problem.specs.CanonicalTexts.{spaced};
ghost use Rattle.re_net.specs.RunReading.{AreMessages};
ghost use Rattle.re_net.specs.FiniteTrees.{IsNumbered};
ghost use Rattle.re_net.specs.RunReading.{text_of};
ghost use Rattle.re_net.specs.Runs.{first_illegal};
ghost use Rattle.std.specs.Fmt.{decimal};
ghost use Rattle.std.specs.List.{AllByRecursion};
ghost use Rattle.std.specs.Prelude.{◌≡◌, ◌≤◌, ◌<◌, ◌+◌, ◌++◌, ◌^◌, ℕ, List, [], Some, codes, length, map, IfOk, IfSome, IsErrOf, OnOk, true};
ghost use Rattle.re_problem.specs.NamedProblems.{degrees_of};

use crate::command::Command;
use re_check::{Kind, Verdict, check, upper_steps};
use re_extract::Extractor;
use re_frame::{
    Answering, Output, begun, done, fault_output, push_number, push_words, refused, verdict_output,
};
use re_io::MAX_BYTES;
use re_labels::{Names, NoMemory};
use re_net::{Run, RunInput, Standing, read_run, run_net};
use re_problem::{TextFault, push_label};
use std::alloc::Global;

// Appends the labels, with a space between.
fn push_labels(text: &mut Vec<u8>, names: &Names, labels: &[u8]) -> Result<(), NoMemory>
    requires { AllByRecursion (λ label. label < length names.now) labels.now }
    ensures { OnOk result (text.new.items ≡ text.old.items ++ spaced (map (named_text names.now) labels.now)) }
{
    let [first, others @ ..] = labels else {
        return Ok(());
    };
    push_label(text, names.name(*first))?;
    for label in others {
        text.push(b' ')?;
        push_label(text, names.name(*label))?;
    }
    Ok(())
}

// Appends the line of a node.
fn push_node(
    alloc: Global,
    text: &mut Vec<u8>,
    names: &Names,
    node: usize,
    standing: &Standing,
) -> Result<(), NoMemory>
    requires { IfSome standing.now.labels (AllByRecursion (λ label. label < length names.now)) }
    ensures { OnOk result (text.new.items ≡ text.old.items ++ node_line names.now node standing.now) }
{
    push_words(text, "node ")?;
    push_number(alloc, text, node)?;
    push_words(text, " round ")?;
    push_number(alloc, text, standing.round as usize)?;
    if let Some(labels) = &standing.labels {
        push_words(text, ": ")?;
        push_labels(text, names, labels.labels())?;
    }
    push_words(text, "\n")
}

// Appends the lines of the nodes from this one on.
fn push_nodes(
    alloc: Global,
    text: &mut Vec<u8>,
    names: &Names,
    node: usize,
    standings: &[Standing],
) -> Result<(), NoMemory>
    requires named { AreNamed names.now standings.now }
    requires few { node + length standings.now < 2 ^ 64 }
    ensures { OnOk result (text.new.items ≡ text.old.items ++ nodes_from names.now node standings.now) }
{
    let [first, others @ ..] = standings else {
        return Ok(());
    };
    push_node(alloc, text, names, node, first)?;
    push_nodes(alloc, text, names, node + 1, others)
}

// The output that says where the nodes stand.
fn nodes_output(alloc: Global, names: &Names, standings: &[Standing]) -> Result<Output, NoMemory>
    requires { AreNamed names.now standings.now }
    ensures { IfOk result (λ output. outcome_of output ≡ finished (nodes_from names.now 0 standings.now)) }
{
    let mut text = Vec::new(alloc);
    push_nodes(alloc, &mut text, names, 0, standings)?;
    Ok(done(text))
}

// The output that says that the delivery on a line isn't legal.
fn illegal_output(alloc: Global, line: u32) -> Result<Output, NoMemory>
    ensures { IfOk result (λ output. outcome_of output ≡ refused_with (codes "illegal: line " ++ decimal line ++ codes "\n")) }
{
    let mut text = begun(alloc, "illegal: line ")?;
    push_number(alloc, &mut text, line as usize)?;
    text.push(b'\n')?;
    Ok(refused(text))
}

// The output for an accepted certificate of an upper bound.
fn upper_output(alloc: Global, input: RunInput) -> Result<Output, NoMemory>
    requires accepted { (steps : ℕ) × (verdict_of input.certificate ≡ Accepted Upper steps) }
    requires degrees { input.tree.degrees ≡ degrees_of input.certificate.first }
    requires numbered { IsNumbered input.tree }
    requires messages { AreMessages input.tree (length input.certificate.steps) input.deliveries.items }
    ensures { IfOk result (λ output. outcome_of output ≡ delivered (text_of input) (first_illegal input.tree (length input.certificate.steps) [] input.deliveries.items)) }
{
    upper_steps(&input.certificate);
    let _nodes = input.tree.len();
    let RunInput {
        certificate,
        tree,
        deliveries,
    } = input;
    let names = certificate.first().names().copy()?;
    let bound = certificate.steps().len() as u8;
    let mut rule = Extractor::new(certificate);
    match run_net(alloc, tree, bound, deliveries.as_slice(), &mut rule)? {
        Run::Illegal(line) => illegal_output(alloc, line),
        Run::Legal(standings) => nodes_output(alloc, &names, standings.as_slice()),
    }
}

/// What `run` means for passive nodes, where the certificate of an input is accepted as an upper bound: one with as many edges as its
/// side allows, all of whose neighbours output, gets a configuration that is passive in the first problem. The input is one that
/// `re_net::read_run` gives. It goes once over the steps, and takes no memory.
pub fn passive_nodes(input: &RunInput)
    requires degrees { input.now.tree.degrees ≡ degrees_of input.now.certificate.first }
    requires numbered { IsNumbered input.now.tree }
    ensures { (steps : ℕ) → verdict_of input.now.certificate ≡ Accepted Upper steps → PassiveNodesGet (text_of input.now) }
{
    upper_steps(&input.certificate);
    let _nodes = input.tree.len();
}

// The output for what an input writes.
fn input_output(alloc: Global, input: RunInput) -> Result<Output, NoMemory>
    requires degrees { input.tree.degrees ≡ degrees_of input.certificate.first }
    requires numbered { IsNumbered input.tree }
    requires messages { AreMessages input.tree (length input.certificate.steps) input.deliveries.items }
    ensures { IfOk result (λ output. outcome_of output ≡ verified (text_of input) (verdict_of input.certificate)) }
{
    match check(&input.certificate) {
        Verdict::Accepted {
            kind: Kind::Upper,
            ..
        } => upper_output(alloc, input),
        Verdict::Accepted { .. } => Ok(refused(begun(alloc, "no: not an upper bound\n")?)),
        refusal => Ok(verdict_output(alloc, refusal)?),
    }
}

#[tactic(auto, unfolding(crate::specs::Running::running_outcome))]
fn text_output(alloc: Global, text: &[u8]) -> Result<Output, NoMemory>
    requires { length text.now ≤ MAX_BYTES }
    ensures { IfOk result (λ output. outcome_of output ≡ running_outcome text.now) }
{
    match read_run(alloc, text) {
        Ok(input) => input_output(alloc, input),
        Err(TextFault::Bad(fault)) => Ok(fault_output(alloc, fault)?),
        Err(TextFault::NoMemory) => Err(NoMemory),
    }
}

/// The command that has the algorithm of an upper bound at work on a tree.
#[derive(Clone, Copy)]
pub struct Running;

impl Answering for Running {
    ghost use Rattle.re_words.specs.Running.{running_outcome};

    ghost fits = { λ _. Unit {0} };

    ghost outcome = { λ _. running_outcome };

    ghost worth = { λ _ _. Unit {0} };

    ghost judging = { λ _. true };

    fn answer(&self, alloc: Global, text: Vec<u8>) -> Result<Output, NoMemory> {
        text_output(alloc, text.as_slice())
    }
}
