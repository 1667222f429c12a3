//! The searches that go on from a chain, alone and where a solution of an input problem is given.
ghost use Rattle.re_cert.specs.Bounds.{last_problem};
ghost use Rattle.re_cert.specs.declared.certificate.Kind.TheVariants.{Lower};
ghost use Rattle.re_going_on.specs.CycleAnswers.{Answers as CycleAnswers};
ghost use Rattle.re_given.specs.Inputs.{IsInput};
ghost use Rattle.re_given_words.specs.Extensions.{GoesOnGiven};
ghost use Rattle.re_settings.specs.Taken.{IsTaken};
ghost use Rattle.re_settings.specs.declared.setting.Setting.TheVariants.{Given};
ghost use Rattle.re_problem.specs.NamedProblems.{unnamed};
ghost use Rattle.re_problem.specs.Zero.{zero_place};
ghost use Rattle.re_shaping.specs.Extensions.{GoesOn};
ghost use Rattle.re_going_on.specs.ShortestAnswers.{MayAnswer};
ghost use Rattle.std.specs.Prelude.{◌≡◌, ◌↔◌, IfOk, IsTrue, None};

use re_cert::Certificate;
use re_chains::{LowerChain, UpperChain};
use re_going_on::{Cycle, Shortest, find_cycle, find_longest, find_shortest};
use re_labels::NoMemory;
use re_problem::Problem;
use re_settings::{Setting, is_taken, taken_alone_law};
use std::alloc::Global;

// The setting in which a solution of the input problem is given.
fn with_input(input: &Problem) -> Result<Setting, NoMemory>
    ensures { IfOk result (λ setting. setting ≡ Given input.now) }
{
    Ok(Setting::Given(input.copy()?))
}

/// Whether `given` accepts the bound given the input problem.
pub(crate) fn is_accepted(
    alloc: Global,
    bound: &Certificate,
    input: &Problem,
) -> Result<bool, NoMemory>
    ensures { IfOk result (λ taken. IsTrue taken ↔ IsTaken input.now bound.now) }
{
    let setting = with_input(input)?;
    is_taken(alloc, &setting, bound)
}

/// The longest lower bound that is found behind a chain whose last problem isn't solvable without communication.
pub(crate) fn longest_alone(
    alloc: Global,
    chain: &LowerChain,
    steps: u8,
    labels: u8,
) -> Result<Certificate, NoMemory>
    requires { zero_place (unnamed (last_problem chain.now.certificate)) ≡ None }
    ensures { IfOk result (GoesOn Lower steps labels chain.now.certificate) }
{
    taken_alone_law();
    find_longest(alloc, &Setting::Alone, chain, steps, labels)
}

/// The same given an input problem, behind a chain that `given` accepts.
pub(crate) fn longest_given(
    alloc: Global,
    chain: &LowerChain,
    input: &Problem,
    steps: u8,
    labels: u8,
) -> Result<Certificate, NoMemory>
    requires input { IsInput (unnamed chain.now.certificate.first) (unnamed input.now) }
    requires accepted { IsTaken input.now chain.now.certificate }
    ensures { IfOk result (GoesOnGiven input.now Lower steps labels chain.now.certificate) }
{
    let setting = with_input(input)?;
    find_longest(alloc, &setting, chain, steps, labels)
}

/// What the search for a short upper bound finds given the input problem.
pub(crate) fn shortest_given(
    alloc: Global,
    chain: &UpperChain,
    input: &Problem,
    steps: u8,
    labels: u8,
) -> Result<Shortest, NoMemory>
    requires { IsInput (unnamed chain.now.certificate.first) (unnamed input.now) }
    ensures { IfOk result (MayAnswer (Given input.now) steps labels chain.now.certificate) }
{
    let setting = with_input(input)?;
    find_shortest(alloc, &setting, chain, steps, labels)
}

/// What the search for a fixed point finds given the input problem.
pub(crate) fn cycle_given(
    alloc: Global,
    chain: &LowerChain,
    input: &Problem,
    steps: u8,
    merges: u8,
    nodes: u32,
) -> Result<Cycle, NoMemory>
    ensures { IfOk result (CycleAnswers (Given input.now) steps chain.now.certificate) }
{
    let setting = with_input(input)?;
    find_cycle(alloc, &setting, chain, steps, merges, nodes)
}
