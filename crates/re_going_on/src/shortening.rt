//! The certificate of the shortest path.
ghost use Rattle.re_cert.specs.declared.certificate.Kind.TheVariants.{Upper};
ghost use Rattle.re_given_words.specs.Extensions.{GoesOnIn};
ghost use Rattle.re_settings.specs.Settings.{IsSettingOf};
ghost use Rattle.re_going_on.specs.ShortestAnswers.{Answers, MayAnswer};
ghost use Rattle.re_problem.specs.NamedProblems.{unnamed};
ghost use Rattle.std.specs.Prelude.{IfOk, IfSome};

use crate::given::Given;
use crate::shortest_beam::{Climb, shortest_path};
use re_cert::{Certificate, Kind, MAX_STEPS, Step};
use re_chains::UpperChain;
use re_given_words::{extended_in, repeated_in};
use re_labels::NoMemory;
use re_settings::{Setting, is_taken};
use re_shaping::Extension;
use std::alloc::Global;

/// What the search for an upper bound comes to.
#[derive(Drop)]
pub enum Shortest {
    /// The certificate of the shortest upper bound that was found, which goes on from the given chain.
    Found(Certificate),
    /// None was found: how many problems were derived, and of how many the derived problem passed a limit.
    NotFound { nodes: u32, cut: u32 },
}

// The certificate of the path behind the chain.
fn found_along(
    alloc: Global,
    setting: &Setting,
    chain: &Certificate,
    path: Option<Vec<Step>>,
    most: u8,
    labels: u8,
) -> Result<Option<Certificate>, NoMemory>
    ensures { IfOk result (λ found. IfSome found (GoesOnIn setting.now Upper most labels chain.now)) }
{
    let Some(steps) = path else {
        return Ok(None);
    };
    let extension = Extension {
        kind: Kind::Upper,
        back: 0,
        steps,
        renaming: Vec::new(alloc),
    };
    extended_in(alloc, setting, chain, extension, most, labels)
}

// What is found behind the chain.
fn searched(
    alloc: Global,
    setting: &Setting,
    chain: &Certificate,
    most: u8,
    labels: u8,
) -> Result<Shortest, NoMemory>
    ensures { IfOk result (MayAnswer setting.now most labels chain.now) }
{
    let given = Given::behind(alloc, setting, chain.steps().len())?;
    let room = MAX_STEPS.saturating_sub(chain.steps().len());
    let levels = room.min(most as usize);
    let Climb { path, count } = shortest_path(alloc, &given, chain.last(), levels, labels)?;
    match found_along(alloc, setting, chain, path, most, labels)? {
        Some(certificate) => Ok(Shortest::Found(certificate)),
        None => Ok(Shortest::NotFound {
            nodes: count.nodes,
            cut: count.cut,
        }),
    }
}

/// The shortest upper bound that the beam search finds which goes on from a chain of kind upper: with at most so many further steps, each
/// to a problem of at most so many labels. It is taken in the setting. The answer is the chain as it is exactly where that is taken, and else
/// `Found` or `NotFound`.
///
/// The search may miss shorter bounds, and `NotFound` says nothing of the problem. The crate's page says how it goes.
pub fn find_shortest(
    alloc: Global,
    setting: &Setting,
    chain: &UpperChain,
    steps: u8,
    labels: u8,
) -> Result<Shortest, NoMemory>
    requires { IsSettingOf (unnamed chain.now.certificate.first) setting.now }
    ensures { IfOk result (Answers setting.now steps labels chain.now.certificate) }
{
    let certificate = &chain.certificate;
    if is_taken(alloc, setting, certificate)? {
        let same = repeated_in(alloc, setting, certificate, steps, labels)?;
        return Ok(Shortest::Found(same));
    }
    searched(alloc, setting, certificate, steps, labels)
}
