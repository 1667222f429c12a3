//! The certificate of the longest path.
ghost use Rattle.re_cert.specs.declared.certificate.Kind.TheVariants.{Lower};
ghost use Rattle.re_given_words.specs.Extensions.{GoesOnIn};
ghost use Rattle.re_settings.specs.Settings.{IsSettingOf, IsTakenIn};
ghost use Rattle.re_problem.specs.NamedProblems.{unnamed};
ghost use Rattle.std.specs.Prelude.{IfOk, IfSome};

use crate::given::Given;
use crate::longest_beam::{longest_merged, longest_route};
use re_cert::{Certificate, Kind, MAX_STEPS};
use re_chains::LowerChain;
use re_given_words::{extended_in, repeated_in};
use re_labels::NoMemory;
use re_settings::Setting;
use re_shaping::{Extension, Route, route_steps, takes_merges};
use std::alloc::Global;

// The lower bound along the route, where it goes on from the chain.
fn along(
    alloc: Global,
    setting: &Setting,
    chain: &Certificate,
    route: Route,
    steps: u8,
    labels: u8,
) -> Result<Option<Certificate>, NoMemory>
    ensures { IfOk result (λ found. IfSome found (GoesOnIn setting.now Lower steps labels chain.now)) }
{
    let extension = Extension {
        kind: Kind::Lower,
        back: 0,
        steps: route_steps(alloc, chain, route)?,
        renaming: Vec::new(alloc),
    };
    extended_in(alloc, setting, chain, extension, steps, labels)
}

// How many levels there may be.
fn levels_behind(chain: &Certificate, steps: u8) -> usize {
    let room = MAX_STEPS.saturating_sub(chain.steps().len());
    room.min(steps as usize)
}

// A route that begins with a merge and has more than so many stops, if one is found.
fn longer_route(
    alloc: Global,
    given: &Given,
    chain: &Certificate,
    least: usize,
    levels: usize,
    labels: u8,
) -> Result<Option<Route>, NoMemory> {
    if levels <= least || !takes_merges(alloc, chain)? {
        return Ok(None);
    }
    let route = longest_merged(alloc, given, chain.last(), levels, labels)?;
    if route.stops.len() <= least {
        return Ok(None);
    }
    Ok(Some(route))
}

// The longest lower bound that is found, if it has further steps.
fn searched(
    alloc: Global,
    setting: &Setting,
    chain: &Certificate,
    steps: u8,
    labels: u8,
) -> Result<Option<Certificate>, NoMemory>
    ensures { IfOk result (λ found. IfSome found (GoesOnIn setting.now Lower steps labels chain.now)) }
{
    let given = Given::behind(alloc, setting, chain.steps().len())?;
    let levels = levels_behind(chain, steps);
    let route = longest_route(alloc, &given, chain.last(), levels, labels)?;
    let least = route.stops.len();
    if let Some(longer) = longer_route(alloc, &given, chain, least, levels, labels)? {
        if let Some(certificate) = along(alloc, setting, chain, longer, steps, labels)? {
            return Ok(Some(certificate));
        }
    }
    along(alloc, setting, chain, route, steps, labels)
}

/// The longest lower bound that the beam search finds which goes on from a chain that is taken in the setting: with at most so many further
/// steps, each to a problem of at most so many labels. It is never shorter than the chain, and is taken.
///
/// The search may miss longer bounds. The crate's page says how it goes, and what memory it takes.
pub fn find_longest(
    alloc: Global,
    setting: &Setting,
    chain: &LowerChain,
    steps: u8,
    labels: u8,
) -> Result<Certificate, NoMemory>
    requires input { IsSettingOf (unnamed chain.now.certificate.first) setting.now }
    requires taken { IsTakenIn setting.now chain.now.certificate }
    ensures { IfOk result (GoesOnIn setting.now Lower steps labels chain.now.certificate) }
{
    let certificate = &chain.certificate;
    match searched(alloc, setting, certificate, steps, labels)? {
        Some(found) => Ok(found),
        None => repeated_in(alloc, setting, certificate, steps, labels),
    }
}
