//! Whether labels for the first places of the active configurations of an input problem pass.
ghost use Rattle.re_settings.specs.Fits.{are_images, begins_image, is_image, is_in_order, passes_with};
ghost use Rattle.re_problem.specs.NamedProblems.{unnamed};
ghost use Rattle.std.specs.List.{AllByRecursion};
ghost use Rattle.std.specs.Prelude.{◌≡◌, ◌<◌, ◌≤◌, IfOk, length};

use re_check::keeps_allowed;
use re_labels::{Config, Constraint, LabelSet, MAX_LABELS, NoMemory};
use re_problem::Problem;
use re_walks::{entries_for, is_begun};
use std::alloc::Global;

// Whether labels at places with the same input label ascend.
fn is_in_order(config: &[u8], labels: &[u8]) -> bool
    ensures { result ≡ is_in_order config.now labels.now }
{
    let [input_label, other_places @ ..] = config else {
        return true;
    };
    let [label, other_labels @ ..] = labels else {
        return true;
    };
    let [next_input_label, ..] = other_places else {
        return true;
    };
    let [next_label, ..] = other_labels else {
        return true;
    };
    if *input_label == *next_input_label && *next_label < *label {
        return false;
    }
    is_in_order(other_places, other_labels)
}

// Whether the labels are a configuration, and in order at the places of the input configuration.
fn is_image(active: &Constraint, config: &Config, labels: &[u8]) -> bool
    requires count { length labels.now ≡ active.now.degree }
    requires labels { AllByRecursion (λ label. label < MAX_LABELS) labels.now }
    ensures { result ≡ is_image active.now config.now labels.now }
{
    let _degree = active.degree();
    if !is_in_order(config.labels(), labels) {
        return false;
    }
    active.contains(&Config::from_labels(labels))
}

// Whether the labels begin one.
fn begins_image(active: &Constraint, n: u8, config: &Config, labels: &[u8]) -> bool
    requires n { n ≤ MAX_LABELS }
    requires few { length labels.now ≤ active.now.degree }
    requires labels { AllByRecursion (λ label. label < MAX_LABELS) labels.now }
    ensures { result ≡ begins_image active.now n config.now labels.now }
{
    if !is_in_order(config.labels(), labels) {
        return false;
    }
    is_begun(active, n, labels)
}

// Whether the labels are images of the first configurations, and behind them the beginning of one.
fn are_images(active: &Constraint, n: u8, configs: &[Config], labels: &[u8]) -> bool
    requires n { n ≤ MAX_LABELS }
    requires labels { AllByRecursion (λ label. label < MAX_LABELS) labels.now }
    ensures { result ≡ are_images active.now n configs.now labels.now }
{
    let [config, others @ ..] = configs else {
        return true;
    };
    let degree = active.degree() as usize;
    if labels.len() < degree {
        return begins_image(active, n, config, labels);
    }
    if !is_image(active, config, &labels[..degree]) {
        return false;
    }
    are_images(active, n, others, &labels[degree..])
}

/// Whether the labels are images of active configurations, and for each passive one each choice of a label that each of its labels becomes
/// is passive: the labels are those of the first places. It makes their entries, and costs what `keeps_allowed` of `re_check` costs.
pub(crate) fn passes(
    alloc: Global,
    problem: &Problem,
    passive: &Constraint,
    configs: &[Config],
    places: &[LabelSet],
    labels: &[u8],
) -> Result<bool, NoMemory>
    requires degree { problem.now.passive.degree ≡ passive.now.degree }
    requires few { length labels.now ≤ length places.now }
    requires labels { AllByRecursion (λ label. label < MAX_LABELS) labels.now }
    ensures { IfOk result (λ passes. passes ≡ passes_with (unnamed problem.now) passive.now configs.now places.now labels.now) }
{
    let n = problem.names().len() as u8;
    if !are_images(problem.active(), n, configs, labels) {
        return Ok(false);
    }
    let entries = entries_for(alloc, places, labels)?;
    Ok(keeps_allowed(entries.as_slice(), passive, problem.passive()))
}
