//! What shows early that one problem isn't the other under other labels.
ghost use Rattle.re_labels.specs.Configs.{image_at};
ghost use Rattle.re_problem.specs.NamedProblems.{unnamed};
ghost use Rattle.re_search.specs.Losses.{are_mapped, is_lost, loses, may_become};
ghost use Rattle.re_labels.specs.Constraints.{has_config};
ghost use Rattle.std.specs.List.{AllByRecursion, list_any};
ghost use Rattle.std.specs.Prelude.{◌≡◌, ◌<◌, ◌||◌, length};

use re_labels::{Config, Constraint, MAX_LABELS};
use re_problem::Problem;

/// Whether the degrees are equal, and the other problem has no more configurations.
pub(crate) fn may_become(problem: &Problem, target: &Problem) -> bool
    ensures { result ≡ may_become (unnamed problem.now) (unnamed target.now) }
{
    target.degrees() == problem.degrees()
        && target.active().len() <= problem.active().len()
        && target.passive().len() <= problem.passive().len()
}

// Whether each of the labels has an image.
fn are_mapped(labels: &[u8], images: &[u8]) -> bool
    ensures { result ≡ are_mapped images.now labels.now }
{
    labels.iter().all(|label| (*label as usize) < images.len())
}

// Whether the labels of the configuration have images, and these are no configuration of the constraint.
fn is_lost(to: &Constraint, config: &Config, images: &[u8]) -> bool
    requires { AllByRecursion (λ image. image < MAX_LABELS) images.now }
    ensures { result ≡ is_lost images.now to.now config.now }
{
    if !are_mapped(config.labels(), images) {
        return false;
    }
    !to.contains(&config.image(images))
}

// Whether the images lose some configuration of the constraint.
fn loses_some(from: &Constraint, to: &Constraint, images: &[u8]) -> bool
    requires { AllByRecursion (λ image. image < MAX_LABELS) images.now }
    ensures { result ≡ loses images.now from.now to.now }
{
    for place in 0..from.len() {
        let Some(config) = from.get(place) else {
            unreachable!();
        };
        if is_lost(to, config, images) {
            return true;
        }
    }
    false
}

/// Whether the images of the first labels lose some configuration, however the images go on. It looks up each configuration
/// whose labels have images.
pub(crate) fn loses(problem: &Problem, target: &Problem, images: &[u8]) -> bool
    requires { AllByRecursion (λ image. image < length target.now.names) images.now }
    ensures { result ≡ (loses images.now problem.now.active target.now.active || loses images.now problem.now.passive target.now.passive) }
{
    let _names = target.names();
    loses_some(problem.active(), target.active(), images)
        || loses_some(problem.passive(), target.passive(), images)
}
