//! Whether images for the first labels begin a map of a problem into itself.
ghost use Rattle.re_bridge.specs.Reductions.{image_set, is_kept_so_far, keeps_so_far, passes_into};
ghost use Rattle.std.specs.List.{AllByRecursion};
ghost use Rattle.std.specs.Prelude.{◌≡◌, ◌<◌, ◌-◌, length, take, true};

use re_labels::{Config, Constraint, LabelSet, MAX_LABELS};
use re_problem::Problem;

/// The labels that are images.
pub(crate) fn image_set(images: &[u8]) -> LabelSet
    requires { AllByRecursion (λ image. image < MAX_LABELS) images.now }
    ensures { result ≡ image_set images.now }
{
    let mut set = LabelSet::empty();
    for image in images {
        set = set.insert(*image);
    }
    set
}

// Whether the image of the configuration is one, where its labels all have images, and it is kept by those before the last one.
fn keeps_config(constraint: &Constraint, images: &[u8], config: &Config) -> bool
    requires front { is_kept_so_far constraint.now (take (length images.now - 1) images.now) config.now ≡ true }
    requires images { AllByRecursion (λ image. image < MAX_LABELS) images.now }
    ensures { result ≡ is_kept_so_far constraint.now images.now config.now }
{
    let labels = config.labels();
    let last = labels[labels.len() - 1] as usize;
    if last + 1 != images.len() {
        return true;
    }
    constraint.contains(&config.image(images))
}

// The same of all configurations.
fn keeps_so_far(constraint: &Constraint, images: &[u8]) -> bool
    requires front { keeps_so_far constraint.now (take (length images.now - 1) images.now) ≡ true }
    requires images { AllByRecursion (λ image. image < MAX_LABELS) images.now }
    ensures { result ≡ keeps_so_far constraint.now images.now }
{
    for config in constraint.configs() {
        if !keeps_config(constraint, images, config) {
            return false;
        }
    }
    true
}

/// Whether at most so many labels are images, and the images of the configurations whose labels all have images are configurations, where
/// this is so of the images but the last one. It walks over the configurations, and looks up the images of those whose last label is
/// the last one that has an image.
pub(crate) fn passes_into(problem: &Problem, most: u8, images: &[u8]) -> bool
    requires front { passes_into most problem.now (take (length images.now - 1) images.now) ≡ true }
    requires images { AllByRecursion (λ image. image < MAX_LABELS) images.now }
    ensures { result ≡ passes_into most problem.now images.now }
{
    image_set(images).count() <= most
        && keeps_so_far(problem.active(), images)
        && keeps_so_far(problem.passive(), images)
}
