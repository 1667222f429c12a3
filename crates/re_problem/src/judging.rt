//! The verdicts on maps.
ghost use Rattle.re_labels.specs.Sets.{IsLabelSet};
ghost use Rattle.re_problem.specs.Verdicts.{has_degrees, relaxation_verdict, renaming_verdict, restriction_verdict};
ghost use Rattle.re_problem.specs.NamedProblems.{unnamed};
ghost use Rattle.std.specs.List.{AllByRecursion};
ghost use Rattle.std.specs.Prelude.{◌≡◌, ◌<◌, length};

use crate::images::{first_empty, first_lost, first_not_allowed, first_not_good, first_twice};
use crate::maps::{LabelMap, SetMap};
use crate::named::Problem;
use crate::verdict::MapVerdict;
use re_labels::Side;

/// Whether the map makes `to` a relaxation of `from`: whether the images of all active configurations of `from` are active in
/// `to`, and those of the passive ones passive. The map has the labels of `to` that the labels of `from` become.
///
/// The first violation in this order: `Degrees`, where the degrees differ; `Active` with the first active configuration of `from`
/// whose image isn't active in `to`; `Passive` likewise. `Yes` comes exactly where there is none. It takes no memory, and looks up
/// one configuration for each that it passes.
pub fn relaxes(from: &Problem, to: &Problem, map: &LabelMap) -> MapVerdict
    requires images { length map.now ≡ length from.now.names }
    requires labels { AllByRecursion (λ image. image < length to.now.names) map.now }
    ensures { result ≡ relaxation_verdict (unnamed from.now) (unnamed to.now) map.now }
{
    if from.degrees() != to.degrees() {
        return MapVerdict::Degrees;
    }
    if let Some(config) = first_lost(from.active(), to.active(), map.images()) {
        return MapVerdict::Active(config);
    }
    if let Some(config) = first_lost(from.passive(), to.passive(), map.images()) {
        return MapVerdict::Passive(config);
    }
    MapVerdict::Yes
}

/// Whether the map makes `to` an upper step of `from`: whether the sets that the labels of an active configuration of `to` stand
/// for are a good row of the passive constraint of `from`, and those of a passive one have a choice that is active in `from`. The
/// map has the sets of labels of `from` that the labels of `to` stand for.
///
/// The first violation in this order: `Degrees`, where the degrees of `to` aren't those of `from` exchanged; `Empty` with the first
/// label whose set is empty; `Active` with the first active configuration of `to` whose sets are no good row; `Passive` with the first
/// passive one from whose sets no choice is active in `from`. `Yes` comes exactly where there is none. It takes no memory, and looks
/// up at most one configuration for each choice of a row, leaving a row where the answer is known; for a passive configuration of
/// `to` it walks the active ones of `from` where they are fewer than the choices.
pub fn restricts(from: &Problem, to: &Problem, map: &SetMap) -> MapVerdict
    requires images { length map.now ≡ length to.now.names }
    requires labels { AllByRecursion (IsLabelSet (length from.now.names)) map.now }
    ensures { result ≡ restriction_verdict (unnamed from.now) (unnamed to.now) map.now }
{
    if from.degrees().swapped() != to.degrees() {
        return MapVerdict::Degrees;
    }
    if let Some(label) = first_empty(map.images()) {
        return MapVerdict::Empty(label);
    }
    if let Some(config) = first_not_good(to.active(), from.passive(), map.images()) {
        return MapVerdict::Active(config);
    }
    if let Some(config) = first_not_allowed(to.passive(), from.active(), map.images()) {
        return MapVerdict::Passive(config);
    }
    MapVerdict::Yes
}

/// Whether the map makes `to` the problem `from` under other labels: whether different labels of `from` become different labels of
/// `to`, and the images of the configurations of `from` are exactly those of `to`.
///
/// The first violation in this order: `Degrees`, where the degrees differ; `Twice` with the first label that has the image of a lower
/// one; `Active` and `Passive` as `relaxes` finds them; `Count` with the first side, active before passive, on which `to` has more
/// configurations. `Yes` comes exactly where there is none. It takes no memory, and looks up one configuration for each that it passes.
pub fn renames(from: &Problem, to: &Problem, map: &LabelMap) -> MapVerdict
    requires images { length map.now ≡ length from.now.names }
    requires labels { AllByRecursion (λ image. image < length to.now.names) map.now }
    ensures { result ≡ renaming_verdict (unnamed from.now) (unnamed to.now) map.now }
{
    let images = map.images();
    if to.degrees() != from.degrees() {
        return MapVerdict::Degrees;
    }
    if let Some(label) = first_twice(images) {
        return MapVerdict::Twice(label);
    }
    if let Some(config) = first_lost(from.active(), to.active(), images) {
        return MapVerdict::Active(config);
    }
    if let Some(config) = first_lost(from.passive(), to.passive(), images) {
        return MapVerdict::Passive(config);
    }
    if from.active().len() < to.active().len() {
        return MapVerdict::Count(Side::Active);
    }
    if from.passive().len() < to.passive().len() {
        return MapVerdict::Count(Side::Passive);
    }
    MapVerdict::Yes
}
