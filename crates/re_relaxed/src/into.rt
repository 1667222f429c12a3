//! The map of the labels by which a problem relaxes to a given one.
use arrayvec::ArrayVec;
use re_labels::{Config, Constraint, MAX_LABELS, NoMemory};
use re_problem::{LabelMap, Problem};
use re_shaping::are_below;
use std::alloc::Global;

// The configuration of these labels, if it is one.
fn config_of(labels: &[u8]) -> Option<Config> {
    if 2 <= labels.len() && labels.len() <= 6 && are_below(labels, MAX_LABELS as usize) {
        Some(Config::from_labels(labels))
    } else {
        None
    }
}

// The image of the configuration, if all its labels have images.
fn image_of(config: &Config, images: &[u8]) -> Option<Config> {
    let mut labels: ArrayVec<u8, 6> = ArrayVec::new();
    for label in config.labels() {
        let image = images.get(*label as usize)?;
        labels.try_push(*image).ok()?;
    }
    config_of(labels.as_slice())
}

// Whether the label is the last of the configuration.
fn ends_with(config: &Config, label: usize) -> bool {
    match config.labels().last() {
        Some(last) => *last as usize == label,
        None => false,
    }
}

// Whether the images of the configurations are configurations whose last label is the last one that has an image.
fn keeps(from: &Constraint, to: &Constraint, images: &[u8]) -> bool {
    for config in from.configs() {
        if !ends_with(config, images.len().saturating_sub(1)) {
            continue;
        }
        let Some(image) = image_of(config, images) else {
            return false;
        };
        if !to.contains(&image) {
            return false;
        }
    }
    true
}

// Whether the images of the labels that have some may stand.
fn are_kept(from: &Problem, to: &Problem, images: &[u8]) -> bool {
    keeps(from.active(), to.active(), images) && keeps(from.passive(), to.passive(), images)
}

// Whether so many labels more get images that may stand; these are put behind the others.
fn completes(
    from: &Problem,
    to: &Problem,
    more: u8,
    images: &mut Vec<u8>,
    tries: &mut u32,
) -> Result<bool, NoMemory> {
    if more == 0 {
        return Ok(true);
    }
    for image in 0..to.names().len() as u8 {
        *tries = tries.saturating_sub(1);
        if *tries == 0 {
            return Ok(false);
        }
        images.push(image)?;
        if are_kept(from, to, images.as_slice()) && completes(from, to, more - 1, images, tries)? {
            return Ok(true);
        }
        let _image = images.pop();
    }
    Ok(false)
}

/// The first map of the labels, in the lexicographic order of their images, by which the problem relaxes to the other one, if it is found with so many
/// tries. The degrees are those of the other one.
pub(crate) fn map_into(
    alloc: Global,
    from: &Problem,
    to: &Problem,
    tries: u32,
) -> Result<Option<LabelMap>, NoMemory> {
    let mut images = Vec::new(alloc);
    let mut tries = tries;
    if completes(from, to, from.names().len() as u8, &mut images, &mut tries)? {
        Ok(LabelMap::new(images.as_slice()))
    } else {
        Ok(None)
    }
}
