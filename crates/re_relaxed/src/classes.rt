//! Partitions of labels, as the class of each label: each class has its first label behind those of the classes before.
ghost use Rattle.std.specs.Prelude.{◌<◌, IfSome};

use re_labels::{MAX_LABELS, NoMemory};
use std::alloc::Global;

// Whether the label at this place can go to the next class, with at most so many classes: one before it is in its class, or in a later one.
fn may_rise(classes: &[u8], place: usize, most: u8) -> bool {
    let Some(class) = classes.get(place) else {
        return false;
    };
    class.saturating_add(1) < most && classes.iter().take(place).any(|other| other >= class)
}

// The last label that can go to the next class.
fn last_rising(classes: &[u8], most: u8) -> Option<usize> {
    for place in (0..classes.len()).rev() {
        if may_rise(classes, place, most) {
            return Some(place);
        }
    }
    None
}

// The class of the label at a place in the next partition, where the one at `place` goes to the next class.
fn risen(index: usize, place: usize, class: u8) -> u8 {
    if index < place {
        class
    } else if index == place {
        class.saturating_add(1)
    } else {
        0
    }
}

/// The partition of so many labels into one class.
pub(crate) fn one_class(alloc: Global, labels: usize) -> Result<Vec<u8>, NoMemory> {
    let mut classes = Vec::new(alloc);
    for _ in 0..labels {
        classes.push(0)?;
    }
    Ok(classes)
}

/// The next partition into at most so many classes, in the lexicographic order.
pub(crate) fn next_classes(
    alloc: Global,
    classes: &[u8],
    most: u8,
) -> Result<Option<Vec<u8>>, NoMemory> {
    let Some(place) = last_rising(classes, most) else {
        return Ok(None);
    };
    let mut next = Vec::new(alloc);
    for (index, class) in classes.iter().enumerate() {
        next.push(risen(index, place, *class))?;
    }
    Ok(Some(next))
}

/// Whether there are exactly so many classes.
pub(crate) fn has_classes(classes: &[u8], count: u8) -> bool {
    classes.iter().all(|class| *class < count)
        && classes.iter().any(|class| class.saturating_add(1) == count)
}

/// The first label in the class of the one at this place, if it is an earlier one, and this one.
pub(crate) fn merge_at(classes: &[u8], place: usize) -> Option<(u8, u8)>
    ensures { IfSome result (λ pair. pair.0 < pair.1) }
{
    let class = classes.get(place)?;
    let low = classes.iter().position(|other| other == class)?;
    if low < place && place < MAX_LABELS as usize {
        Some((low as u8, place as u8))
    } else {
        None
    }
}
