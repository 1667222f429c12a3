//! The numbers of labels for which there is a beam.

/// The next number of labels behind this one for which there is a beam.
pub(crate) fn next_size(labels: u8) -> u8 {
    match labels {
        0..=31 => labels.saturating_add(1),
        32..=47 => 48,
        48..=63 => 64,
        64..=95 => 96,
        96..=127 => 128,
        _ => u8::MAX,
    }
}
