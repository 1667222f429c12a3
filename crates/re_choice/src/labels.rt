//! Labels that a problem may have.
ghost use Rattle.std.specs.List.{list_all};
ghost use Rattle.std.specs.Prelude.{◌≡◌, nat_lt};

use re_labels::MAX_LABELS;

/// Whether each label is one that a problem may have.
pub fn are_labels(labels: &[u8]) -> bool
    ensures { result ≡ list_all (λ label. nat_lt label MAX_LABELS) labels.now }
{
    labels.iter().all(|label| *label < MAX_LABELS)
}
