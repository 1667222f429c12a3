//! Sets by their places.
ghost use Rattle.re_labels.specs.Rows.{set_at};
ghost use Rattle.std.specs.Prelude.{◌≡◌};

use re_labels::LabelSet;

/// The set at a place, or none where there is no such place.
pub fn set_at(sets: &[LabelSet], place: usize) -> LabelSet
    ensures { result ≡ set_at sets.now place }
{
    if place < sets.len() {
        sets[place]
    } else {
        LabelSet::empty()
    }
}
