//! The entries of the first sets.
ghost use Rattle.re_check.specs.RowEntries.{row_entries};
ghost use Rattle.std.specs.Prelude.{◌≡◌, ◌≤◌, IfOk, length};

use re_cert::SetEntry;
use re_labels::{LabelSet, NoMemory};
use std::alloc::Global;

/// The entries of the first sets, each with its label.
pub fn entries_for(
    alloc: Global,
    sets: &[LabelSet],
    labels: &[u8],
) -> Result<Vec<SetEntry>, NoMemory>
    requires { length labels.now ≤ length sets.now }
    ensures { IfOk result (λ entries. entries.items ≡ row_entries sets.now labels.now) }
{
    let mut entries = Vec::new(alloc);
    for (place, label) in labels.iter().enumerate() {
        entries.push(SetEntry {
            set: sets[place],
            label: *label,
        })?;
    }
    Ok(entries)
}
