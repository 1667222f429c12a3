//! Lines of two items, as the entries of maps are.
ghost use Rattle.re_problem.specs.Items.{ItemText, item_of};
ghost use Rattle.re_problem.specs.ItemSteps.{StandsOn};
ghost use Rattle.re_problem.specs.Pairs.{label_held};
ghost use Rattle.re_problem.specs.Readings.{PairAt};
ghost use Rattle.std.specs.Prelude.{◌≡◌, ◌<◌, IfSome, Some, length, slice_range};

use crate::items::{Item, ItemStep, next_item};
use crate::labels::item_labels;
use re_labels::Names;

/// The two items of a line of two items without power, or None exactly where the line is none.
pub fn read_pair(line: &[u8]) -> Option<(Item, Item)>
    ensures { PairAt line.now result }
{
    let ItemStep::Item(left) = next_item(line, 0) else {
        return None;
    };
    let ItemStep::Item(right) = next_item(line, left.to) else {
        return None;
    };
    let ItemStep::End = next_item(line, right.to) else {
        return None;
    };
    if left.power.is_some() {
        return None;
    }
    if right.power.is_some() {
        return None;
    }
    Some((left, right))
}

/// The label of an item on the line that is one label, or None exactly where it isn't among the names.
pub fn read_label(line: &[u8], item: &Item, names: &Names) -> Option<u8>
    requires { StandsOn item.now line.now }
    ensures label { (text : ItemText) → item_of (slice_range line.now item.now.from item.now.to) ≡ Some text → result ≡ label_held names.now text }
    ensures below { IfSome result (λ label. label < length names.now) }
{
    match item_labels(line, item, names) {
        None => None,
        Some(set) => set.first(),
    }
}
