//! The entries of a map: two items on a line.
ghost use Rattle.re_problem.specs.Items.{ItemText, item_of};
ghost use Rattle.re_problem.specs.ItemSteps.{StandsOn};
ghost use Rattle.re_texts.specs.Entries.{has_group, image_on, is_next};
ghost use Rattle.re_problem.specs.Pairs.{ItemPair, label_held, pair_on};
ghost use Rattle.re_problem.specs.Readings.{PairAt, ReadsItem};
ghost use Rattle.std.specs.Prelude.{◌≡◌, ◌<◌, ℕ, List, IfSome, IsTrue, Some, length, slice_range};

use re_labels::{LabelSet, Names};
use re_problem::{Item, item_labels, read_label};

/// What the images of a map are.
#[derive(Clone, Copy, Debug, PartialEq, Eq)]
pub enum MapKind {
    Labels,
    Sets,
}

/// Whether one of the two items is a group where a label is asked.
pub(crate) fn has_group(kind: MapKind, left: &Item, right: &Item) -> bool
    ensures { (line : List ℕ) (pair : ItemPair) → ReadsItem line left.now pair.left → ReadsItem line right.now pair.right → result ≡ has_group kind pair }
{
    match kind {
        MapKind::Labels => left.group || right.group,
        MapKind::Sets => left.group,
    }
}

/// Whether the item is the label whose turn it is.
pub(crate) fn is_next(line: &[u8], item: &Item, names: &Names, count: usize) -> bool
    requires { StandsOn item.now line.now }
    ensures next { (text : ItemText) → ReadsItem line.now item.now text → result ≡ is_next (label_held names.now text) count }
    ensures below { IsTrue result → count < length names.now }
{
    match read_label(line, item, names) {
        None => false,
        Some(label) => label as usize == count,
    }
}

/// The image that an item writes, as a set, or None exactly where a label of it isn't among the names.
pub(crate) fn read_image(kind: MapKind, line: &[u8], item: &Item, names: &Names) -> Option<LabelSet>
    requires { StandsOn item.now line.now }
    ensures { (text : ItemText) → ReadsItem line.now item.now text → result ≡ image_on kind names.now text }
{
    let _count = names.len();
    match kind {
        MapKind::Labels => match read_label(line, item, names) {
            None => None,
            Some(label) => Some(LabelSet::single(label)),
        },
        MapKind::Sets => item_labels(line, item, names),
    }
}
