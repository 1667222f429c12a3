//! Relations between labels, as tables that have for each label the set of those that it leads to.
ghost use Rattle.re_flexible.specs.Relations.{Composes, HasNew, IsWithin, Reaches, Relates, Rounds};
ghost use Rattle.re_labels.specs.Sets.{IsIn};
ghost use Rattle.std.specs.Prelude.{◌≡◌, ◌<◌, ◌↔◌, ◌⊎◌, ℕ, List, [], IsTrue, MatchBool, length};

use arrayvec::ArrayVec;
use re_labels::{LabelSet, MAX_LABELS};

/// What the labels of the set lead to.
pub fn image(table: &[LabelSet], set: LabelSet) -> LabelSet
    requires { length table.now ≡ MAX_LABELS }
    ensures { (y : ℕ) → IsIn y result ↔ ((z : ℕ) × IsIn z set × Relates table.now z y) }
{
    let _count = set.count();
    let mut all = LabelSet::empty();
    for label in 0..MAX_LABELS {
        if set.has(label) {
            all = all.union(table[label as usize]);
        }
    }
    all
}

/// Where a step of the first relation and one of the second lead.
pub fn composed(first: &[LabelSet], second: &[LabelSet]) -> ArrayVec<LabelSet, 128>
    requires first { length first.now ≡ MAX_LABELS }
    requires second { length second.now ≡ MAX_LABELS }
    ensures count { length result.items ≡ MAX_LABELS }
    ensures steps { (x y : ℕ) → Relates result.items x y ↔ Composes first.now second.now x y }
{
    let mut table = ArrayVec::new();
    for label in 0..MAX_LABELS {
        table.push(image(second, first[label as usize]));
    }
    table
}

// Where one of the two relations leads.
fn united(first: &[LabelSet], second: &[LabelSet]) -> ArrayVec<LabelSet, 128>
    requires first { length first.now ≡ MAX_LABELS }
    requires second { length second.now ≡ MAX_LABELS }
    ensures count { length result.items ≡ MAX_LABELS }
    ensures either { (x y : ℕ) → Relates result.items x y ↔ (Relates first.now x y ⊎ Relates second.now x y) }
{
    let mut table = ArrayVec::new();
    for label in 0..MAX_LABELS {
        table.push(first[label as usize].union(second[label as usize]));
    }
    table
}

// The relation, where each label leads to itself, too.
fn with_own(table: &[LabelSet]) -> ArrayVec<LabelSet, 128>
    requires { length table.now ≡ MAX_LABELS }
    ensures count { length result.items ≡ MAX_LABELS }
    ensures own { (x y : ℕ) → Relates result.items x y ↔ ((x < MAX_LABELS) × ((x ≡ y) ⊎ Relates table.now x y)) }
{
    let mut own = ArrayVec::new();
    for label in 0..MAX_LABELS {
        own.push(table[label as usize].insert(label));
    }
    own
}

// The set, and the other one, too, where it has the label.
fn joined(own: LabelSet, label: u8, more: LabelSet) -> LabelSet
    requires { label < MAX_LABELS }
    ensures { (y : ℕ) → IsIn y result ↔ (IsIn y own ⊎ (IsIn label own × IsIn y more)) }
{
    if own.has(label) {
        return own.union(more);
    }
    own
}

// The relation, where what leads to the label leads to what the label leads to, too.
fn led_through(table: &[LabelSet], through: u8) -> ArrayVec<LabelSet, 128>
    requires count { length table.now ≡ MAX_LABELS }
    requires through { through < MAX_LABELS }
    ensures count { length result.items ≡ MAX_LABELS }
    ensures led { (x y : ℕ) → Relates result.items x y ↔ (Relates table.now x y ⊎ (Relates table.now x through × Relates table.now through y)) }
{
    let row = table[through as usize];
    let mut led = ArrayVec::new();
    for label in 0..MAX_LABELS {
        led.push(joined(table[label as usize], through, row));
    }
    led
}

/// Where any number of steps leads. With n labels it takes n unions for each of them (Warshall).
pub fn closed(table: &[LabelSet]) -> ArrayVec<LabelSet, 128>
    requires { length table.now ≡ MAX_LABELS }
    ensures count { length result.items ≡ MAX_LABELS }
    ensures closed { (x y : ℕ) → x < MAX_LABELS → Relates result.items x y ↔ Reaches table.now x y }
{
    let mut all = with_own(table);
    for through in 0..MAX_LABELS {
        all = led_through(all.as_slice(), through);
    }
    all
}

// The relation in which the label alone leads anywhere, and where the other relation does.
fn alone(table: &[LabelSet], label: u8) -> ArrayVec<LabelSet, 128>
    requires count { length table.now ≡ MAX_LABELS }
    requires label { label < MAX_LABELS }
    ensures count { length result.items ≡ MAX_LABELS }
    ensures alone { (x y : ℕ) → Relates result.items x y ↔ ((x ≡ label) × Relates table.now x y) }
{
    let mut sole = ArrayVec::new();
    for other in 0..MAX_LABELS {
        if other == label {
            sole.push(table[label as usize]);
        } else {
            sole.push(LabelSet::empty());
        }
    }
    sole
}

/// Whether the first relation leads nowhere but where the second one does.
pub fn is_within(first: &[LabelSet], second: &[LabelSet]) -> bool
    requires first { length first.now ≡ MAX_LABELS }
    requires second { length second.now ≡ MAX_LABELS }
    ensures { MatchBool result (IsWithin first.now second.now) (HasNew first.now second.now) }
{
    for label in 0..MAX_LABELS {
        let row = first[label as usize];
        let _count = row.count();
        if !row.within(second[label as usize]) {
            return false;
        }
    }
    true
}

/// Whether some number of steps leads from the label to itself, and one more do, where the other relation leads back. Two walks go in
/// step, one a step ahead of the other: for each label that the first one comes to the table has those that the second one may be at
/// then. It is widened until nothing is new.
pub fn rounds(table: &[LabelSet], back: &[LabelSet], label: u8) -> bool
    requires table { length table.now ≡ MAX_LABELS }
    requires back { length back.now ≡ MAX_LABELS }
    requires label { label < MAX_LABELS }
    requires converse { (x y : ℕ) → Relates back.now x y ↔ Relates table.now y x }
    ensures { IsTrue result ↔ Rounds table.now label }
{
    let mut ahead = alone(table, label);
    'steps: loop {
        let behind = composed(back, ahead.as_slice());
        let moved = composed(behind.as_slice(), table);
        if is_within(moved.as_slice(), ahead.as_slice()) {
            return ahead[label as usize].has(label);
        }
        ahead = united(ahead.as_slice(), moved.as_slice());
    }
}
