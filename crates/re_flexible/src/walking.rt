//! Where walks of labels of one set lead, the labels that walks join, and those that turn.
ghost use Rattle.re_flexible.specs.Families.{AreApart, AreParts, AreTurning, AreWalks};
ghost use Rattle.re_flexible.specs.Relations.{Relates};
ghost use Rattle.re_labels.specs.Sets.{IsIn};
ghost use Rattle.re_labels.specs.declared.TheConstants.{MAX_LABELS};
ghost use Rattle.re_problem.specs.NamedProblems.{unnamed};
ghost use Rattle.std.specs.Prelude.{◌≡◌, ◌<◌, ◌↔◌, ℕ, length};

use crate::tables::{closed, composed, rounds};
use crate::together::joins;
use arrayvec::ArrayVec;
use re_labels::{LabelSet, MAX_LABELS};
use re_problem::Problem;

/// Where walks of labels of one set lead: through two nodes of which the first is active, or passive; through even numbers of nodes of which the
/// first is active, or passive; and through odd ones.
#[derive(Drop)]
pub struct Walks {
    two: ArrayVec<LabelSet, 128>,
    back: ArrayVec<LabelSet, 128>,
    forth: ArrayVec<LabelSet, 128>,
    behind: ArrayVec<LabelSet, 128>,
    from_active: ArrayVec<LabelSet, 128>,
    from_passive: ArrayVec<LabelSet, 128>,
    ghost two_count: { length two.items ≡ MAX_LABELS },
    ghost back_count: { length back.items ≡ MAX_LABELS },
    ghost forth_count: { length forth.items ≡ MAX_LABELS },
    ghost behind_count: { length behind.items ≡ MAX_LABELS },
    ghost from_active_count: { length from_active.items ≡ MAX_LABELS },
    ghost from_passive_count: { length from_passive.items ≡ MAX_LABELS },
}

/// Where the walks lead. It passes the configurations once.
pub fn walks_of(problem: &Problem, sets: &[LabelSet]) -> Walks
    requires count { length sets.now ≡ MAX_LABELS }
    requires apart { AreApart sets.now }
    ensures { AreWalks (unnamed problem.now) sets.now result.two.items result.back.items result.forth.items result.behind.items result.from_active.items result.from_passive.items }
{
    let active = joins(problem.active(), sets);
    let passive = joins(problem.passive(), sets);
    let two = composed(active.as_slice(), passive.as_slice());
    let back = composed(passive.as_slice(), active.as_slice());
    let forth = closed(two.as_slice());
    let behind = closed(back.as_slice());
    let from_active = composed(active.as_slice(), behind.as_slice());
    let from_passive = composed(passive.as_slice(), forth.as_slice());
    Walks {
        two,
        back,
        forth,
        behind,
        from_active,
        from_passive,
    }
}

// What the label leads to.
fn row(table: &ArrayVec<LabelSet, 128>, label: u8) -> LabelSet
    requires table { length table.now.items ≡ MAX_LABELS }
    requires label { label < MAX_LABELS }
    ensures { (y : ℕ) → IsIn y result ↔ Relates table.now.items label y }
{
    table[label as usize]
}

// The labels of the set to which the label leads in all four ways.
fn part_of(walks: &Walks, set: LabelSet, label: u8) -> LabelSet
    requires { label < MAX_LABELS }
    ensures { (y : ℕ) → IsIn y result ↔ (IsIn y set × Relates walks.now.forth.items label y × Relates walks.now.behind.items label y × Relates walks.now.from_active.items label y × Relates walks.now.from_passive.items label y) }
{
    let forth = row(&walks.forth, label);
    let behind = row(&walks.behind, label);
    let from_active = row(&walks.from_active, label);
    let from_passive = row(&walks.from_passive, label);
    let even = forth.meet(behind);
    let odd = from_active.meet(from_passive);
    let all = even.meet(odd);
    set.meet(all)
}

/// For each label those of its set that walks join with it.
pub fn parts_of(problem: &Problem, sets: &[LabelSet], walks: &Walks) -> ArrayVec<LabelSet, 128>
    requires count { length sets.now ≡ MAX_LABELS }
    requires apart { AreApart sets.now }
    requires walks { AreWalks (unnamed problem.now) sets.now walks.now.two.items walks.now.back.items walks.now.forth.items walks.now.behind.items walks.now.from_active.items walks.now.from_passive.items }
    ensures count { length result.items ≡ MAX_LABELS }
    ensures parts { AreParts (unnamed problem.now) sets.now result.items }
{
    let mut parts = ArrayVec::new();
    for label in 0..MAX_LABELS {
        parts.push(part_of(walks, sets[label as usize], label));
    }
    parts
}

/// The labels that turn within their set, and that walks join with themselves. Where one of a part turns, all do, so one of each is tested.
pub fn turning(problem: &Problem, sets: &[LabelSet], walks: &Walks, parts: &[LabelSet]) -> LabelSet
    requires count { length parts.now ≡ MAX_LABELS }
    requires apart { AreApart sets.now }
    requires walks { AreWalks (unnamed problem.now) sets.now walks.now.two.items walks.now.back.items walks.now.forth.items walks.now.behind.items walks.now.from_active.items walks.now.from_passive.items }
    requires parts { AreParts (unnamed problem.now) sets.now parts.now }
    ensures { AreTurning (unnamed problem.now) sets.now result }
{
    let mut seen = LabelSet::empty();
    let mut turning = LabelSet::empty();
    for label in 0..MAX_LABELS {
        let part = parts[label as usize];
        if part.has(label) && !seen.has(label) {
            seen = seen.union(part);
            if rounds(walks.two.as_slice(), walks.back.as_slice(), label) {
                turning = turning.union(part);
            }
        }
    }
    turning
}
