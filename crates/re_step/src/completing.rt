//! The labels that complete choices, with a memo of the labels that complete two.
ghost use Rattle.re_labels.specs.Sets.{IsIn, has};
ghost use Rattle.re_labels.specs.declared.TheConstants.{MAX_LABELS};
ghost use Rattle.re_boxes.specs.Choosing.{AreGoodBehind};
ghost use Rattle.re_labels.specs.Constraints.{Has};
ghost use Rattle.re_step.specs.Completing.{AreRight, IsRight};
ghost use Rattle.std.specs.List.{AllByRecursion};
ghost use Rattle.std.specs.Prelude.{◌≡◌, ◌≤◌, ◌<◌, ◌+◌, ◌↔◌, ◌∷◌, [], ◌++◌, ℕ, false, not, Contains, IfOk, IfSome, MatchOption, Some, length};

use arrayvec::ArrayVec;
use re_boxes::least_of;
use re_labels::{Config, Constraint, LabelSet, NoMemory, Trail};
use std::alloc::Global;

/// Two labels, and the labels that complete them.
#[derive(Clone, Copy)]
pub(crate) struct Completed {
    pub(crate) first: u8,
    pub(crate) second: u8,
    pub(crate) labels: LabelSet,
}

/// Some rests of two labels, each with the labels that complete it.
#[derive(Drop)]
pub(crate) struct Memo {
    pub(crate) slots: Vec<Option<Completed>>,
}

impl Memo {
    /// A memo of nothing, with room for the rests of labels below the number.
    pub(crate) fn new(alloc: Global, labels: u8) -> Result<Memo, NoMemory>
        ensures { IfOk result (λ memo. (held : Completed) → Contains memo.slots.items (Some held) → ⊥) }
    {
        let count = labels as usize * 128;
        let mut slots = Vec::with_capacity(alloc, count)?;
        for _slot in 0..count {
            slots.push(None)?;
        }
        Ok(Memo { slots })
    }
}

/// The labels below the number that are not in the set.
pub(crate) fn outside(labels: u8, set: LabelSet) -> LabelSet
    requires { labels ≤ MAX_LABELS }
    ensures below { (z : ℕ) → z < labels → has result z ≡ not (has set z) }
    ensures above { (z : ℕ) → labels ≤ z → has result z ≡ false }
{
    let mut left = LabelSet::empty();
    for label in 0..labels {
        if !set.has(label) {
            left = left.insert(label);
        }
    }
    left
}

// The labels and one more behind them.
fn with_last(labels: &[u8], label: u8) -> ArrayVec<u8, 6>
    requires { length labels.now + 1 ≤ 6 }
    ensures { result.items ≡ labels.now ++ label ∷ [] }
{
    let mut more = ArrayVec::new();
    let Ok(_) = more.try_extend_from_slice(labels) else {
        unreachable!()
    };
    more.push(label);
    more
}

// The label and the others behind it.
fn with_first(label: u8, labels: &[u8]) -> ArrayVec<u8, 6>
    requires { length labels.now + 1 ≤ 6 }
    ensures { result.items ≡ label ∷ labels.now }
{
    let mut more = ArrayVec::new();
    more.push(label);
    let Ok(_) = more.try_extend_from_slice(labels) else {
        unreachable!()
    };
    more
}

// Those of the labels that complete the rest.
fn filtered(constraint: &Constraint, trail: &mut Trail, rest: &[u8], among: LabelSet) -> LabelSet
    requires some { 1 ≤ length rest.now }
    requires six { length rest.now + 1 ≤ 6 }
    requires rest_below { AllByRecursion (λ label. label < MAX_LABELS) rest.now }
    ensures { (x : ℕ) → IsIn x result ↔ (IsIn x among × Has constraint.now (x ∷ rest.now)) }
{
    let Some(label) = least_of(among) else {
        return among;
    };
    let all = with_first(label, rest);
    let completes = constraint.contains_near(&Config::from_labels(all.as_slice()), trail);
    let more = filtered(constraint, trail, rest, among.remove(label));
    if completes {
        return more.insert(label);
    }
    more
}

// What is held in the slot, if there is such a slot and anything in it.
fn held_in(slots: &[Option<Completed>], slot: usize) -> Option<Completed>
    ensures { IfSome result (λ held. Contains slots.now (Some held)) }
{
    if slot < slots.len() {
        return slots[slot];
    }
    None
}

// The labels that complete the two, where the memo has them in the slot.
fn held_for(
    constraint: &Constraint,
    labels: u8,
    memo: &Memo,
    slot: usize,
    first: u8,
    second: u8,
) -> Option<LabelSet>
    requires right { AreRight constraint.now labels memo.now.slots.items }
    ensures { IfSome result (λ all. (x : ℕ) → x < labels → IsIn x all ↔ Has constraint.now (x ∷ first ∷ second ∷ [])) }
{
    let Some(held) = held_in(memo.slots.as_slice(), slot) else {
        return None;
    };
    if held.first != first {
        return None;
    }
    if held.second != second {
        return None;
    }
    Some(held.labels)
}

// Keeps what completes the two, if there is such a slot.
fn keep_in(constraint: &Constraint, labels: u8, memo: &mut Memo, slot: usize, held: Completed)
    requires right { AreRight constraint.now labels memo.old.slots.items }
    requires held { IsRight constraint.now labels held }
    ensures right { AreRight constraint.now labels memo.new.slots.items }
{
    let _degree = constraint.degree();
    if slot < memo.slots.len() {
        memo.slots[slot] = Some(held);
    }
}

// The labels below the number that complete the two.
fn all_completing(
    constraint: &Constraint,
    labels: u8,
    first: u8,
    second: u8,
    rest: &[u8],
) -> Completed
    requires labels { labels ≤ MAX_LABELS }
    requires rest { rest.now ≡ first ∷ second ∷ [] }
    requires rest_below { AllByRecursion (λ label. label < MAX_LABELS) rest.now }
    ensures right { IsRight constraint.now labels result }
    ensures first { result.first ≡ first }
    ensures second { result.second ≡ second }
{
    let whole = outside(labels, LabelSet::empty());
    Completed {
        first,
        second,
        labels: filtered(constraint, &mut Trail::default(), rest, whole),
    }
}

// Those of the labels that complete the two, which are the rest. Where the memo has them they are known, and where many labels are
// left the memo keeps them.
fn completing_two(
    constraint: &Constraint,
    labels: u8,
    memo: &mut Memo,
    first: u8,
    second: u8,
    rest: &[u8],
    among: LabelSet,
) -> LabelSet
    requires labels { labels ≤ MAX_LABELS }
    requires right { AreRight constraint.now labels memo.old.slots.items }
    requires rest { rest.now ≡ first ∷ second ∷ [] }
    requires rest_below { AllByRecursion (λ label. label < MAX_LABELS) rest.now }
    requires among { (x : ℕ) → IsIn x among → x < labels }
    ensures right { AreRight constraint.now labels memo.new.slots.items }
    ensures completing { (x : ℕ) → IsIn x result ↔ (IsIn x among × Has constraint.now (x ∷ rest.now)) }
{
    let slot = first as usize * 128 + second as usize;
    if let Some(all) = held_for(constraint, labels, memo, slot, first, second) {
        return among.meet(all);
    }
    if among.count() < 4 {
        return filtered(constraint, &mut Trail::default(), rest, among);
    }
    let held = all_completing(constraint, labels, first, second, rest);
    let all = held.labels;
    keep_in(constraint, labels, memo, slot, held);
    among.meet(all)
}

// Those of the labels that complete the rest.
fn completing(
    constraint: &Constraint,
    labels: u8,
    memo: &mut Memo,
    rest: &[u8],
    among: LabelSet,
) -> LabelSet
    requires labels { labels ≤ MAX_LABELS }
    requires right { AreRight constraint.now labels memo.old.slots.items }
    requires some { 1 ≤ length rest.now }
    requires six { length rest.now + 1 ≤ 6 }
    requires rest_below { AllByRecursion (λ label. label < MAX_LABELS) rest.now }
    requires among { (x : ℕ) → IsIn x among → x < labels }
    ensures right { AreRight constraint.now labels memo.new.slots.items }
    ensures completing { (x : ℕ) → IsIn x result ↔ (IsIn x among × Has constraint.now (x ∷ rest.now)) }
{
    if rest.len() != 2 {
        return filtered(constraint, &mut Trail::default(), rest, among);
    }
    completing_two(constraint, labels, memo, rest[0], rest[1], rest, among)
}

/// Those of the labels that complete each choice of one label of the first set and of each other one, behind the drawn labels. It
/// ends as soon as no label is left, and costs one look at the memo for each choice of two labels.
pub(crate) fn addable(
    constraint: &Constraint,
    labels: u8,
    memo: &mut Memo,
    drawn: &[u8],
    among: LabelSet,
    first: LabelSet,
    others: &[LabelSet],
) -> LabelSet
    requires labels { labels ≤ MAX_LABELS }
    requires right { AreRight constraint.now labels memo.old.slots.items }
    requires six { length drawn.now + length others.now + 2 ≤ 6 }
    requires drawn_below { AllByRecursion (λ label. label < MAX_LABELS) drawn.now }
    requires among { (x : ℕ) → IsIn x among → x < labels }
    ensures right { AreRight constraint.now labels memo.new.slots.items }
    ensures addable { (x : ℕ) → IsIn x result ↔ (IsIn x among × AreGoodBehind constraint.now (x ∷ drawn.now) (first ∷ others.now)) }
{
    let Some(_left) = least_of(among) else {
        return among;
    };
    let Some(label) = least_of(first) else {
        return among;
    };
    let more = with_last(drawn, label);
    let [next, rest @ ..] = others else {
        let left = completing(constraint, labels, memo, more.as_slice(), among);
        return addable(
            constraint,
            labels,
            memo,
            drawn,
            left,
            first.remove(label),
            others,
        );
    };
    let left = addable(
        constraint,
        labels,
        memo,
        more.as_slice(),
        among,
        *next,
        rest,
    );
    addable(
        constraint,
        labels,
        memo,
        drawn,
        left,
        first.remove(label),
        others,
    )
}
