//! Each rest once, with the set of the labels that complete it.
ghost use Rattle.re_labels.specs.Lists.{count_from};
ghost use Rattle.re_labels.specs.Sets.{IsIn, IsLabelSet};
ghost use Rattle.re_boxes.specs.Rests.{Completes};
ghost use Rattle.re_boxes.specs.Spans.{AreFilled, AreSpans, Ascends, Fits, IsBound, IsEnding, IsFirst, IsNarrowed, IsNext, IsOpened, IsSpan, IsVisit, IsWaiting, lesser, tree_of};
ghost use Rattle.re_labels.specs.Strength.{up_set};
ghost use Rattle.std.specs.Prelude.{◌≡◌, ◌≤◌, ◌<◌, ◌↔◌, ◌+◌, ◌∷◌, [], ℕ, List, Contains, IsTrue, MatchBool, MatchOption, ◌++◌, length, map, max, slice_index_or};

use crate::spans::{Parts, first_label, parted};
use arrayvec::ArrayVec;
use re_labels::{Branches, Constraint, LabelSet, MAX_LABELS, Node};

/// A label that completes rests with some beginning, and the configurations that they give.
#[derive(Clone, Copy, Debug, Default)]
pub struct Candidate {
    /// The label.
    pub label: u8,
    /// The configurations that begin with the beginning and the label.
    pub span: Branches,
}

// The lesser one of two labels, where there are any.
fn lesser(one: Option<u8>, other: Option<u8>) -> Option<u8>
    ensures { result ≡ lesser one other }
{
    match one {
        None => other,
        Some(x) => match other {
            None => Some(x),
            Some(y) => { if x < y { Some(x) } else { Some(y) } }
        },
    }
}

// The least label that comes next in one of the spans, if any does.
fn least_label(
    constraint: &Constraint,
    nodes: &[Node],
    depth: usize,
    main: Branches,
    candidates: &[Candidate],
) -> Option<u8>
    requires depth { depth + 1 < constraint.now.degree }
    requires main { IsSpan (tree_of constraint.now nodes.now) depth main }
    requires candidates { AreSpans (tree_of constraint.now nodes.now) (depth + 1) candidates.now }
    ensures { MatchOption result
        (((ending : List ℕ) → IsEnding (tree_of constraint.now nodes.now) depth main ending → ⊥) × ((x : ℕ) (ending : List ℕ) → Fits (tree_of constraint.now nodes.now) (depth + 1) candidates.now x ending → ⊥))
        (λ label. (label < MAX_LABELS) × IsNext (tree_of constraint.now nodes.now) depth main candidates.now label) }
{
    let _degree = constraint.degree();
    let mut least = first_label(constraint, nodes, depth, main);
    for candidate in candidates {
        least = lesser(
            least,
            first_label(constraint, nodes, depth + 1, candidate.span),
        );
    }
    least
}

// Whether the label comes next in the span, where no lesser one does.
fn is_next(constraint: &Constraint, nodes: &[Node], depth: usize, span: Branches, label: u8) -> bool
    requires depth { depth < constraint.now.degree }
    requires span { IsSpan (tree_of constraint.now nodes.now) depth span }
    requires least { (other : ℕ) (ending : List ℕ) → IsEnding (tree_of constraint.now nodes.now) depth span (other ∷ ending) → label ≤ other }
    ensures { MatchBool result (IsFirst (tree_of constraint.now nodes.now) depth span label) ((other : ℕ) (ending : List ℕ) → IsEnding (tree_of constraint.now nodes.now) depth span (other ∷ ending) → label < other) }
{
    match first_label(constraint, nodes, depth, span) {
        None => false,
        Some(first) => first == label,
    }
}

// The candidates with this label next, and what is behind it. All candidates keep what comes after it.
fn part(
    constraint: &Constraint,
    nodes: &[Node],
    depth: usize,
    candidates: &mut [Candidate],
    label: u8,
    below: &mut ArrayVec<Candidate, 128>,
)
    requires depth { depth < constraint.now.degree }
    requires candidates { AreSpans (tree_of constraint.now nodes.now) depth candidates.old }
    requires few { length candidates.old ≤ MAX_LABELS }
    requires least { (x other : ℕ) (ending : List ℕ) → Fits (tree_of constraint.now nodes.now) depth candidates.old x (other ∷ ending) → label ≤ other }
    requires below { below.old.items ≡ [] }
    ensures few_below { length below.new.items ≤ length candidates.old }
    ensures few_after { length candidates.new ≤ length candidates.old }
    ensures spans_below { AreSpans (tree_of constraint.now nodes.now) (depth + 1) below.new.items }
    ensures filled_below { AreFilled (tree_of constraint.now nodes.now) (depth + 1) below.new.items }
    ensures spans_after { AreSpans (tree_of constraint.now nodes.now) depth candidates.new }
    ensures below { (x : ℕ) (ending : List ℕ) → Fits (tree_of constraint.now nodes.now) (depth + 1) below.new.items x ending ↔ Fits (tree_of constraint.now nodes.now) depth candidates.old x (label ∷ ending) }
    ensures after { (x other : ℕ) (ending : List ℕ) → Fits (tree_of constraint.now nodes.now) depth candidates.new x (other ∷ ending) ↔ ((label < other) × Fits (tree_of constraint.now nodes.now) depth candidates.old x (other ∷ ending)) }
{
    for place in 0..candidates.len() {
        let candidate = candidates[place];
        if is_next(constraint, nodes, depth, candidate.span, label) {
            let parts = parted(constraint, nodes, depth, candidate.span, label);
            below.push(Candidate {
                label: candidate.label,
                span: parts.below,
            });
            candidates[place] = Candidate {
                label: candidate.label,
                span: parts.after,
            };
        }
    }
}

// What is behind the least label that comes next and what comes after it, where the label becomes a candidate unless it is below the
// bound.
fn open(
    constraint: &Constraint,
    nodes: &[Node],
    beginning: &[u8],
    bound: u8,
    least: u8,
    rest: Branches,
    label: u8,
    waiting: &mut ArrayVec<Candidate, 128>,
) -> Parts
    requires depth { length beginning.now + 1 < constraint.now.degree }
    requires bounded { IsBound beginning.now bound }
    requires bound { bound ≤ MAX_LABELS }
    requires label { label < MAX_LABELS }
    requires waiting { IsWaiting (tree_of constraint.now nodes.now) beginning.now bound least rest waiting.old.items }
    requires next { IsNext (tree_of constraint.now nodes.now) (length beginning.now) rest waiting.old.items label }
    ensures below { IsSpan (tree_of constraint.now nodes.now) (length beginning.now + 1) result.below }
    ensures after { IsSpan (tree_of constraint.now nodes.now) (length beginning.now) result.after }
    ensures behind { (ending : List ℕ) → IsEnding (tree_of constraint.now nodes.now) (length beginning.now + 1) result.below ending ↔ Contains constraint.now.configs (beginning.now ++ label ∷ ending) }
    ensures later { (other : ℕ) (ending : List ℕ) → IsEnding (tree_of constraint.now nodes.now) (length beginning.now) result.after (other ∷ ending) ↔ ((label + 1 ≤ other) × Contains constraint.now.configs (beginning.now ++ other ∷ ending)) }
    ensures few { length waiting.new.items ≤ max bound (label + 1) }
    ensures spans { AreSpans (tree_of constraint.now nodes.now) (length beginning.now + 1) waiting.new.items }
    ensures opened { IsOpened (tree_of constraint.now nodes.now) beginning.now bound label waiting.new.items }
{
    let _degree = constraint.degree();
    let depth = beginning.len();
    if !is_next(constraint, nodes, depth, rest, label) {
        return Parts {
            below: Branches::none(),
            after: rest,
        };
    }
    let parts = parted(constraint, nodes, depth, rest, label);
    if bound <= label {
        waiting.push(Candidate {
            label,
            span: parts.below,
        });
    }
    parts
}

// The labels of the candidates.
fn labels_of(candidates: &[Candidate]) -> LabelSet
    requires { (candidate : Candidate) → Contains candidates.now candidate → candidate.label < MAX_LABELS }
    ensures { (x : ℕ) → IsIn x result ↔ ((candidate : Candidate) × Contains candidates.now candidate × (candidate.label ≡ x)) }
{
    let mut set = LabelSet::empty();
    for candidate in candidates {
        set = set.insert(candidate.label);
    }
    set
}

// The labels that come next in the span.
fn next_labels(constraint: &Constraint, nodes: &[Node], depth: usize, span: Branches) -> LabelSet
    requires depth { depth < constraint.now.degree }
    requires span { IsSpan (tree_of constraint.now nodes.now) depth span }
    ensures { (x : ℕ) → IsIn x result ↔ ((ending : List ℕ) × IsEnding (tree_of constraint.now nodes.now) depth span (x ∷ ending)) }
{
    let _degree = constraint.degree();
    let mut set = LabelSet::empty();
    let mut rest = span;
    let mut least = 0;
    while least < MAX_LABELS {
        let Some(label) = first_label(constraint, nodes, depth, rest) else {
            return set;
        };
        set = set.insert(label);
        rest = parted(constraint, nodes, depth, rest, label).after;
        least = label + 1;
    }
    set
}

// The labels that complete the rest.
fn completions(
    constraint: &Constraint,
    nodes: &[Node],
    rest: &[u8],
    bound: u8,
    main: Branches,
    candidates: &[Candidate],
) -> LabelSet
    requires visit { IsVisit (tree_of constraint.now nodes.now) rest.now bound main candidates.now }
    requires rest { length rest.now + 1 ≡ constraint.now.degree }
    requires bound { bound ≤ MAX_LABELS }
    ensures { (x : ℕ) → IsIn x result ↔ Completes constraint.now rest.now x }
{
    let _degree = constraint.degree();
    labels_of(candidates).union(next_labels(constraint, nodes, rest.len(), main))
}

// Each set of a label of the completions keeps the completions alone.
fn narrow(ups: &mut [LabelSet], completions: LabelSet)
    requires few { length ups.old ≤ MAX_LABELS }
    ensures sets { (n : ℕ) → ((a : ℕ) → IsLabelSet n (slice_index_or ups.old a [])) → (a : ℕ) → IsLabelSet n (slice_index_or ups.new a []) }
    ensures each { (a b : ℕ) → a < length ups.old → Contains (slice_index_or ups.new a []) b ↔ (Contains (slice_index_or ups.old a []) b × (IsIn a completions → IsIn b completions)) }
{
    for label in 0..ups.len() {
        if completions.has(label as u8) {
            ups[label] = ups[label].meet(completions);
        }
    }
}

// The candidates in a vector.
fn copied(candidates: &[Candidate]) -> ArrayVec<Candidate, 128>
    requires { length candidates.now ≤ MAX_LABELS }
    ensures { result.items ≡ candidates.now }
{
    let mut copied = ArrayVec::new();
    for candidate in candidates {
        copied.push(*candidate);
    }
    copied
}

// Whether no set has another label than its own. Rests can't narrow such sets.
fn are_alone(ups: &[LabelSet]) -> bool
    requires { length ups.now ≤ MAX_LABELS }
    ensures { IsTrue result → (a b : ℕ) → a < length ups.now → IsIn b (slice_index_or ups.now a []) → b ≡ a }
{
    for label in 0..ups.len() {
        if !ups[label].remove(label as u8).is_empty() {
            return false;
        }
    }
    true
}

// Visits the rests with this beginning.
fn visit(
    constraint: &Constraint,
    nodes: &[Node],
    beginning: &mut ArrayVec<u8, 6>,
    bound: u8,
    main: Branches,
    candidates: &[Candidate],
    ups: &mut [LabelSet],
)
    requires depth { length beginning.old.items < constraint.now.degree }
    requires visit { IsVisit (tree_of constraint.now nodes.now) beginning.old.items bound main candidates.now }
    requires bound { bound ≤ MAX_LABELS }
    requires few { length ups.old ≤ MAX_LABELS }
    ensures beginning { beginning.new.items ≡ beginning.old.items }
    ensures sets { (n : ℕ) → ((a : ℕ) → IsLabelSet n (slice_index_or ups.old a [])) → (a : ℕ) → IsLabelSet n (slice_index_or ups.new a []) }
    ensures narrowed { IsNarrowed constraint.now beginning.old.items ups.old ups.new }
{
    if are_alone(ups) {
        return;
    }
    let _degree = constraint.degree();
    let depth = beginning.len();
    if depth + 1 == constraint.degree() as usize {
        narrow(
            ups,
            completions(
                constraint,
                nodes,
                beginning.as_slice(),
                bound,
                main,
                candidates,
            ),
        );
        return;
    }
    let mut waiting = copied(candidates);
    let mut below: ArrayVec<Candidate, 128> = ArrayVec::new();
    let mut rest = main;
    let mut least = 0;
    while least < MAX_LABELS {
        let Some(label) = least_label(constraint, nodes, depth, rest, waiting.as_slice()) else {
            return;
        };
        let parts = open(
            constraint,
            nodes,
            beginning.as_slice(),
            bound,
            least,
            rest,
            label,
            &mut waiting,
        );
        below.clear();
        part(
            constraint,
            nodes,
            depth + 1,
            waiting.as_mut_slice(),
            label,
            &mut below,
        );
        beginning.push(label);
        visit(
            constraint,
            nodes,
            beginning,
            label + 1,
            parts.below,
            below.as_slice(),
            ups,
        );
        beginning.pop();
        rest = parts.after;
        least = label + 1;
    }
}

// For each label below the number the set of all of them.
fn whole_sets(labels: u8) -> ArrayVec<LabelSet, 128>
    requires { labels ≤ MAX_LABELS }
    ensures { result.items ≡ map (λ label. count_from 0 labels) (count_from 0 labels) }
{
    let mut all = LabelSet::empty();
    for label in 0..labels {
        all = all.insert(label);
    }
    let mut sets = ArrayVec::new();
    for _label in 0..labels {
        sets.push(all);
    }
    sets
}

/// For each label below the number the set of those that are at least as strong. It walks down the prefix tree and meets each
/// rest of the configurations once, for which it narrows the sets of the labels that complete it. It takes no memory but a frame
/// for each level, and ends as soon as no set has another label than its own.
pub fn up_sets(constraint: &Constraint, labels: u8) -> ArrayVec<LabelSet, 128>
    requires { labels ≤ MAX_LABELS }
    ensures { result.items ≡ map (λ label. up_set constraint.now label labels) (count_from 0 labels) }
{
    let _degree = constraint.degree();
    let mut ups = whole_sets(labels);
    let nodes = constraint.nodes();
    let main = Branches::of(nodes);
    let mut beginning = ArrayVec::new();
    visit(
        constraint,
        nodes,
        &mut beginning,
        0,
        main,
        &[],
        ups.as_mut_slice(),
    );
    ups
}
