//! The nodes of a prefix tree of configurations, in one vector.
ghost use Rattle.re_labels.specs.PrefixTrees.{IsInnerPlace, IsPrefixTree, IsTable, IsTree, configs_of, first_of, held_configs, leaf_configs, leaves_of, node_at, prefix};
ghost use Rattle.re_labels.specs.TreeGrowth.{IsChildBefore, IsFound, IsLastLeaf, IsLonger, linked, places_up, way_nodes, with_first, with_leaves};
ghost use Rattle.re_labels.specs.Configs.{image_at, image_of, sorted};
ghost use Rattle.re_labels.specs.Lists.{IsRising};
ghost use Rattle.re_labels.specs.Constraints.{with_each};
ghost use Rattle.re_labels.specs.ListSets.{list_set, with_list};
ghost use Rattle.re_labels.specs.Sets.{IsLabelSet, has};
ghost use Rattle.std.specs.List.{AllByRecursion, list_any};
ghost use Rattle.std.specs.List.Sorted.{IsPermutation};
ghost use Rattle.std.specs.Vec.{vec_capacity, vec_len};
ghost use Rattle.re_labels.specs.Renumbered.{node_image};
ghost use Rattle.re_labels.specs.TreeWalks.{IsMissing, IsWalked, precedes};
ghost use Rattle.std.specs.Prelude.{◌≡◌, ◌<◌, ◌≤◌, ◌+◌, ◌^◌, ◌==◌, ◌∷◌, ◌++◌, [], ℕ, Contains, List, IfOk, IfSome, IsTrue, MatchOption, MatchResult, OnErr, OnOk, ◌↔◌, true, count_by, map, length, slice_index_or};

use crate::{Config, InsertFault, LabelSet, MAX_CONFIGURATIONS, MAX_LABELS, NoMemory};
use std::alloc::Global;

/// What lies below a node: an inner node names its first child and counts the leaves below it, and a leaf holds a configuration.
#[derive(Drop)]
pub enum Kind {
    Inner { first: u32, leaves: u32 },
    Leaf(Config),
}

/// A node: the label on its way down, the place of its next sibling, which has a higher label, and that of its parent. The root
/// lies at place 0, and no node names it as a sibling or a child, so 0 stands where there is none.
#[derive(Drop)]
pub struct Node {
    pub(crate) label: u8,
    pub(crate) next: u32,
    pub(crate) parent: u32,
    pub(crate) kind: Kind,
}

/// Where the last way down a tree went: a place below the root for each label. It says where a walk along siblings may begin, and
/// makes it short where ways are alike. Nothing is asked of it: it may be of another tree, or of none.
#[derive(Clone, Copy, Debug, Default)]
pub struct Trail {
    places: [usize; 6],
}

impl Trail {
    // The place at this depth.
    fn at(&self, depth: usize) -> usize
        requires { depth < 6 }
    {
        self.places[depth]
    }

    // The place at this depth is this one then.
    fn note(&mut self, depth: usize, place: usize)
        requires { depth < 6 }
    {
        self.places[depth] = place;
    }
}

/// The place of the first child, or 0.
pub fn first_of(kind: &Kind) -> u32
    ensures { result ≡ first_of kind.now }
{
    match kind {
        Kind::Inner { first, .. } => *first,
        Kind::Leaf(_) => 0,
    }
}

fn leaves_of(kind: &Kind) -> u32
    ensures { result ≡ leaves_of kind.now }
{
    match kind {
        Kind::Inner { leaves, .. } => *leaves,
        Kind::Leaf(_) => 1,
    }
}

/// Between which children a label is missing: the last one with a lower label, and the first one with a higher label, or 0.
#[derive(Clone, Copy)]
pub struct Between {
    before: usize,
    after: usize,
}

// Where a walk along the children of the parent to this label begins: behind the node nearby, if that is a child with a lower
// label, and else at the first child.
fn start_of(nodes: &[Node], parent: usize, label: u8, near: usize) -> Between
    requires { IsInnerPlace nodes.now parent }
    ensures before { result.before < length nodes.now }
    ensures after { result.after < length nodes.now }
    ensures walked { (degree : ℕ) (key : ℕ → List ℕ) → IsTree degree nodes.now (held_configs nodes.now) key → length (key parent) < degree → IsWalked nodes.now key (key parent) label result.before result.after }
{
    if near != 0 && near < nodes.len() {
        let node = &nodes[near];
        if node.parent as usize == parent && node.label < label {
            return Between {
                before: near,
                after: node.next as usize,
            };
        }
    }
    Between {
        before: 0,
        after: first_of(&nodes[parent].kind) as usize,
    }
}

// Whether the node nearby is the child with this label.
fn is_child(nodes: &[Node], parent: usize, label: u8, near: usize) -> bool
    ensures { result ≡ true → (near < length nodes.now) × (0 < near) × ((node_at nodes.now near).parent ≡ parent) × ((node_at nodes.now near).label ≡ label) }
{
    if near == 0 {
        return false;
    }
    match nodes.get(near) {
        Some(node) => node.parent as usize == parent && node.label == label,
        None => false,
    }
}

/// The child with this label, or where it is missing. It may be nearby.
fn child_of(nodes: &[Node], parent: usize, label: u8, near: usize) -> Result<usize, Between>
    requires { IsInnerPlace nodes.now parent }
    ensures { MatchResult result
        (λ place. (place < length nodes.now) × ((degree : ℕ) (key : ℕ → List ℕ) → IsTree degree nodes.now (held_configs nodes.now) key → length (key parent) < degree → key place ≡ label ∷ key parent))
        (λ between. (between.before < length nodes.now) × (between.after < length nodes.now)
        × ((degree : ℕ) (key : ℕ → List ℕ) → IsTree degree nodes.now (held_configs nodes.now) key → length (key parent) < degree → IsMissing nodes.now key (key parent) label between.before between.after)) }
{
    if is_child(nodes, parent, label, near) {
        return Ok(near);
    }
    let start = start_of(nodes, parent, label, near);
    let mut before = start.before;
    let mut at = start.after;
    while at != 0 {
        let here = nodes[at].label;
        if here == label {
            return Ok(at);
        }
        if label < here {
            return Err(Between { before, after: at });
        }
        before = at;
        at = nodes[at].next as usize;
    }
    Err(Between { before, after: 0 })
}

/// Where the way of a configuration leaves the tree: behind how many of its labels, at which place, and between which children.
#[derive(Clone, Copy)]
pub struct Gap {
    depth: usize,
    parent: usize,
    between: Between,
}

/// A place on the way of a configuration, behind so many of its labels.
#[derive(Clone, Copy)]
pub struct Spot {
    depth: usize,
    place: usize,
}

// How many labels in front are the same.
fn shared(labels: &[u8], others: &[u8]) -> usize
    requires { length labels.now ≤ length others.now }
    ensures most { result ≤ length labels.now }
    ensures same { prefix labels.now result ≡ prefix others.now result }
{
    for place in 0..labels.len() {
        if labels[place] != others[place] {
            return place;
        }
    }
    labels.len()
}

// The place so many steps up from this one.
fn up_from(nodes: &[Node], start: usize, count: usize) -> usize
    requires { (j : ℕ) → j < count + 1 → slice_index_or (places_up nodes.now start (count + 1)) j 0 < length nodes.now }
    ensures { result ≡ slice_index_or (places_up nodes.now start (count + 1)) count 0 }
{
    let mut at = start;
    for _level in 0..count {
        at = nodes[at].parent as usize;
    }
    at
}

// Where the way of the configuration leaves that of the leaf nearby: the root, where there is no leaf nearby.
fn meeting_of(nodes: &[Node], config: &Config, near: usize) -> Spot
    requires tree { IsPrefixTree (length config.now) nodes.now }
    requires filled { 0 < length nodes.now }
    ensures within { result.place < length nodes.now }
    ensures depth { result.depth ≤ length config.now }
    ensures on_way { (key : ℕ → List ℕ) → IsTree (length config.now) nodes.now (held_configs nodes.now) key → key result.place ≡ prefix config.now result.depth }
{
    let root = Spot { depth: 0, place: 0 };
    if near >= nodes.len() {
        return root;
    }
    let Kind::Leaf(last) = &nodes[near].kind else {
        return root;
    };
    let labels = config.labels();
    let depth = shared(labels, last.labels());
    Spot {
        depth,
        place: up_from(nodes, near, labels.len() - depth),
    }
}

/// Goes down the way of the configuration from a place on it. None where it leads to a leaf. The trail says where to look first,
/// and is the way then, as far as it went.
pub fn gap_of(nodes: &[Node], config: &Config, from: Spot, trail: &mut Trail) -> Option<Gap>
    requires tree { IsPrefixTree (length config.now) nodes.now }
    requires within { from.place < length nodes.now }
    requires depth { from.depth ≤ length config.now }
    requires on_way { (key : ℕ → List ℕ) → IsTree (length config.now) nodes.now (held_configs nodes.now) key → key from.place ≡ prefix config.now from.depth }
    ensures { MatchOption result
        (Contains (held_configs nodes.now) config.now)
        (λ gap. IsFound nodes.now config.now gap.depth gap.parent gap.between.before gap.between.after) }
{
    let labels = config.labels();
    let mut place = from.place;
    for depth in from.depth..labels.len() {
        match child_of(nodes, place, labels[depth], trail.at(depth)) {
            Ok(child) => {
                trail.note(depth, child);
                place = child;
            }
            Err(between) => {
                return Some(Gap {
                    depth,
                    parent: place,
                    between,
                });
            }
        }
    }
    None
}

/// The new nodes on the way from a gap to a leaf with the configuration; the topmost is a sibling before `after`.
fn add_way(nodes: &mut Vec<Node>, config: &Config, depth: usize, parent: usize, after: usize)
    requires inside { depth < length config.now }
    requires room { vec_len nodes.old + length config.now ≤ vec_capacity nodes.old }
    requires few { vec_len nodes.old + length config.now < 2 ^ 32 }
    requires parent { parent < vec_len nodes.old }
    requires after { after < vec_len nodes.old }
    ensures items { nodes.new.items ≡ nodes.old.items ++ way_nodes config.now depth parent after (length nodes.old.items) }
    ensures capacity { vec_capacity nodes.new ≡ vec_capacity nodes.old }
{
    let last = config.labels().len() - 1;
    let mut next = after as u32;
    let mut above = parent as u32;
    for level in depth..last {
        let label = config.labels()[level];
        let first = nodes.len() as u32 + 1;
        nodes.push_reserved(Node {
            label,
            next,
            parent: above,
            kind: Kind::Inner { first, leaves: 1 },
        });
        above = first - 1;
        next = 0;
    }
    let label = config.labels()[last];
    nodes.push_reserved(Node {
        label,
        next,
        parent: above,
        kind: Kind::Leaf(config.copy()),
    });
}

fn set_first(kind: &mut Kind, other: u32)
    ensures { kind.new ≡ with_first kind.old other }
{
    if let Kind::Inner { first, .. } = kind {
        *first = other;
    }
}

// One leaf more.
fn count_leaf(kind: &mut Kind)
    requires { leaves_of kind.old + 1 < 2 ^ 32 }
    ensures { kind.new ≡ with_leaves kind.old 1 }
{
    if let Kind::Inner { leaves, .. } = kind {
        *leaves += 1;
    }
}

/// Links the child at `start` behind its sibling `before`, or as the first one of its parent where that is 0.
fn link(nodes: &mut [Node], parent: usize, before: usize, start: u32)
    requires parent { parent < length nodes.old }
    requires before { before < length nodes.old }
    ensures { nodes.new ≡ linked nodes.old parent before start }
{
    if before == 0 {
        set_first(&mut nodes[parent].kind, start);
    } else {
        nodes[before].next = start;
    }
}

/// Counts one leaf more at each of so many places, from this one up to parents.
fn count_up(nodes: &mut [Node], start: usize, count: usize)
    requires within { (j : ℕ) → j < count → slice_index_or (places_up nodes.old start count) j 0 < length nodes.old }
    requires fits { (q : ℕ) → leaves_of (node_at nodes.old q).kind + count < 2 ^ 32 }
    ensures label { (q : ℕ) → (node_at nodes.new q).label ≡ (node_at nodes.old q).label }
    ensures next { (q : ℕ) → (node_at nodes.new q).next ≡ (node_at nodes.old q).next }
    ensures parent { (q : ℕ) → (node_at nodes.new q).parent ≡ (node_at nodes.old q).parent }
    ensures kind { (q : ℕ) → (node_at nodes.new q).kind ≡ with_leaves (node_at nodes.old q).kind (count_by (λ p. p == q) (places_up nodes.old start count)) }
{
    let mut at = start;
    for _level in 0..count {
        let up = nodes[at].parent as usize;
        count_leaf(&mut nodes[at].kind);
        at = up;
    }
}

// Links the way of a configuration, whose nodes lie behind those of the tree from `start` on, into it, and counts the leaf at the places
// above it.
fn join_way(nodes: &mut Vec<Node>, config: &Config, gap: Gap, start: u32)
    requires { (old : List Node) × IsLonger MAX_CONFIGURATIONS old nodes.old.items config.now gap.depth gap.parent gap.between.before gap.between.after start }
    ensures table { IsTable (length config.now) MAX_CONFIGURATIONS nodes.new.items }
    ensures held { (old : List Node) → IsLonger MAX_CONFIGURATIONS old nodes.old.items config.now gap.depth gap.parent gap.between.before gap.between.after start → held_configs nodes.new.items ≡ with_list (held_configs old) config.now }
    ensures len { vec_len nodes.new ≡ vec_len nodes.old }
    ensures capacity { vec_capacity nodes.new ≡ vec_capacity nodes.old }
    ensures leaf { (old : List Node) → IsLonger MAX_CONFIGURATIONS old nodes.old.items config.now gap.depth gap.parent gap.between.before gap.between.after start → gap.depth + 1 ≡ length config.now → gap.between.after ≡ 0 → IsLastLeaf nodes.new.items config.now start }
{
    let _labels = config.labels();
    link(nodes.as_mut_slice(), gap.parent, gap.between.before, start);
    count_up(nodes.as_mut_slice(), gap.parent, gap.depth + 1);
}

/// Puts the configuration in at its gap.
fn grow(nodes: &mut Vec<Node>, config: &Config, gap: Gap)
    requires table { IsTable (length config.now) MAX_CONFIGURATIONS nodes.old.items }
    requires found { IsFound nodes.old.items config.now gap.depth gap.parent gap.between.before gap.between.after }
    requires room { vec_len nodes.old + length config.now ≤ vec_capacity nodes.old }
    requires few { length (held_configs nodes.old.items) < MAX_CONFIGURATIONS }
    ensures table { IsTable (length config.now) MAX_CONFIGURATIONS nodes.new.items }
    ensures held { held_configs nodes.new.items ≡ with_list (held_configs nodes.old.items) config.now }
    ensures len { vec_len nodes.new + gap.depth ≡ vec_len nodes.old + length config.now }
{
    let _labels = config.labels();
    let start = nodes.len() as u32;
    add_way(nodes, config, gap.depth, gap.parent, gap.between.after);
    join_way(nodes, config, gap, start);
}

// Puts the configuration in behind the leaf nearby, the last child, and gives its place: its leaf alone is new, and the last node.
fn grow_behind(nodes: &mut Vec<Node>, config: &Config, last: usize, near: usize) -> usize
    requires last { last + 1 ≡ length config.now }
    requires table { IsTable (length config.now) MAX_CONFIGURATIONS nodes.old.items }
    requires found { IsFound nodes.old.items config.now last (node_at nodes.old.items near).parent near 0 }
    requires room { vec_len nodes.old < vec_capacity nodes.old }
    requires few { length (held_configs nodes.old.items) < MAX_CONFIGURATIONS }
    ensures table { IsTable (length config.now) MAX_CONFIGURATIONS nodes.new.items }
    ensures held { held_configs nodes.new.items ≡ with_list (held_configs nodes.old.items) config.now }
    ensures len { vec_len nodes.new ≡ vec_len nodes.old + 1 }
    ensures capacity { vec_capacity nodes.new ≡ vec_capacity nodes.old }
    ensures leaf { IsLastLeaf nodes.new.items config.now result }
{
    let parent = nodes[near].parent;
    let start = nodes.len();
    nodes.push_reserved(Node {
        label: config.labels()[last],
        next: 0,
        parent,
        kind: Kind::Leaf(config.copy()),
    });
    let gap = Gap {
        depth: last,
        parent: parent as usize,
        between: Between {
            before: near,
            after: 0,
        },
    };
    join_way(nodes, config, gap, start as u32);
    start
}

/// The child below which the leaf with this number lies, where leaves are counted below the parent, and its number there.
fn child_with(nodes: &[Node], parent: usize, number: usize) -> (usize, usize)
    requires inner { IsInnerPlace nodes.now parent }
    requires within { number < leaves_of (node_at nodes.now parent).kind }
    ensures place { result.0 < length nodes.now }
    ensures within { result.1 < leaves_of (node_at nodes.now result.0).kind }
    ensures key { (degree : ℕ) (key : ℕ → List ℕ) → IsTree degree nodes.now (held_configs nodes.now) key → length (key parent) < degree → key result.0 ≡ (node_at nodes.now result.0).label ∷ key parent }
    ensures before { (degree : ℕ) (key : ℕ → List ℕ) → IsTree degree nodes.now (held_configs nodes.now) key → length (key parent) < degree
        → result.1 + count_by (precedes (key result.0)) (held_configs nodes.now) ≡ number + count_by (precedes (key parent)) (held_configs nodes.now) }
{
    let mut rest = number;
    let mut at = first_of(&nodes[parent].kind) as usize;
    loop {
        let below = leaves_of(&nodes[at].kind) as usize;
        if rest < below {
            return (at, rest);
        }
        rest -= below;
        at = nodes[at].next as usize;
    }
}

/// The configuration of the leaf with this number.
pub fn leaf_at(nodes: &[Node], degree: u8, number: usize) -> &Config
    requires tree { IsPrefixTree degree nodes.now }
    requires within { number < length (held_configs nodes.now) }
    ensures { result.now ≡ slice_index_or (held_configs nodes.now) number [] }
{
    let mut place = 0;
    let mut rest = number;
    for _level in 0..degree {
        (place, rest) = child_with(nodes, place, rest);
    }
    match &nodes[place].kind {
        Kind::Leaf(config) => config,
        Kind::Inner { .. } => unreachable!(),
    }
}

/// How many leaves there are.
pub fn leaf_count(nodes: &[Node]) -> usize
    requires { (degree : ℕ) × IsPrefixTree degree nodes.now }
    ensures { result ≡ length (held_configs nodes.now) }
{
    match nodes.first() {
        Some(root) => leaves_of(&root.kind) as usize,
        None => 0,
    }
}

/// The labels of the configurations, which are those of the nodes below the root.
pub fn labels_of(nodes: &[Node]) -> LabelSet
    requires { (degree : ℕ) × IsPrefixTree degree nodes.now }
    ensures { (label : ℕ) → has result label ≡ list_any (λ config. has config label) (held_configs nodes.now) }
{
    let mut labels = LabelSet::empty();
    for place in 1..nodes.len() {
        labels = labels.insert(nodes[place].label);
    }
    labels
}

/// The root, where there is no node yet, with room for a whole way below it.
pub fn make_root(nodes: &mut Vec<Node>, degree: u8) -> Result<(), NoMemory>
    requires degree { 0 < degree }
    requires table { IsTable degree MAX_CONFIGURATIONS nodes.old.items }
    ensures table { IsTable degree MAX_CONFIGURATIONS nodes.new.items }
    ensures held { held_configs nodes.new.items ≡ held_configs nodes.old.items }
    ensures filled { OnOk result (0 < length nodes.new.items) }
    ensures empty { OnErr result (held_configs nodes.old.items ≡ []) }
{
    if nodes.is_empty() {
        nodes.reserve(degree as usize + 1)?;
        nodes.push_reserved(Node {
            label: 0,
            next: 0,
            parent: 0,
            kind: Kind::Inner {
                first: 0,
                leaves: 0,
            },
        });
    }
    Ok(())
}

// The trail of a way that goes on with new nodes, which lie from this place on.
fn note_new(trail: &mut Trail, depth: usize, labels: usize, start: usize)
    requires some { 0 < labels }
    requires most { labels ≤ 6 }
{
    let mut place = start;
    for level in depth..labels - 1 {
        trail.note(level, place);
        place = place.wrapping_add(1);
    }
    trail.note(labels - 1, place);
}

// The gap behind the leaf nearby, where the configuration differs from it in the last label alone, which is higher, and there is
// no sibling behind it. Where configurations come in ascending order, that is what most of them find.
fn gap_behind(nodes: &[Node], config: &Config, near: usize) -> Option<Gap>
    requires { IsPrefixTree (length config.now) nodes.now }
    ensures { IfSome result (λ gap. IsFound nodes.now config.now gap.depth gap.parent gap.between.before gap.between.after) }
{
    if near >= nodes.len() {
        return None;
    }
    let node = &nodes[near];
    let Kind::Leaf(other) = &node.kind else {
        return None;
    };
    let labels = config.labels();
    let last = labels.len() - 1;
    if node.next != 0 || node.label >= labels[last] || shared(labels, other.labels()) != last {
        return None;
    }
    Some(Gap {
        depth: last,
        parent: node.parent as usize,
        between: Between {
            before: near,
            after: 0,
        },
    })
}

// The gap of the configuration, or None where it is held. The trail, which begins as the way of a leaf nearby, is its own way then, as
// far as it went down.
fn gap_near(nodes: &[Node], config: &Config, trail: &mut Trail) -> Option<Gap>
    requires tree { IsPrefixTree (length config.now) nodes.now }
    requires filled { 0 < length nodes.now }
    ensures { MatchOption result
        (Contains (held_configs nodes.now) config.now)
        (λ gap. IsFound nodes.now config.now gap.depth gap.parent gap.between.before gap.between.after) }
{
    let near = trail.at(config.labels().len() - 1);
    if let Some(gap) = gap_behind(nodes, config, near) {
        return Some(gap);
    }
    let from = meeting_of(nodes, config, near);
    gap_of(nodes, config, from, trail)
}

/// Puts the configuration in. It makes room for the whole way first, so that want of memory changes nothing. The trail is its way
/// then.
pub fn put(nodes: &mut Vec<Node>, config: &Config, trail: &mut Trail) -> Result<bool, InsertFault>
    requires table { IsTable (length config.now) MAX_CONFIGURATIONS nodes.old.items }
    requires filled { 0 < length nodes.old.items }
    ensures table { IsTable (length config.now) MAX_CONFIGURATIONS nodes.new.items }
    ensures filled { 0 < length nodes.new.items }
    ensures held { OnOk result (held_configs nodes.new.items ≡ with_list (held_configs nodes.old.items) config.now) }
    ensures is_new { IfOk result (λ is_new. IsTrue is_new ↔ (Contains (held_configs nodes.old.items) config.now → ⊥)) }
    ensures full { (result ≡ Err InsertFault.TooManyConfigurations) ↔ ((length (held_configs nodes.old.items) ≡ MAX_CONFIGURATIONS) × (Contains (held_configs nodes.old.items) config.now → ⊥)) }
    ensures err { OnErr result (held_configs nodes.new.items ≡ held_configs nodes.old.items) }
{
    let labels = config.labels().len();
    let gap = match gap_near(nodes.as_slice(), config, trail) {
        None => return Ok(false),
        Some(gap) => gap,
    };
    if leaf_count(nodes.as_slice()) == MAX_CONFIGURATIONS {
        return Err(InsertFault::TooManyConfigurations);
    }
    if let Err(_) = nodes.reserve(labels) {
        return Err(InsertFault::NoMemory);
    }
    note_new(trail, gap.depth, labels, nodes.len());
    grow(nodes, config, gap);
    Ok(true)
}

// The configuration of these labels and one more. Each count of labels has its own arm, so that nothing goes over them at run time.
fn config_with(labels: &[u8], last: u8) -> Config
    requires some { 1 ≤ length labels.now }
    requires five { length labels.now ≤ 5 }
    requires below { AllByRecursion (λ label. label < MAX_LABELS) labels.now }
    requires last { last < MAX_LABELS }
    ensures { result ≡ sorted (labels.now ++ last ∷ []) }
{
    match labels {
        [a] => Config::with_last(&[*a], last),
        [a, b] => Config::with_last(&[*a, *b], last),
        [a, b, c] => Config::with_last(&[*a, *b, *c], last),
        [a, b, c, d] => Config::with_last(&[*a, *b, *c, *d], last),
        _ => Config::with_last(labels, last),
    }
}

// Whether the leaf nearby is that of these labels and a lower one than the least of the set, and no sibling comes behind it. Those with
// a label of the set come right behind it then.
fn goes_on(nodes: &[Node], labels: &[u8], least: u8, near: usize) -> bool
    requires tree { IsPrefixTree (length labels.now + 1) nodes.now }
    requires some { 1 ≤ length labels.now }
    ensures { result ≡ true → IsChildBefore nodes.now labels.now near least × IsRising (λ x y. x ≤ y) (labels.now ++ least ∷ []) }
{
    if near >= nodes.len() {
        return false;
    }
    let node = &nodes[near];
    let Kind::Leaf(other) = &node.kind else {
        return false;
    };
    if node.next != 0
        || node.label >= least
        || labels[labels.len() - 1] > least
        || shared(labels, other.labels()) != labels.len()
    {
        return false;
    }
    true
}

// Puts in the configurations of these labels and one of the set behind the leaf nearby, and gives the place of the last leaf.
fn grow_run(nodes: &mut Vec<Node>, labels: &[u8], lasts: LabelSet, near: usize) -> usize
    requires some { 1 ≤ length labels.now }
    requires five { length labels.now ≤ 5 }
    requires below { AllByRecursion (λ label. label < MAX_LABELS) labels.now }
    requires set { IsLabelSet MAX_LABELS lasts }
    requires table { IsTable (length labels.now + 1) MAX_CONFIGURATIONS nodes.old.items }
    requires behind { AllByRecursion (λ last. IsChildBefore nodes.old.items labels.now near last × IsRising (λ x y. x ≤ y) (labels.now ++ last ∷ [])) lasts }
    requires few { length (held_configs nodes.old.items) + length lasts ≤ MAX_CONFIGURATIONS }
    requires room { vec_len nodes.old + length lasts + 6 ≤ vec_capacity nodes.old }
    ensures table { IsTable (length labels.now + 1) MAX_CONFIGURATIONS nodes.new.items }
    ensures held { held_configs nodes.new.items ≡ list_set (held_configs nodes.old.items ++ with_each labels.now lasts) }
{
    let mut left = lasts;
    let mut at = near;
    'run: while let Some(last) = left.first() {
        at = grow_behind(nodes, &config_with(labels, last), labels.len(), at);
        left = left.remove(last);
    }
    at
}

/// Puts in the configurations of these labels and one of the set, in ascending order of that. The trail is the way of the last one then.
/// Where they come behind the last child of a node, the way is looked for once. After a refusal those of some first labels of the set
/// may have been put in.
pub fn put_each(
    nodes: &mut Vec<Node>,
    labels: &[u8],
    lasts: LabelSet,
    trail: &mut Trail,
) -> Result<(), InsertFault>
    requires some { 1 ≤ length labels.now }
    requires five { length labels.now ≤ 5 }
    requires below { AllByRecursion (λ label. label < MAX_LABELS) labels.now }
    requires table { IsTable (length labels.now + 1) MAX_CONFIGURATIONS nodes.old.items }
    requires filled { 0 < length nodes.old.items }
    ensures table { IsTable (length labels.now + 1) MAX_CONFIGURATIONS nodes.new.items }
    ensures held { OnOk result (held_configs nodes.new.items ≡ list_set (held_configs nodes.old.items ++ with_each labels.now lasts)) }
    ensures full { (result ≡ Err InsertFault.TooManyConfigurations) → MAX_CONFIGURATIONS < length (list_set (held_configs nodes.old.items ++ with_each labels.now lasts)) }
    ensures err { OnErr result ((begun rest : List ℕ) × (begun ++ rest ≡ lasts) × (held_configs nodes.new.items ≡ list_set (held_configs nodes.old.items ++ with_each labels.now begun))) }
{
    let _count = lasts.count();
    let mut left = lasts;
    'each: while let Some(last) = left.first() {
        let near = trail.at(labels.len());
        let count = left.count() as usize;
        if leaf_count(nodes.as_slice()) + count <= MAX_CONFIGURATIONS
            && goes_on(nodes.as_slice(), labels, last, near)
        {
            if let Err(_) = nodes.reserve(count + 6) {
                return Err(InsertFault::NoMemory);
            }
            trail.note(labels.len(), grow_run(nodes, labels, left, near));
            return Ok(());
        }
        put(nodes, &config_with(labels, last), trail)?;
        left = left.remove(last);
    }
    Ok(())
}

/// The same node.
pub fn copied(node: &Node) -> Node
    ensures { result ≡ node.now }
{
    let kind = match &node.kind {
        Kind::Inner { first, leaves } => Kind::Inner {
            first: *first,
            leaves: *leaves,
        },
        Kind::Leaf(config) => Kind::Leaf(config.copy()),
    };
    Node {
        label: node.label,
        next: node.next,
        parent: node.parent,
        kind,
    }
}

/// Whether the configuration is at a leaf. The trail says where to look first, and is its way then, as far as it went.
pub fn is_held(nodes: &[Node], config: &Config, trail: &mut Trail) -> bool
    requires { IsPrefixTree (length config.now) nodes.now }
    ensures { IsTrue result ↔ Contains (held_configs nodes.now) config.now }
{
    if nodes.is_empty() {
        return false;
    }
    let root = Spot { depth: 0, place: 0 };
    match gap_of(nodes, config, root, trail) {
        None => true,
        Some(_) => false,
    }
}

// The image of a label, or 0 where it has none.
fn image_of_label(images: &[u8], label: u8) -> u8
    ensures { result ≡ image_at images.now label }
{
    match images.get(label as usize) {
        Some(image) => *image,
        None => 0,
    }
}

// The node with the images of its labels.
fn renumber_node(node: &mut Node, images: &[u8])
    requires known { AllByRecursion (AllByRecursion (λ label. label < length images.now)) (configs_of node.old.kind) }
    requires below { AllByRecursion (λ image. image < MAX_LABELS) images.now }
    ensures { node.new ≡ node_image images.now node.old }
{
    node.label = image_of_label(images, node.label);
    if let Kind::Leaf(config) = &mut node.kind {
        *config = config.image(images);
    }
}

/// Each node with the images of its labels, in place.
pub fn renumber_nodes(nodes: &mut [Node], images: &[u8])
    requires known { AllByRecursion (AllByRecursion (λ label. label < length images.now)) (leaf_configs nodes.old) }
    requires below { AllByRecursion (λ image. image < MAX_LABELS) images.now }
    ensures { nodes.new ≡ map (node_image images.now) nodes.old }
{
    for place in 0..nodes.len() {
        renumber_node(&mut nodes[place], images);
    }
}

// Whether the last one comes before the first one.
fn is_falling(all: &[Config]) -> bool {
    match all {
        [first, .., last] => last < first,
        _ => false,
    }
}

/// The images of the configurations in the order of their leaves, turned where that falls: so most come after those in front of
/// them, which a tree takes soonest when they are put into it one after another.
pub fn leaf_images(alloc: Global, nodes: &[Node], images: &[u8]) -> Result<Vec<Config>, NoMemory>
    requires known { AllByRecursion (AllByRecursion (λ label. label < length images.now)) (leaf_configs nodes.now) }
    requires below { AllByRecursion (λ image. image < MAX_LABELS) images.now }
    ensures { IfOk result (λ all. IsPermutation (map (image_of images.now) (leaf_configs nodes.now)) all.items) }
{
    let mut all = Vec::new(alloc);
    for node in nodes {
        if let Kind::Leaf(config) = &node.kind {
            all.push(config.image(images))?;
        }
    }
    if is_falling(all.as_slice()) {
        all.as_mut_slice().reverse();
    }
    Ok(all)
}
