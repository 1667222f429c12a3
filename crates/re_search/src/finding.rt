//! Searches for bounds.
ghost use Rattle.re_cert.specs.Bounds.{is_bound, is_fixed};
ghost use Rattle.re_cert.specs.declared.certificate.TheConstants.{MAX_STEPS};
ghost use Rattle.re_search.specs.Searches.{Answers, FindsSteps, FindsTrue, FindsValid};
ghost use Rattle.re_search.specs.Walking.{least_depth, node_at};
ghost use Rattle.re_search.specs.Nodes.{way_back};
ghost use Rattle.re_search.specs.Paths.{bound_of, pairs_of};
ghost use Rattle.std.specs.Prelude.{◌≡◌, ◌≤◌, IfOk, MatchOption, None, Some, if◌then◌else◌, length, map, true};

use crate::derivations::Derivations;
use crate::returning::{Way, way_back};
use crate::types::{FindFault, Search};
use crate::walking::{Count, Tree, Walked, walk};
use re_cert::{Certificate, Kind, Step, has_lower_steps};
use re_check::problems;
use re_labels::NoMemory;
use re_problem::Problem;
use std::alloc::Global;

// Each label with its image.
fn pairs_of(alloc: Global, images: &[u8]) -> Result<Vec<(u8, u8)>, NoMemory>
    requires { length images.now ≤ MAX_STEPS }
    ensures { IfOk result (λ pairs. pairs.items ≡ pairs_of 0 images.now) }
{
    let mut pairs = Vec::new(alloc);
    for (label, image) in images.iter().enumerate() {
        pairs.push((label as u8, *image))?;
    }
    Ok(pairs)
}

// The way back from the end of the path, in a fixed point.
fn back_of(tree: &Tree, path: &[Step]) -> Option<Way>
    requires { length path.now ≤ MAX_STEPS }
    ensures { MatchOption result ((if is_fixed tree.now.kind then way_back tree.now.first.now (node_at tree.now.first.now path.now 0) else None) ≡ None)
        (λ way. (if is_fixed tree.now.kind then way_back tree.now.first.now (node_at tree.now.first.now path.now 0) else None) ≡ Some (way.number, way.images.items)) }
{
    match tree.kind {
        Kind::Fixed => way_back(tree.first, path),
        Kind::Lower | Kind::Upper => None,
    }
}

/// The certificate of these parts.
pub(crate) fn built(
    tree: &Tree,
    back: u8,
    path: Vec<Step>,
    renaming: Vec<(u8, u8)>,
) -> Result<Certificate, NoMemory>
    requires { is_bound (record { kind = tree.now.kind; back = back; first = tree.now.first.now; steps = path.items; renaming = renaming.items }) ≡ true }
    ensures { IfOk result (λ certificate. certificate ≡ record { kind = tree.now.kind; back = back; first = tree.now.first.now; steps = path.items; renaming = renaming.items }) }
{
    let first = tree.first.copy()?;
    match Certificate::build(tree.kind, back, first, path, renaming) {
        Some(certificate) => Ok(certificate),
        None => unreachable!(),
    }
}

// The certificate of the path.
fn certificate(tree: &Tree, path: Vec<Step>) -> Result<Certificate, NoMemory>
    requires { is_bound (bound_of tree.now.kind tree.now.first.now (node_at tree.now.first.now path.items 0)) ≡ true }
    ensures { IfOk result (λ certificate. certificate ≡ bound_of tree.now.kind tree.now.first.now (node_at tree.now.first.now path.items 0)) }
{
    match back_of(tree, path.as_slice()) {
        Some(way) => {
            let renaming = pairs_of(tree.alloc, way.images.as_slice())?;
            built(tree, way.number, path, renaming)
        }
        None => built(tree, 0, path, Vec::new(tree.alloc)),
    }
}

// The depth of the first tree.
fn least_depth(kind: Kind, depth: u8) -> u8
    ensures least { result ≡ least_depth kind depth }
    ensures most { result ≤ depth }
{
    if has_lower_steps(kind) { depth } else { 0 }
}

// Searches the trees in turn: of each depth up to the greatest at upper bounds, else of this depth alone.
fn search(tree: &Tree, derivations: &mut Derivations, depth: u8) -> Result<Search, FindFault>
    requires most { tree.now.most ≤ 8 }
    requires depth { depth ≤ MAX_STEPS }
    ensures answer { Answers tree.now.kind depth tree.now.most tree.now.first.now result }
    ensures valid { FindsValid tree.now.kind result }
    ensures found_steps { FindsSteps tree.now.kind depth result }
    ensures means { FindsTrue tree.now.kind tree.now.first.now result }
{
    let _names = tree.first.names();
    let mut path = Vec::new(tree.alloc);
    let mut count = Count { nodes: 0, cut: 0 };
    let least = least_depth(tree.kind, depth);
    for left in least..depth + 1 {
        match walk(tree, derivations, &mut path, left, count) {
            Ok(Walked::Passed(next)) => count = next,
            Ok(Walked::Found) => {
                problems(path.as_slice());
                return match certificate(tree, path) {
                    Ok(certificate) => Ok(Search::Found(certificate)),
                    Err(NoMemory) => Err(FindFault::NoMemory),
                };
            }
            Err(fault) => return Err(fault),
        }
    }
    Ok(Search::NotFound {
        nodes: count.nodes,
        cut: count.cut,
    })
}

/// Searches for a certificate that no algorithm of `steps` or fewer rounds solves the problem: a path of so many lower steps, each
/// to the derived problem with at most `merges` merges of two labels, to a problem that isn't solvable without communication. The
/// answer is the certificate of the first such path in preorder, fewer merges first, else in lexicographic order of the labels.
///
/// NotFound has the exact counts, and says nothing of the problem. It is refused where there are more than `MAX_NODES` nodes, and
/// none of the first of them is a success. The cost is that of a zero-round test at each node, and of one derived problem where a
/// node goes on; that of a problem that was derived lately is copied. One path is held in memory, and the last 16 derivations.
pub fn find_lower(
    alloc: Global,
    first: &Problem,
    steps: u8,
    merges: u8,
) -> Result<Search, FindFault>
    requires steps { steps ≤ MAX_STEPS }
    requires merges { merges ≤ 8 }
    ensures answer { Answers Kind.Lower steps merges first.now result }
    ensures valid { FindsValid Kind.Lower result }
    ensures found_steps { FindsSteps Kind.Lower steps result }
    ensures means { FindsTrue Kind.Lower first.now result }
{
    let tree = Tree {
        alloc,
        kind: Kind::Lower,
        most: merges,
        first,
    };
    search(&tree, &mut Derivations::new(alloc), steps)
}

/// Searches for a certificate that an algorithm of at most `steps` rounds solves the problem: a path of upper steps, each to the
/// derived problem with at most `drops` labels left out, to a problem that is solvable without communication. The trees of depth 0, 1
/// and so on up to `steps` are searched in turn, and only nodes at the depth of the tree succeed; the counts of all trees add up.
///
/// The answers and the cost are those of `find_lower`, with the trees one after another.
pub fn find_upper(alloc: Global, first: &Problem, steps: u8, drops: u8) -> Result<Search, FindFault>
    requires steps { steps ≤ MAX_STEPS }
    requires drops { drops ≤ 8 }
    ensures answer { Answers Kind.Upper steps drops first.now result }
    ensures valid { FindsValid Kind.Upper result }
    ensures found_steps { FindsSteps Kind.Upper steps result }
    ensures means { FindsTrue Kind.Upper first.now result }
{
    let tree = Tree {
        alloc,
        kind: Kind::Upper,
        most: drops,
        first,
    };
    search(&tree, &mut Derivations::new(alloc), steps)
}

/// Searches for a certificate that no algorithm solves the problem in any number of rounds: a path of at most `steps` lower steps, as
/// in `find_lower`, to a problem that isn't solvable without communication, has at most 8 labels, and is an earlier problem of the
/// path under other labels. The earliest such problem counts, and the first one-to-one map of the labels.
///
/// The answers are those of `find_lower`. At each node the problems before it are compared, which may take a test of many maps of
/// the labels, besides the cost of `find_lower`.
pub fn find_fixed(
    alloc: Global,
    first: &Problem,
    steps: u8,
    merges: u8,
) -> Result<Search, FindFault>
    requires least { 1 ≤ steps }
    requires steps { steps ≤ MAX_STEPS }
    requires merges { merges ≤ 8 }
    ensures answer { Answers Kind.Fixed steps merges first.now result }
    ensures valid { FindsValid Kind.Fixed result }
    ensures found_steps { FindsSteps Kind.Fixed steps result }
    ensures means { FindsTrue Kind.Fixed first.now result }
{
    let tree = Tree {
        alloc,
        kind: Kind::Fixed,
        most: merges,
        first,
    };
    search(&tree, &mut Derivations::new(alloc), steps)
}
