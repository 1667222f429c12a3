//! Problems on a path that the problem at its end is an image of.
ghost use Rattle.re_cert.specs.declared.certificate.TheConstants.{MAX_STEPS};
ghost use Rattle.re_check.specs.Verdicts.{is_yes};
ghost use Rattle.re_labels.specs.Orders.{orders};
ghost use Rattle.re_labels.specs.Lists.{count_from};
ghost use Rattle.re_problem.specs.Verdicts.{renaming_verdict};
ghost use Rattle.re_problem.specs.NamedProblems.{unnamed};
ghost use Rattle.re_search.specs.Walking.{node_at};
ghost use Rattle.re_search.specs.Nodes.{renaming_to, way_back};
ghost use Rattle.std.specs.List.{AllByRecursion};
ghost use Rattle.std.specs.Prelude.{◌≡◌, ◌+◌, ◌<◌, ◌≤◌, ◌++◌, ◌∷◌, [], ℕ, MatchOption, None, Some, drop, find, length, map, take};

use crate::losing::{loses, may_become};
use crate::steps::{end_of, problem_behind};
use arrayvec::ArrayVec;
use re_cert::Step;
use re_problem::{LabelMap, MapVerdict, Problem, renames};

/// The number of a problem on a path, and the map of labels that makes the problem at the end of the path this one.
#[derive(Drop)]
pub(crate) struct Way {
    pub(crate) number: u8,
    pub(crate) images: ArrayVec<u8, 8>,
}

// Whether these images of the labels make the one problem the other.
fn is_renaming(problem: &Problem, target: &Problem, images: &[u8]) -> bool
    requires count { length images.now ≡ length problem.now.names }
    requires below { AllByRecursion (λ image. image < length target.now.names) images.now }
    ensures { result ≡ is_yes (renaming_verdict (unnamed problem.now) (unnamed target.now) images.now) }
{
    let _names = problem.names();
    match LabelMap::new(images) {
        Some(map) => renames(problem, target, &map) == MapVerdict::Yes,
        None => unreachable!(),
    }
}

// The elements with one more behind them.
fn extended(chosen: &[u8], image: u8) -> ArrayVec<u8, 8>
    requires { length chosen.now < 8 }
    ensures { result.items ≡ chosen.now ++ image ∷ [] }
{
    let mut all = ArrayVec::new();
    let _fits = all.try_extend_from_slice(chosen);
    all.push(image);
    all
}

// The elements without the one at this place.
fn without(rest: &[u8], place: usize) -> ArrayVec<u8, 8>
    requires place { place < length rest.now }
    requires few { length rest.now ≤ 8 }
    ensures { result.items ≡ take place rest.now ++ drop (place + 1) rest.now }
{
    let mut others = ArrayVec::new();
    let _fits = others.try_extend_from_slice(&rest[..place]);
    let _fits = others.try_extend_from_slice(&rest[place + 1..]);
    others
}

// The same elements.
fn copied(images: &[u8]) -> ArrayVec<u8, 8>
    requires { length images.now ≤ 8 }
    ensures { result.items ≡ images.now }
{
    let mut copied = ArrayVec::new();
    let _fits = copied.try_extend_from_slice(images);
    copied
}

// The first list of images that begins with the chosen ones and goes on with the rest in some order, and makes the one problem the
// other. A beginning is left as soon as a configuration is lost all of whose labels have images.
fn first_renaming(
    problem: &Problem,
    target: &Problem,
    chosen: &[u8],
    rest: &[u8],
) -> Option<ArrayVec<u8, 8>>
    requires count { length chosen.now + length rest.now ≡ length problem.now.names }
    requires few { length problem.now.names ≤ 8 }
    requires chosen { AllByRecursion (λ image. image < length target.now.names) chosen.now }
    requires rest { AllByRecursion (λ image. image < length target.now.names) rest.now }
    ensures { let found = find (λ images. is_yes (renaming_verdict (unnamed problem.now) (unnamed target.now) images)) (map (λ order. chosen.now ++ order) (orders (length rest.now) rest.now)) in
        MatchOption result (found ≡ None) (λ images. found ≡ Some images.items) }
{
    if rest.is_empty() {
        if is_renaming(problem, target, chosen) {
            return Some(copied(chosen));
        }
        return None;
    }
    if loses(problem, target, chosen) {
        return None;
    }
    for place in 0..rest.len() {
        let more = extended(chosen, rest[place]);
        let others = without(rest, place);
        match first_renaming(problem, target, more.as_slice(), others.as_slice()) {
            Some(images) => return Some(images),
            None => {}
        }
    }
    None
}

// All labels below this number.
fn all_labels(labels: u8) -> ArrayVec<u8, 8>
    requires { labels ≤ 8 }
    ensures { result.items ≡ count_from 0 labels }
{
    let mut all = ArrayVec::new();
    for label in 0..labels {
        all.push(label);
    }
    all
}

// The first map that makes the one problem the other, where they have equally many labels, and at most 8.
fn renaming_to(problem: &Problem, target: &Problem) -> Option<ArrayVec<u8, 8>>
    ensures { MatchOption result (renaming_to problem.now target.now ≡ None) (λ images. renaming_to problem.now target.now ≡ Some images.items) }
{
    let labels = problem.names().len();
    if labels != target.names().len() {
        return None;
    }
    if labels > 8 {
        return None;
    }
    if !may_become(problem, target) {
        return None;
    }
    first_renaming(problem, target, &[], all_labels(labels as u8).as_slice())
}

/// The first problem on the path, before its end, that the problem at its end is an image of, with the first such map. Where there are
/// at most 8 labels, and degrees and counts allow it, one-to-one maps are tried in order, label by label; a beginning is left as soon
/// as it loses a configuration.
pub(crate) fn way_back(first: &Problem, path: &[Step]) -> Option<Way>
    requires { length path.now ≤ MAX_STEPS }
    ensures { (left : ℕ) → MatchOption result (way_back first.now (node_at first.now path.now left) ≡ None)
        (λ way. way_back first.now (node_at first.now path.now left) ≡ Some (way.number, way.images.items)) }
{
    let problem = end_of(first, path);
    for number in 0..path.len() {
        match renaming_to(problem, problem_behind(first, path, number)) {
            Some(images) => {
                return Some(Way {
                    number: number as u8,
                    images,
                });
            }
            None => {}
        }
    }
    None
}
