//! The search for a renaming.
ghost use Rattle.re_problem.specs.NamedProblems.{IsNamedProblem};
ghost use Rattle.re_shaping.specs.Answers.{Answers, AnswersBy, AreApart, IsLost, IsMapBy, IsSettled, Takes};
ghost use Rattle.re_shaping.specs.Colours.{colour_at};
ghost use Rattle.re_shaping.specs.Renamings.{IsRenaming};
ghost use Rattle.re_shaping.specs.Tries.{first_shared, tries_of};
ghost use Rattle.std.specs.List.{AllByRecursion};
ghost use Rattle.std.specs.Prelude.{◌≡◌, ◌<◌, ◌≤◌, ◌↔◌, ℕ, IfSome, IfNone, IsTrue, MatchOption, length, List};

use crate::coloured::Coloured;
use crate::colours::Colours;
use arrayvec::ArrayVec;
use re_labels::MAX_LABELS;
use re_problem::{LabelMap, MapVerdict, Problem, renames};

/// How many labels are tried at most.
pub const MAX_TRIES: u32 = 1000;

/// What the search for a renaming answers.
#[derive(Drop)]
pub enum Renaming {
    /// A renaming, as the images of the labels.
    Found(LabelMap),
    /// There is none.
    Missing,
    /// None was found among the most labels that are tried. This says nothing of the problems.
    TooMany,
}

/// Whether each image is below the number.
pub fn are_below(images: &[u8], labels: usize) -> bool
    ensures { IsTrue result ↔ AllByRecursion (λ image. image < labels) images.now }
{
    let [image, others @ ..] = images else {
        return true;
    };
    (*image as usize) < labels && are_below(others, labels)
}

// Whether the map is a renaming.
fn is_renaming(from: &Problem, to: &Problem, map: &LabelMap) -> bool
    ensures { IsTrue result ↔ IsRenaming from.now to.now map.now }
{
    if map.images().len() != from.names().len() {
        return false;
    }
    if !are_below(map.images(), to.names().len()) {
        return false;
    }
    renames(from, to, map) == MapVerdict::Yes
}

// The first label of this colour.
fn label_of(colours: &Colours, colour: u64) -> Option<u8>
    ensures { MatchOption result ((label : ℕ) → label < length colours.now → colour_at colours.now label ≡ colour → ⊥) (λ label. (label < length colours.now) × (colour_at colours.now label ≡ colour)) }
{
    for (label, other) in colours.all().iter().enumerate() {
        if *other == colour {
            return Some(label as u8);
        }
    }
    None
}

// The map from each label to the first one of its colour, where each has one.
fn map_by(colours: &Colours, others: &Colours) -> Option<LabelMap>
    ensures { MatchOption result (IsLost colours.now others.now) (IsMapBy colours.now others.now) }
{
    let mut images: ArrayVec<u8, 128> = ArrayVec::new();
    for colour in colours.all() {
        let Some(image) = label_of(others, *colour) else {
            return None;
        };
        images.push(image);
    }
    match LabelMap::new(images.as_slice()) {
        Some(map) => Some(map),
        None => unreachable!(),
    }
}

// What there is where the colours of the first problem are all different.
fn renaming_of(from: &Problem, to: &Problem, colours: &Colours, others: &Colours) -> Renaming
    requires apart { AreApart colours.now }
    requires from { IsNamedProblem from.now }
    requires to { IsNamedProblem to.now }
    ensures answer { AnswersBy from.now to.now colours.now others.now result }
    ensures settled { IsSettled result }
{
    match map_by(colours, others) {
        Some(map) => {
            if is_renaming(from, to, &map) {
                Renaming::Found(map)
            } else {
                Renaming::Missing
            }
        }
        None => Renaming::Missing,
    }
}

// The first label that has a colour with a later one, and so with another one.
fn first_shared(colours: &Colours) -> Option<u8>
    ensures none { IfNone result (AreApart colours.now) }
    ensures some { IfSome result (λ label. label < length colours.now) }
    ensures first { result ≡ first_shared colours.now }
{
    let all = colours.all();
    for (label, colour) in all.iter().enumerate() {
        if all[label + 1..].contains(colour) {
            return Some(label as u8);
        }
    }
    None
}

// A renaming by which each label goes to one of its colour.
fn renaming_by(
    from: &Problem,
    to: &Problem,
    colours: &Colours,
    others: &Colours,
    left: u8,
    tries: &mut u32,
) -> Renaming
    requires from { IsNamedProblem from.now }
    requires to { IsNamedProblem to.now }
    requires few { tries.old ≤ MAX_TRIES }
    ensures answer { AnswersBy from.now to.now colours.now others.now result }
    ensures tries { Takes tries.old tries.new (tries_of left from.now to.now colours.now others.now) result }
{
    if colours.mark() != others.mark() {
        return Renaming::Missing;
    }
    let Some(single) = first_shared(colours) else {
        return renaming_of(from, to, colours, others);
    };
    if left == 0 {
        return Renaming::TooMany;
    }
    let colour = colours.of(single);
    let refined = colours.with_single(single).refined(from, MAX_LABELS);
    for label in 0..others.all().len() as u8 {
        if others.of(label) != colour {
            continue;
        }
        if *tries == 0 {
            return Renaming::TooMany;
        }
        *tries -= 1;
        let next = others.with_single(label).refined(to, MAX_LABELS);
        match renaming_by(from, to, &refined, &next, left - 1, tries) {
            Renaming::Found(map) => return Renaming::Found(map),
            Renaming::Missing => {}
            Renaming::TooMany => return Renaming::TooMany,
        }
    }
    Renaming::Missing
}

/// A renaming that makes the first problem the second: what it answers is one, `Missing` comes only where there is none, and `TooMany`
/// only where a whole search tries more than `MAX_TRIES` labels. The cost of a try is that of refining the colours of both problems, each
/// time with a pass over all configurations. Where the marks of the colours are different, there is no try.
pub fn renaming_to(from: &Coloured, to: &Coloured) -> Renaming
    ensures { Answers from.now to.now result }
{
    if from.mark() != to.mark() {
        return Renaming::Missing;
    }
    let mut tries = MAX_TRIES;
    renaming_by(
        from.problem(),
        to.problem(),
        from.colours(),
        to.colours(),
        MAX_LABELS,
        &mut tries,
    )
}
