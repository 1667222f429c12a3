//! The step from a problem to the derived problem of a relaxation of it.
ghost use Rattle.re_algo.specs.Constructions.{IsSeen, top_places};
ghost use Rattle.re_shaping.specs.Relaxing.{relaxed_limit, relaxed_step, row_image, set_image};
ghost use Rattle.re_labels.specs.Configs.{image_at};
ghost use Rattle.re_labels.specs.declared.TheConstants.{MAX_ROWS};
ghost use Rattle.re_labels.specs.Sets.{IsLabelSet};
ghost use Rattle.re_problem.specs.NamedProblems.{unnamed};
ghost use Rattle.re_problem.specs.Steps.{IsRelaxed};
ghost use Rattle.re_step.specs.declared.derivation.StepLimit.{StepLimit as Passed};
ghost use Rattle.re_labels.specs.GoodRows.{max_rows};
ghost use Rattle.std.specs.List.{AllByRecursion};
ghost use Rattle.std.specs.Prelude.{◌≡◌, ◌≤◌, ◌<◌, ℕ, Err, IfOk, List, None, Some, length, map};

use arrayvec::ArrayVec;
use re_algo::{first_dominating, fitted};
use re_cert::{LowerMap, RowImage, Step, StepParts};
use re_labels::{LabelSet, MAX_LABELS, NoMemory, Row};
use re_problem::Problem;
use re_step::{Derived, RowsFault, StepFault, StepLimit, maximal_rows, place_of, step as derive};
use std::alloc::Global;

// The set of the images of the labels of a set.
fn set_image(images: &[u8], set: LabelSet) -> LabelSet
    requires set { IsLabelSet (length images.now) set }
    requires few { length images.now ≤ MAX_LABELS }
    requires below { AllByRecursion (λ image. image < MAX_LABELS) images.now }
    ensures { result ≡ set_image (image_at images.now) set }
{
    match set.first() {
        Some(label) => set_image(images, set.remove(label)).insert(images[label as usize]),
        None => LabelSet::empty(),
    }
}

// Each set of the row becomes its image.
fn row_image(images: &[u8], row: &Row) -> ArrayVec<LabelSet, 6>
    requires sets { AllByRecursion (IsLabelSet (length images.now)) row.now }
    requires few { length images.now ≤ MAX_LABELS }
    requires below { AllByRecursion (λ image. image < MAX_LABELS) images.now }
    ensures { result.items ≡ row_image (image_at images.now) row.now }
{
    let mut image = ArrayVec::new();
    for set in row.sets() {
        image.push(set_image(images, *set));
    }
    image
}

/// The labels that stand for the sets of the first row that dominates these sets, in the first order in which it holds them. It tests one
/// row after another up to that one.
pub fn top_labels(rows: &[Row], sets: &[LabelSet], others: &[LabelSet]) -> RowImage
    requires few { length sets.now ≤ MAX_LABELS }
    requires seen { IsSeen rows.now others.now }
    ensures { result ≡ top_places rows.now sets.now others.now }
{
    let Some(other) = Row::from_sets(others) else {
        unreachable!();
    };
    let index = first_dominating(rows, &other);
    let top = fitted(&rows[index], others);
    let mut labels: ArrayVec<u8, 6> = ArrayVec::new();
    for set in top.as_slice() {
        labels.push(place_of(sets, *set) as u8);
    }
    match RowImage::new(labels.as_slice()) {
        Some(image) => image,
        None => unreachable!(),
    }
}

// Where the rows go: the labels of the sets of the first rows of the derived problem that dominate their images.
fn top_images(
    alloc: Global,
    images: &[u8],
    derived: &Derived,
    rows: &[Row],
) -> Result<Vec<RowImage>, NoMemory>
    requires few_sets { length derived.now.sets ≤ MAX_LABELS }
    requires few { length images.now ≤ MAX_LABELS }
    requires below { AllByRecursion (λ image. image < MAX_LABELS) images.now }
    requires sets { AllByRecursion (AllByRecursion (IsLabelSet (length images.now))) rows.now }
    requires seen { AllByRecursion (λ row. IsSeen derived.now.rows (row_image (image_at images.now) row)) rows.now }
    ensures { IfOk result (λ tops. tops.items ≡ map (λ row. top_places derived.now.rows derived.now.sets (row_image (image_at images.now) row)) rows.now) }
{
    let mut tops = Vec::new(alloc);
    for row in rows {
        let image = row_image(images, row);
        tops.push(top_labels(
            derived.rows.as_slice(),
            derived.sets.as_slice(),
            image.as_slice(),
        ))?;
    }
    Ok(tops)
}

// The step of these rows, which are the maximal ones.
fn step_of_rows(
    alloc: Global,
    problem: &Problem,
    relaxed: &Problem,
    images: &[u8],
    rows: Vec<Row>,
) -> Result<Step, StepFault>
    requires count { length images.now ≡ length problem.now.names }
    requires below { (label : ℕ) → label < length problem.now.names → image_at images.now label < length relaxed.now.names }
    requires relaxed { IsRelaxed (unnamed problem.now) (unnamed relaxed.now) (image_at images.now) }
    requires rows { rows.items ≡ max_rows problem.now.passive (length problem.now.names) }
    requires few { length (max_rows problem.now.passive (length problem.now.names)) ≤ MAX_ROWS }
    ensures step { IfOk result (λ s. s ≡ relaxed_step (image_at images.now) problem.now relaxed.now) }
    ensures none { IfOk result (λ _. relaxed_limit problem.now relaxed.now ≡ None) }
    ensures limit { (limit : Passed) → result ≡ Err (StepFault.Limit limit) → relaxed_limit problem.now relaxed.now ≡ Some limit }
{
    let _names = problem.names();
    let _relaxed = relaxed.names();
    let derived = derive(alloc, relaxed)?;
    let tops = top_images(alloc, images, &derived, rows.as_slice())?;
    let map = LowerMap::ByRow(tops);
    let parts = StepParts::Lower { rows, map };
    Ok(Step {
        next: derived.problem,
        parts,
    })
}

/// The step from a problem to the derived problem of a relaxation of it, by the images of its labels: each maximal row goes, place by place,
/// to the first maximal row of the relaxation that dominates its image.
///
/// It is refused with the limit of rows where the problem has more maximal rows than `re_labels::MAX_ROWS`, and else with the limit that the
/// derived problem passes. The cost is that of `re_step::maximal_rows` and of `re_step::step`, and for each row a test of maximal rows,
/// up to the first that dominates its image.
pub fn relaxed_step(
    alloc: Global,
    problem: &Problem,
    relaxed: &Problem,
    images: &[u8],
) -> Result<Step, StepFault>
    requires count { length images.now ≡ length problem.now.names }
    requires below { (label : ℕ) → label < length problem.now.names → image_at images.now label < length relaxed.now.names }
    requires relaxed { IsRelaxed (unnamed problem.now) (unnamed relaxed.now) (image_at images.now) }
    ensures step { IfOk result (λ s. s ≡ relaxed_step (image_at images.now) problem.now relaxed.now) }
    ensures none { IfOk result (λ _. relaxed_limit problem.now relaxed.now ≡ None) }
    ensures limit { (limit : Passed) → result ≡ Err (StepFault.Limit limit) → relaxed_limit problem.now relaxed.now ≡ Some limit }
{
    let labels = problem.names().len() as u8;
    match maximal_rows(alloc, problem.passive(), labels) {
        Ok(rows) => step_of_rows(alloc, problem, relaxed, images, rows),
        Err(RowsFault::TooManyRows) => Err(StepFault::Limit(StepLimit::Rows)),
        Err(RowsFault::NoMemory) => Err(StepFault::NoMemory),
    }
}
