//! Tests of answers.
ghost use Rattle.re_labels.specs.Constraints.{has_config};
ghost use Rattle.std.specs.List.{list_all, position};
ghost use Rattle.std.specs.Prelude.{◌≡◌, ◌==◌, length, not};

use re_choice::are_labels;
use re_labels::{Config, Constraint, PortLabels};

// Whether each answer has so many labels.
pub(crate) fn all_have(answers: &[PortLabels], count: u8) -> bool
    ensures { result ≡ list_all (λ labels. length labels == count) answers.now }
{
    answers
        .iter()
        .all(|labels| labels.labels().len() == usize::from(count))
}

// Whether the multiset of the labels is a configuration.
fn is_config(constraint: &Constraint, labels: &PortLabels) -> bool
    ensures { result ≡ has_config constraint.now labels.now }
{
    let _degree = constraint.degree();
    let labels = labels.labels();
    if !are_labels(labels) {
        return false;
    }
    constraint.contains(&Config::from_labels(labels))
}

/// The first place of an answer whose multiset of labels isn't a configuration.
pub(crate) fn first_other(constraint: &Constraint, answers: &[PortLabels]) -> Option<usize>
    ensures { result ≡ position (λ labels. not (has_config constraint.now labels)) answers.now }
{
    answers
        .iter()
        .position(|labels| !is_config(constraint, labels))
}
