//! The existential half step: which multisets of sets have some choice that is a configuration.

ghost use Rattle.re_step.specs.Rests.{constraint_of};
ghost use Rattle.re_labels.specs.GoodRows.{allowed};
ghost use Rattle.std.specs.Prelude.{◌≡◌, ◌≤◌, ◌<◌, IfOk, IsErrOf, length};

use crate::walk::walk;
use re_labels::{Config, Constraint, LabelSet, MAX_CONFIGURATIONS, MAX_LABELS, NoMemory};
use std::alloc::{AllocError, Global};

/// Why the allowed multisets could not be given.
#[derive(Clone, Copy, Debug, PartialEq, Eq)]
pub enum AllowedFault {
    /// There are more than `MAX_CONFIGURATIONS` of them.
    TooManyConfigurations,
    /// There was no memory.
    NoMemory,
}

impl From<NoMemory> for AllowedFault {
    ghost use Rattle.re_step.specs.declared.allowing.AllowedFault.TheVariants.{NoMemory as no_memory};

    ghost from_gives = { λ _ e. e ≡ no_memory };

    fn from(_: NoMemory) -> Self {
        AllowedFault::NoMemory
    }
}

impl From<AllocError> for AllowedFault {
    ghost use Rattle.re_step.specs.declared.allowing.AllowedFault.TheVariants.{NoMemory as no_memory};

    ghost from_gives = { λ _ e. e ≡ no_memory };

    fn from(_: AllocError) -> Self {
        AllowedFault::NoMemory
    }
}

// The configurations of the constraint, in order.
fn configs_of(alloc: Global, constraint: &Constraint) -> Result<Vec<Config>, NoMemory>
    ensures { IfOk result (λ configs. configs.items ≡ constraint.now.configs) }
{
    let mut configs = Vec::new(alloc);
    for config in constraint.configs() {
        configs.push(config.copy())?;
    }
    Ok(configs)
}

/// The multisets of as many of the sets as the constraint's degree from which some choice of one label each is a configuration
/// of it (the existential half of a round elimination step, after Brandt, PODC 2019): a constraint of the same degree whose label
/// i stands for the set at place i. There are at most `MAX_LABELS` sets. `TooManyConfigurations` comes exactly where these
/// multisets are more than `MAX_CONFIGURATIONS`; no more than that many are made.
///
/// The walk takes one set after another, from low places to high ones, and keeps what is left of the configurations when a label
/// of each set taken so far is taken out; it leaves a beginning of which nothing is left at once. For each beginning of n sets with
/// c such rests it costs about n c log c for each next set; for the last set, one comparison.
pub fn allowed(
    alloc: Global,
    constraint: &Constraint,
    sets: &[LabelSet],
) -> Result<Constraint, AllowedFault>
    requires { length sets.now ≤ MAX_LABELS }
    ensures allowed { IfOk result (λ all. all ≡ constraint_of constraint.now.degree (allowed constraint.now sets.now constraint.now.degree)) }
    ensures within { IfOk result (λ _. length (allowed constraint.now sets.now constraint.now.degree) ≤ MAX_CONFIGURATIONS) }
    ensures many { IsErrOf result AllowedFault.TooManyConfigurations →
        MAX_CONFIGURATIONS < length (allowed constraint.now sets.now constraint.now.degree) }
{
    let configs = configs_of(alloc, constraint)?;
    let degree = constraint.degree();
    let mut found = Constraint::new(alloc, degree);
    walk(
        alloc,
        configs.as_slice(),
        sets,
        &[],
        degree,
        0,
        sets.len() as u8,
        &mut found,
    )?;
    let _within = found.len();
    Ok(found)
}
