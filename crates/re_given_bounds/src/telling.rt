//! Whether labels tell in which configuration they stand.
ghost use Rattle.re_given_bounds.specs.Telling.{TellsConfig, TellsPassive};
ghost use Rattle.re_problem.specs.NamedProblems.{unnamed};
ghost use Rattle.std.specs.Prelude.{◌↔◌, IsTrue};

use re_labels::Constraint;
use re_problem::Problem;

/// Whether each label of the constraint tells in which configuration it stands: whether it has as many labels as places in its configurations.
pub fn tells_config(constraint: &Constraint) -> bool
    ensures { IsTrue result ↔ TellsConfig constraint.now }
{
    let degree = constraint.degree();
    let places = constraint.len() * degree as usize;
    let labels = constraint.labels();
    let count = labels.count();
    count as usize == places
}

/// Whether each label of the problem, with its sides exchanged so many times, tells in which passive configuration it stands: then one round more than so
/// many is of no use given the problem, as `idle_hop_law` says.
pub fn tells_passive(problem: &Problem, times: u8) -> bool
    ensures { IsTrue result ↔ TellsPassive times (unnamed problem.now) }
{
    if times % 2 == 0 {
        tells_config(problem.passive())
    } else {
        tells_config(problem.active())
    }
}
