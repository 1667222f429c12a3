//! The labels of the extracted algorithm, level by level.
ghost use Rattle.re_cert.specs.Stages.{stages_of};
ghost use Rattle.re_extract.specs.Seen.{AreViews};
ghost use Rattle.re_laws.specs.Extracted.{IsUpperBound, extracted};
ghost use Rattle.re_pool.specs.Pools.{IsPool, Keeps, tree_at};
ghost use Rattle.re_problem.specs.NamedProblems.{unnamed};
ghost use Rattle.std.specs.Prelude.{◌≡◌, IfOk, length, map};

use crate::choosing::{all_chosen, all_zero};
use crate::sights::{Sight, backs_of, put};
use arrayvec::ArrayVec;
use indexmap::IndexSet;
use re_cert::Step;
use re_labels::{NoMemory, PortLabels};
use re_pool::{NodeId, Pool};
use re_problem::Problem;

/// What the algorithm from this problem and the steps behind it gives at the views of these numbers, in their order. The views of
/// their neighbours are looked at once each, however many nodes see them.
pub(crate) fn labels_of(
    before: &Problem,
    steps: &[Step],
    pool: &mut Pool,
    views: &[NodeId],
) -> Result<Vec<PortLabels>, NoMemory>
    requires bound { IsUpperBound (unnamed before.now) (stages_of steps.now) }
    requires views { AreViews pool.old before.now.active.degree before.now.passive.degree (length steps.now) views.now }
    ensures labels { IfOk result (λ answers. answers.items ≡ map (λ id. extracted (unnamed before.now) (stages_of steps.now) (tree_at pool.old id)) views.now) }
    ensures keeps { Keeps pool.old pool.new }
    ensures pool { IsPool pool.new }
{
    let _pool = pool.len();
    let [step, others @ ..] = steps else {
        return all_zero(pool.alloc(), before, views);
    };
    let mut next = IndexSet::new(pool.alloc());
    let mut all = Vec::new(pool.alloc());
    for view in views {
        let backs = backs_of(pool, *view);
        let mut sights: ArrayVec<Sight, 6> = ArrayVec::new();
        let mut port = 0;
        for back in backs.as_slice() {
            port += 1;
            let over = pool.shift(*view, port)?;
            let place = put(&mut next, over)?;
            sights.push(Sight { place, back: *back });
        }
        all.push(sights)?;
    }
    let answers = labels_of(step.next(), others, pool, next.as_slice())?;
    all_chosen(
        pool.alloc(),
        before.active(),
        step.entries(),
        answers.as_slice(),
        all.as_slice(),
    )
}
