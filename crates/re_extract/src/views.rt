//! Views put into a pool.
ghost use Rattle.re_pool.specs.Narrow.{IsNarrow};
ghost use Rattle.re_pool.specs.Pools.{IsPool, Keeps, tree_at};
ghost use Rattle.re_laws.specs.Shown.{tree_of_view};
ghost use Rattle.std.specs.List.{AllByRecursion};
ghost use Rattle.std.specs.Prelude.{◌<◌, ◌≡◌, IfOk, length, map};

use re_labels::NoMemory;
use re_laws::View;
use re_pool::{NodeId, Pool};

/// The numbers of these views, in their order.
pub(crate) fn placed(pool: &mut Pool, views: &[View<()>]) -> Result<Vec<NodeId>, NoMemory>
    requires { AllByRecursion IsNarrow (map tree_of_view views.now) }
    ensures held { IfOk result (λ ids. AllByRecursion (λ id. id < length pool.new) ids.items) }
    ensures trees { IfOk result (λ ids. map (tree_at pool.new) ids.items ≡ map tree_of_view views.now) }
    ensures keeps { Keeps pool.old pool.new }
    ensures pool { IsPool pool.new }
{
    let _pool = pool.len();
    let mut ids = Vec::new(pool.alloc());
    for view in views {
        ids.push(pool.place(view)?)?;
    }
    Ok(ids)
}
