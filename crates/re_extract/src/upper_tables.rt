//! The algorithm of an upper bound, written out as a table.
ghost use Rattle.re_algo.specs.Tables.{entries};
ghost use Rattle.re_algo.specs.Verdicts.{table_verdict};
ghost use Rattle.re_laws.specs.Algorithms.{Solves};
ghost use Rattle.re_algo.specs.Counting.{view_count};
ghost use Rattle.re_problem.specs.NamedProblems.{unnamed};
ghost use Rattle.re_extract.specs.UpperTables.{listed_table, upper_table};
ghost use Rattle.std.specs.List.{AllByRecursion};
ghost use Rattle.std.specs.Prelude.{◌≡◌, ◌<◌, IfOk, IfSome, IsSome, length};

use crate::extractor::Extractor;
use re_algo::{Table, TableVerdict, view_count};
use re_labels::{NoMemory, Side};
use re_pool::Pool;
use std::alloc::Global;

// The table, where there are no more views than are listed.
fn filled_table(alloc: Global, extractor: &mut Extractor) -> Result<Table, NoMemory>
    requires { IsSome (view_count extractor.old.first.active.degree extractor.old.first.passive.degree (length extractor.old.steps)) }
    ensures table { IfOk result (λ table. table ≡ upper_table extractor.old) }
    ensures solves { IfOk result (λ table. Solves (unnamed extractor.old.first) table.radius (entries table)) }
    ensures verdict { IfOk result (λ table. table_verdict (unnamed extractor.old.first) table ≡ TableVerdict.Yes) }
    ensures labels { IfOk result (λ table. AllByRecursion (AllByRecursion (λ label. label < length extractor.old.first.names)) table.answers) }
    ensures same { extractor.new ≡ extractor.old }
{
    let degrees = extractor.certificate().first().degrees();
    let radius = extractor.certificate().steps().len() as u8;
    let mut pool = Pool::new(alloc);
    let answers = extractor.answers(&mut pool)?;
    match Table::build(degrees, radius, answers) {
        Some(table) => Ok(table),
        None => unreachable!(),
    }
}

/// The table of the algorithm of an upper bound: what the extractor gives at all active views of as many rounds as its certificate has
/// steps. None exactly where there are more of them than `re_algo::MAX_VIEWS`. The table solves the first problem of the
/// certificate, has its degrees, and labels of it alone. It costs what the extractor's `answers` cost; a pool for them is made and let
/// go.
pub fn upper_table(alloc: Global, extractor: &mut Extractor) -> Result<Option<Table>, NoMemory>
    ensures table { IfOk result (λ found. found ≡ listed_table extractor.old) }
    ensures solves { IfOk result (λ found. IfSome found (λ table. Solves (unnamed extractor.old.first) table.radius (entries table))) }
    ensures verdict { IfOk result (λ found. IfSome found (λ table. table_verdict (unnamed extractor.old.first) table ≡ TableVerdict.Yes)) }
    ensures labels { IfOk result (λ found. IfSome found (λ table. AllByRecursion (AllByRecursion (λ label. label < length extractor.old.first.names)) table.answers)) }
    ensures same { extractor.new ≡ extractor.old }
{
    let degrees = extractor.certificate().first().degrees();
    let radius = extractor.certificate().steps().len() as u8;
    match view_count(degrees, Side::Active, radius) {
        Some(_) => Ok(Some(filled_table(alloc, extractor)?)),
        None => Ok(None),
    }
}
