//! The algorithm of an upper bound of 64 steps: far views are within reach.
ghost use Rattle.re_pool.specs.Pools.{tree_at};
ghost use Rattle.re_laws.specs.Trees.{IsView};
ghost use Rattle.std.specs.Prelude.{◌<◌, IfOk, length};

use re_cert::read_certificate;
use re_check::{Kind, Verdict, check, upper_steps};
use re_extract::Extractor;
use re_io::MAX_BYTES;
use re_labels::{Degrees, NoMemory, PortLabels, Side};
use re_laws::{View, is_view, pad};
use re_pool::{NodeId, Pool, Rule, narrow_law};
use std::alloc::Global;

// The extractor of an accepted certificate of an upper bound.
fn extractor(alloc: Global, text: &str) -> Option<Extractor> {
    if text.len() > MAX_BYTES {
        return None;
    }
    let certificate = read_certificate(alloc, text.as_bytes()).ok()?;
    match check(&certificate) {
        Verdict::Accepted {
            kind: Kind::Upper,
            ..
        } => {
            upper_steps(&certificate);
            Some(Extractor::new(certificate))
        }
        _ => None,
    }
}

// The number of an active view of the extractor's radius; NoMemory stands for another view, too.
fn placed(pool: &mut Pool, extractor: &Extractor, view: &View<()>) -> Result<NodeId, NoMemory>
    ensures held { IfOk result (λ id. id < length pool.new) }
    ensures view { IfOk result (λ id. IsView extractor.now.first.active.degree extractor.now.first.passive.degree (length extractor.now.steps) (tree_at pool.new id)) }
{
    let degrees = extractor.certificate().first().degrees();
    let radius = extractor.certificate().steps().len() as u8;
    if !is_view(view, degrees, Side::Active, radius) {
        return Err(NoMemory);
    }
    narrow_law();
    pool.place(view)
}

// A certificate of so many steps from one label at degrees 2 and 2 to itself.
fn path(alloc: Global, steps: u8) -> Result<String, NoMemory> {
    let mut text = String::from_str(alloc, "== certificate 1 upper\nA^2\n\nA^2\n")?;
    for _ in 0..steps {
        text.push_str("== step\nA^2\n\nA^2\n== map\nA [A]\n")?;
    }
    text.push_str("== end\n")?;
    Ok(text)
}

fn are_zeros(labels: &PortLabels) -> bool {
    labels.labels() == [0, 0].as_slice()
}

// Whether the algorithm gives label 0 at each port.
fn extracts_zeros(
    pool: &mut Pool,
    extractor: &mut Extractor,
    view: &View<()>,
) -> Result<bool, NoMemory> {
    let id = placed(pool, extractor, view)?;
    Ok(are_zeros(&extractor.extract(pool, id)?))
}

// The same, asked as a rule.
fn rules_zeros(
    pool: &mut Pool,
    extractor: &mut Extractor,
    view: &View<()>,
) -> Result<bool, NoMemory> {
    let id = placed(pool, extractor, view)?;
    Ok(are_zeros(&extractor.labels(pool, id)?))
}

fn are_zero(alloc: Global, extractor: &mut Extractor, view: &View<()>) -> bool {
    let mut pool = Pool::new(alloc);
    matches!(extracts_zeros(&mut pool, extractor, view), Ok(true))
        && matches!(rules_zeros(&mut pool, extractor, view), Ok(true))
}

fn far_view(alloc: Global) -> Result<View<()>, NoMemory> {
    let degrees = Degrees {
        active: 2,
        passive: 2,
    };
    pad(alloc, &View::Leaf, degrees, Side::Active, 64, ())
}

fn is_far_view_zero(alloc: Global, extractor: &mut Extractor) -> bool {
    match far_view(alloc) {
        Ok(view) => are_zero(alloc, extractor, &view),
        Err(_) => false,
    }
}

fn is_zero(alloc: Global, text: &str) -> bool {
    match extractor(alloc, text) {
        Some(mut extractor) => is_far_view_zero(alloc, &mut extractor),
        None => false,
    }
}

fn is_zero_far_on(alloc: Global) -> bool {
    match path(alloc, 64) {
        Ok(text) => is_zero(alloc, text.as_str()),
        Err(_) => false,
    }
}

// A view on a path that shows 64 rounds: each level has few different views, and the tree of calls would have 2^64.
#[test]
fn far_on_a_path(rt: HostRuntime) {
    assert!(rt; is_zero_far_on(rt.alloc()));
}
