//! Certificates of parts that make one.
ghost use Rattle.re_cert.specs.Bounds.{is_bound};
ghost use Rattle.std.specs.Prelude.{◌≡◌, IfOk, true};

use re_cert::{Certificate, Kind, Step};
use re_labels::NoMemory;
use re_problem::Problem;
use std::alloc::Global;

/// The same pairs.
pub(crate) fn copied_pairs(alloc: Global, pairs: &[(u8, u8)]) -> Result<Vec<(u8, u8)>, NoMemory>
    ensures { IfOk result (λ copied. copied.items ≡ pairs.now) }
{
    let mut copied = Vec::new(alloc);
    for pair in pairs {
        copied.push(*pair)?;
    }
    Ok(copied)
}

/// The certificate of these parts, which make one.
pub(crate) fn built(
    kind: Kind,
    back: u8,
    first: Problem,
    steps: Vec<Step>,
    renaming: Vec<(u8, u8)>,
) -> Certificate
    requires { is_bound (record { kind = kind; back = back; first = first; steps = steps.items; renaming = renaming.items }) ≡ true }
    ensures { result ≡ record { kind = kind; back = back; first = first; steps = steps.items; renaming = renaming.items } }
{
    match Certificate::build(kind, back, first, steps, renaming) {
        Some(certificate) => certificate,
        None => unreachable!(),
    }
}
