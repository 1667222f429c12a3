//! A chain with another last step.
ghost use Rattle.re_cert.specs.Bounds.{is_bound};
ghost use Rattle.re_shaping.specs.Chains.{with_last};
ghost use Rattle.std.specs.Prelude.{◌≡◌, ◌<◌, IfOk, length, true};

use re_cert::{Certificate, Step};
use re_chains::{chain_kind, copied_step};
use re_labels::NoMemory;
use std::alloc::Global;

/// The chain of the certificate with another last step.
pub(crate) fn with_last(
    alloc: Global,
    certificate: &Certificate,
    last: Step,
) -> Result<Certificate, NoMemory>
    requires some { 0 < length certificate.now.steps }
    requires bound { is_bound (with_last (λ _. last) certificate.now) ≡ true }
    ensures { IfOk result (λ chain. chain ≡ with_last (λ _. last) certificate.now) }
{
    let given = certificate.steps();
    let mut steps = Vec::new(alloc);
    for step in &given[..given.len() - 1] {
        steps.push(copied_step(alloc, step)?)?;
    }
    steps.push(last)?;
    let kind = chain_kind(certificate.kind());
    let first = certificate.first().copy()?;
    match Certificate::build(kind, 0, first, steps, Vec::new(alloc)) {
        Some(chain) => Ok(chain),
        None => unreachable!(),
    }
}
