//! Certificates of a chain and the steps behind it.
ghost use Rattle.re_cert.specs.Bounds.{built, last_problem};
ghost use Rattle.re_cert.specs.declared.certificate.Kind.TheVariants.{Lower};
ghost use Rattle.re_shaping.specs.Extensions.{AreSmall, GoesOn, continued};
ghost use Rattle.re_problem.specs.NamedProblems.{unnamed};
ghost use Rattle.re_problem.specs.Zero.{zero_place};
ghost use Rattle.std.specs.Prelude.{◌≡◌, ◌≤◌, ◌↔◌, IfOk, IfSome, IsTrue, None, length};

use re_cert::{Certificate, Kind, Step};
use re_chains::{LowerChain, copied_steps, over_problems};
use re_check::{Verdict, check};
use re_labels::NoMemory;
use std::alloc::Global;

/// What is to stand behind a chain: steps, and the kind of the whole with what a fixed point has more.
#[derive(Drop)]
pub struct Extension {
    /// The kind.
    pub kind: Kind,
    /// The number of the problem to which a fixed point goes back, else 0.
    pub back: u8,
    /// The steps behind those of the chain.
    pub steps: Vec<Step>,
    /// The renaming by which a fixed point goes back, else no pairs.
    pub renaming: Vec<(u8, u8)>,
}

/// The certificate of the chain and what stands behind it, where they make one.
pub fn joined(
    alloc: Global,
    chain: &Certificate,
    extension: Extension,
) -> Result<Option<Certificate>, NoMemory>
    ensures { IfOk result (λ found. found ≡ built (continued chain.now extension)) }
{
    let Extension {
        kind,
        back,
        steps: more,
        renaming,
    } = extension;
    let first = chain.first().copy()?;
    let mut more = more;
    let mut steps = copied_steps(alloc, chain.steps())?;
    steps.append(&mut more)?;
    Ok(Certificate::build(kind, back, first, steps, renaming))
}

/// Whether each step leads to a problem of at most so many labels.
pub fn are_small(steps: &[Step], labels: u8) -> bool
    ensures { IsTrue result ↔ AreSmall labels steps.now }
{
    let [step, others @ ..] = steps else {
        return true;
    };
    step.next().names().len() <= labels as usize && are_small(others, labels)
}

/// The certificate of the chain and what is to stand behind it. None exactly where this doesn't go on from the chain: where the steps are
/// more than `most`, one of them leads to a problem of more labels than `labels`, the whole makes no certificate, or `check` refuses it.
/// Its cost is that of `check`.
pub fn extended(
    alloc: Global,
    chain: &Certificate,
    extension: Extension,
    most: u8,
    labels: u8,
) -> Result<Option<Certificate>, NoMemory>
    ensures goes_on { IfOk result (λ found. IfSome found (GoesOn extension.kind most labels chain.now)) }
    ensures whole { IfOk result (λ found. IfSome found (λ bound. bound ≡ continued chain.now extension)) }
    ensures none { IfOk result (λ found. found ≡ None → GoesOn extension.kind most labels chain.now (continued chain.now extension) → ⊥) }
{
    if extension.steps.len() > most as usize {
        return Ok(None);
    }
    if !are_small(extension.steps.as_slice(), labels) {
        return Ok(None);
    }
    let Some(certificate) = joined(alloc, chain, extension)? else {
        return Ok(None);
    };
    over_problems(&certificate);
    match check(&certificate) {
        Verdict::Accepted { .. } => Ok(Some(certificate)),
        Verdict::Refused { .. } => Ok(None),
    }
}

/// The chain as it is. Its cost is that of `check`.
pub fn repeated(
    alloc: Global,
    chain: &LowerChain,
    most: u8,
    labels: u8,
) -> Result<Certificate, NoMemory>
    requires { zero_place (unnamed (last_problem chain.now.certificate)) ≡ None }
    ensures goes_on { IfOk result (GoesOn Lower most labels chain.now.certificate) }
    ensures same { IfOk result (λ bound. bound ≡ chain.now.certificate) }
{
    let chain = &chain.certificate;
    let _kind = chain.kind();
    let extension = Extension {
        kind: Kind::Lower,
        back: 0,
        steps: Vec::new(alloc),
        renaming: Vec::new(alloc),
    };
    let certificate = match joined(alloc, chain, extension)? {
        Some(certificate) => certificate,
        None => unreachable!(),
    };
    over_problems(&certificate);
    let _verdict = check(&certificate);
    Ok(certificate)
}
