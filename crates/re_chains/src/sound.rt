//! What is known of the problems of each certificate.
ghost use Rattle.re_chains.specs.Chains.{IsOverProblems};

use re_cert::Certificate;
use re_check::problems;

/// The problems of a certificate are problems. It goes once over the steps, and takes no memory.
pub fn over_problems(certificate: &Certificate)
    ensures { IsOverProblems certificate.now }
{
    let _first = certificate.first().active();
    problems(certificate.steps())
}
