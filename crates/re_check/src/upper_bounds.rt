//! What an accepted upper bound is made of.
ghost use Rattle.re_check.specs.UpperBounds.{IsUpperWhereAccepted, UpperLaw};

use crate::checking::problems;
use re_cert::Certificate;

/// A certificate that is accepted as an upper bound has upper steps alone, and they lead to a problem that is Zero. So it gives an
/// algorithm (`re_laws::extract_law`).
pub fn upper_law()
    ensures { UpperLaw }
{}

/// The same of a certificate in memory. It goes once over the steps, and takes no memory.
pub fn upper_steps(certificate: &Certificate)
    ensures { IsUpperWhereAccepted certificate.now }
{
    let _first = certificate.first().active();
    problems(certificate.steps());
}
