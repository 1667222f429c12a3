//! The form of the maps of steps, and their number.
ghost use Rattle.re_cert.specs.Bounds.{has_row_maps};
ghost use Rattle.std.specs.Prelude.{◌≡◌, length, suc};

use re_cert::{Certificate, Step, is_by_row};

/// Whether some step has a map by rows.
pub fn have_row_maps(steps: &[Step]) -> bool
    ensures { result ≡ has_row_maps steps.now }
{
    steps.iter().any(|step| is_by_row(step))
}

/// The number of the step that would come next.
pub fn next_number(certificate: &Certificate) -> u8
    ensures { result ≡ suc (length certificate.now.steps) }
{
    certificate.steps().len() as u8 + 1
}
