//! The rests of a constraint's configurations, which are its configurations without one label, and the up-sets that they give.

ghost use Rattle.re_boxes.specs.Rests.{RestLaw};

/// A label is at least as strong as another one exactly where it completes each rest that the other one completes.
pub fn rest_law()
    ensures { RestLaw }
{}
