//! The laws of views, each for every payload.
ghost use Rattle.re_laws.specs.ViewLaws.{AllViewsLaw, BranchwiseLaw, CommuteLaw, CutLaw, NeighbourLaw, PadLaw, ShiftLaw};

/// What is cut is a view of the smaller radius; a cut of a cut is the smaller cut; and a view cut to its
/// own radius is itself.
pub fn cut_law<E>()
    ensures { CutLaw E }
{}

/// The neighbour's view is a view of the other side, of a radius less by one.
pub fn neighbour_law<E>()
    ensures { NeighbourLaw E }
{}

/// From a neighbour back over the same edge stands the view itself, cut by two.
pub fn shift_law<E>()
    ensures { ShiftLaw E }
{}

/// A cut view, seen from the neighbour, is the neighbour's view, cut.
pub fn commute_law<E>()
    ensures { CommuteLaw E }
{}

/// A view that is grown and cut back is what it was.
pub fn pad_law<E>()
    ensures { PadLaw E }
{}

/// The list of all views has exactly them, each once, in the order of their back ports in preorder.
pub fn all_views_law()
    ensures { AllViewsLaw }
{}

/// Views of all neighbours over one view of a node are joined to a larger view of it.
pub fn branchwise_law()
    ensures { BranchwiseLaw }
{}
