//! Why a search in the boxes of the rows of a list finds all maximal rows.

ghost use Rattle.re_boxes.specs.Boxes.{BoxesLaw};
ghost use Rattle.re_boxes.specs.Grown.{GrownLaw, LacksLaw};
ghost use Rattle.re_boxes.specs.Strength.{StrengthLaw};

/// A list of rows is the list of the maximal rows exactly where it is boxed.
pub fn boxes_law()
    ensures { BoxesLaw }
{}

/// The maximal rows are the good rows to which no label can be added.
pub fn grown_law()
    ensures { GrownLaw }
{}

/// A list none of whose rows dominates some good row is not the list of the maximal rows.
pub fn lacks_law()
    ensures { LacksLaw }
{}

/// Each label with those that are at least as strong: configurations stay when labels go up so.
pub fn strength_law()
    ensures { StrengthLaw }
{}
