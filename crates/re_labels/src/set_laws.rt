//! What the operations on sets, their numbers and sets of lists mean.
ghost use Rattle.re_labels.specs.SetLaws.{ListSetLaw, NumberLaw, SetLaw};

/// What the tests and operations of sets mean.
pub fn set_law()
    ensures { SetLaw }
{}

/// Sets and their numbers.
pub fn number_law()
    ensures { NumberLaw }
{}

/// The set of some lists has exactly them.
pub fn list_set_law()
    ensures { ListSetLaw }
{}
