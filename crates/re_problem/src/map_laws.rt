//! Maps between the labels of problems, each judged with its first violation.

ghost use Rattle.re_problem.specs.MapLaws.{RelaxesLaw, RenamesLaw, RestrictsLaw};

/// `relaxes` says yes exactly where the second problem is a relaxation of the first by the images.
pub fn relaxes_law()
    ensures { RelaxesLaw }
{}

/// `restricts` says yes exactly where the second problem is an upper step of the first with the sets, and no set is empty.
pub fn restricts_law()
    ensures { RestrictsLaw }
{}

/// `renames` says yes exactly where the second problem is the first under other labels.
pub fn renames_law()
    ensures { RenamesLaw }
{}
