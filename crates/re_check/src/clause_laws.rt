//! The clauses of the steps of certificates: which of them fails first.

ghost use Rattle.re_check.specs.ClauseLaws.{LowerClausesLaw, UpperClausesLaw, UpperStepLaw};

/// A lower step meets its clauses exactly where it is a lower step: the rows are the maximal rows of the passive constraint, the
/// entries have their sets, and the images of the rows and of the allowed multisets of the sets are configurations.
pub fn lower_clauses_law()
    ensures { LowerClausesLaw }
{}

/// An upper step that meets its clauses is an upper step with the sets of its entries.
pub fn upper_clauses_law()
    ensures { UpperClausesLaw }
{}

/// An upper step whose entries have sets meets its clauses exactly where it is an upper step with its map: the entries have the labels of
/// the next problem, each once and ascending, with sets of labels that aren't empty, and the images of the active configurations are good
/// rows, and from those of the passive ones some choice is active.
pub fn upper_step_law()
    ensures { UpperStepLaw }
{}
