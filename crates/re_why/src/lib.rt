//! Why a certificate is refused: witnesses that show it, the lines that tell them, and the word `why`: the verdict on a certificate, and
//! behind a refusal what shows it.
#![tactic(auto)]

mod bad_choice;
mod end_witness;
mod explaining;
mod finding;
mod lines;
mod map_witness;
mod pieces;
mod refutations;
mod row_witness;
mod upper_witness;
mod witness;

ghost use Rattle.re_why.specs.Laws.{BackWitnessLaw, DegreesRefuteLaw, EndRefutesLaw, EndWitnessLaw, LabelWitnessLaw, MapRefutesLaw, MapWitnessLaw, RefutesLaw, RowWitnessLaw, RowsRefuteLaw, UpperRefutesLaw, UpperWitnessLaw};

pub use bad_choice::first_bad_choice;
pub use explaining::{Why, names_why, why_help};
pub use finding::{Refutation, why_refused};
pub use lines::push_witness;
pub use refutations::push_refutation;
pub use witness::{PortSets, Witness};

/// Where rows aren't the maximal rows, what is found shows it.
pub fn row_witness_law()
    ensures { RowWitnessLaw }
{}

/// Where a map of a lower step fails a clause, what is found shows it.
pub fn map_witness_law()
    ensures { MapWitnessLaw }
{}

/// Where entries don't have the labels of the next problem, what is found shows it.
pub fn label_witness_law()
    ensures { LabelWitnessLaw }
{}

/// Where the sets of the entries fail a clause of an upper step, what is found shows it.
pub fn upper_witness_law()
    ensures { UpperWitnessLaw }
{}

/// Where the last problem isn't as END asks, what is found shows it.
pub fn end_witness_law()
    ensures { EndWitnessLaw }
{}

/// Where a renaming doesn't go back, what is found shows it.
pub fn back_witness_law()
    ensures { BackWitnessLaw }
{}

/// Whatever shows that the degrees of the next problem are others refutes the clause of the degrees.
pub fn degrees_refute_law()
    ensures { DegreesRefuteLaw }
{}

/// Whatever shows that rows aren't the maximal rows refutes the clause of the rows.
pub fn rows_refute_law()
    ensures { RowsRefuteLaw }
{}

/// Whatever shows that a map of a lower step fails a clause refutes that clause, whatever the other clauses say.
pub fn map_refutes_law()
    ensures { MapRefutesLaw }
{}

/// Whatever shows that the entries of an upper step fail a clause refutes that clause, whatever the other clauses say.
pub fn upper_refutes_law()
    ensures { UpperRefutesLaw }
{}

/// Whatever shows that END or BACK fails refutes it.
pub fn end_refutes_law()
    ensures { EndRefutesLaw }
{}

/// Whatever shows that a clause of a certificate fails refutes the certificate, whoever found it.
pub fn refutes_law()
    ensures { RefutesLaw }
{}
