//! Chains of steps with one derived step more, and with their maps by rows.

ghost use Rattle.re_shaping.specs.StepLaws.{ByRowsLaw, RowFormLaw, StepLaw};

/// A sound chain stays sound with one step more, to the derived problem of its last problem: whatever its kind is, and whether its maps
/// are by sets or by rows.
pub fn step_law()
    ensures { StepLaw }
{}

/// A lower step with a map by sets is one with this map by rows: with the images of the rows by the entries.
pub fn row_form_law()
    ensures { RowFormLaw }
{}

/// A sound chain stays sound with its maps by rows.
pub fn by_rows_law()
    ensures { ByRowsLaw }
{}
