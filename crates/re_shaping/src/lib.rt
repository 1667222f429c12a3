//! Chains of steps that are shaped: one derived step more, two labels of the last problem become one, a label goes or gets another name, maps by rows,
//! parts in order; the steps that searches find; and renamings of labels that make a problem another one. Each keeps a sound chain sound.
#![tactic(auto)]

mod along;
mod building;
mod colour_laws;
mod coloured;
mod colours;
mod dropping;
mod extending;
mod finding;
mod last_step;
mod lists;
mod marks;
mod merging;
mod naming;
mod refusal;
mod relaxing;
mod routing;
mod row_form;
mod sending;
mod step_laws;
mod stepping;
mod tidying;

ghost use Rattle.re_shaping.specs.Laws.{DerivedRelaxationLaw, DropLaw, MergeLaw, NameLaw, RelaxedStepLaw};
ghost use Rattle.re_shaping.specs.Ordered.{OrderLaw, SoundOrderLaw, ValidOrderLaw};

pub use along::{Stop, steps_along};
pub use colour_laws::{colours_law, moved_mark_law};
pub use coloured::Coloured;
pub use dropping::drop_label;
pub use extending::{Extension, are_small, extended, joined, repeated};
pub use finding::{MAX_TRIES, Renaming, are_below, renaming_to};
pub use marks::{config_mark, label_mark, mixed, moved_mark, problem_mark};
pub use merging::{first_merged, merge, merge_lower};
pub use naming::name_label;
pub use refusal::{ChainFault, MergeFault, Refusal};
pub use relaxing::{relaxed_step, top_labels};
pub use routing::{Route, route_steps, takes_merges};
pub use row_form::by_rows;
pub use step_laws::{by_rows_law, row_form_law, step_law};
pub use stepping::{ChainStepFault, lower_map, step, step_lower};
pub use tidying::tidy;

/// A lower step leads, with its map sent along, to each relaxation of its next problem.
pub fn relaxed_step_law()
    ensures { RelaxedStepLaw }
{}

/// A lower step leads from a problem to the derived problem of each of its relaxations: each maximal row goes, place by place, to the first
/// maximal row of the relaxation that dominates its image.
pub fn derived_relaxation_law()
    ensures { DerivedRelaxationLaw }
{}

/// A sound lower chain stays sound, whichever two labels of its last problem become one; without a step, of its first problem.
pub fn merge_law()
    ensures { MergeLaw }
{}

/// A sound upper chain stays sound, whichever label of its last problem goes.
pub fn drop_law()
    ensures { DropLaw }
{}

/// A sound chain stays sound, whatever a label of its last problem is called.
pub fn name_law()
    ensures { NameLaw }
{}

/// What `tidy` does: each list has the elements that it had, in its order; where each row has an image, the images of a map by rows go
/// with their rows; nothing else changes. A valid certificate stays valid, and a sound chain sound.
pub fn tidy_law()
    ensures order { OrderLaw }
    ensures valid { ValidOrderLaw }
    ensures sound { SoundOrderLaw }
{}
