//! The word `input`, input problems of the field: colourings of nodes and edges, sides, orientations; and products with input problems.
#![tactic(auto)]

mod input_words;
mod kinds;
mod making;
mod pairing;
mod products;

ghost use Rattle.re_inputs.specs.NamedInputs.{ColouringFamilyLaw, InputsLaw, NamedInputsLaw};
ghost use Rattle.re_inputs.specs.NamedProducts.{NamedProductLaw};

pub use input_words::{InputWord, input_help, input_output, input_word};
pub use kinds::{InputKind, fits};
pub use making::{exchanged, input};
pub use products::{ProductFault, pair_name, product};

/// Each of them is an input problem of each problem of its degrees.
pub fn inputs_law()
    ensures { InputsLaw }
{}

/// Each of them, without its names, is the input problem of its kind that the laws of `re_given` speak of.
pub fn named_inputs_law()
    ensures { NamedInputsLaw }
{}

/// The colouring of the family is the proper colouring that the laws of `re_given` speak of.
pub fn colouring_family_law()
    ensures { ColouringFamilyLaw }
{}

/// Given the input problem, the product with names is solvable in as many rounds as the problem.
pub fn named_product_law()
    ensures { NamedProductLaw }
{}
