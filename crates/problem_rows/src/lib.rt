//! Worked rows of clauses, labels, configurations, constraints and maximal rows; of inputs, items, problems built by hand, maps as they are read, merged labels and
//! derived problems by their definition.
#![tactic(auto)]

#[cfg(test)]
mod allowed_rows;
#[cfg(test)]
mod configurations;
#[cfg(test)]
mod constraints;
#[cfg(test)]
mod diagrams;
#[cfg(test)]
mod families;
#[cfg(test)]
mod inputs;
#[cfg(test)]
mod items;
#[cfg(test)]
mod labels;
#[cfg(test)]
mod map_texts;
#[cfg(test)]
mod maximal_rows;
#[cfg(test)]
mod problems;
#[cfg(test)]
mod reference;
#[cfg(test)]
mod rests;
#[cfg(test)]
mod satisfied_clauses;
#[cfg(test)]
mod set_rows;
#[cfg(test)]
mod tables;
