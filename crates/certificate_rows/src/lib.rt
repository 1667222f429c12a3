//! Worked rows of certificates, their texts, their checks, and of searches; of views, of pools of views and of nets, of tables of algorithms, of the
//! places of views and of extracted algorithms.
#![tactic(auto)]

#[cfg(test)]
mod answer_tables;
#[cfg(test)]
mod certificate_texts;
#[cfg(test)]
mod certificates;
#[cfg(test)]
mod extractors;
#[cfg(test)]
mod joined_views;
#[cfg(test)]
mod lines;
#[cfg(test)]
mod nets;
#[cfg(test)]
mod places;
#[cfg(test)]
mod pools;
#[cfg(test)]
mod searches;
#[cfg(test)]
mod seen;
#[cfg(test)]
mod verdicts;
#[cfg(test)]
mod views;
