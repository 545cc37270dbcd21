//! Worked examples of TriG: sentences that are read, and such that are refused, for each production of the grammar.
#![tactic(auto)]

#[cfg(test)]
mod commands;
#[cfg(test)]
mod read;
#[cfg(test)]
mod refused;
#[cfg(test)]
mod trial;
