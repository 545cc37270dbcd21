//! Worked examples of runs on one file: what the program answers, writes and notes.
#![tactic(auto)]

#[cfg(test)]
mod faults;
#[cfg(test)]
mod runs;
#[cfg(test)]
mod trials;
