//! Worked examples of calls on documents: by node, and whole.
#![tactic(auto)]

#[cfg(test)]
mod calls;
#[cfg(test)]
mod documents;
#[cfg(test)]
mod forms;
#[cfg(test)]
mod groups;
#[cfg(test)]
mod outputs;
