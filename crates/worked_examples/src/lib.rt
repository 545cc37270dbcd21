//! Worked examples of calls: what the public calls of the crates answer to small inputs.
#![tactic(auto)]

#[cfg(test)]
mod arranged;
#[cfg(test)]
mod drafts;
#[cfg(test)]
mod edges;
#[cfg(test)]
mod escapes;
#[cfg(test)]
mod grammar;
#[cfg(test)]
mod hashes;
#[cfg(test)]
mod issuers;
#[cfg(test)]
mod references;
#[cfg(test)]
mod tokens;
