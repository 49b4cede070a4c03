//! Tests of texts and of tracking: that calls succeed where there is memory, and what they answer to
//! inputs whose answers were worked out by hand. What a contract pins isn't tested again.
#![tactic(auto)]

#[cfg(test)]
mod bases;
#[cfg(test)]
mod changes;
#[cfg(test)]
mod hooks;
#[cfg(test)]
mod lines;
#[cfg(test)]
mod outside;
#[cfg(test)]
mod plain_types;
#[cfg(test)]
mod regions;
#[cfg(test)]
mod texts;
#[cfg(test)]
mod tracking;
#[cfg(test)]
mod trees;
#[cfg(test)]
mod turns;
#[cfg(test)]
mod units;
#[cfg(test)]
mod versions;
