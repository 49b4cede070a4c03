//! Tests of buffers that stand on one another, where no script reaches, and of hidden places. What
//! scripts reach is shown by the sessions under `examples/`.
#![tactic(auto)]

#[cfg(test)]
mod hidden;
#[cfg(test)]
mod stocks;
