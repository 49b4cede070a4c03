//! Tests of whole replays over memory: how they end, where limits lie, and a run at size. What is
//! answered to single commands is shown by the sessions under `examples/`.
#![tactic(auto)]

#[cfg(test)]
mod ends;
#[cfg(test)]
mod limits;
#[cfg(test)]
mod played;
#[cfg(test)]
mod sizes;
