//! Definitions alone: the state of the editor, what an event does to it, and legal histories.
#![tactic(auto)]
