//! The replay of a session script: its commands are told to a core one after another, and a line is
//! written for each.
#![tactic(auto)]

mod command_line;
mod cuts;
mod hooks;
mod replay;
mod report;
mod telling;
mod writing;

pub use command_line::run;
pub use cuts::even_end;
pub use hooks::{keep_hooks, keep_resolvers};
pub use replay::replay_alone;
pub use report::{Report, Status};
