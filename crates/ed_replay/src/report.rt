//! What a replay answers.
ghost use Rattle.std.specs.Prelude.{◌≡◌};
ghost use Rattle.ed_replay.specs.Exit.{exit_code};

use ed_entry::Entry;
use ed_script::BadKind;

/// How a replay ended.
#[derive(Clone, Copy, Debug, PartialEq, Eq)]
pub enum Status {
    /// The input was read to its end, and all was written.
    Done,
    /// The words ask for nothing that is known. Nothing was read or written.
    Usage,
    /// The script has a bad line, counted from 1. What stands before it was done.
    BadScript { line: u32, kind: BadKind },
    /// A read failed. Nothing was done.
    ReadFault,
    /// A write failed. A beginning of the output was written.
    WriteFault,
    /// Memory was refused. A beginning of the output was written.
    Memory,
}

impl Status {
    /// The exit status of a program that ends so.
    pub fn exit_code(self) -> u8
        ensures { result ≡ exit_code self }
    {
        match self {
            Status::Done => 0,
            Status::Usage => 2,
            Status::BadScript { line: _, kind: _ } => 3,
            Status::ReadFault => 4,
            Status::WriteFault => 5,
            Status::Memory => 6,
        }
    }
}

/// How a replay ended, and its history.
#[derive(Drop)]
pub struct Report {
    pub status: Status,
    pub entries: Vec<Entry>,
}
