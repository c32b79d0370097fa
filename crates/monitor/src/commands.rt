//! The forms of a line.

use containers::Bytes;

/// What a line is at an idle task.
#[derive(Drop)]
pub enum Form {
    /// No token.
    Blank,
    /// `enter ("x")`: the lines that follow are the text x.
    Enter(Bytes),
    /// `run ("x")`: the text x is run as a program.
    Run(Bytes),
    /// `insert ("x")`: the text x is inserted as a packet.
    Insert(Bytes),
    /// `list`: the names of the data spaces.
    Names,
    /// A line of no other form: the text of a program.
    Program,
}

/// What a line is at the supervisor.
#[derive(Drop)]
pub enum Command {
    /// No token.
    Blank,
    /// `begin ("x")` and `begin ("x", "f")`: a new task.
    Begin {
        /// Its name.
        name: Bytes,
        /// The name of its father: `PUBLIC`, where none is given.
        father: Bytes,
    },
    /// `continue ("x")`: the task x is coupled.
    Continue(Bytes),
    /// `halt`: the last task is coupled and its command stops.
    Halt,
    /// `task info`: the tasks.
    TaskInfo,
    /// `storage info`: how much there is of what is limited.
    StorageInfo,
    /// A line of no other form.
    Unknown,
}
