//! How a command ends.
ghost use Rattle.std.specs.Prelude.{◌≡◌};
ghost use Rattle.line_command.specs.Status.{code_of_status};

/// How a command ends.
#[derive(Clone, Copy, PartialEq, Eq, Debug)]
pub enum Status {
    /// What the words asked for was done; a program that stopped, and a text that was refused, are answered so too.
    Done,
    /// The words name no command. Nothing was touched.
    BadWords,
    /// Memory was wanting. Nothing was put.
    NoMemory,
    /// The source failed before a whole line was taken. Nothing was put.
    SourceFault,
    /// The sink failed. A front of the output was put.
    SinkFault,
    /// The disk failed. No command uses one yet.
    DiskFault,
    /// The disk holds what is not of this system. No command uses one yet.
    Foreign,
    /// The line of this number, from 1, has more than 250 bytes. It was not run.
    BadLine(u32),
    /// The session has no room for more. There are none yet.
    SessionFull,
}

impl Status {
    /// The process's exit code.
    pub fn code(&self) -> u8
        ensures { result ≡ code_of_status self.now }
    {
        match self {
            Status::Done => 0,
            Status::BadWords => 1,
            Status::NoMemory => 2,
            Status::SourceFault => 3,
            Status::SinkFault => 4,
            Status::DiskFault => 5,
            Status::Foreign => 6,
            Status::BadLine(_) => 7,
            Status::SessionFull => 8,
        }
    }
}
