//! Numbers that are given once and never again.
ghost use Rattle.std.specs.Prelude.{◌≡◌};
ghost use Rattle.task_numbers.specs.Numbers.{is_nil, is_task};

/// The number of a task, from 1 to 4,294,967,295; 0 is niltask, which no task has.
#[derive(Clone, Copy, PartialEq, Eq)]
pub struct TaskNo(pub u32);

/// The number of a data space of a task, from 1 to 4,294,967,295; 0 is that of no space.
#[derive(Clone, Copy, PartialEq, Eq)]
pub struct SpaceNo(pub u32);

impl TaskNo {
    /// The number that no task has.
    pub const NIL: TaskNo = TaskNo(0);

    /// Whether no task has this number, whatever lives.
    pub fn is_nil(self) -> bool
        ensures { result ≡ is_nil self }
    {
        self == TaskNo::NIL
    }

    /// Whether this is the number of that task.
    pub fn is(self, other: TaskNo) -> bool
        ensures { result ≡ is_task self other }
    {
        self == other
    }
}
