//! The directory of a task.
ghost use Rattle.std.specs.Prelude.{◌≡◌, None, Some, slice_get, option_map, OnErr, OnOk, IfSome};
ghost use Rattle.space_memory.specs.Live.{IsLive};
ghost use Rattle.space_names.specs.Directory as directory;

use crate::space_memory::SpaceMemory;
use eu_base::{Bytes, NoMemory};
use task_numbers::SpaceNo;

impl SpaceMemory {
    /// Enters a name that is free for a live space; it comes last in the directory. A refusal changes nothing.
    pub fn name(&mut self, name: &[u8], s: SpaceNo) -> Result<(), NoMemory>
        requires free { directory.get name.now self.old.names ≡ None }
        requires live { IsLive s.0 self.old.spaces }
        ensures ok { OnOk result (self.new ≡ record self.old { names = directory.put name.now s self.old.names }) }
        ensures err { OnErr result (self.new ≡ self.old) }
    {
        match Bytes::from(self.alloc, name) {
            Ok(name) => match self.names.put(name, s) {
                Ok(()) => Ok(()),
                Err(refusal) => Err(refusal),
            },
            Err(refusal) => Err(refusal),
        }
    }

    /// The number of the space under a name, which lives; `None` exactly where the name is free.
    pub fn named(&self, name: &[u8]) -> Option<SpaceNo>
        ensures space { result ≡ directory.get name.now self.now.names }
        ensures live { IfSome result (λ s. IsLive s.0 self.now.spaces) }
    {
        self.names.get(name)
    }

    /// Takes a name out of the directory; where it is free, nothing changes. Its space stays.
    pub fn unname(&mut self, name: &[u8])
        ensures { self.new ≡ record self.old { names = directory.without name.now self.old.names } }
    {
        self.names.take(name);
    }

    /// The `k`-th entry of the directory in order of entry, from 0; `None` exactly past the last.
    pub fn entry(&self, k: u32) -> Option<(&[u8], SpaceNo)>
        ensures pair { option_map (λ entry. (entry.0.now, entry.1)) result ≡ slice_get self.now.names k }
        ensures only { IfSome result (λ entry. directory.get entry.0.now self.now.names ≡ Some entry.1) }
        ensures live { IfSome result (λ entry. IsLive entry.1.0 self.now.spaces) }
    {
        self.names.entry(k)
    }
}
