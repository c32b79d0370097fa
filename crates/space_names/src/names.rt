//! Names of data spaces.
ghost use Rattle.std.specs.Prelude.{◌≡◌, [], None, Some, slice_get, option_map, OnErr, OnOk, IfSome};
ghost use Rattle.std.specs.Option.{option_copied};
ghost use Rattle.space_names.specs.Directory as spec;

use containers::{Bytes, NoMemory};
use indexmap::IndexMap;
use std::alloc::Global;
use std::marker::Model;
use task_numbers::SpaceNo;

/// The names of a task's data spaces in order of entry, no two of them alike.
#[derive(Drop)]
pub struct Names {
    spaces: IndexMap<Vec<u8>, SpaceNo>,
}

impl Model for Names {
    ghost use Rattle.std.specs.Prelude.{List, ℕ};
    ghost use Rattle.task_numbers.specs.declared.number.SpaceNo.{SpaceNo};
    ghost use Rattle.space_names.specs.Entries.{directory_of};

    ghost Value = { List (List ℕ × SpaceNo) };

    ghost view = { λ names. directory_of names.spaces.entries };
}

impl Names {
    /// No names. It takes no memory before the first `put`.
    pub fn new(alloc: Global) -> Names
        ensures { result ≡ [] }
    {
        Names {
            spaces: IndexMap::new(alloc),
        }
    }

    /// A name that is free comes to the end. A refusal changes nothing.
    pub fn put(&mut self, name: Bytes, space: SpaceNo) -> Result<(), NoMemory>
        requires { spec.get name self.old ≡ None }
        ensures ok { OnOk result (self.new ≡ spec.put name space self.old) }
        ensures err { OnErr result (self.new ≡ self.old) }
    {
        let alloc = *self.spaces.allocator();
        let name = Vec::from_slice(alloc, name.as_slice())?;
        self.spaces.insert(name, space)?;
        Ok(())
    }

    /// The space under a name; `None` exactly where the name is free.
    pub fn get(&self, name: &[u8]) -> Option<SpaceNo>
        ensures { result ≡ spec.get name.now self.now }
    {
        self.spaces.get(name).copied()
    }

    /// Takes a name out, and gives the space that stood under it; `None` exactly where the name is free.
    pub fn take(&mut self, name: &[u8]) -> Option<SpaceNo>
        ensures space { result ≡ spec.get name.now self.old }
        ensures others { self.new ≡ spec.without name.now self.old }
    {
        self.spaces.shift_remove(name)
    }

    /// Takes all names of a space out; the others keep their order. It takes no memory.
    pub fn forget(&mut self, space: SpaceNo)
        ensures { self.new ≡ spec.without_space space.0 self.old }
    {
        self.spaces.retain(|_, other| other.0 != space.0);
    }

    /// The pair with this number in order of entry, from 0; `None` exactly past the last.
    pub fn entry(&self, k: u32) -> Option<(&[u8], SpaceNo)>
        ensures pair { option_map (λ entry. (entry.0.now, entry.1)) result ≡ slice_get self.now k }
        ensures only { IfSome result (λ entry. spec.get entry.0.now self.now ≡ Some entry.1) }
    {
        let (name, space) = self.spaces.get_index(k as usize)?;
        Some((name.as_slice(), *space))
    }
}
