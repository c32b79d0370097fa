//! Texts that are entered, and the texts of spaces.
ghost use Rattle.std.specs.Prelude.{◌≡◌, ◌≤◌, ◌<◌, ◌^◌, ◌++◌, ◌∷◌, [], ℕ, List, length, not, nat_le, false, None, Some, OnOk, IfOk};
ghost use Rattle.live_system.specs.Below.source_texts.specs.Sources.{most_lines, source_space};
ghost use Rattle.live_system.specs.Below.system_meaning.specs.Stores.{Store, entering_refusal, with_named, space_under};
ghost use Rattle.live_system.specs.Below.system_meaning.specs.Tasks.{Idle, Entering};
ghost use Rattle.live_system.specs.Below.system_meaning.specs.Systems.{Moment, on_system, does, doing, kept};
ghost use Rattle.live_system.specs.declared.what.SourceText.{SourceText};
ghost use Rattle.live_system.specs.declared.what.SourceText.TheVariants as sources;
ghost use Rattle.live_system.specs.Texts.{source_of, as_told};
ghost use Rattle.live_system.specs.Machines.{StandsAt};

use crate::below::of_named_texts::Source;
use crate::system::System;
use crate::what::SourceText;
use eu_base::{Bytes, NoMemory};
use live_packets::place_of;
use std::alloc::Global;
use task_numbers::{LONGEST_LINE, TaskNo};

impl System {
    /// An idle task begins to enter a text under a name.
    pub fn enter(&mut self, alloc: Global, task: TaskNo, name: &[u8]) -> Result<(), NoMemory>
        ensures { OnOk result ((m : Moment) (store : Store) → doing task m.system ≡ Some (Idle store) → entering_refusal name.now store ≡ None → StandsAt self.old m
            → StandsAt self.new (on_system (does task (Entering name.now [] store)) m)) }
    {
        match place_of(&self.desk, &self.tasks, task) {
            None => Ok(()),
            Some(place) => self.tasks.enter(alloc, place, name),
        }
    }

    /// Whether a text that is entered has room for a line more.
    pub fn has_room(&self, task: TaskNo) -> bool
        ensures { (m : Moment) (name : List ℕ) (lines : List (List ℕ)) (store : Store) → doing task m.system ≡ Some (Entering name lines store) → StandsAt self.now m
            → result ≡ not (nat_le most_lines (length lines)) }
    {
        match place_of(&self.desk, &self.tasks, task) {
            None => false,
            Some(place) => self.tasks.has_room(place),
        }
    }

    /// A text that is entered gets a line more, where it has room.
    pub fn add_line(&mut self, task: TaskNo, line: Bytes) -> Result<(), NoMemory>
        ensures { OnOk result ((m : Moment) (name : List ℕ) (lines : List (List ℕ)) (store : Store) → doing task m.system ≡ Some (Entering name lines store)
            → nat_le most_lines (length lines) ≡ false → length line ≤ LONGEST_LINE → StandsAt self.old m
            → StandsAt self.new (on_system (does task (Entering name (lines ++ line ∷ []) store)) m)) }
    {
        if line.as_slice().len() > LONGEST_LINE {
            return Ok(());
        }
        match place_of(&self.desk, &self.tasks, task) {
            None => Ok(()),
            Some(place) => self.tasks.add_line(place, line),
        }
    }

    /// A text that is entered ends, and becomes a space under its name.
    pub fn close_text(&mut self, alloc: Global, task: TaskNo) -> Result<(), NoMemory>
        ensures { OnOk result ((m : Moment) (name : List ℕ) (lines : List (List ℕ)) (store : Store) → doing task m.system ≡ Some (Entering name lines store) → StandsAt self.old m
            → StandsAt self.new (on_system (does task (Idle (with_named name (source_space lines) store))) m)) }
    {
        match place_of(&self.desk, &self.tasks, task) {
            None => Ok(()),
            Some(place) => self.tasks.close_text(alloc, place),
        }
    }

    /// A text that is entered is dropped.
    pub fn drop_text(&mut self, task: TaskNo)
        ensures { (m : Moment) (name : List ℕ) (lines : List (List ℕ)) (store : Store) → doing task m.system ≡ Some (Entering name lines store) → StandsAt self.old m
            → StandsAt self.new (on_system (does task (Idle store)) m) }
    {
        if let Some(place) = place_of(&self.desk, &self.tasks, task) {
            self.tasks.drop_text(place);
        }
    }

    /// The text of the space under a name; a text has less than 2^32 bytes.
    pub fn source_under(
        &mut self,
        alloc: Global,
        task: TaskNo,
        name: &[u8],
    ) -> Result<SourceText, NoMemory>
        ensures source { IfOk result (λ source. (m : Moment) → StandsAt self.old m → source ≡ source_of (space_under name.now (kept task m.system))) }
        ensures kept { (m : Moment) → StandsAt self.old m → StandsAt self.new m }
        ensures short { IfOk result (λ source. (text : List ℕ) → source ≡ sources.Text text → length text < 2 ^ 32) }
    {
        match place_of(&self.desk, &self.tasks, task) {
            None => Ok(SourceText::NoSpace),
            Some(place) => Ok(told(self.tasks.source_under(alloc, place, name)?)),
        }
    }
}

// The text of a space, as it is told.
fn told(source: Source) -> SourceText
    ensures { result ≡ as_told source }
{
    match source {
        Source::NoSpace => SourceText::NoSpace,
        Source::NoText => SourceText::NoText,
        Source::Text(text) => SourceText::Text(text),
    }
}
