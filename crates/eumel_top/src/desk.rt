//! The system of a session, which serves its lines.
ghost use Rattle.std.specs.Prelude.{◌≡◌, ◌+◌, ◌<◌, ◌≤◌, ℕ, List, length, Err, None, IfOk, IfErr, OnOk};
ghost use Rattle.eu_base.specs.Faults.{Rose};
ghost use Rattle.session_text.specs.Lines.{events_of};
ghost use Rattle.session_lines.specs.declared.reader.TheConstants.{LONGEST};
ghost use Rattle.session_lines.specs.Sessions.{shuts};
ghost use Rattle.eumel_top.specs.Below.system_meaning.specs.Systems.{opening};
ghost use Rattle.system.specs.Systems.{StandsFor};
ghost use Rattle.eumel_top.specs.Causes.{HasLineCause};
ghost use Rattle.eumel_top.specs.Serving as spec;

use crate::LineFault;
use crate::put::{put_bad_line, put_whole};
use edge::Sink;
use eu_base::{Bytes, NoMemory};
use session_lines::{MOST_LINES, shuts};
use session_text::{Event, LineError, event};
use std::alloc::Global;
use system::System;

/// The system of a session, which shows what it shows in the plain form or in that with channels.
#[derive(Drop)]
pub struct Desk {
    system: System,
    plain: bool,
    // the lines that were served
    count: u32,
}

impl Desk {
    /// The system at its opening.
    pub fn opening(alloc: Global, plain: bool) -> Result<Desk, NoMemory>
        ensures stands { IfOk result (λ desk. StandsFor desk.system opening) }
        ensures plain { IfOk result (λ desk. desk.plain ≡ plain) }
        ensures count { IfOk result (λ desk. desk.count ≡ 0) }
    {
        Ok(Desk {
            system: system::opening(alloc)?,
            plain,
            count: 0,
        })
    }

    /// Serves the next line: each of its events in turn, and puts what it shows before the next. Whether the line shuts the session.
    /// Once it was refused the desk is spent.
    pub fn line<K: Sink>(
        &mut self,
        alloc: Global,
        line: &[u8],
        sink: &mut K,
    ) -> Result<bool, LineFault>
        requires more { self.old.count < MOST_LINES }
        ensures served { IfOk result (spec.Serves self.old self.new line.now (K.taken sink.old) (K.taken sink.new)) }
        ensures refused { IfErr result (spec.Refuses self.old line.now (K.taken sink.old) (K.taken sink.new)) }
        ensures counted { self.new.count ≡ self.old.count + 1 }
        ensures plain { self.new.plain ≡ self.old.plain }
        // The sink is blamed only where its faults rose in this call, the line only where it is of no form.
        ensures cause { IfErr result (HasLineCause (events_of self.old.plain line.now ≡ None) (Rose (K.faults sink.old) (K.faults sink.new))) }
        ensures later { K.faults sink.old ≤ K.faults sink.new }
        // Where no count rose, the answer follows from the line, or memory was wanting.
        ensures settles { ¬ Rose (K.faults sink.old) (K.faults sink.new) → spec.Settles self.old line.now result }
    {
        self.count += 1;
        match event(alloc, line, self.plain) {
            Ok(events) => self.serve(alloc, events.as_slice(), sink),
            Err(LineError::BadLine) => Err(put_bad_line(alloc, self.count, sink)),
            Err(LineError::NoMemory) => Err(LineFault::NoMemory),
        }
    }

    /// The same of a line that is longer than a line can be, whose bytes nobody has: it is of no form.
    pub fn too_long<K: Sink>(&mut self, alloc: Global, sink: &mut K) -> LineFault
        requires more { self.old.count < MOST_LINES }
        ensures refused { (line : List ℕ) → LONGEST < length line → spec.Refuses self.old line (K.taken sink.old) (K.taken sink.new) result }
        ensures counted { self.new.count ≡ self.old.count + 1 }
        ensures plain { self.new.plain ≡ self.old.plain }
        ensures cause { HasLineCause (Unit {0}) (Rose (K.faults sink.old) (K.faults sink.new)) result }
        ensures later { K.faults sink.old ≤ K.faults sink.new }
        ensures settles { (line : List ℕ) → LONGEST < length line → ¬ Rose (K.faults sink.old) (K.faults sink.new) → spec.Settles self.old line (Err result) }
    {
        self.count += 1;
        put_bad_line(alloc, self.count, sink)
    }

    /// Whether so many lines were served as a session has at most.
    pub fn is_full(&self) -> bool
        ensures { result ≡ spec.is_full self.now }
    {
        self.count >= MOST_LINES
    }

    /// Lets it go, with its system.
    pub fn let_go(self) {
        self.system.let_go();
    }

    /// Serves events one after another. Whether they shut the session.
    fn serve<K: Sink>(
        &mut self,
        alloc: Global,
        events: &[Event],
        sink: &mut K,
    ) -> Result<bool, LineFault>
        ensures answer { IfOk result (λ shut. shut ≡ shuts events.now) }
        ensures served { OnOk result (spec.ServesEvents self.old self.new events.now (K.taken sink.old) (K.taken sink.new)) }
        ensures refused { IfErr result (spec.RefusesEvents self.old events.now (K.taken sink.old) (K.taken sink.new)) }
        ensures counted { self.new.count ≡ self.old.count }
        ensures plain { self.new.plain ≡ self.old.plain }
        ensures cause { IfErr result (HasLineCause ⊥ (Rose (K.faults sink.old) (K.faults sink.new))) }
        ensures later { K.faults sink.old ≤ K.faults sink.new }
    {
        'events: for event in events {
            if let Err(fault) = self.event(alloc, event, sink) {
                return Err(fault);
            }
        }
        Ok(shuts(events))
    }

    /// Serves an event, and then puts what it shows.
    fn event<K: Sink>(
        &mut self,
        alloc: Global,
        event: &Event,
        sink: &mut K,
    ) -> Result<(), LineFault>
        ensures served { OnOk result (spec.ServesEvent self.old self.new event.now (K.taken sink.old) (K.taken sink.new)) }
        ensures refused { IfErr result (spec.RefusesEvent self.old event.now (K.taken sink.old) (K.taken sink.new)) }
        ensures counted { self.new.count ≡ self.old.count }
        ensures plain { self.new.plain ≡ self.old.plain }
        ensures cause { IfErr result (HasLineCause ⊥ (Rose (K.faults sink.old) (K.faults sink.new))) }
        ensures later { K.faults sink.old ≤ K.faults sink.new }
    {
        let mut out = Bytes::new(alloc);
        let Ok(()) = system::event(alloc, &mut self.system, event, self.plain, &mut out) else {
            return Err(LineFault::NoMemory);
        };
        put_whole(sink, out.as_slice())
    }
}
