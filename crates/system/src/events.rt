//! Events.
ghost use Rattle.std.specs.Prelude.{◌≡◌, ◌++◌, ◌≤◌, ℕ, Bool, List, IfOk, OnOk};
ghost use Rattle.system.specs.Below.elan_scope.specs.declared.env.Env.{Env};
ghost use Rattle.system.specs.Below.terminals.specs.Channels as channels;
ghost use Rattle.system.specs.Below.system_meaning.specs.Systems as source;
ghost use Rattle.system.specs.Below.system_meaning.specs.Monitor.{Reading};
ghost use Rattle.system.specs.Below.packet_store.specs.Readings.{IsReading};
ghost use Rattle.system.specs.Below.system_meaning.specs.Supervisor.{called};
ghost use Rattle.system.specs.Below.system_meaning.specs.Events as spec;
ghost use Rattle.system.specs.Below.live_system.specs.Machines.{StandsAt};
ghost use Rattle.system.specs.Systems.{Stands, StandsFor, IsShort};

use crate::lines::line_at;
use crate::turns::turns;
use eu_base::{Bytes, NoMemory};
use session_text::Event;
use std::alloc::Global;
use supervisor::call;
use task_requests::System;
use turn_laws::waits;

/// UR and PUBLIC, idle, and no channel coupled.
pub fn opening(alloc: Global) -> Result<System, NoMemory>
    ensures { IfOk result (λ system. StandsFor system source.opening) }
{
    waits();
    System::opening(alloc)
}

/// An event happens, and what it shows is appended, in the plain form or the other. An event at another channel than 1 to 4 is none.
pub fn event(
    alloc: Global,
    system: &mut System,
    event: &Event,
    plain: bool,
    out: &mut Bytes,
) -> Result<(), NoMemory>
    ensures after { OnOk result ((read : Env → Bool → List ℕ → Reading) → IsReading read → (s : source.System) → IsShort event.now → StandsFor system.old s
        → StandsFor system.new (spec.after read s event.now)) }
    ensures shown { OnOk result ((read : Env → Bool → List ℕ → Reading) → IsReading read → (s : source.System) → IsShort event.now → StandsFor system.old s
        → out.new ≡ out.old ++ spec.shown read plain s event.now) }
{
    whole(alloc, system, event)?;
    system.render(plain, out)?;
    out.append(point_shown(event))?;
    Ok(())
}

/// An event from its beginning to its end.
fn whole(alloc: Global, system: &mut System, event: &Event) -> Result<(), NoMemory>
    ensures { OnOk result ((read : Env → Bool → List ℕ → Reading) → IsReading read → (s : source.System) → IsShort event.now → StandsFor system.old s
        → Stands system.new (spec.whole read s event.now)) }
{
    system.law();
    waits();
    system.begin_event()?;
    happens(alloc, system, event)?;
    system.close_all()?;
    Ok(())
}

/// What happens in the course of an event.
fn happens(alloc: Global, system: &mut System, event: &Event) -> Result<(), NoMemory>
    ensures { OnOk result ((read : Env → Bool → List ℕ → Reading) → IsReading read → (m : source.Moment) → IsShort event.now → Stands system.old m
        → StandsAt system.new (spec.happens read event.now m)) }
{
    match event {
        Event::Line { channel, text } => line_at(alloc, system, *channel, text.as_slice()),
        Event::Supervisor(channel) => call_at(system, *channel),
        Event::Turns(number) => turns(alloc, system, *number),
        Event::Fixpoint => Ok(()),
        Event::Shut => Ok(()),
    }
}

/// The supervisor is called at a channel.
fn call_at(system: &mut System, channel: u8) -> Result<(), NoMemory>
    ensures { OnOk result ((m : source.Moment) → 1 ≤ channel → channel ≤ 4 → StandsAt system.old m
        → StandsAt system.new (called (channels.channel channel m.system.shared.channels).task channel m)) }
{
    if channel < 1 {
        return Ok(());
    }
    if channel > 4 {
        return Ok(());
    }
    call(system, channel)
}

/// What a fixpoint shows.
fn point_shown(event: &Event) -> &'static [u8]
    ensures { result.now ≡ spec.point_shown event.now }
{
    match event {
        Event::Fixpoint => b"! fixpoint\n",
        Event::Shut => b"! fixpoint\n",
        Event::Line { .. } => b"",
        Event::Supervisor(_) => b"",
        Event::Turns(_) => b"",
    }
}
