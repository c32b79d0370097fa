//! The packets of a task.

ghost use Rattle.std.specs.Prelude.{◌≡◌, ◌-◌, ◌∷◌, ◌++◌, [], length, IfOk};
ghost use Rattle.elan_judge.specs.Level.{packet_cells};
ghost use Rattle.type_names.specs.Types.{names_of, level_types as types_in, level_definitions};
ghost use Rattle.type_names.specs.Bodies.{names_in, headings_in};
ghost use Rattle.elan_check.specs.Packets as spec;
ghost use Rattle.elan_check.specs.walks.Shown as walks;

use crate::shown::export_names;
use crate::text_scope::{cells_of, exports_in, level_in};
use cell_kinds::Packet;
use elan_meant::row::both;
use elan_names::directory::Directory;
use elan_names::headings::Headings;
use elan_names::interface::{Inserted, Interface};
use elan_names::type_directory::TypeDirectory;
use elan_scope::env::Env;
use elan_tree::{Export, Level, Tree};
use elan_types::{Body, Core};
use elan_walk::definition::level_definitions;
use eu_base::{List, NoMemory, Shared};
use std::alloc::Global;
use type_names::bodies::{level_names, level_types};
use type_names::heading::headings;
use type_names::resolve::{Around, names_of};

/// No packets.
pub fn no_packets(alloc: Global) -> Env
    ensures { result ≡ spec.nothing }
{
    Env::new(alloc)
}

/// The same bodies once more.
pub fn shared(alloc: Global, bodies: &[Shared<Body>]) -> Result<List<Shared<Body>>, NoMemory>
    ensures { IfOk result (λ list. list ≡ bodies.now) }
{
    let mut list = List::new(alloc);
    for body in bodies {
        list.push(body.share()?)?;
    }
    Ok(list)
}

// What packets show, and before it what one more shows.
fn with_shown(
    alloc: Global,
    shown: Inserted,
    others: &[Inserted],
) -> Result<List<Inserted>, NoMemory>
    ensures { IfOk result (λ list. list ≡ shown ∷ others.now) }
{
    let mut list = List::new(alloc);
    list.push(shown)?;
    for packet in others {
        list.push(packet.try_clone()?)?;
    }
    Ok(list)
}

// The packet that shows this, behind these.
fn inserted_behind(env: &Env, interface: &Shared<Interface>) -> Result<Inserted, NoMemory>
    ensures { IfOk result (λ shown. shown ≡ record { interface = interface.now; bodies_before = length env.now.bodies; cells_before = length (packet_cells env.now) }) }
{
    let cells_before = cells_of(env.packets.as_slice())?;
    Ok(Inserted {
        interface: interface.share()?,
        bodies_before: env.bodies.len(),
        cells_before,
    })
}

// The variables of these packets, before which there are so many bodies, and behind them those of one with this core.
fn variables_after(
    alloc: Global,
    packets: &[Packet],
    before: usize,
    core: &Core,
    number: u32,
) -> Result<List<Packet>, NoMemory>
    ensures { IfOk result (λ list. list ≡ packets.now ++ record { number = number; variables = core.now.inserted; bodies = length core.now.bodies - before } ∷ []) }
{
    let packet = Packet {
        number,
        variables: core.inserted.try_clone(alloc)?,
        bodies: core.bodies.len().saturating_sub(before),
    };
    let mut packets = Packet::clone_all(packets, alloc)?;
    packets.push(packet)?;
    Ok(packets)
}

/// These packets, and behind them one with this core that shows this, under a number.
pub fn packets_after(
    alloc: Global,
    env: &Env,
    interface: &Shared<Interface>,
    core: &Core,
    number: u32,
) -> Result<Env, NoMemory>
    ensures { IfOk result (λ after. after ≡ spec.after env.now interface.now core.now number) }
{
    let names = interface.get().types.as_slice().len();
    let types = env.types.checked_add(names).ok_or(NoMemory)?;
    let shown = inserted_behind(env, interface)?;
    let inserted = with_shown(alloc, shown, env.inserted.as_slice())?;
    let packets = variables_after(
        alloc,
        env.packets.as_slice(),
        env.bodies.len(),
        core,
        number,
    )?;
    let bodies = shared(alloc, core.bodies.as_slice())?;
    Ok(Env {
        inserted,
        packets,
        bodies,
        types,
    })
}

// The names of types that a level declares itself.
fn own_types(alloc: Global, around: Around<'_>, level: &Level) -> Result<TypeDirectory, NoMemory>
    ensures { IfOk result (λ types. types ≡ names_of around.entry.first around.entry.names.now (level_definitions level.now)) }
{
    let definitions = level_definitions(alloc, level)?;
    names_of(alloc, around, definitions.as_slice())
}

// The names that a level declares, and its bodies.
fn declared_in(
    alloc: Global,
    around: Around<'_>,
    level: &Level,
) -> Result<(Directory, Headings), NoMemory>
    ensures { IfOk result (λ p. (p.0 ≡ names_in (types_in around.entry.first around.entry.names.now level.now) level.now)
        × (p.1 ≡ headings_in (types_in around.entry.first around.entry.names.now level.now) level.now)) }
{
    let seen = level_types(alloc, around, level)?;
    both(
        level_names(alloc, &seen, level),
        headings(alloc, &seen, level),
    )
}

// What is shown of a level.
fn shown_in(
    alloc: Global,
    around: Around<'_>,
    exports: &[Export],
    level: &Level,
) -> Result<Interface, NoMemory>
    ensures { IfOk result (λ interface. interface ≡ walks.shown_in around.entry.first around.entry.names.now exports.now level.now) }
{
    let (names, headings) = declared_in(alloc, around, level)?;
    let (exports, types) = both(
        export_names(alloc, exports),
        own_types(alloc, around, level),
    )?;
    Ok(Interface {
        exports,
        names,
        headings,
        types,
    })
}

/// What later texts see of a packet that is compiled after these.
pub fn interface_of(alloc: Global, env: &Env, tree: &Tree) -> Result<Interface, NoMemory>
    ensures { IfOk result (λ interface. interface ≡ spec.interface env.now tree.now) }
{
    let shown = env.shown_types(alloc)?;
    let around = Around {
        names: &shown,
        first: env.types,
    };
    shown_in(alloc, around, exports_in(tree), level_in(tree))
}
