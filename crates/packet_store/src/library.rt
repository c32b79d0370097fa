//! The live packets.

ghost use Rattle.std.specs.List.{list_any};
ghost use Rattle.std.specs.Prelude.{◌≡◌, ◌==◌, ◌+◌, ◌<◌, ◌^◌, ◌↔◌, ◌++◌, ◌∷◌, [], true, Err, Some, length, option_map, is_some, IfErr, IfOk, OnErr, OnOk};
ghost use Rattle.packet_store.specs.Below.elan_names.specs.declared.interface.Interface as interfaces;
ghost use Rattle.units.specs.Packets.{after};
ghost use Rattle.elan_check.specs.Packets.{AreCompiled};
ghost use Rattle.packet_store.specs.declared.error.InstallError.TheVariants as install_errors;
ghost use Rattle.packet_store.specs.Meaning.{IsCause};
ghost use Rattle.packet_store.specs.Units.{IsUnitOf};
ghost use Rattle.units.specs.Library as spec;

use crate::below::of_cell_kinds::Packet;
use crate::compile::{compile_behind, start_behind};
use crate::error::{CompileError, InstallError};
use crate::unit::{Loaded, Unit};
use elan_check::{no_packets, packets_after};
use elan_scope::env::Env;
use eu_base::{NoMemory, Shared};
use std::alloc::Global;
use std::marker::Model;
use std::mem;
use units::{LAST_NUMBER, PACKETS};

/// A live packet.
#[derive(Drop)]
pub struct Live {
    number: u32,
    unit: Loaded,
    after: Shared<Env>,
}

/// The live packets, and the last number that was given.
#[derive(Drop)]
pub struct Library {
    live: Vec<Live>,
    last: u32,
}

impl Model for Live {
    ghost use Rattle.units.specs.Library as spec;
    ghost use Rattle.elan_check.specs.Packets.{AreCompiled};
    ghost use Rattle.std.specs.Coded.{codes};
    ghost use Rattle.packet_store.specs.Below.elan_names.specs.contracts.interface.Interface as interfaces;
    ghost use Rattle.elan_scope.specs.contracts.env.Env as envs;
    ghost use Rattle.elan_types.specs.contracts.core_phrase.Core as cores;

    ghost Value = { spec.Live };

    ghost coded = { Prim.hlevel (codes, envs.the_row.coded, cores.the_row.coded, interfaces.the_row.coded) };

    ghost view = { λ live. record { number = live.number; unit = live.unit; after = live.after } };

    ghost invariant = { λ live. AreCompiled live.after };
}

impl Model for Library {
    ghost use Rattle.units.specs.Library as spec;
    ghost use Rattle.std.specs.Coded.{codes};
    ghost use Rattle.packet_store.specs.Below.elan_names.specs.contracts.interface.Interface as interfaces;
    ghost use Rattle.elan_scope.specs.contracts.env.Env as envs;
    ghost use Rattle.elan_types.specs.contracts.core_phrase.Core as cores;

    ghost Value = { spec.Library };

    ghost coded = { Prim.hlevel (codes, envs.the_row.coded, cores.the_row.coded, interfaces.the_row.coded) };

    ghost view = { λ library. record { live = library.live.items; last = library.last } };

    ghost invariant = { λ library. spec.IsLibrary (record { live = library.live.items; last = library.last }) };
}

// What stands behind a packet that gets this number.
fn after_it(alloc: Global, unit: &Loaded, number: u32) -> Result<Shared<Env>, NoMemory>
    requires { is_some unit.now.shown ≡ true }
    ensures after { (i : interfaces.Interface) → unit.now.shown ≡ Some i → IfOk result (λ made. made ≡ after unit.now.packets i unit.now.core number) }
    ensures compiled { IfOk result AreCompiled }
{
    let compiled = unit.compiled();
    match &compiled.shown {
        None => unreachable!(),
        Some(interface) => {
            let packets = compiled.packets.get();
            let after = packets_after(alloc, packets, interface, &compiled.core, number)?;
            Shared::new(alloc, after)
        }
    }
}

fn is_among(numbers: &[u32], packet: u32) -> bool
    ensures { result ≡ list_any (λ n. n == packet) numbers.now }
{
    for number in numbers {
        if *number == packet {
            return true;
        }
    }
    false
}

// A live packet with this number, of a unit that shows something. The unit is let go where memory is wanted.
fn live_with(alloc: Global, unit: Loaded, number: u32) -> Result<Live, NoMemory>
    requires { is_some unit.shown ≡ true }
    ensures { (i : interfaces.Interface) → unit.shown ≡ Some i
        → IfOk result (λ live. live ≡ record { number = number; unit = unit; after = after unit.packets i unit.core number }) }
{
    match after_it(alloc, &unit, number) {
        Ok(after) => Ok(Live {
            number,
            unit,
            after,
        }),
        Err(refusal) => {
            unit.let_go();
            Err(refusal)
        }
    }
}

// It looks at nothing in an item, so that how one is let go where memory is refused is no part of its proof.
fn add<T: Drop>(list: &mut Vec<T>, item: T) -> Result<(), NoMemory>
    ensures added { OnOk result (list.new.items ≡ list.old.items ++ item ∷ []) }
    ensures refused { OnErr result (list.new.items ≡ list.old.items) }
{
    match list.push(item) {
        Ok(()) => Ok(()),
        Err(_refusal) => Err(NoMemory),
    }
}

impl Live {
    /// Its unit, lent.
    pub fn unit(&self) -> &Loaded
        ensures { result.now ≡ self.now.unit }
    {
        &self.unit
    }

    // The packets behind which it was compiled, and it under its number: each was compiled behind those before it.
    fn after(&self) -> &Shared<Env>
        ensures after { result.now ≡ self.now.after }
        ensures compiled { AreCompiled result.now }
    {
        &self.after
    }
}

impl Library {
    /// No packets.
    pub fn new(alloc: Global) -> Library
        ensures { result ≡ spec.none_live }
    {
        Library {
            live: Vec::new(alloc),
            last: 0,
        }
    }

    /// Lets it go, with all its packets.
    pub fn let_go(self) {
        mem::drop(self);
    }

    /// The live packet with this number; `None` exactly where none has it.
    pub fn get(&self, number: u32) -> Option<&Live>
        ensures { option_map (λ l. l.now) result ≡ spec.live_as number self.now }
    {
        self.live.iter().find(|live| live.number == number)
    }

    // The packets of a task as texts see them, by their numbers in order.
    fn packets_of(&self, alloc: Global, of: &[u32]) -> Result<Shared<Env>, NoMemory>
        ensures packets { IfOk result (λ packets. packets ≡ spec.env_of self.now of.now) }
        ensures compiled { AreCompiled (spec.env_of self.now of.now) }
    {
        let mut last = None;
        for number in of {
            let found = self.get(*number);
            if found.is_some() {
                last = found;
            }
        }
        match last {
            None => Shared::new(alloc, no_packets(alloc)),
            Some(live) => live.after().share(),
        }
    }

    /// The unit of a text behind the packets with these numbers in order, read as a packet or as a program; a refusal in the order
    /// of its cases. A text has less than 2^32 bytes.
    pub fn compile(
        &self,
        alloc: Global,
        of: &[u32],
        text: &[u8],
        packet: bool,
    ) -> Result<Unit, CompileError>
        requires { length text.now < 2 ^ 32 }
        ensures compiled { AreCompiled (spec.env_of self.now of.now) }
        ensures unit { IfOk result (IsUnitOf (spec.env_of self.now of.now) packet text.now) }
        ensures refused { IfErr result (IsCause (spec.env_of self.now of.now) packet text.now) }
    {
        let packets = self.packets_of(alloc, of)?;
        compile_behind(alloc, packets, text, packet)
    }

    // The number of a PROC of a packet that stands among these, among all bodies of packets.
    fn start_number(&self, of: &[u32], packet: u32, number: usize) -> Option<usize>
        ensures { result ≡ spec.start_number self.now of.now packet number }
    {
        if !is_among(of, packet) {
            return None;
        }
        let compiled = self.get(packet)?.unit.compiled();
        let before = compiled.packets.get().bodies.len();
        let body = before.saturating_add(number);
        if body < compiled.core.bodies.len() {
            Some(body)
        } else {
            None
        }
    }

    /// The unit of a start procedure, for a task with the packets with these numbers in order: of the PROC with this number, from 0,
    /// among the PROCs, operators and refinements of a packet. `None` exactly where the packet does not stand among these, or this is no
    /// PROC of it without parameters that delivers nothing.
    pub fn starting(
        &self,
        alloc: Global,
        of: &[u32],
        packet: u32,
        number: usize,
    ) -> Result<Option<Unit>, NoMemory>
        ensures { IfOk result (λ unit. unit ≡ spec.started self.now of.now packet number) }
    {
        let packets = self.packets_of(alloc, of)?;
        match self.start_number(of, packet, number) {
            None => Ok(None),
            Some(body) => start_behind(alloc, packets, packet, number, body),
        }
    }

    /// The same, where the PROC is told by its number among the bodies of all these packets, as a program that begins a task has it. `None`
    /// exactly where this is no PROC of them without parameters that delivers nothing.
    pub fn starting_at(
        &self,
        alloc: Global,
        of: &[u32],
        body: usize,
    ) -> Result<Option<Unit>, NoMemory>
        ensures { IfOk result (λ unit. unit ≡ spec.started_at self.now of.now body) }
    {
        let packets = self.packets_of(alloc, of)?;
        let (packet, number) = Packet::of_body(packets.get().packets.as_slice(), body);
        start_behind(alloc, packets, packet, number, body)
    }

    /// Installs a packet under the next number, which it gives: no number is given twice. A refusal changes nothing; the packet is
    /// let go.
    pub fn install(&mut self, alloc: Global, unit: Loaded) -> Result<u32, InstallError>
        requires { is_some unit.shown ≡ true }
        ensures number { IfOk result (λ number. number ≡ self.old.last + 1) }
        ensures installed { OnOk result (spec.IsInstalled self.old unit self.new) }
        ensures full { (result ≡ Err install_errors.Full) ↔ spec.IsFull self.old }
        ensures refused { OnErr result (self.new ≡ self.old) }
    {
        if self.live.len() == PACKETS || self.last == LAST_NUMBER {
            unit.let_go();
            return Err(InstallError::Full);
        }
        let number = self.last + 1;
        let live = live_with(alloc, unit, number)?;
        add(&mut self.live, live)?;
        self.last = number;
        Ok(number)
    }

    /// Lets a live packet go. Its number is not given again.
    pub fn release(&mut self, number: u32)
        requires { spec.lives number self.old ≡ true }
        ensures { self.new ≡ spec.released number self.old }
    {
        self.live.retain(|live| live.number != number);
    }

    /// How many packets live.
    pub fn count(&self) -> u32
        ensures { result ≡ length self.now.live }
    {
        self.live.len() as u32
    }
}
