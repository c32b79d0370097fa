//! The live packets, which can be asked whether there is room for one more.
ghost use Rattle.std.specs.Prelude.{◌≡◌, ◌+◌, ◌<◌, ◌≤◌, ◌^◌, List, true, is_some, length, IfOk, IfErr, IfSome, IfNone, OnOk};
ghost use Rattle.std.specs.List.{list_any};
ghost use Rattle.live_packets.specs.Below.elan_check.specs.Packets.{AreCompiled};
ghost use Rattle.live_packets.specs.Below.units.specs.Library as libraries;
ghost use Rattle.live_packets.specs.Below.packet_store.specs.Meaning.{IsCause};
ghost use Rattle.live_packets.specs.Below.packet_store.specs.Units.{IsUnitOf};
ghost use Rattle.live_packets.specs.Below.system_meaning.specs.Tasks.{Own};
ghost use Rattle.live_packets.specs.Below.system_meaning.specs.Ends.{has_packet, released_unless, without_packets};
ghost use Rattle.live_packets.specs.Below.system_meaning.specs.Monitor.{is_full};
ghost use Rattle.live_packets.specs.Packets.{insertion_told};
ghost use Rattle.live_packets.specs.Packets.{kinds_in};
ghost use Rattle.live_tasks.specs.Tasks.{Stand};

use crate::below::of_packet_store::{CompileError, Library, Loaded, PACKETS, Unit};
use eu_base::{NoMemory, Stop};
use live_tasks::Tasks;
use std::alloc::Global;
use std::marker::Model;

/// The live packets, and the last number that was given.
#[derive(Drop)]
pub struct Packets {
    library: Library,
    last: u32,
}

impl Model for Packets {
    ghost use Rattle.std.specs.Coded.{codes};
    ghost use Rattle.live_packets.specs.Below.packet_store.specs.contracts.library.Library as a_library;
    ghost use Rattle.live_packets.specs.Below.units.specs.Library as libraries;
    ghost use Rattle.std.specs.Prelude.{◌≡◌};

    ghost Value = { libraries.Library };

    ghost coded = { Prim.hlevel (codes, a_library.the_row.coded) };

    ghost view = { λ packets. packets.library };

    ghost invariant = { λ packets. packets.last ≡ packets.library.last };
}

impl Packets {
    /// No packets.
    pub fn new(alloc: Global) -> Packets
        ensures { result ≡ libraries.none_live }
    {
        Packets {
            library: Library::new(alloc),
            last: 0,
        }
    }

    /// Lets all packets go.
    pub fn let_go(self) {
        let Packets { library, last: _ } = self;
        library.let_go();
    }

    /// How many live.
    pub fn count(&self) -> usize
        ensures { result ≡ length self.now.live }
    {
        self.library.count() as usize
    }

    /// Whether as many live as can, or the last number was given.
    pub fn is_full(&self) -> bool
        ensures { result ≡ is_full self.now }
    {
        self.count() >= PACKETS || self.last == u32::MAX
    }

    /// The number that comes next.
    pub fn next(&self) -> Option<u32>
        ensures some { IfSome result (λ number. number ≡ self.now.last + 1) }
        ensures none { IfNone result (2 ^ 32 ≤ self.now.last + 1) }
    {
        self.last.checked_add(1)
    }

    /// The unit of a text behind the packets with these numbers, or why it is none.
    pub fn compile(
        &self,
        alloc: Global,
        of: &[u32],
        text: &[u8],
        packet: bool,
    ) -> Result<Unit, CompileError>
        requires { length text.now < 2 ^ 32 }
        ensures compiled { AreCompiled (libraries.env_of self.now of.now) }
        ensures unit { IfOk result (IsUnitOf (libraries.env_of self.now of.now) packet text.now) }
        ensures refused { IfErr result (IsCause (libraries.env_of self.now of.now) packet text.now) }
    {
        self.library.compile(alloc, of, text, packet)
    }

    /// The unit of the start procedure with this number among the bodies of the packets with these numbers.
    pub fn starting_at(
        &self,
        alloc: Global,
        of: &[u32],
        body: usize,
    ) -> Result<Option<Unit>, NoMemory>
        ensures { IfOk result (λ unit. unit ≡ libraries.started_at self.now of.now body) }
    {
        self.library.starting_at(alloc, of, body)
    }

    /// A packet lives under the next number.
    pub fn install(&mut self, alloc: Global, unit: Loaded) -> Result<u32, NoMemory>
        requires { is_some unit.shown ≡ true }
        ensures number { IfOk result (λ number. number ≡ self.old.last + 1) }
        ensures installed { OnOk result (libraries.IsInstalled self.old unit self.new) }
    {
        match self.library.install(alloc, unit) {
            Ok(number) => {
                self.last = number;
                Ok(number)
            }
            Err(_) => Err(NoMemory),
        }
    }

    /// A packet goes, where it lives.
    pub fn release(&mut self, number: u32)
        ensures { self.new ≡ libraries.released number self.old }
    {
        if self.library.get(number).is_some() {
            self.library.release(number);
        }
    }
}

/// The stop that is told of an insertion.
pub fn told(packets: &Packets, stop: Option<Stop>) -> Option<Stop>
    ensures { result ≡ insertion_told stop (is_full packets.now) }
{
    if stop.is_some() {
        return stop;
    }
    if packets.is_full() {
        Some(Stop::ManyPackets)
    } else {
        None
    }
}

/// The packets with these numbers go that no task has.
pub fn release_unused(packets: &mut Packets, tasks: &Tasks, numbers: &[u32])
    ensures { (owns : List Own) → Stand (kinds_in packets.old) tasks.now owns
        → (packets.new ≡ without_packets numbers.now owns packets.old) × Stand (kinds_in packets.new) tasks.now owns }
{
    for number in numbers {
        release_if_unused(packets, tasks, *number);
    }
}

// A packet goes that no task has.
fn release_if_unused(packets: &mut Packets, tasks: &Tasks, number: u32)
    ensures { (owns : List Own) → Stand (kinds_in packets.old) tasks.now owns
        → (packets.new ≡ released_unless (list_any (has_packet number) owns) number packets.old) × Stand (kinds_in packets.new) tasks.now owns }
{
    if tasks.has_packet(number) {
        return;
    }
    packets.release(number);
}
