//! The variables of packets.
ghost use Rattle.std.specs.Prelude.{◌≡◌, IfOk};
ghost use Rattle.cell_kinds.specs.Kinds as spec;

use crate::kinds::CellKinds;
use eu_base::{List, NoMemory};
use std::alloc::Global;

/// The variables of a packet, and how many bodies it has.
#[derive(Drop)]
pub struct Packet {
    /// The packet's number, from 1.
    pub number: u32,
    /// The kinds of the cells of its variables and constants, in the order of their declarations.
    pub variables: CellKinds,
    /// How many PROCs, operators and refinements it has.
    pub bodies: usize,
}

impl Packet {
    /// The same in memory of its own.
    pub fn try_clone(&self, alloc: Global) -> Result<Packet, NoMemory>
        ensures { IfOk result (λ copy. copy ≡ self.now) }
    {
        Ok(Packet {
            number: self.number,
            variables: self.variables.try_clone(alloc)?,
            bodies: self.bodies,
        })
    }

    /// The same packets in memory of their own.
    pub fn clone_all(packets: &[Packet], alloc: Global) -> Result<List<Packet>, NoMemory>
        ensures { IfOk result (λ copy. copy ≡ packets.now) }
    {
        let mut copy = List::new(alloc);
        for packet in packets {
            copy.push(packet.try_clone(alloc)?)?;
        }
        Ok(copy)
    }

    /// The number of the packet that has a body, and the body's number there, from that among the bodies of all packets. The packet that is
    /// inserted stands behind the others, by 0.
    pub fn of_body(packets: &[Packet], body: usize) -> (u32, usize)
        ensures { result ≡ spec.body_in_packet packets.now body }
    {
        let mut rest = body;
        for packet in packets {
            if rest < packet.bodies {
                return (packet.number, rest);
            }
            rest -= packet.bodies;
        }
        (0, rest)
    }
}
