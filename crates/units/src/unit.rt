//! What a text, or a start procedure, is compiled to.

use elan_names::interface::Interface;
use elan_scope::env::Env;
use elan_types::Core;
use eu_base::{Bytes, Shared};

/// What is compiled.
#[derive(Drop)]
pub enum Source {
    /// A text.
    Text(Bytes),
    /// A PROC of a packet, in which a task starts: the packet's number, and the number of the PROC among the packet's bodies, from 0.
    Start { packet: u32, number: usize },
}

/// A text or a start procedure, and what it means.
#[derive(Drop)]
pub struct Compiled {
    pub source: Source,
    /// The packets behind which it stands.
    pub packets: Shared<Env>,
    pub core: Core,
    /// What later texts see of it, where it is a packet.
    pub shown: Option<Shared<Interface>>,
}
