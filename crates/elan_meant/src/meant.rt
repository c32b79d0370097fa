//! What is known of a phrase that has meaning.

use elan_types::{Action, Body, ElanType, PlacePhrase, ValuePhrase};
use eu_base::{Boxed, List};

/// What a phrase means.
#[derive(Drop)]
pub enum Meant {
    /// A part that is not written.
    Absent,
    /// A variable: its place in the text, its type, and where it is held.
    Variable {
        at: u32,
        of: ElanType,
        place: PlacePhrase,
    },
    /// A value: its place in the text, and its type.
    Value {
        at: u32,
        of: ElanType,
        value: Boxed<ValuePhrase>,
    },
    /// A phrase that delivers nothing.
    Done(List<Action>),
    /// A phrase that ends with a LEAVE: it delivers nothing, and agrees with every type.
    Left(List<Action>),
    Labels(List<i16>),
    /// The PROC, by its number among all bodies, in which a task can start.
    Start(usize),
    /// PROCs, OPs and refinements.
    Bodies(List<Body>),
    /// The units of a level, and its bodies.
    Level {
        units: List<Action>,
        bodies: List<Body>,
    },
}

impl Meant {
    /// Lets it go, here and not inline in a caller, whose proof would be long with it.
    pub fn let_go(self) {}

    /// Lets the parts of a phrase go.
    pub fn all_let_go(_parts: List<Meant>) {}

    /// Lets pairs of parts go.
    pub fn pairs_let_go(_pairs: List<(Meant, Meant)>) {}
}
