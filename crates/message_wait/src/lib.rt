//! The rendezvous of messages: who is ready to receive, and who waits to be received.
#![tactic(auto)]

mod waits;

pub use waits::{Caller, Offer, Receiver, Waits};
