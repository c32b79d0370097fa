//! What LET gives a name to.

use eu_base::Bytes;

/// A number, a truth value or a text, as a program writes it.
#[derive(Drop)]
pub enum Denoter {
    Number(i16),
    Truth(bool),
    Text(Bytes),
}
