//! The head of a slot as bytes.
ghost use Rattle.std.specs.Prelude.{◌≡◌, ◌≤◌, ℕ, IfSome, IfNone};
ghost use Rattle.fixpoint.specs.Slots.{head_of, IsHead};

use edge::BLOCKS;

/// The sequence and the root that a head names.
#[derive(Drop)]
pub struct Head {
    /// From 1 to 3, and 1 follows 3.
    pub sequence: u8,
    /// The block of the root.
    pub root: u32,
    ghost in_range: { (1 ≤ sequence) × (sequence ≤ 3) },
}

pub(crate) fn spell(sequence: u8, root: u32) -> [u8; 512]
    ensures { result ≡ head_of sequence root }
{
    let [a, b, c, d] = root.to_le_bytes();
    let front = [
        b'E', b'U', b'M', b'E', b'L', b'S', b'Y', b'S', 1, sequence, a, b, c, d,
    ];
    let mut block = [0; 512];
    block[..14].copy_from_slice(&front);
    block
}

/// The head that a block spells; `None` exactly where it spells none.
pub(crate) fn parse(block: &[u8; 512]) -> Option<Head>
    ensures some { IfSome result (λ head. IsHead block.now head.sequence head.root) }
    ensures none { IfNone result ((sequence root : ℕ) → ¬ (IsHead block.now sequence root)) }
{
    let sequence = block[9];
    let root = u32::from_le_bytes([block[10], block[11], block[12], block[13]]);
    if sequence < 1 || sequence > 3 || root < 4 || root >= BLOCKS {
        return None;
    }
    let expected = spell(sequence, root);
    if block.as_slice() == expected.as_slice() {
        Some(Head { sequence, root })
    } else {
        None
    }
}
