//! What a fixpoint keeps.
ghost use Rattle.std.specs.Prelude.{◌≡◌, ◌<◌, ℕ, List};

/// The pages of a fixpoint, each with the block where it is to stand, and the block of the root.
pub trait Image {
    /// The block of the root.
    ghost root_of: { Self → ℕ };

    /// How many pages are to be written.
    ghost count_of: { Self → ℕ };

    /// The block of each page, by its number from 0.
    ghost place_of: { Self → ℕ → ℕ };

    /// The 512 bytes of each page.
    ghost page_of: { Self → ℕ → List ℕ };

    /// The block of the root.
    fn root(&self) -> u32
        ensures { result ≡ root_of self.now };

    /// How many pages are to be written.
    fn count(&self) -> u32
        ensures { result ≡ count_of self.now };

    /// The block of page `k`.
    fn place(&self, k: u32) -> u32
        requires { k < count_of self.now }
        ensures { result ≡ place_of self.now k };

    /// Puts the bytes of page `k` into `into`.
    fn page(&self, k: u32, into: &mut [u8; 512])
        requires { k < count_of self.now }
        ensures { into.new ≡ page_of self.now k };
}
