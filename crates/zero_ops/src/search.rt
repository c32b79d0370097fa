//! Places of texts in texts.
ghost use Rattle.std.specs.Prelude.{◌≡◌};
ghost use Rattle.eu_base.specs.Texts.{first_place};

/// `pos (t, u)`
pub fn first_place(t: &[u8], u: &[u8]) -> usize
    ensures { result ≡ first_place t.now u.now }
{
    if u.is_empty() {
        return 0;
    }
    for before in 0..t.len() {
        if t[before..].starts_with(u) {
            return before + 1;
        }
    }
    0
}
