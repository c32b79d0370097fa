//! Texts by the order of their bytes.
ghost use Rattle.std.specs.Prelude.{◌≡◌};
ghost use Rattle.eu_base.specs.Texts.{is_less};

/// `s < t`, and so `t > s`; `t <= s` and `s >= t` where it is not so
pub fn is_less(s: &[u8], t: &[u8]) -> bool
    ensures { result ≡ is_less s.now t.now }
{
    s < t
}
