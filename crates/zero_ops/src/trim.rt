//! Blanks at both ends of a text.
ghost use Rattle.std.specs.Prelude.{◌≡◌, reverse};
ghost use Rattle.eu_base.specs.Texts.{is_blank, behind_blanks, trimmed};

/// A text without the blanks at its ends: the bytes 9, 10, 13 and 32.
pub fn trimmed(t: &[u8]) -> &[u8]
    ensures { result.now ≡ trimmed t.now }
{
    before_blanks(behind_blanks(t))
}

fn is_blank(byte: u8) -> bool
    ensures { result ≡ is_blank byte }
{
    matches!(byte, b'\t' | b'\n' | b'\r' | b' ')
}

fn behind_blanks(t: &[u8]) -> &[u8]
    ensures { result.now ≡ behind_blanks t.now }
{
    let mut start = 0;
    while start < t.len() && is_blank(t[start]) {
        start += 1;
    }
    &t[start..]
}

fn before_blanks(t: &[u8]) -> &[u8]
    ensures { result.now ≡ reverse (behind_blanks (reverse t.now)) }
{
    let mut end = t.len();
    while end > 0 && is_blank(t[end - 1]) {
        end -= 1;
    }
    &t[..end]
}
