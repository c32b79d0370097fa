//! Pieces of output as lines.
ghost use Rattle.std.specs.Prelude.{◌≡◌, ◌++◌, OnOk, OnErr};
ghost use Rattle.std.specs.Fmt.{decimal};
ghost use Rattle.session_text.specs.Pieces as spec;

use containers::{Bytes, NoMemory};
use itoa::Buffer;
use std::alloc::Global;

/// Adds the line that shows a piece of what was written to a channel: `ended` where a line end closes it. In the `plain` form
/// nothing stands before the pieces of channel 1. An open piece without a byte is not shown. A refusal changes nothing.
pub fn piece(
    alloc: Global,
    channel: u8,
    bytes: &[u8],
    ended: bool,
    plain: bool,
    out: &mut Bytes,
) -> Result<(), NoMemory>
    ensures ok { OnOk result (out.new ≡ out.old ++ spec.piece channel bytes.now ended plain) }
    ensures err { OnErr result (out.new ≡ out.old) }
{
    if !ended && bytes.is_empty() {
        return Ok(());
    }
    let mut line = Bytes::new(alloc);
    append_head(&mut line, channel, ended, plain)?;
    append_shown(&mut line, bytes)?;
    line.append(b"\n")?;
    out.append(line.as_slice())
}

/// The channel, and whether the piece is closed.
fn append_head(line: &mut Bytes, channel: u8, ended: bool, plain: bool) -> Result<(), NoMemory>
    ensures { OnOk result (line.new ≡ line.old ++ spec.head channel ended plain) }
{
    if plain && channel == 1 {
        return Ok(());
    }
    append_decimal(line, channel)?;
    line.append(if ended { b":" } else { b"," })
}

/// Bytes as they are shown.
fn append_shown(line: &mut Bytes, bytes: &[u8]) -> Result<(), NoMemory>
    ensures { OnOk result (line.new ≡ line.old ++ spec.shown bytes.now) }
{
    for byte in bytes {
        append_shown_byte(line, *byte)?;
    }
    Ok(())
}

fn append_shown_byte(line: &mut Bytes, byte: u8) -> Result<(), NoMemory>
    ensures { OnOk result (line.new ≡ line.old ++ spec.shown_byte byte) }
{
    if byte < 32 || byte == 127 {
        line.append(b"\"")?;
        append_decimal(line, byte)?;
        line.append(b"\"")
    } else {
        line.append(&[byte])
    }
}

fn append_decimal(line: &mut Bytes, number: u8) -> Result<(), NoMemory>
    ensures { OnOk result (line.new ≡ line.old ++ decimal number) }
{
    let mut buffer = Buffer::new();
    line.append(buffer.format(number).as_bytes())
}
