//! One line from a source.
ghost use Rattle.std.specs.Prelude.{◌≡◌, ◌≤◌, IfOk, MatchOption};
ghost use Rattle.eu_base.specs.Faults.{Rose};
ghost use Rattle.line_command.specs.Streams.{HasNoLineEnd, EndsLineAt, IsLine, OnFault, whole_line};

use edge::Source;
use eu_base::{Bytes, NoMemory};
use std::alloc::Global;

/// The longest line.
const LONGEST: usize = 250;

/// What stands at the front of the input.
#[derive(Drop)]
pub(crate) enum Line {
    Text(Bytes),
    TooLong,
    Fault,
}

/// Takes one line, up to byte 10 or the end of input. More bytes may be taken than the line has.
pub(crate) fn read_line<S: Source>(alloc: Global, source: &mut S) -> Result<Line, NoMemory>
    ensures line { IfOk result (IsLine (S.left source.old) (S.left source.new)) }
    ensures later { S.faults source.old ≤ S.faults source.new }
    ensures fault { IfOk result (λ line. OnFault line (Rose (S.faults source.old) (S.faults source.new))) }
{
    let mut line = Bytes::new(alloc);
    'pieces: while line.as_slice().len() <= LONGEST {
        let mut piece = [0u8; 64];
        let Ok(count) = source.take(&mut piece) else {
            return Ok(Line::Fault);
        };
        if count == 0 {
            return Ok(Line::Text(line));
        }
        let (piece, _) = piece.split_at(count);
        match line_end(piece) {
            Some(end) => {
                line.append(piece.split_at(end).0)?;
                return Ok(whole(line));
            }
            None => line.append(piece)?,
        }
    }
    Ok(Line::TooLong)
}

fn whole(line: Bytes) -> Line
    ensures { result ≡ whole_line line }
{
    if line.as_slice().len() <= LONGEST {
        Line::Text(line)
    } else {
        Line::TooLong
    }
}

/// Where a line ends in this piece.
fn line_end(piece: &[u8]) -> Option<usize>
    ensures { MatchOption result (HasNoLineEnd piece.now) (EndsLineAt piece.now) }
{
    for (at, b) in piece.iter().enumerate() {
        if *b == b'\n' {
            return Some(at);
        }
    }
    None
}
